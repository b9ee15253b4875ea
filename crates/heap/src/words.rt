// The words of a record that a reference names.
// The halves that are written are lent one by one, as the calls of the store are lent them.
ghost use Rattle.std.specs.Prelude.{◌≡◌, ℕ, ◌≤◌, ◌<◌, length, get_or};
ghost use Rattle.rules.specs.Memory.{half, half_of, word_of, frontier, word, put};
ghost use Rattle.rules.specs.Barriers.{put_both};
ghost use Rattle.heap.specs.View.{memory, Inside, Has};
ghost use Rattle.heap.specs.Pending.{memory_with};
ghost use Rattle.heap.specs.Halves.{as_written, as_memory};

use crate::pending::seen_word;
use crate::{Halves, Pending};

// The word of its half that a reference names.
#[tactic(auto, unfolding(rules::specs::Memory::word_of))]
pub(crate) fn word_of(v: u32) -> usize
    requires { 2 ≤ v }
    ensures { result ≡ word_of v }
{
    ((v - 2) / 2) as usize
}

// The half that a reference is in.
#[tactic(auto, unfolding(rules::specs::Memory::half, rules::specs::Memory::half_of))]
pub fn half_of<'a>(h0: &'a [u32], h1: &'a [u32], v: u32) -> &'a [u32]
    ensures { (f0 f1 : ℕ) → result.now ≡ half (memory h0.now h1.now f0 f1) (half_of v) }
{
    if v % 2 == 0 { h0 } else { h1 }
}

impl<'a> Halves<'a> {
    // The lent halves, where the records of each end, and the words that are going to be written.
    pub fn new(
        half0: &'a [u32],
        half1: &'a [u32],
        frontier0: usize,
        frontier1: usize,
        pending: &'a [Pending],
    ) -> Self
        requires { (frontier0 ≤ length half0.now) × (frontier1 ≤ length half1.now) }
        ensures memory { as_memory result ≡ memory_with pending.now half0.now half1.now frontier0 frontier1 }
        ensures written { as_written result ≡ memory half0.now half1.now frontier0 frontier1 }
    {
        Halves {
            half0,
            half1,
            frontier0,
            frontier1,
            pending,
        }
    }

    // The half that a reference is in, as it is now.
    pub fn half_of(&self, v: u32) -> &'a [u32]
        ensures { result.now ≡ half (as_written self.now) (half_of v) }
    {
        half_of(self.half0, self.half1, v)
    }

    // The frontier of the half that a reference is in.
    #[tactic(auto, unfolding(rules::specs::Memory::half, rules::specs::Memory::frontier, rules::specs::Memory::half_of))]
    pub(crate) fn frontier_of(&self, v: u32) -> usize
        ensures known { result ≡ frontier (as_memory self.now) (half_of v) }
        ensures within { result ≤ length (half (as_written self.now) (half_of v)) }
    {
        if v % 2 == 0 {
            self.frontier0
        } else {
            self.frontier1
        }
    }

    // Word `at` of the half that v is in. Whether any word is pending is asked first: so the compiler leaves the rest out wherever
    // none is.
    #[tactic(auto, using(crate::proofs::Laid::half_seen), unfolding(rules::specs::Memory::half_of))]
    pub(crate) fn word_at(&self, v: u32, at: usize) -> u32
        requires { at < length (half (as_written self.now) (half_of v)) }
        ensures { result ≡ get_or (half (as_memory self.now) (half_of v)) at 0 }
    {
        let half = self.half_of(v);
        let word = half[at];
        if self.pending.is_empty() {
            return word;
        }
        seen_word(self.pending, v % 2, at, word)
    }

    // Word j of the record that v names.
    #[tactic(auto, using(crate::proofs::Lent::laid_long, crate::proofs::Lent::half_short), unfolding(rules::specs::Memory::word))]
    pub fn word(&self, v: u32, j: usize) -> u32
        requires { Has (as_memory self.now) v j }
        ensures { result ≡ word (as_memory self.now) v j }
    {
        self.word_at(v, word_of(v) + j)
    }
}

// Sets word j of the record that v names.
#[tactic(auto, unfolding(rules::specs::Memory::half, rules::specs::Memory::half_of, rules::specs::Memory::put, rules::specs::Memory::with_half))]
pub fn put_word(h0: &mut [u32], h1: &mut [u32], v: u32, j: usize, x: u32)
    requires { Inside h0.old h1.old v j }
    ensures { (f0 f1 : ℕ) → memory h0.new h1.new f0 f1
        ≡ put (memory h0.old h1.old f0 f1) v j x }
{
    let at = word_of(v);
    // an arm for each half: the prover has no rule for a borrow of one of two by a test
    if v % 2 == 0 {
        h0[at + j] = x;
    } else {
        h1[at + j] = x;
    }
}

// Sets word j of the record that v names, then word k of its replica t, where there is one.
#[tactic(auto, unfolding(rules::specs::Memory::half, rules::specs::Barriers::put_both))]
pub fn put_both(h0: &mut [u32], h1: &mut [u32], v: u32, j: usize, x: u32, t: u32, k: usize, y: u32)
    requires { Inside h0.old h1.old v j × ((t ≡ 0 → ⊥) → Inside h0.old h1.old t k) }
    ensures { (f0 f1 : ℕ) → memory h0.new h1.new f0 f1
        ≡ put_both (memory h0.old h1.old f0 f1) v j x t k y }
{
    put_word(h0, h1, v, j, x);
    if t != 0 {
        put_word(h0, h1, t, k, y);
    }
}
