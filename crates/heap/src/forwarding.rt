// The other copy of a record.
ghost use Rattle.std.specs.Prelude.{◌≡◌, ◌||◌, eqb};
ghost use Rattle.rules.specs.Refusals.{checked};
ghost use Rattle.rules.specs.Memory.{null, in_half, other_copy, forward};
ghost use Rattle.rules.specs.Phases.{other_half};
ghost use Rattle.rules.specs.Barriers.{to};
ghost use Rattle.heap.specs.Halves.{as_memory, as_heap};

use crate::{Halves, Heap, REPLICA_AT};
use rules::{Damage, Followed};

// Whether a reference is in half h.
#[tactic(auto, unfolding(rules::specs::Memory::in_half, rules::specs::Memory::half_of))]
pub(crate) fn in_half(h: u32, v: u32) -> bool
    ensures { result ≡ in_half h v }
{
    (2 <= v) & (v % 2 == h)
}

// Tospace where h is fromspace, and the other way round.
#[tactic(auto, unfolding(rules::specs::Phases::other_half))]
pub fn other_half(h: u32) -> u32
    ensures { result ≡ other_half h }
{
    if h == 0 { 1 } else { 0 }
}

// Whether a reference is forwarded to itself, where `from` is fromspace: null, and one into tospace.
fn stays(from: u32, v: u32) -> bool
    ensures { result ≡ (eqb v null || in_half (other_half from) v) }
{
    (v == 0) | in_half(other_half(from), v)
}

impl Halves<'_> {
    // The reference of the other copy of a record, or its own where it has no replica.
    #[tactic(auto, unfolding(rules::specs::Memory::follow, rules::specs::Memory::followed, rules::specs::Memory::other_copy, rules::specs::Memory::copy_of, rules::specs::Memory::replica))]
    pub(crate) fn other_copy(&self, v: u32) -> Result<u32, Damage>
        ensures { checked result ≡ other_copy (as_memory self.now) v }
    {
        let Followed::Sound(_, _, _) = self.follow(v) else {
            return Err(Damage);
        };
        let t = self.word(v, REPLICA_AT);
        if t == 0 { Ok(v) } else { Ok(t) }
    }
}

impl Heap<'_> {
    // A reference forwarded to tospace.
    #[tactic(auto, unfolding(rules::specs::Memory::forward))]
    pub fn forward(&self, v: u32) -> Result<u32, Damage>
        ensures { checked result ≡ forward (as_heap self.now).memory (to (as_heap self.now)) v }
    {
        if stays(self.from, v) {
            return Ok(v);
        }
        self.halves.other_copy(v)
    }
}
