// What stores and puts write, by the session's level: Table 1(a) at level 5, Table 1(b) at level 6; in both a global is "Non".
// And which replica a write goes to as well. What a store plans is said of the words as they will be with the pending ones written; a single
// store has none.
ghost use Rattle.std.specs.Prelude.{◌≡◌, ◌<◌, true, cond, eqb};
ghost use Rattle.rules.specs.Refusals.{passed, checked};
ghost use Rattle.rules.specs.Memory.{null, replica_at, refs, followable};
ghost use Rattle.rules.specs.Barriers.{shades_at, own_word, replica_word, store_writes, put_writes};
ghost use Rattle.heap.specs.View.{word_alone, written_replica, Has};
ghost use Rattle.heap.specs.Halves.{as_memory, as_heap};

use crate::forwarding::{in_half, other_half};
use crate::shades::shades_at;
use crate::{HEADER, Halves, Heap, REPLICA_AT};
use rules::{Damage, Writes};

impl Halves<'_> {
    // The replica that a write at level l to v, a record that was followed, goes to as well, or null where none is written. It needs no
    // test: the replica of a record that was followed can be followed and has the same fields.
    #[tactic(auto, unfolding(rules::specs::Memory::replica, rules::specs::Barriers::copies_at))]
    pub fn replica_for(&self, l: u32, v: u32) -> u32
        requires { Has (as_memory self.now) v replica_at }
        ensures { result ≡ written_replica (as_memory self.now) l v }
    {
        if 4 <= l { self.word(v, REPLICA_AT) } else { 0 }
    }
}

// What is written where that is one word: nothing is shaded, and no replica is written.
fn word_alone(own: u32) -> Writes
    ensures { result ≡ word_alone own }
{
    Writes {
        first: 0,
        second: 0,
        own,
        replica: 0,
        copy: 0,
    }
}

impl Heap<'_> {
    // The word that a store of q at level l writes to the record itself, v, or to a global, where v is null. Table 1(b), level 6:
    // q forwarded. Table 1(a), level 5: the other copy of q where v is in tospace and q in fromspace, else q. Below 5: q.
    #[tactic(auto, unfolding(rules::specs::Barriers::own_word))]
    pub(crate) fn own_word(&self, l: u32, v: u32, q: u32) -> Result<u32, Damage>
        ensures { checked result ≡ own_word (as_heap self.now) l v q }
    {
        if l == 6 {
            return self.forward(q);
        }
        let moved = in_half(other_half(self.from), v);
        let here = in_half(self.from, q);
        if (l == 5) & moved & here {
            return self.halves.other_copy(q);
        }
        Ok(q)
    }

    // The word that the same store writes to the replica of v. Table 1(a), level 5: the other copy of q where q is in the half of
    // v, else q. Table 1(b), level 6, and level 4 before it: q forwarded.
    #[tactic(auto, unfolding(rules::specs::Barriers::replica_word, rules::specs::Memory::half_of))]
    pub(crate) fn replica_word(&self, l: u32, v: u32, q: u32) -> Result<u32, Damage>
        ensures { checked result ≡ replica_word (as_heap self.now) l v q }
    {
        if l != 5 {
            return self.forward(q);
        }
        if in_half(v % 2, q) {
            return self.halves.other_copy(q);
        }
        Ok(q)
    }

    // The same where v has a replica t to write, else null. At level 6 it is the word `own` that the record itself gets.
    #[tactic(auto, using(crate::proofs::Levels::one_word))]
    fn copy_word(&self, l: u32, v: u32, t: u32, q: u32, own: u32) -> Result<u32, Damage>
        requires { passed own ≡ own_word (as_heap self.now) l v q }
        ensures { checked result ≡ cond (eqb t null) (passed null) (replica_word (as_heap self.now) l v q) }
    {
        if t == 0 {
            return Ok(0);
        }
        if l != 6 {
            return self.replica_word(l, v, q);
        }
        Ok(own)
    }

    // All that a store or a put of q over `old` writes at level l, one that shades: the records to shade, and q itself. No replica
    // is written at these levels, and no reference forwarded.
    #[tactic(auto, using(crate::proofs::Levels::own_itself, crate::proofs::Levels::shades_low), unfolding(rules::specs::Barriers::put_writes))]
    fn shading_writes(&self, l: u32, old: u32, q: u32) -> Result<Writes, Damage>
        requires { shades_at l ≡ true }
        ensures { checked result ≡ put_writes (as_heap self.now) l old q }
    {
        let (first, second) = self.barrier_shades(l, old, q)?;
        Ok(Writes {
            first,
            second,
            ..word_alone(q)
        })
    }

    // All that a store of q into reference field i of v, a record that was followed, writes: at levels 1 to 3 the records to shade and
    // q; at level 0 q; from level 4 on the record's own word and the replica's.
    #[tactic(auto, using(crate::proofs::Levels::as_put, crate::proofs::Levels::as_word, crate::proofs::Levels::shades_low, crate::proofs::Replicas::as_copied))]
    pub fn store_writes(&self, l: u32, v: u32, i: u32, q: u32) -> Result<Writes, Damage>
        requires { (followable (as_heap self.now).memory v ≡ true) × (i < refs (as_heap self.now).memory v) }
        ensures { checked result ≡ store_writes (as_heap self.now) l v i q }
    {
        if shades_at(l) {
            let old = self.halves.word(v, HEADER + (i as usize));
            return self.shading_writes(l, old, q);
        }
        if l < 4 {
            return Ok(word_alone(q));
        }
        let replica = self.halves.replica_for(l, v);
        let own = self.own_word(l, v, q)?;
        let copy = self.copy_word(l, v, replica, q, own)?;
        Ok(Writes {
            replica,
            copy,
            ..word_alone(own)
        })
    }

    // All that a put of q into a global that holds `old` writes: at levels 1 to 3 the records to shade and q, at the others the
    // global's word.
    #[tactic(auto, using(crate::proofs::Levels::unshaded), unfolding(rules::specs::Barriers::put_writes))]
    pub fn put_writes(&self, l: u32, old: u32, q: u32) -> Result<Writes, Damage>
        ensures { checked result ≡ put_writes (as_heap self.now) l old q }
    {
        if shades_at(l) {
            return self.shading_writes(l, old, q);
        }
        let own = self.own_word(l, 0, q)?;
        Ok(word_alone(own))
    }
}
