// Phase 7, Copy: field after field of each record with a replica, references forwarded.
ghost use Rattle.std.specs.Prelude.{◌≡◌, ℕ, List};
ghost use Rattle.rules.specs.Refusals.{checked};
ghost use Rattle.rules.specs.Control.{Store};
ghost use Rattle.rules.specs.Collector.{copy_field, copy};
ghost use Rattle.store.specs.Steps.{stepped};
ghost use Rattle.store.specs.Cursors.{having, Ready};
ghost use Rattle.store.specs.Work.{worked};
ghost use Rattle.store.specs.Copies.{copied_word, Copying};

use crate::Cursor;
use crate::work::Work;
use heap::words::put_word;
use heap::{HEADER, REPLICA_AT};
use rules::{Damage, Followed};

impl Cursor {
    // The word that a replica gets for x, the next field of a record of r reference fields: x forwarded, or x itself where it is plain.
    #[tactic(auto, unfolding(rules::specs::Phases::tospace))]
    fn copied_word(self, h0: &[u32], h1: &[u32], r: u32, x: u32) -> Result<u32, Damage>
        requires { Ready self h0.now h1.now }
        ensures { (s : Store) (l : List ℕ) → checked result
            ≡ copied_word (having s self h0.now h1.now l) r x }
    {
        if (r as usize) <= self.field {
            return Ok(x);
        }
        // nothing is listed here, so any list will do
        self.heap(h0, h1, self.tail).forward(x)
    }

    // The next field of v, a record of r reference fields that was followed, copied to its replica t. The two have the same shape, so it
    // is the same word of both.
    fn copy_field(self, h0: &mut [u32], h1: &mut [u32], v: u32, t: u32, r: u32) -> Work
        requires { Copying self h0.old h1.old v t r }
        ensures { (s : Store) (l : List ℕ) → worked (having s self h0.new h1.new l) result
            ≡ stepped (having s self h0.old h1.old l)
            (copy_field (having s self h0.old h1.old l) v self.field) }
    {
        let j = HEADER + self.field;
        let x = self.halves(h0, h1).word(v, j);
        let w = self.copied_word(h0, h1, r, x)?;
        put_word(h0, h1, t, j, w);
        Ok(self.past_field())
    }

    // Phase 7: the next field of a record with a replica is copied; past the last one, or without a replica, the walk
    // goes on to the next record. At the frontier the step moves on.
    #[tactic(auto, unfolding(rules::specs::Collector::copy, rules::specs::Phases::move_on, rules::specs::Memory::follow, rules::specs::Memory::followed, rules::specs::Memory::replica))]
    pub(crate) fn copy(self, h0: &mut [u32], h1: &mut [u32]) -> Work
        requires { Ready self h0.old h1.old }
        ensures { (s : Store) (l : List ℕ) → worked (having s self h0.new h1.new l) result
            ≡ stepped (having s self h0.old h1.old l)
            (copy (having s self h0.old h1.old l)) }
    {
        if !self.below() {
            return Ok(self.move_on());
        }
        let v = self.walked();
        let halves = self.halves(h0, h1);
        let Followed::Sound(_, r, p) = halves.follow(v) else {
            return Err(Damage);
        };
        let t = halves.word(v, REPLICA_AT);
        let n = (r as usize) + (p as usize);
        if (t == 0) | (n <= self.field) {
            return Ok(self.past_record(n + HEADER));
        }
        self.copy_field(h0, h1, v, t, r)
    }
}
