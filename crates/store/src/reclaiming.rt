// Phase 12, Reclaim: no replica words are left, the other half becomes empty, and nothing is charged any more.
ghost use Rattle.std.specs.Prelude.{◌≡◌, ℕ, List};
ghost use Rattle.rules.specs.Control.{Store};
ghost use Rattle.rules.specs.Collector.{have_level, reclaim};
ghost use Rattle.store.specs.Steps.{stepped};
ghost use Rattle.store.specs.Cursors.{having, Ready};
ghost use Rattle.store.specs.Work.{worked};

use crate::Cursor;
use crate::work::Work;
use heap::forwarding::other_half;
use heap::words::put_word;
use heap::{HEADER, REPLICA_AT};
use rules::{Damage, Followed};

impl Cursor {
    // Phase 12: once every attached session is at level 0 (`ready`), the next record's replica word becomes 0; at the frontier
    // the other half becomes empty, all charges 0, and the step moves on.
    #[tactic(auto, unfolding(rules::specs::Collector::reclaim, rules::specs::Collector::past_record, rules::specs::Phases::move_on, rules::specs::Phases::without_charges, rules::specs::Memory::follow, rules::specs::Memory::followed))]
    pub(crate) fn reclaim(self, ready: bool, h0: &mut [u32], h1: &mut [u32]) -> Work
        requires { Ready self h0.old h1.old }
        ensures { (s : Store) (l : List ℕ) → ready ≡ have_level (having s self h0.old h1.old l)
            → worked (having s self h0.new h1.new l) result
            ≡ stepped (having s self h0.old h1.old l)
            (reclaim (having s self h0.old h1.old l)) }
    {
        if !ready {
            return Ok(self.alone());
        }
        if !self.below() {
            let emptied = self.with_frontier(other_half(self.current), 0);
            return Ok(emptied.end());
        }
        let v = self.walked();
        let Followed::Sound(_, r, p) = self.halves(h0, h1).follow(v) else {
            return Err(Damage);
        };
        put_word(h0, h1, v, REPLICA_AT, 0);
        Ok(self.past_record((r as usize) + (p as usize) + HEADER))
    }
}
