// Comparing references, by the session's level.
ghost use Rattle.std.specs.Prelude.{◌≡◌};
ghost use Rattle.rules.specs.Refusals.{checked};
ghost use Rattle.rules.specs.Barriers.{pointer_eq, same_at};
ghost use Rattle.heap.specs.View.{replica_is};
ghost use Rattle.heap.specs.Halves.{as_memory, as_heap};

use crate::forwarding::in_half;
use crate::{Halves, Heap, REPLICA_AT};
use rules::{Damage, Followed};

impl Halves<'_> {
    // Whether q is the replica of p.
    #[tactic(auto, unfolding(rules::specs::Memory::follow, rules::specs::Memory::followed, rules::specs::Memory::replica, crate::specs::View::replica_is))]
    fn replica_is(&self, p: u32, q: u32) -> Result<bool, Damage>
        ensures { checked result ≡ replica_is (as_memory self.now) p q }
    {
        let Followed::Sound(_, _, _) = self.follow(p) else {
            return Err(Damage);
        };
        Ok(self.word(p, REPLICA_AT) == q)
    }
}

impl Heap<'_> {
    // Algorithm 9(a).
    #[tactic(auto, unfolding(rules::specs::Barriers::pointer_eq, crate::specs::View::replica_is))]
    pub(crate) fn pointer_eq(&self, p: u32, q: u32) -> Result<bool, Damage>
        ensures { checked result ≡ pointer_eq (as_heap self.now) p q }
    {
        if p == q {
            return Ok(true);
        }
        if in_half(self.from, p) {
            return self.halves.replica_is(p, q);
        }
        if in_half(self.from, q) {
            return self.halves.replica_is(q, p);
        }
        Ok(false)
    }

    // Whether two references are the same to a session at level l.
    #[tactic(auto, unfolding(rules::specs::Barriers::same_at))]
    pub fn same_at(&self, l: u32, p: u32, q: u32) -> Result<bool, Damage>
        ensures { checked result ≡ same_at (as_heap self.now) l p q }
    {
        if l <= 4 {
            return Ok(p == q);
        }
        self.pointer_eq(p, q)
    }
}
