// The walk over the records of the current half.
ghost use Rattle.std.specs.Prelude.{◌≡◌, ℕ, ◌+◌, ◌≤◌, List};
ghost use Rattle.rules.specs.Memory.{header, reference};
ghost use Rattle.rules.specs.Control.{Store, most_fields, most_length};
ghost use Rattle.rules.specs.Collector.{walked, below};
ghost use Rattle.store.specs.Work.{untouched};
ghost use Rattle.store.specs.Cursors.{having, at_walk};

use crate::Cursor;
use crate::work::{Next, Touch};

// The reference of word k of half h.
#[tactic(auto, unfolding(rules::specs::Memory::reference))]
pub(crate) fn reference(h: u32, k: usize) -> u32
    requires { (h ≤ 1) × (k ≤ most_length) }
    ensures { result ≡ reference h k }
{
    2 * (k as u32) + 2 + h
}

impl Cursor {
    // Whether the walk has not come to the frontier.
    #[tactic(auto, unfolding(rules::specs::Collector::below))]
    pub(crate) fn below(self) -> bool
        ensures { (s : Store) (h0 h1 l : List ℕ) → result ≡ below (having s self h0 h1 l) }
    {
        self.place < self.frontier(self.current)
    }

    // The record at the walk place.
    #[tactic(auto, unfolding(rules::specs::Collector::walked))]
    pub(crate) fn walked(self) -> u32
        requires { (self.current ≤ 1) × (self.place ≤ most_length) }
        ensures { (s : Store) (h0 h1 l : List ℕ) → result ≡ walked (having s self h0 h1 l) }
    {
        reference(self.current, self.place)
    }

    // Nothing beside the numbers is touched.
    pub(crate) fn alone(self) -> Next
        ensures { result ≡ untouched self }
    {
        Next {
            cursor: self,
            touch: Touch::Nothing,
        }
    }

    // The walk goes on past a record of n words.
    pub(crate) fn past_record(mut self, n: usize) -> Next
        requires { (self.place ≤ most_length) × (n ≤ header + most_fields) }
        ensures { result ≡ untouched (at_walk self (self.place + n) 0) }
    {
        self.place += n;
        self.field = 0;
        self.alone()
    }

    // The walk goes on to the next field of its record.
    pub(crate) fn past_field(mut self) -> Next
        requires { self.field ≤ most_fields }
        ensures { result ≡ untouched (at_walk self self.place (self.field + 1)) }
    {
        self.field += 1;
        self.alone()
    }
}
