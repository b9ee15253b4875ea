// Making: the tests 1, 2 and 3 on the lent lengths, and the control record.
// No `?` in a call: refused or not, its reply hands the control record back.
ghost use Rattle.std.specs.Prelude.{◌≡◌, length};
ghost use Rattle.rules.specs.Refusals.{tested, tests_of};
ghost use Rattle.rules.specs.Control.{making, make, half_allowed};
ghost use Rattle.store.specs.View.{outcome, lengths};

use crate::{Control, Reply};
use heap::HEADER;
use rules::{Refusal, Value};

impl Control {
    // Whether a half of this length may be lent.
    #[tactic(auto, unfolding(rules::specs::Control::half_allowed))]
    pub(crate) fn half_allowed(length: usize) -> bool
        ensures { result ≡ half_allowed length }
    {
        (Control::LEAST_LENGTH <= length) & (length <= Control::MOST_LENGTH)
    }

    // The tests 1, 2 and 3.
    #[tactic(auto, unfolding(rules::specs::Control::making, rules::specs::Control::list_allowed))]
    pub(crate) fn making_tests(
        length0: usize,
        length1: usize,
        capacity: usize,
    ) -> Result<(), Refusal>
        ensures { tested result ≡ tests_of (making (lengths length0 length1 capacity)) }
    {
        let allowed = Control::half_allowed(length0) & Control::half_allowed(length1);
        if !allowed {
            return Err(Refusal::HalfLength);
        }
        if length0 != length1 {
            return Err(Refusal::UnequalHalves);
        }
        if capacity < length0 / HEADER {
            return Err(Refusal::ShortList);
        }
        Ok(())
    }

    // Make a store over lent words of any length; refused, its control record has every number 0.
    pub fn make(h0: &[u32], h1: &[u32], list: &[u32]) -> Reply
        ensures { outcome result h0.now h1.now list.now
            ≡ make h0.now h1.now list.now }
    {
        let length0 = h0.len();
        let length1 = h1.len();
        let capacity = list.len();
        match Control::making_tests(length0, length1, capacity) {
            Ok(()) => Reply {
                control: Control::fresh(length0, length1, capacity),
                answer: Ok(Value::Done),
            },
            Err(refusal) => Reply {
                control: Control::fresh(0, 0, 0),
                answer: Err(refusal),
            },
        }
    }
}
