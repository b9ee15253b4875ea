// The birth number of the record in a register.
ghost use Rattle.std.specs.Prelude.{◌≡◌};
ghost use Rattle.rules.specs.Runs.{apply, Birth};
ghost use Rattle.store.specs.View.{view, viewed, outcome, answered};

use crate::lent::Lent;
use crate::{Control, Reply};
use heap::BIRTH_AT;
use rules::{Answer, Value};

impl Control {
    // What birth answers: the tests of a read up to 12, then the number that the record was given when it was allocated.
    #[tactic(auto, using(crate::proofs::tests::Opening::recorded_bounds), unfolding(rules::specs::Calls::birth, rules::specs::Memory::birth_number))]
    fn birth_answer(&self, lent: Lent, s: u32, register: u32) -> Answer
        ensures { answered self.now lent.entry result
            ≡ apply (viewed self.now lent.entry) (Birth s register) }
    {
        let operands = self.held_record(lent, s, register)?;
        let halves = self.cursor.halves(lent.half0, lent.half1);
        Ok(Value::Word(halves.word(operands.own, BIRTH_AT)))
    }

    // Birth: the number that the record in a register was given when it was allocated.
    pub fn birth(self, h0: &[u32], h1: &[u32], list: &[u32], s: u32, register: u32) -> Reply
        ensures { outcome result h0.now h1.now list.now
            ≡ apply (view self h0.now h1.now list.now) (Birth s register) }
    {
        let lent = Lent {
            half0: h0,
            half1: h1,
            list,
        };
        let answer = self.birth_answer(lent, s, register);
        Reply {
            control: self,
            answer,
        }
    }
}
