// Same: whether two registers hold the same record.
ghost use Rattle.std.specs.Prelude.{◌≡◌, []};
ghost use Rattle.rules.specs.Answers.{answer_of};
ghost use Rattle.rules.specs.Runs.{apply, SameAs};
ghost use Rattle.store.specs.View.{view, viewed, outcome, answered};

use crate::lent::Lent;
use crate::{Control, Reply};
use rules::{Answer, Refusal, Value};

impl Control {
    // What same answers: the tests in order, then the comparison.
    #[tactic(auto, using(crate::proofs::tests::Results::session_tests, crate::proofs::tests::Opening::session_bounds), unfolding(rules::specs::Calls::same, rules::specs::Phases::register, rules::specs::Phases::session_at))]
    fn same_answer(&self, lent: Lent, s: u32, a: u32, b: u32) -> Answer
        ensures { answered self.now lent.entry result
            ≡ apply (viewed self.now lent.entry) (SameAs s a b) }
    {
        self.attached_tests(lent, s)?;
        let registers = (a <= Control::LAST_REGISTER) & (b <= Control::LAST_REGISTER);
        if !registers {
            return Err(Refusal::NoRegister);
        }
        let session = &self.sessions[s as usize];
        let first = session.registers[a as usize];
        let second = session.registers[b as usize];
        let yes = self.heap(&[], lent).same_at(session.level, first, second)?;
        Ok(Value::Same(yes))
    }

    // Same: by the session's level, as words or by Algorithm 9(a).
    pub fn same(self, h0: &[u32], h1: &[u32], list: &[u32], s: u32, a: u32, b: u32) -> Reply
        ensures { outcome result h0.now h1.now list.now
            ≡ apply (view self h0.now h1.now list.now) (SameAs s a b) }
    {
        let lent = Lent {
            half0: h0,
            half1: h1,
            list,
        };
        let answer = self.same_answer(lent, s, a, b);
        Reply {
            control: self,
            answer,
        }
    }
}
