// The calls on registers that touch no record. Each makes all its tests first and sets its register in place: a function
// that took the control record for it would have it copied.
// No `?` in a call: refused or not, its reply hands the control record back.
ghost use Rattle.std.specs.Prelude.{◌≡◌};
ghost use Rattle.rules.specs.Refusals.{tested, tests_of};
ghost use Rattle.rules.specs.Calls.{move, get};
ghost use Rattle.rules.specs.Runs.{apply, Move, Clear, Get};
ghost use Rattle.store.specs.View.{view, viewed, outcome};

use crate::lent::Lent;
use crate::{Control, Reply};
use rules::{Refusal, Value};

impl Control {
    // The tests 4, 5, 6 and 8 (of both registers). A call with one register argument gives it twice.
    #[tactic(auto, using(crate::proofs::tests::Results::move_tests))]
    fn move_tests(&self, lent: Lent, s: u32, to: u32, from: u32) -> Result<(), Refusal>
        ensures { tested result ≡ tests_of (move (viewed self.now lent.entry) s to from) }
    {
        self.attached_tests(lent, s)?;
        let registers = (to <= Control::LAST_REGISTER) & (from <= Control::LAST_REGISTER);
        if registers {
            Ok(())
        } else {
            Err(Refusal::NoRegister)
        }
    }

    // Move: register `to` gets what register `from` holds.
    #[tactic(auto, using(crate::proofs::tests::Results::moving), unfolding(rules::specs::Calls::with_register, rules::specs::Phases::with_session, rules::specs::Phases::session_at, rules::specs::Phases::register))]
    pub fn move_register(
        mut self,
        h0: &[u32],
        h1: &[u32],
        list: &[u32],
        s: u32,
        to: u32,
        from: u32,
    ) -> Reply
        ensures { outcome result h0.now h1.now list.now
            ≡ apply (view self h0.now h1.now list.now) (Move s to from) }
    {
        let lent = Lent {
            half0: h0,
            half1: h1,
            list,
        };
        let answer = match self.move_tests(lent, s, to, from) {
            Ok(()) => {
                let session = &mut self.sessions[s as usize];
                session.registers[to as usize] = session.registers[from as usize];
                Ok(Value::Done)
            }
            Err(refusal) => Err(refusal),
        };
        Reply {
            control: self,
            answer,
        }
    }

    // Clear: the register becomes null.
    #[tactic(auto, using(crate::proofs::tests::Results::moving), unfolding(rules::specs::Calls::with_register, rules::specs::Phases::with_session, rules::specs::Phases::session_at))]
    pub fn clear(mut self, h0: &[u32], h1: &[u32], list: &[u32], s: u32, register: u32) -> Reply
        ensures { outcome result h0.now h1.now list.now
            ≡ apply (view self h0.now h1.now list.now) (Clear s register) }
    {
        let lent = Lent {
            half0: h0,
            half1: h1,
            list,
        };
        let answer = match self.move_tests(lent, s, register, register) {
            Ok(()) => {
                let session = &mut self.sessions[s as usize];
                session.registers[register as usize] = 0;
                Ok(Value::Done)
            }
            Err(refusal) => Err(refusal),
        };
        Reply {
            control: self,
            answer,
        }
    }

    // The tests 4, 5, 6, 8 and 9.
    #[tactic(auto, using(crate::proofs::tests::Results::session_tests), unfolding(rules::specs::Calls::get))]
    fn get_tests(&self, lent: Lent, s: u32, to: u32, global: u32) -> Result<(), Refusal>
        ensures { tested result ≡ tests_of (get (viewed self.now lent.entry) s to global) }
    {
        self.attached_tests(lent, s)?;
        if Control::LAST_REGISTER < to {
            return Err(Refusal::NoRegister);
        }
        if global <= Control::LAST_GLOBAL {
            Ok(())
        } else {
            Err(Refusal::NoGlobal)
        }
    }

    // Get: register `to` gets what the global holds.
    #[tactic(auto, using(crate::proofs::tests::Results::getting), unfolding(rules::specs::Calls::with_register, rules::specs::Phases::with_session, rules::specs::Phases::session_at))]
    pub fn get(
        mut self,
        h0: &[u32],
        h1: &[u32],
        list: &[u32],
        s: u32,
        to: u32,
        global: u32,
    ) -> Reply
        ensures { outcome result h0.now h1.now list.now
            ≡ apply (view self h0.now h1.now list.now) (Get s to global) }
    {
        let lent = Lent {
            half0: h0,
            half1: h1,
            list,
        };
        let answer = match self.get_tests(lent, s, to, global) {
            Ok(()) => {
                let word = self.globals[global as usize];
                let session = &mut self.sessions[s as usize];
                session.registers[to as usize] = word;
                Ok(Value::Done)
            }
            Err(refusal) => Err(refusal),
        };
        Reply {
            control: self,
            answer,
        }
    }
}
