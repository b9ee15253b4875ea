// What a call on the record in a register needs of its session, for load, store, read, write, the birth number and the stretch.
ghost use Rattle.std.specs.Prelude.{◌≡◌};
ghost use Rattle.rules.specs.Refusals.{tested};
ghost use Rattle.rules.specs.Calls.{operands_of, record_of};
ghost use Rattle.store.specs.View.{viewed};

use crate::Control;
use crate::lent::Lent;
use rules::{Followed, Operands, Refusal};

impl Control {
    // What the call needs of its session, after the tests 4, 5, 6, 8 (of both registers) and 11. A call with one
    // register argument gives it twice.
    #[tactic(auto, using(crate::proofs::tests::Results::session_tests), unfolding(rules::specs::Calls::operands_of, rules::specs::Phases::session_at, rules::specs::Phases::register))]
    pub(crate) fn held(
        &self,
        lent: Lent,
        s: u32,
        register: u32,
        other: u32,
    ) -> Result<Operands, Refusal>
        ensures { tested result ≡ operands_of (viewed self.now lent.entry) s register other }
    {
        self.attached_tests(lent, s)?;
        let registers = (register <= Control::LAST_REGISTER) & (other <= Control::LAST_REGISTER);
        if !registers {
            return Err(Refusal::NoRegister);
        }
        let session = &self.sessions[s as usize];
        let own = session.registers[register as usize];
        if own == 0 {
            return Err(Refusal::NullRegister);
        }
        Ok(Operands {
            level: session.level,
            own,
            other: session.registers[other as usize],
        })
    }

    // The same after test 12, of a call that needs no more of its record than that it can be followed.
    #[tactic(auto, using(crate::proofs::tests::Opening::held_bounds), unfolding(rules::specs::Calls::record_of, rules::specs::Memory::follow, rules::specs::Memory::followed))]
    pub(crate) fn held_record(&self, lent: Lent, s: u32, register: u32) -> Result<Operands, Refusal>
        ensures { tested result ≡ record_of (viewed self.now lent.entry) s register register }
    {
        let operands = self.held(lent, s, register, register)?;
        let halves = self.cursor.halves(lent.half0, lent.half1);
        let Followed::Sound(_, _, _) = halves.follow(operands.own) else {
            return Err(Refusal::Damaged);
        };
        Ok(operands)
    }
}
