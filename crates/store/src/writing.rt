// Write: where a write of a plain field goes, then the words written.
ghost use Rattle.std.specs.Prelude.{◌≡◌};
ghost use Rattle.rules.specs.Refusals.{tested};
ghost use Rattle.rules.specs.Calls.{write_plan};
ghost use Rattle.rules.specs.Runs.{apply, Write};
ghost use Rattle.store.specs.View.{view, viewed, outcome};

use crate::lent::Lent;
use crate::{Control, Reply};
use heap::HEADER;
use heap::words::put_both;
use rules::{Followed, Refusal, Value, WritePlan};

impl Control {
    // Where a write of a plain field goes, after all its tests.
    #[tactic(auto, using(crate::proofs::tests::Opening::held_bounds, crate::proofs::calls::Write::replica_passes), unfolding(rules::specs::Calls::write_plan, rules::specs::Calls::record_of, rules::specs::Memory::follow, rules::specs::Memory::followed))]
    pub(crate) fn write_plan(
        &self,
        lent: Lent,
        s: u32,
        register: u32,
        field: u32,
    ) -> Result<WritePlan, Refusal>
        ensures { tested result ≡ write_plan (viewed self.now lent.entry) s register field }
    {
        let operands = self.held(lent, s, register, register)?;
        let own = operands.own;
        let halves = self.cursor.halves(lent.half0, lent.half1);
        let Followed::Sound(_, refs, p) = halves.follow(own) else {
            return Err(Refusal::Damaged);
        };
        if p <= field {
            return Err(Refusal::NoField);
        }
        let replica = halves.replica_for(operands.level, own);
        Ok(WritePlan { own, refs, replica })
    }

    // Write: a plain field set, at levels 4 to 6 in both copies.
    #[tactic(auto, using(crate::proofs::calls::Write::same_word), unfolding(rules::specs::Calls::write, rules::specs::Calls::write_commit))]
    pub fn write(
        self,
        h0: &mut [u32],
        h1: &mut [u32],
        list: &[u32],
        s: u32,
        register: u32,
        field: u32,
        value: u32,
    ) -> Reply
        ensures { outcome result h0.new h1.new list.now
            ≡ apply (view self h0.old h1.old list.now) (Write s register field value) }
    {
        let lent = Lent {
            half0: h0,
            half1: h1,
            list,
        };
        // no `?`: refused or not, the reply hands the control record back
        let answer = match self.write_plan(lent, s, register, field) {
            Ok(plan) => {
                // the replica has the same shape, so the field is the same word of both
                let j = HEADER + (plan.refs as usize) + (field as usize);
                put_both(h0, h1, plan.own, j, value, plan.replica, j, value);
                Ok(Value::Done)
            }
            Err(refusal) => Err(refusal),
        };
        Reply {
            control: self,
            answer,
        }
    }
}
