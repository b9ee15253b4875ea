// The calls that write a reference: store, to a field of a record, and put, to a global. Each makes all its tests in a
// plan that only reads, and then writes what the plan says.
ghost use Rattle.std.specs.Prelude.{◌≡◌};
ghost use Rattle.rules.specs.Refusals.{tested};
ghost use Rattle.rules.specs.Calls.{store_plan, put_plan};
ghost use Rattle.rules.specs.Runs.{apply, StoreRef, Put};
ghost use Rattle.store.specs.View.{view, viewed, viewed_with, outcome};

use crate::lent::Lent;
use crate::shade::shade_both;
use crate::{Control, Reply};
use heap::words::put_both;
use heap::{HEADER, Pending};
use rules::{Followed, Refusal, StorePlan, Value, Writes};

impl Control {
    // The tests of a store, and what it writes, with the pending words written before. It is the plan of a single store, where none is pending,
    // and of each of several links.
    #[tactic(auto, using(crate::proofs::tests::Opening::held_bounds, crate::proofs::calls::Pending::operands_laid), unfolding(rules::specs::Calls::store_plan, rules::specs::Calls::record_of, rules::specs::Memory::follow, rules::specs::Memory::followed))]
    pub(crate) fn store_plan(
        &self,
        pending: &[Pending],
        lent: Lent,
        s: u32,
        register: u32,
        field: u32,
        from: u32,
    ) -> Result<StorePlan, Refusal>
        ensures { tested result ≡ store_plan (viewed_with self.now pending.now lent.entry) s register field from }
    {
        let operands = self.held(lent, s, register, from)?;
        let into = operands.own;
        let heap = self.heap(pending, lent);
        let halves = &heap.halves;
        let Followed::Sound(_, r, _) = halves.follow(into) else {
            return Err(Refusal::Damaged);
        };
        if r <= field {
            return Err(Refusal::NoField);
        }
        let writes = heap.store_writes(operands.level, into, field, operands.other)?;
        Ok(StorePlan { into, writes })
    }

    // Store: a reference field of the record in a register gets what register `from` holds.
    #[tactic(auto, unfolding(rules::specs::Calls::store))]
    pub fn store(
        mut self,
        h0: &mut [u32],
        h1: &mut [u32],
        list: &mut [u32],
        s: u32,
        register: u32,
        field: u32,
        from: u32,
    ) -> Reply
        ensures { outcome result h0.new h1.new list.new
            ≡ apply (view self h0.old h1.old list.old) (StoreRef s register field from) }
    {
        let lent = Lent {
            half0: h0,
            half1: h1,
            list,
        };
        // no `?`: refused or not, the reply hands the control record back
        let answer = match self.store_plan(&[], lent, s, register, field, from) {
            Ok(plan) => {
                let w = plan.writes;
                let j = HEADER + (field as usize);
                self.cursor.tail = shade_both(h0, h1, list, self.cursor.tail, w.first, w.second);
                put_both(h0, h1, plan.into, j, w.own, w.replica, j, w.copy);
                Ok(Value::Done)
            }
            Err(refusal) => Err(refusal),
        };
        Reply {
            control: self,
            answer,
        }
    }

    // The tests of a put, and what it writes.
    #[tactic(auto, using(crate::proofs::tests::Results::session_tests, crate::proofs::tests::Opening::session_bounds), unfolding(rules::specs::Calls::put_plan, rules::specs::Phases::register, rules::specs::Phases::session_at))]
    fn put_plan(&self, lent: Lent, s: u32, global: u32, from: u32) -> Result<Writes, Refusal>
        ensures { tested result ≡ put_plan (viewed self.now lent.entry) s global from }
    {
        self.attached_tests(lent, s)?;
        if Control::LAST_REGISTER < from {
            return Err(Refusal::NoRegister);
        }
        if Control::LAST_GLOBAL < global {
            return Err(Refusal::NoGlobal);
        }
        let session = &self.sessions[s as usize];
        let q = session.registers[from as usize];
        let old = self.globals[global as usize];
        let heap = self.heap(&[], lent);
        let writes = heap.put_writes(session.level, old, q)?;
        Ok(writes)
    }

    // Put: a global gets what register `from` holds.
    #[tactic(auto, using(crate::proofs::calls::Store::put_number), unfolding(rules::specs::Calls::put))]
    pub fn put(
        mut self,
        h0: &mut [u32],
        h1: &mut [u32],
        list: &mut [u32],
        s: u32,
        global: u32,
        from: u32,
    ) -> Reply
        ensures { outcome result h0.new h1.new list.new
            ≡ apply (view self h0.old h1.old list.old) (Put s global from) }
    {
        let lent = Lent {
            half0: h0,
            half1: h1,
            list,
        };
        // no `?`: refused or not, the reply hands the control record back
        let answer = match self.put_plan(lent, s, global, from) {
            Ok(w) => {
                self.cursor.tail = shade_both(h0, h1, list, self.cursor.tail, w.first, w.second);
                self.globals[global as usize] = w.own;
                Ok(Value::Done)
            }
            Err(refusal) => Err(refusal),
        };
        Reply {
            control: self,
            answer,
        }
    }
}
