// The collector step: the unit of work by the number of the phase, then what it hands out written down.
// No `?` in a call: refused or not, its reply hands the control record back.
ghost use Rattle.std.specs.Prelude.{◌≡◌, ◌≤◌, length, get_or};
ghost use Rattle.rules.specs.Runs.{apply, Step};
ghost use Rattle.rules.specs.Collector.{handshake, units};
ghost use Rattle.store.specs.View.{view, outcome};
ghost use Rattle.store.specs.Steps.{stepped};
ghost use Rattle.store.specs.Cursors.{Ready};
ghost use Rattle.store.specs.Work.{worked, worked_or};

use crate::lent::Lent;
use crate::work::{Next, Touch, Work, mark};
use crate::{Control, Reply};
use rules::{Refusal, Value};

impl Control {
    // The unit of work of the phase: a match on its number, as each phase is lent other words and other parts of the control record.
    fn unit(&self, h0: &mut [u32], h1: &mut [u32], list: &mut [u32]) -> Work
        requires { Ready self.now.cursor h0.old h1.old × (self.now.cursor.tail ≤ length list.old) }
        ensures { worked (view self.now h0.new h1.new list.new) result
            ≡ stepped (view self.now h0.old h1.old list.old)
            (get_or units self.now.cursor.phase handshake (view self.now h0.old h1.old list.old)) }
    {
        let c = self.cursor;
        match c.phase {
            Control::REST => Ok(c.rest()),
            Control::ROOT_MARK => c.root_mark(&self.globals, h0, h1, list),
            Control::HEAP_MARK => c.heap_mark(&self.sessions, h0, h1, list),
            Control::ALLOCATE => c.allocate_shells(self.have_level(), h0, h1),
            Control::COPY => c.copy(h0, h1),
            Control::ROOT_FLIP => c.root_flip(&self.globals, h0, h1),
            Control::STACK_FLIP => c.stack_flip(&self.sessions, h0, h1),
            Control::RECLAIM => c.reclaim(self.have_level(), h0, h1),
            _ => Ok(c.handshake(self.have_level())),
        }
    }

    // The same after the control record test.
    #[tactic(auto, unfolding(rules::specs::Collector::step))]
    fn work(&self, h0: &mut [u32], h1: &mut [u32], list: &mut [u32]) -> Result<Next, Refusal>
        ensures { worked_or (view self.now h0.new h1.new list.new) result
            ≡ apply (view self.now h0.old h1.old list.old) Step }
    {
        if !self.valid(Lent {
            half0: h0,
            half1: h1,
            list,
        }) {
            return Err(Refusal::OutOfRange);
        }
        Ok(self.unit(h0, h1, list)?)
    }

    // Collector step: one unit of work, and the control record after it. What the work touches is written here, in
    // place: a function that took the control record for it would have it copied at every step.
    #[tactic(auto, unfolding(rules::specs::Phases::session_at, rules::specs::Phases::with_session))]
    pub fn step(mut self, h0: &mut [u32], h1: &mut [u32], list: &mut [u32]) -> Reply
        ensures { outcome result h0.new h1.new list.new
            ≡ apply (view self h0.old h1.old list.old) Step }
    {
        let answer = match self.work(h0, h1, list) {
            Ok(next) => {
                self.cursor = next.cursor;
                match next.touch {
                    Touch::Nothing => {}
                    Touch::Marks => Control::clear_marks(&mut self.sessions),
                    Touch::Charges => {
                        Control::clear_marks(&mut self.sessions);
                        Control::clear_charges(&mut self.sessions);
                    }
                    Touch::Global(place, word) => {
                        // past the last global nothing
                        if place < Control::GLOBALS {
                            self.globals[place] = word;
                        }
                    }
                    Touch::Session(n, forwarded) => {
                        // past the last session nothing
                        if n < Control::SESSIONS {
                            mark(&mut self.sessions[n], forwarded);
                        }
                    }
                }
                Ok(Value::Phase(next.cursor.phase))
            }
            Err(refusal) => Err(refusal),
        };
        Reply {
            control: self,
            answer,
        }
    }
}
