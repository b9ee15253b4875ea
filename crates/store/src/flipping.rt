// Phases 10 and 11, RootFlip and StackFlip: the globals, then the registers of the sessions, forwarded to tospace.
ghost use Rattle.std.specs.Prelude.{◌≡◌, ℕ, ◌≤◌, List};
ghost use Rattle.rules.specs.Refusals.{checked};
ghost use Rattle.rules.specs.Cycle.{last_phase};
ghost use Rattle.rules.specs.Control.{Store};
ghost use Rattle.rules.specs.Barriers.{to};
ghost use Rattle.rules.specs.Collector.{root_flip, forward_all, stack_flip};
ghost use Rattle.heap.specs.Halves.{as_heap};
ghost use Rattle.store.specs.Steps.{stepped};
ghost use Rattle.store.specs.Cursors.{having, Ready, moved_on, at_half};
ghost use Rattle.store.specs.Work.{moved, worked};

use crate::searching::unscanned;
use crate::work::{Next, Touch, Work};
use crate::{Control, Cursor};
use heap::Heap;
use heap::forwarding::other_half;
use rules::{Damage, Session};

// All eight registers forwarded, before any is written.
fn forward_all(
    heap: &Heap<'_>,
    mut registers: [u32; Control::REGISTERS],
) -> Result<[u32; Control::REGISTERS], Damage>
    ensures { checked result ≡ forward_all (as_heap heap.now).memory (to (as_heap heap.now)) registers }
{
    for register in registers.iter_mut() {
        *register = heap.forward(*register)?;
    }
    Ok(registers)
}

impl Cursor {
    // A half becomes current, and the step moves on.
    fn flip(mut self, half: u32) -> Next
        requires { self.phase ≤ last_phase }
        ensures { result ≡ moved (moved_on (at_half self half)) }
    {
        self.current = half;
        self.move_on()
    }

    // Phase 10: the next global forwarded; after the last one the step moves on.
    #[tactic(auto, unfolding(rules::specs::Collector::root_flip, rules::specs::Phases::move_on))]
    pub(crate) fn root_flip(
        mut self,
        globals: &[u32; Control::GLOBALS],
        h0: &[u32],
        h1: &[u32],
    ) -> Work
        requires { Ready self h0.now h1.now }
        ensures { (s : Store) (l : List ℕ) → globals.now ≡ s.globals
            → worked (having s self h0.now h1.now l) result
            ≡ stepped (having s self h0.now h1.now l)
            (root_flip (having s self h0.now h1.now l)) }
    {
        let place = self.place;
        if Control::GLOBALS <= place {
            return Ok(self.move_on());
        }
        // nothing is listed here, so any list will do
        let word = self.heap(h0, h1, self.tail).forward(globals[place])?;
        self.place = place + 1;
        Ok(Next {
            cursor: self,
            touch: Touch::Global(place, word),
        })
    }

    // Phase 11: the registers of the lowest attached session without a mark forwarded, and the session marked; with
    // none left, tospace becomes current and the step moves on.
    #[tactic(auto, unfolding(rules::specs::Collector::stack_flip, rules::specs::Phases::move_on, rules::specs::Phases::with_session, rules::specs::Phases::session_at, rules::specs::Phases::tospace))]
    pub(crate) fn stack_flip(
        self,
        sessions: &[Session; Control::SESSIONS],
        h0: &[u32],
        h1: &[u32],
    ) -> Work
        requires { Ready self h0.now h1.now }
        ensures { (s : Store) (l : List ℕ) → sessions.now ≡ s.sessions
            → worked (having s self h0.now h1.now l) result
            ≡ stepped (having s self h0.now h1.now l)
            (stack_flip (having s self h0.now h1.now l)) }
    {
        let Some(n) = unscanned(sessions) else {
            return Ok(self.flip(other_half(self.fromspace())));
        };
        // nothing is listed here, so any list will do
        let heap = self.heap(h0, h1, self.tail);
        let registers = forward_all(&heap, sessions[n].registers)?;
        Ok(Next {
            cursor: self,
            touch: Touch::Session(n, Some(registers)),
        })
    }
}
