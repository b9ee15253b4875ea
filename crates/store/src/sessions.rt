// The session tests, and the calls on a session as a whole.
// No `?` in a call: refused or not, its reply hands the control record back.
ghost use Rattle.std.specs.Prelude.{◌≡◌};
ghost use Rattle.rules.specs.Refusals.{tested, tests_of};
ghost use Rattle.rules.specs.Phases.{cleared};
ghost use Rattle.rules.specs.Calls.{session_of};
ghost use Rattle.rules.specs.Runs.{apply, Attach, Detach, SafePoint};
ghost use Rattle.store.specs.View.{view, viewed, outcome};

use crate::lent::Lent;
use crate::{Control, Reply};
use rules::{Refusal, Session, Value};

impl Control {
    // The tests 4, 5 and 6.
    #[tactic(auto, unfolding(rules::specs::Calls::session_of, rules::specs::Phases::session_at))]
    pub(crate) fn attached_tests(&self, lent: Lent, s: u32) -> Result<(), Refusal>
        ensures { tested result ≡ tests_of (session_of (viewed self.now lent.entry) s) }
    {
        if !self.valid(lent) {
            return Err(Refusal::OutOfRange);
        }
        if Control::LAST_SESSION < s {
            return Err(Refusal::NoSession);
        }
        let session = &self.sessions[s as usize];
        if session.attached {
            Ok(())
        } else {
            Err(Refusal::NotAttached)
        }
    }

    // The same with the three apart, as every call for a crate above has them.
    pub fn session_tests(&self, h0: &[u32], h1: &[u32], list: &[u32], s: u32) -> Result<(), Refusal>
        ensures { tested result ≡ tests_of (session_of (view self.now h0.now h1.now list.now) s) }
    {
        let lent = Lent {
            half0: h0,
            half1: h1,
            list,
        };
        self.attached_tests(lent, s)
    }

    // A session with its registers null, attached or not.
    fn cleared(mut session: Session, attached: bool) -> Session
        ensures { result ≡ cleared session attached }
    {
        session.registers = [0; Control::REGISTERS];
        session.attached = attached;
        session
    }

    // Attach: level becomes the phase's level, registers null; in phase 4 the session counts as scanned, else it does
    // not. It gets its share, and what is charged to it stays.
    #[tactic(auto, using(crate::proofs::tests::Results::attach_tests), unfolding(rules::specs::Phases::with_session, rules::specs::Phases::session_at))]
    pub fn attach(mut self, h0: &[u32], h1: &[u32], list: &[u32], s: u32, share: u32) -> Reply
        ensures { outcome result h0.now h1.now list.now
            ≡ apply (view self h0.now h1.now list.now) (Attach s share) }
    {
        let lent = Lent {
            half0: h0,
            half1: h1,
            list,
        };
        let answer = match self.attached_tests(lent, s) {
            // what attach asks for
            Err(Refusal::NotAttached) => {
                let i = s as usize;
                let phase = self.cursor.phase;
                let mut session = Control::cleared(self.sessions[i], true);
                session.level = Control::level_of(phase);
                session.share = share;
                session.scanned = phase == Control::HEAP_MARK;
                self.sessions[i] = session;
                Ok(Value::Done)
            }
            Ok(()) => Err(Refusal::AlreadyAttached),
            Err(refusal) => Err(refusal),
        };
        Reply {
            control: self,
            answer,
        }
    }

    // Detach: registers null, level 0; the scanned mark, the share and the charge stay.
    #[tactic(auto, using(crate::proofs::tests::Results::session_tests), unfolding(rules::specs::Calls::detach, rules::specs::Phases::with_session, rules::specs::Phases::session_at))]
    pub fn detach(mut self, h0: &[u32], h1: &[u32], list: &[u32], s: u32) -> Reply
        ensures { outcome result h0.now h1.now list.now
            ≡ apply (view self h0.now h1.now list.now) (Detach s) }
    {
        let lent = Lent {
            half0: h0,
            half1: h1,
            list,
        };
        let answer = match self.attached_tests(lent, s) {
            Ok(()) => {
                let i = s as usize;
                let mut left = Control::cleared(self.sessions[i], false);
                left.level = 0;
                self.sessions[i] = left;
                Ok(Value::Done)
            }
            Err(refusal) => Err(refusal),
        };
        Reply {
            control: self,
            answer,
        }
    }

    // Safe point: the session takes the phase's level.
    #[tactic(auto, using(crate::proofs::tests::Results::session_tests), unfolding(rules::specs::Calls::safe_point, rules::specs::Phases::with_session, rules::specs::Phases::session_at))]
    pub fn safe_point(mut self, h0: &[u32], h1: &[u32], list: &[u32], s: u32) -> Reply
        ensures { outcome result h0.now h1.now list.now
            ≡ apply (view self h0.now h1.now list.now) (SafePoint s) }
    {
        let lent = Lent {
            half0: h0,
            half1: h1,
            list,
        };
        let answer = match self.attached_tests(lent, s) {
            Ok(()) => {
                let level = Control::level_of(self.cursor.phase);
                let session = &mut self.sessions[s as usize];
                session.level = level;
                Ok(Value::Done)
            }
            Err(refusal) => Err(refusal),
        };
        Reply {
            control: self,
            answer,
        }
    }
}
