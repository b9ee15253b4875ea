// Moving on to the next phase, and the phases that do nothing else: Rest, and those that wait.
ghost use Rattle.std.specs.Prelude.{◌≡◌, ℕ, ◌≤◌, List};
ghost use Rattle.rules.specs.Control.{Store};
ghost use Rattle.rules.specs.Cycle.{last_phase, next_phase};
ghost use Rattle.rules.specs.Phases.{unmarked, uncharged};
ghost use Rattle.rules.specs.Collector.{have_level, rest, handshake};
ghost use Rattle.store.specs.View.{view};
ghost use Rattle.store.specs.Steps.{stepped};
ghost use Rattle.store.specs.Cursors.{having, moved_on};
ghost use Rattle.store.specs.Work.{moved, ended, worked};

use crate::work::{Next, Touch, Work};
use crate::{Control, Cursor};
use rules::Session;

impl Control {
    // Whether every attached session has the phase's level.
    pub(crate) fn have_level(&self) -> bool
        requires { self.now.cursor.phase ≤ last_phase }
        ensures { (h0 h1 l : List ℕ) → result ≡ have_level (view self.now h0 h1 l) }
    {
        let level = Control::level_of(self.cursor.phase);
        self.sessions
            .iter()
            .all(|session| !session.attached | (session.level == level))
    }

    // The phase after a phase, from the table of followers.
    #[tactic(auto, unfolding(rules::specs::Cycle::next_phase))]
    pub(crate) fn next_phase(phase: usize) -> usize
        requires { phase ≤ last_phase }
        ensures { result ≡ next_phase phase }
    {
        usize::from(Control::FOLLOWERS[phase])
    }

    // All scanned marks cleared, as moving on does.
    #[tactic(auto, unfolding(rules::specs::Phases::unmarked))]
    pub(crate) fn clear_marks(sessions: &mut [Session; Control::SESSIONS])
        ensures { sessions.new ≡ unmarked sessions.old }
    {
        for session in sessions.iter_mut() {
            session.scanned = false;
        }
    }

    // All charges cleared, as the end of Reclaim does.
    #[tactic(auto, unfolding(rules::specs::Phases::uncharged))]
    pub(crate) fn clear_charges(sessions: &mut [Session; Control::SESSIONS])
        ensures { sessions.new ≡ uncharged sessions.old }
    {
        for session in sessions.iter_mut() {
            session.charge = 0;
        }
    }
}

impl Cursor {
    // The next phase: walk place and field 0.
    fn moved_on(mut self) -> Self
        requires { self.phase ≤ last_phase }
        ensures { result ≡ moved_on self }
    {
        self.phase = Control::next_phase(self.phase);
        self.place = 0;
        self.field = 0;
        self
    }

    // On to the next phase, with no scanned mark.
    pub(crate) fn move_on(self) -> Next
        requires { self.phase ≤ last_phase }
        ensures { result ≡ moved (moved_on self) }
    {
        Next {
            cursor: self.moved_on(),
            touch: Touch::Marks,
        }
    }

    // On to the next phase, with no scanned mark and nothing charged.
    pub(crate) fn end(self) -> Next
        requires { self.phase ≤ last_phase }
        ensures { result ≡ ended (moved_on self) }
    {
        Next {
            cursor: self.moved_on(),
            touch: Touch::Charges,
        }
    }

    // Phase 0: the list emptied, and on to the next phase.
    #[tactic(auto, unfolding(rules::specs::Collector::rest, rules::specs::Phases::move_on))]
    pub(crate) fn rest(mut self) -> Next
        requires { self.phase ≤ last_phase }
        ensures { (s : Store) (h0 h1 l : List ℕ) → worked (having s self h0 h1 l) (Ok result)
            ≡ stepped (having s self h0 h1 l) (rest (having s self h0 h1 l)) }
    {
        self.head = 0;
        self.tail = 0;
        self.move_on()
    }

    // Phases 1, 2, 6, 8 and 9: moves on if every attached session has the level (`ready`), else changes nothing.
    #[tactic(auto, unfolding(rules::specs::Collector::handshake, rules::specs::Phases::move_on))]
    pub(crate) fn handshake(self, ready: bool) -> Next
        requires { self.phase ≤ last_phase }
        ensures { (s : Store) (h0 h1 l : List ℕ) → ready ≡ have_level (having s self h0 h1 l)
            → worked (having s self h0 h1 l) (Ok result) ≡ stepped (having s self h0 h1 l) (handshake (having s self h0 h1 l)) }
    {
        if ready { self.move_on() } else { self.alone() }
    }
}
