// What a unit of the collector's work hands out. A phase takes the collector's own numbers, writes the lent words, and
// hands out damage, or the next numbers and the one thing beside them that it touches; the step writes them down. The two halves and
// the list are lent to a phase one by one: which of them it may write, and whether it sees the list, stands in its parameters.
// What a phase asks of its numbers and the words, `Ready`, is a clause and no ghost field of `Cursor`: a control record may come with any
// numbers, until test 4 has looked at them.
ghost use Rattle.std.specs.Prelude.{◌≡◌, true};
ghost use Rattle.rules.specs.Phases.{with_mark};
ghost use Rattle.store.specs.Work.{with_forwarded};

use crate::{Control, Cursor};
use rules::{Damage, Session};

// The registers of a session, where they were forwarded.
pub(crate) type Forwarded = Option<[u32; Control::REGISTERS]>;

// What is touched beside the collector's own numbers.
#[derive(Clone, Copy)]
pub enum Touch {
    Nothing,
    // all scanned marks, cleared
    Marks,
    // all scanned marks and all charges, cleared
    Charges,
    // a global, and its word
    Global(usize, u32),
    // a session, marked as scanned, and its registers, where they were forwarded
    Session(usize, Forwarded),
}

// The collector's next numbers, and what is touched beside them.
#[derive(Clone, Copy)]
pub struct Next {
    pub cursor: Cursor,
    pub touch: Touch,
}

// What a unit of work hands out, its words being written already.
pub(crate) type Work = Result<Next, Damage>;

// The session takes what was forwarded, and a scanned mark.
pub(crate) fn mark(session: &mut Session, forwarded: Forwarded)
    ensures { session.new ≡ with_mark (with_forwarded session.old forwarded) true }
{
    if let Some(registers) = forwarded {
        session.registers = registers;
    }
    session.scanned = true;
}
