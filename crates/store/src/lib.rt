// The record store: the control record and its calls. Each call takes the control record by value with the lent
// halves and grey list, and hands the next control record back with its answer; the stretch and its companion, which only
// read, hand none back.

#![tactic(auto)]

ghost use Rattle.std.specs.Prelude.{◌≡◌, ℕ, ◌≤◌, List};
ghost use Rattle.rules.specs.Control.{new_store, nobody};
ghost use Rattle.rules.specs.Cycle.{last_phase, level_of};
ghost use Rattle.store.specs.View.{view, lengths};

mod lent; // lent.rt: what a call is lent beside the control record
mod making; // making.rt: refusals 1 to 3
mod searching; // searching.rt: the session that a phase works on
mod ranges; // ranges.rt: the control record test, refusal 4
mod sessions; // sessions.rt: the session tests, refusals 5 and 6; attach, detach, safe point
mod registers; // registers.rt: move, clear, get
mod shade; // shade.rt: shading
mod stores; // stores.rt: store, put
mod links; // links.rt: store of several links
mod allocate; // allocate.rt: allocate
mod operands; // operands.rt: the register of the record worked on, refusals 8 and 11
pub mod fields; // fields.rt: load and read, and a field of the record that a reference names
mod birth; // birth.rt: the birth number
mod stretch; // stretch.rt: the stretch and its companion
mod writing; // writing.rt: write
mod same; // same.rt: same
mod bounds; // bounds.rt: fromspace, the lent halves and the frontiers, by the collector's own numbers
mod work; // work.rt: what a unit of the collector's work hands out
mod moving; // moving.rt: moving on to the next phase, Rest, and the phases that only wait
mod scanning; // scanning.rt: the white records among a session's registers, and shading them
mod marking; // marking.rt: the phases RootMark and HeapMark
mod walking; // walking.rt: the walk over the records of the current half
mod shells; // shells.rt: phase 5, Allocate
mod copying; // copying.rt: phase 7, Copy
mod flipping; // flipping.rt: phases 10 and 11, RootFlip and StackFlip
mod reclaiming; // reclaiming.rt: phase 12, Reclaim
mod step; // step.rt: the collector step

// The collector's own numbers: current half, frontiers, phase, walk place, walk field, the grey list's place (head) and
// end (tail). The current half is a number as the phase is: test 4 refuses what is neither 0 nor 1.
#[derive(Clone, Copy)]
pub struct Cursor {
    pub current: u32,
    pub frontier0: usize,
    pub frontier1: usize,
    pub phase: usize,
    pub place: usize,
    pub field: usize,
    pub head: usize,
    pub tail: usize,
}

// Document 01's list: the three lent lengths, the collector's numbers, 32 global references and the sessions; and how many
// birth numbers are used.
#[derive(Clone, Copy)]
pub struct Control {
    pub length0: usize,
    pub length1: usize,
    pub capacity: usize,
    pub cursor: Cursor,
    pub births: u32,
    pub globals: [u32; Control::GLOBALS],
    pub sessions: [rules::Session; Control::SESSIONS],
}

// The next control record, and what the call answers.
#[derive(Clone, Copy)]
pub struct Reply {
    pub control: Control,
    pub answer: rules::Answer,
}

// The phases, the level of each, and the limits of the ranges. A phase is a number and no enum: a control record may come with any
// number there, and test 4 (`in_range`) refuses those above 12.
impl Control {
    pub const REST: usize = 0;

    pub const PRE_MARK1: usize = 1;

    pub const PRE_MARK2: usize = 2;

    pub const ROOT_MARK: usize = 3;

    pub const HEAP_MARK: usize = 4;

    pub const ALLOCATE: usize = 5;

    pub const PRE_COPY: usize = 6;

    pub const COPY: usize = 7;

    pub const PRE_FLIP1: usize = 8;

    pub const PRE_FLIP2: usize = 9;

    pub const ROOT_FLIP: usize = 10;

    pub const STACK_FLIP: usize = 11;

    pub const RECLAIM: usize = 12;

    pub const PHASES: usize = 13;

    pub const LAST_PHASE: usize = Control::PHASES - 1;

    // Both tables in bytes: a constant table is written out on the stack at each use, and thirteen bytes are two stores.
    pub const LEVELS: [u8; Control::PHASES] = [0, 1, 2, 2, 2, 3, 4, 4, 5, 6, 6, 6, 0];

    pub const FOLLOWERS: [u8; Control::PHASES] = [
        Control::PRE_MARK1 as u8,
        Control::PRE_MARK2 as u8,
        Control::ROOT_MARK as u8,
        Control::HEAP_MARK as u8,
        Control::ALLOCATE as u8,
        Control::PRE_COPY as u8,
        Control::COPY as u8,
        Control::PRE_FLIP1 as u8,
        Control::PRE_FLIP2 as u8,
        Control::ROOT_FLIP as u8,
        Control::STACK_FLIP as u8,
        Control::RECLAIM as u8,
        Control::REST as u8,
    ];

    pub const LEAST_LENGTH: usize = 16;

    pub const MOST_LENGTH: usize = 1048576;

    pub const GLOBALS: usize = 32;

    pub const SESSIONS: usize = 16;

    pub const REGISTERS: usize = rules::REGISTERS;

    pub const MOST_FIELDS: usize = 510;

    pub const MOST_COUNT: u32 = 255;

    pub const MOST_BIRTHS: u32 = 4294967295;

    pub const LAST_LEVEL: u32 = 6;

    pub const LAST_SESSION: u32 = (Control::SESSIONS - 1) as u32;

    pub const LAST_REGISTER: u32 = (Control::REGISTERS - 1) as u32;

    pub const LAST_GLOBAL: u32 = (Control::GLOBALS - 1) as u32;

    // A session of nobody: every number 0.
    pub(crate) fn nobody() -> rules::Session
        ensures { result ≡ nobody }
    {
        rules::Session {
            registers: [0; Control::REGISTERS],
            level: 0,
            share: 0,
            charge: 0,
            attached: false,
            scanned: false,
        }
    }

    // The fresh control record: every number 0 and nobody attached, the three lengths apart.
    pub(crate) fn fresh(length0: usize, length1: usize, capacity: usize) -> Self
        ensures { (h0 h1 l : List ℕ) → view result h0 h1 l ≡ new_store (lengths length0 length1 capacity) h0 h1 l }
    {
        let nobody = Control::nobody();
        let cursor = Cursor {
            current: 0,
            frontier0: 0,
            frontier1: 0,
            phase: Control::REST,
            place: 0,
            field: 0,
            head: 0,
            tail: 0,
        };
        Self {
            length0,
            length1,
            capacity,
            cursor,
            births: 0,
            globals: [0; Control::GLOBALS],
            sessions: [nobody; Control::SESSIONS],
        }
    }

    // The level of a phase, from the table of levels.
    #[tactic(auto, unfolding(rules::specs::Cycle::level_of))]
    pub(crate) fn level_of(phase: usize) -> u32
        requires { phase ≤ last_phase }
        ensures { result ≡ level_of phase }
    {
        u32::from(Control::LEVELS[phase])
    }
}
