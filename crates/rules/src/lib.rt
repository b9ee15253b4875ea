// The plain types that the rules (specs/) and the code above share, and the paper's numbers of them.

#![tactic(auto)]

ghost use Rattle.std.specs.Prelude.{◌≡◌};
ghost use Rattle.rules.specs.Answers.{number, handed, answer_of};
ghost use Rattle.rules.specs.Refusals.{number_of, value_of};

// "eight registers"
pub const REGISTERS: usize = 8;

// Request [8]: "up to eight links"
pub const LINKS: usize = 8;

// A session: "eight registers, a level and a scanned mark", and whether it is attached. Request [7]: its share in words, and the
// words charged to it. A level is a number and no enum: a control record may come with any, and test 4 (`in_range`) refuses those
// above 6. `attached` is a flag beside the rest and no Option of it: share and charge stay when a session is detached.
#[derive(Clone, Copy)]
pub struct Session {
    pub registers: [u32; REGISTERS],
    pub level: u32,
    pub share: u32,
    pub charge: u32,
    pub attached: bool,
    pub scanned: bool,
}

// What following a reference ends in: the place of the record in its half with its counts of reference and plain
// fields, or damage. An enum of its own and no Result: a form that the project is bound to (docs/CALLS.md, forms by place).
#[derive(Clone, Copy)]
pub enum Followed {
    Sound(usize, u32, u32),
    Damage,
}

// Why a call is refused, each reason with document 01's number.
#[derive(Clone, Copy, Debug, PartialEq, Eq)]
pub enum Refusal {
    HalfLength = 1,
    UnequalHalves = 2,
    ShortList = 3,
    OutOfRange = 4,
    NoSession = 5,
    NotAttached = 6,
    AlreadyAttached = 7,
    NoRegister = 8,
    NoGlobal = 9,
    TooMany = 10,
    NullRegister = 11,
    Damaged = 12,
    NoField = 13,
    NoRoom = 14,
    BadScript = 15,
    NoBirthNumber = 16,
    PastShare = 17,
}

impl Refusal {
    // The number.
    pub fn number(self) -> u32
        ensures { result ≡ number self }
    {
        self as u32
    }
}

// A reference that can't be followed, a replica that isn't its record's own, or a shell or a list entry that doesn't fit.
#[derive(Clone, Copy, Debug, PartialEq, Eq)]
pub struct Damage;

impl From<Damage> for Refusal {
    ghost use Rattle.rules.specs.declared.Refusal.TheVariants.{Damaged};

    ghost from_gives = { λ _ e. e ≡ Damaged };

    fn from(_damage: Damage) -> Refusal {
        Refusal::Damaged
    }
}

// What a call hands out that isn't refused.
#[derive(Clone, Copy)]
pub enum Value {
    Done,
    Word(u32),
    Same(bool),
    Phase(usize),
}

impl Value {
    // The value of a line: the word read, 1 or 0 for same, the phase after a step, else 0.
    pub fn number(self) -> u64
        ensures { result ≡ value_of (handed self) }
    {
        match self {
            Value::Done => 0,
            Value::Word(word) => word as u64,
            Value::Same(yes) => yes as u64,
            Value::Phase(phase) => phase as u64,
        }
    }
}

// What a call answers.
pub type Answer = Result<Value, Refusal>;

// The refusal number of an answer, or 0.
pub fn number_of(answer: Answer) -> u32
    ensures { result ≡ number_of (answer_of answer) }
{
    match answer {
        Ok(_) => 0,
        Err(refusal) => refusal.number(),
    }
}

// The value of an answer, 0 when it is refused.
pub fn value_of(answer: Answer) -> u64
    ensures { result ≡ value_of (answer_of answer) }
{
    match answer {
        Ok(value) => value.number(),
        Err(_) => 0,
    }
}

// What a call on the record in a register works with: the session's level, the reference in the register of the record
// worked on, and what its other register argument holds.
#[derive(Clone, Copy)]
pub struct Operands {
    pub level: u32,
    pub own: u32,
    pub other: u32,
}

// What a store or a put writes: the records that it shades, one after the other (0: none), the word for the record itself
// or the global, the replica that is written as well (0: none) and the word for it. No Option for none: 0 is the reference null, a
// word of memory as any other, and the rules shade it and write to it (`shade`, `put_both`) by doing nothing.
#[derive(Clone, Copy)]
pub struct Writes {
    pub first: u32,
    pub second: u32,
    pub own: u32,
    pub replica: u32,
    pub copy: u32,
}

// What a store writes: the record that it goes into, and what it writes to it and its replica.
#[derive(Clone, Copy)]
pub struct StorePlan {
    pub into: u32,
    pub writes: Writes,
}

// Where a write goes: the record, its count of reference fields, and its replica, or null where none is written.
#[derive(Clone, Copy)]
pub struct WritePlan {
    pub own: u32,
    pub refs: u32,
    pub replica: u32,
}

// One of several links to store: the number of the reference field, and the register whose reference it gets.
#[derive(Clone, Copy)]
pub struct Link {
    pub field: u32,
    pub from: u32,
}
