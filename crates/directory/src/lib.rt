// The school directory: people, groups and who is in which, kept in the store's records by session 15 and global 31.
// Each call takes the control record by value with the lent halves and grey list, as the store's calls do.

#![tactic(auto)]

ghost use Rattle.std.specs.Prelude.{◌≡◌};
ghost use Rattle.rules.specs.Refusals.{check};
ghost use Rattle.directory_rules.specs.Table.{is_number, unknown};
ghost use Rattle.directory.specs.Answers.{number, number_of, count_of, tested};

mod lent; // lent.rt: what a call is lent beside the control record
mod asks; // asks.rt: the store's calls for session 15
mod walks; // walks.rt: the record at hand, and walks over the entries and over a group's members
mod chains; // chains.rt: changes of a chain
mod people; // people.rt: adding a person
mod removal; // removal.rt: removing a person
mod groups; // groups.rt: making a group, joining and leaving one
mod lists; // lists.rt: the members of a group
mod calls; // calls.rt: the calls

pub use calls::{add, join, leave, list_members, make_group, open, remove};

// Why a directory call is refused: as the store refused it, or for a reason of the directory's own.
#[derive(Clone, Copy, Debug, PartialEq, Eq)]
pub enum Refusal {
    Store(rules::Refusal),
    Unknown,
    Already,
    NotMember,
    TooLong,
}

impl Refusal {
    // The number.
    pub fn number(self) -> u32
        ensures { result ≡ number self }
    {
        match self {
            Refusal::Store(refusal) => refusal.number(),
            Refusal::Unknown => 23,
            Refusal::Already => 24,
            Refusal::NotMember => 25,
            Refusal::TooLong => 26,
        }
    }
}

impl From<rules::Refusal> for Refusal {
    ghost use Rattle.directory.specs.declared.Refusal.TheVariants.{Store};

    ghost from_gives = { λ r e. e ≡ Store r };

    fn from(refusal: rules::Refusal) -> Refusal {
        Refusal::Store(refusal)
    }
}

// What a call leaves: the next control record, and its refusal, or, of a list, how many members there are, of another 0.
#[derive(Clone, Copy)]
pub struct Reply {
    pub control: store::Control,
    pub answer: Result<usize, Refusal>,
}

impl Reply {
    // The number of its refusal, or 0.
    pub fn number(&self) -> u32
        ensures { result ≡ number_of self.now.answer }
    {
        match self.answer {
            Ok(_) => 0,
            Err(refusal) => refusal.number(),
        }
    }

    // How many members there are, of a list that isn't refused; else 0.
    pub fn count(&self) -> usize
        ensures { result ≡ count_of self.now.answer }
    {
        self.answer.unwrap_or(0)
    }
}

// "Session 15 and global 31 are the directory's alone."
const OWN_SESSION: u32 = 15;

const OWN_GLOBAL: u32 = 31;

// A group's word is this and its number, a person's or a link's the number.
const GROUP_MARK: u32 = 100000000;

const LAST_NUMBER: u32 = GROUP_MARK - 1;

// The reference field that names the next entry or link, that of a group's first link, and the plain field.
const NEXT_FIELD: u32 = 0;

const FIRST_FIELD: u32 = 1;

const NUMBER_FIELD: u32 = 0;

// Registers 0 and 1 have the record at hand and the one before it, in turn; then the group; in remove the entry before the
// person, and the person.
const GROUP_REGISTER: u32 = 2;

const BEFORE_REGISTER: u32 = 3;

const PERSON_REGISTER: u32 = 4;

// How many registers a call uses: one that walks the entries, one that works on a group, and remove.
const WALK_REGISTERS: u32 = 2;

const GROUP_REGISTERS: u32 = 3;

const REMOVE_REGISTERS: u32 = 5;

// A number above 99,999,999 is nobody's.
fn test_number(number: u32) -> Result<(), Refusal>
    ensures { tested result ≡ check (is_number number) unknown }
{
    if number <= LAST_NUMBER {
        Ok(())
    } else {
        Err(Refusal::Unknown)
    }
}
