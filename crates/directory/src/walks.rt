// Walks along a chain of records, and what stands at a place of it.
ghost use Rattle.std.specs.Prelude.{◌≡◌, ◌-◌};
ghost use Rattle.directory_rules.specs.Acts.{perform};
ghost use Rattle.directory_rules.specs.Directory.{seek, entries, members};
ghost use Rattle.directory.specs.View.{viewed, acted};
ghost use Rattle.directory.specs.Parts.{looking, ending_at, judge};

use crate::asks::{get, load};
use crate::lent::Lent;
use crate::{FIRST_FIELD, GROUP_REGISTER, NEXT_FIELD, NUMBER_FIELD, OWN_SESSION, Refusal};
use directory_rules::{Place, Via};
use rules::Value;
use store::Control;

// The word of the record in a register, or none at the chain's end. A read leaves the control record as it came; an answer
// that is no word, which it never gives, counts as the word 0 (`found_in`).
pub(crate) fn look(control: &Control, lent: Lent, at: u32) -> Result<Option<u32>, Refusal>
    ensures { acted control.now lent.entry result ≡ perform (viewed control.now lent.entry) (looking at) }
{
    let reply = control.read(lent.h0, lent.h1, lent.list, OWN_SESSION, at, NUMBER_FIELD);
    match reply.answer {
        Ok(Value::Word(word)) => Ok(Some(word)),
        Ok(_) => Ok(Some(0)),
        Err(rules::Refusal::NullRegister) => Ok(None),
        Err(refusal) => Err(Refusal::Store(refusal)),
    }
}

// The chain ends at the record in a register: where there is one, the chain is too long.
#[tactic(auto, using(crate::proofs::acts::Sequence::after), unfolding(crate::specs::Parts::ending_at))]
pub(crate) fn end(control: &Control, lent: Lent, at: u32) -> Result<(), Refusal>
    ensures { acted control.now lent.entry result ≡ perform (viewed control.now lent.entry) (ending_at at) }
{
    match look(control, lent, at)? {
        Some(_) => Err(Refusal::TooLong),
        None => Ok(()),
    }
}

// The register of the record before the one in register `at`.
pub(crate) fn other_of(at: u32) -> u32
    ensures { result ≡ 1 - at }
{
    if at == 0 { 1 } else { 0 }
}

// Whether a walk ends with what it finds, at its key, below least or at the chain's end; and if so, whether at its key.
fn judge(word: Option<u32>, key: u32, least: u32) -> Option<bool>
    ensures { result ≡ judge key least word }
{
    match word {
        Some(word) if word == key => Some(true),
        Some(word) if least <= word => None,
        _ => Some(false),
    }
}

// From the record in register `at` on: the first whose word is key, or else the first whose word is below least, or the
// end; refused where it passes `bound` links and finds a record.
#[tactic(auto, using(crate::proofs::acts::Sequence::after, crate::proofs::acts::Walking::seek_step, crate::proofs::acts::Walking::seek_none))]
pub(crate) fn seek(
    control: &mut Control,
    lent: Lent,
    bound: usize,
    mut at: u32,
    mut via: Via,
    key: u32,
    least: u32,
) -> Result<Place, Refusal>
    ensures { acted control.new lent.entry result ≡ perform (viewed control.old lent.entry) (seek bound at via key least) }
{
    for left in (1..=bound).rev() {
        let word = look(control, lent, at)?;
        if let Some(found) = judge(word, key, least) {
            return Ok(Place {
                found,
                at,
                via,
                left,
            });
        }
        let other = other_of(at);
        load(control, lent, other, at, NEXT_FIELD)?;
        at = other;
        via = Via::Next;
    }
    end(control, lent, at)?;
    Ok(Place {
        found: false,
        at,
        via,
        left: 0,
    })
}

// A walk over all entries.
#[tactic(auto, using(crate::proofs::acts::Sequence::after), unfolding(directory_rules::specs::Directory::entries))]
pub(crate) fn entries(
    control: &mut Control,
    lent: Lent,
    half: usize,
    key: u32,
    least: u32,
) -> Result<Place, Refusal>
    ensures { acted control.new lent.entry result ≡ perform (viewed control.old lent.entry) (entries half key least) }
{
    get(control, lent, 0)?;
    seek(control, lent, half, 0, Via::Top, key, least)
}

// A walk over the members of the group in its register.
#[tactic(auto, using(crate::proofs::acts::Sequence::after), unfolding(directory_rules::specs::Directory::members))]
pub(crate) fn members(
    control: &mut Control,
    lent: Lent,
    half: usize,
    person: u32,
) -> Result<Place, Refusal>
    ensures { acted control.new lent.entry result ≡ perform (viewed control.old lent.entry) (members half person) }
{
    load(control, lent, 0, GROUP_REGISTER, FIRST_FIELD)?;
    seek(control, lent, half, 0, Via::First, person, 0)
}
