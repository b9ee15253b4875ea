// Removing a person.
ghost use Rattle.std.specs.Prelude.{◌≡◌};
ghost use Rattle.directory_rules.specs.Acts.{perform};
ghost use Rattle.directory_rules.specs.Directory.{keep_before, link_person, cut_found, leaving_all, removing};
ghost use Rattle.directory.specs.View.{Same, viewed, acted, viewed_mut, acted_mut};
ghost use Rattle.directory.specs.Parts.{leaving_one, removing_found};

use crate::asks::{get, load, move_register, put, store};
use crate::chains::cut;
use crate::lent::{Lent, LentMut};
use crate::walks::{end, entries, look, members, other_of};
use crate::{
    BEFORE_REGISTER, GROUP_MARK, GROUP_REGISTER, NEXT_FIELD, PERSON_REGISTER, Refusal, test_number,
};
use directory_rules::{Place, Via};
use store::Control;

// The entry before the person, where there is one, in its register.
fn keep_before(control: &mut Control, lent: Lent, at: u32, via: Via) -> Result<(), Refusal>
    ensures { acted control.new lent.entry result ≡ perform (viewed control.old lent.entry) (keep_before at via) }
{
    match via {
        Via::Next => move_register(control, lent, BEFORE_REGISTER, other_of(at)),
        Via::First | Via::Top => Ok(()),
    }
}

// The record that a walk found leaves its chain; where it found none, nothing does.
fn cut_found(control: &mut Control, lent: &mut LentMut, place: Place) -> Result<(), Refusal>
    ensures did { acted_mut control.new lent.new result ≡ perform (viewed_mut control.old lent.old) (cut_found place) }
    ensures same { Same lent.old lent.new }
{
    if place.found {
        cut(control, lent, place.at, place.via)
    } else {
        Ok(())
    }
}

// The person leaves the group in its register, if it is in it, and the next entry comes there.
#[tactic(auto, using(crate::proofs::acts::Sequence::after), unfolding(crate::specs::Parts::leaving_one))]
fn leaving_one(
    control: &mut Control,
    lent: &mut LentMut,
    half: usize,
    person: u32,
) -> Result<(), Refusal>
    ensures did { acted_mut control.new lent.new result ≡ perform (viewed_mut control.old lent.old) (leaving_one half person) }
    ensures same { Same lent.old lent.new }
{
    let place = members(control, lent.read(), half, person)?;
    cut_found(control, lent, place)?;
    load(
        control,
        lent.read(),
        GROUP_REGISTER,
        GROUP_REGISTER,
        NEXT_FIELD,
    )
}

// The person leaves the group in its register and those after it, to the first person or the end.
#[tactic(auto, using(crate::proofs::acts::Sequence::after, crate::proofs::acts::Groups::groups_step, crate::proofs::acts::Groups::groups_none))]
fn leaving_all(
    control: &mut Control,
    lent: &mut LentMut,
    half: usize,
    person: u32,
) -> Result<(), Refusal>
    ensures did { acted_mut control.new lent.new result ≡ perform (viewed_mut control.old lent.old) (leaving_all half half person) }
    ensures same { Same lent.old lent.new }
{
    for _ in 0..half {
        match look(control, lent.read(), GROUP_REGISTER)? {
            Some(word) if GROUP_MARK <= word => leaving_one(control, lent, half, person)?,
            _ => return Ok(()),
        }
    }
    end(control, lent.read(), GROUP_REGISTER)
}

// What named the person now names what its register holds.
fn link_person(control: &mut Control, lent: &mut LentMut, via: Via) -> Result<(), Refusal>
    ensures did { acted_mut control.new lent.new result ≡ perform (viewed_mut control.old lent.old) (link_person via) }
    ensures same { Same lent.old lent.new }
{
    match via {
        Via::Next => store(control, lent, BEFORE_REGISTER, NEXT_FIELD, PERSON_REGISTER),
        Via::First => Ok(()),
        Via::Top => put(control, lent, PERSON_REGISTER),
    }
}

// The person that a walk found leaves all groups and then the entries.
#[tactic(auto, using(crate::proofs::acts::Sequence::after))]
fn removing_found(
    control: &mut Control,
    lent: &mut LentMut,
    half: usize,
    person: u32,
    place: Place,
) -> Result<(), Refusal>
    ensures did { acted_mut control.new lent.new result ≡ perform (viewed_mut control.old lent.old) (removing_found half person place) }
    ensures same { Same lent.old lent.new }
{
    keep_before(control, lent.read(), place.at, place.via)?;
    move_register(control, lent.read(), PERSON_REGISTER, place.at)?;
    get(control, lent.read(), GROUP_REGISTER)?;
    leaving_all(control, lent, half, person)?;
    load(
        control,
        lent.read(),
        PERSON_REGISTER,
        PERSON_REGISTER,
        NEXT_FIELD,
    )?;
    link_person(control, lent, place.via)
}

// Remove: the person leaves all groups and the entries.
#[tactic(auto, using(crate::proofs::acts::Sequence::after), unfolding(directory_rules::specs::Directory::removing))]
pub(crate) fn removing(
    control: &mut Control,
    lent: &mut LentMut,
    half: usize,
    person: u32,
) -> Result<(), Refusal>
    ensures did { acted_mut control.new lent.new result ≡ perform (viewed_mut control.old lent.old) (removing half person) }
    ensures same { Same lent.old lent.new }
{
    test_number(person)?;
    let place = entries(control, lent.read(), half, person, 0)?;
    if !place.found {
        return Err(Refusal::Unknown);
    }
    removing_found(control, lent, half, person, place)
}
