// Making a group, joining one and leaving one.
ghost use Rattle.std.specs.Prelude.{◌≡◌, ◌≤◌};
ghost use Rattle.directory_rules.specs.Table.{last_number};
ghost use Rattle.directory_rules.specs.Acts.{perform};
ghost use Rattle.directory_rules.specs.Directory.{making, grouping, pairing, joining, leaving};
ghost use Rattle.directory.specs.View.{Same, viewed, acted, viewed_mut, acted_mut};

use crate::asks::{move_register, store};
use crate::chains::{append, cut, fresh, link};
use crate::lent::{Lent, LentMut};
use crate::walks::{entries, members, seek};
use crate::{GROUP_MARK, GROUP_REGISTER, NEXT_FIELD, Refusal, test_number};
use directory_rules::Place;
use store::Control;

// Make: a new group behind the last group, before the first person.
#[tactic(auto, using(crate::proofs::acts::Sequence::after), unfolding(directory_rules::specs::Directory::making))]
pub(crate) fn making(
    control: &mut Control,
    lent: &mut LentMut,
    half: usize,
    group: u32,
) -> Result<(), Refusal>
    ensures did { acted_mut control.new lent.new result ≡ perform (viewed_mut control.old lent.old) (making half group) }
    ensures same { Same lent.old lent.new }
{
    test_number(group)?;
    let word = GROUP_MARK + group;
    let place = entries(control, lent.read(), half, word, GROUP_MARK)?;
    if place.found {
        return Err(Refusal::Already);
    }
    fresh(control, lent, GROUP_REGISTER, 2, word)?;
    store(control, lent, GROUP_REGISTER, NEXT_FIELD, place.at)?;
    link(control, lent, place.at, place.via, GROUP_REGISTER)
}

// The group, in its register, and where it stands among the entries.
#[tactic(auto, using(crate::proofs::acts::Sequence::after), unfolding(directory_rules::specs::Directory::grouping))]
pub(crate) fn grouping(
    control: &mut Control,
    lent: Lent,
    half: usize,
    group: u32,
) -> Result<Place, Refusal>
    requires { group ≤ last_number }
    ensures { acted control.new lent.entry result ≡ perform (viewed control.old lent.entry) (grouping half group) }
{
    let place = entries(control, lent, half, GROUP_MARK + group, GROUP_MARK)?;
    if !place.found {
        return Err(Refusal::Unknown);
    }
    move_register(control, lent, GROUP_REGISTER, place.at)?;
    Ok(place)
}

// The group in its register, and where the person stands among its members. People come after groups, so the walk over the
// entries goes on from the group.
#[tactic(auto, using(crate::proofs::acts::Sequence::after), unfolding(directory_rules::specs::Directory::pairing))]
fn pairing(
    control: &mut Control,
    lent: Lent,
    half: usize,
    person: u32,
    group: u32,
) -> Result<Place, Refusal>
    ensures { acted control.new lent.entry result ≡ perform (viewed control.old lent.entry) (pairing half person group) }
{
    test_number(person)?;
    test_number(group)?;
    let from = grouping(control, lent, half, group)?;
    let place = seek(control, lent, from.left, from.at, from.via, person, 0)?;
    if !place.found {
        return Err(Refusal::Unknown);
    }
    members(control, lent, half, person)
}

// Join: a new link behind the group's last.
#[tactic(auto, using(crate::proofs::acts::Sequence::after), unfolding(directory_rules::specs::Directory::joining))]
pub(crate) fn joining(
    control: &mut Control,
    lent: &mut LentMut,
    half: usize,
    person: u32,
    group: u32,
) -> Result<(), Refusal>
    ensures did { acted_mut control.new lent.new result ≡ perform (viewed_mut control.old lent.old) (joining half person group) }
    ensures same { Same lent.old lent.new }
{
    let place = pairing(control, lent.read(), half, person, group)?;
    if place.found {
        return Err(Refusal::Already);
    }
    append(control, lent, place, person)
}

// Leave: the person's link leaves the group's chain.
#[tactic(auto, using(crate::proofs::acts::Sequence::after), unfolding(directory_rules::specs::Directory::leaving))]
pub(crate) fn leaving(
    control: &mut Control,
    lent: &mut LentMut,
    half: usize,
    person: u32,
    group: u32,
) -> Result<(), Refusal>
    ensures did { acted_mut control.new lent.new result ≡ perform (viewed_mut control.old lent.old) (leaving half person group) }
    ensures same { Same lent.old lent.new }
{
    let place = pairing(control, lent.read(), half, person, group)?;
    if !place.found {
        return Err(Refusal::NotMember);
    }
    cut(control, lent, place.at, place.via)
}
