// Changes of a chain: what names a record is made to name another, a record leaves, a new one comes.
ghost use Rattle.std.specs.Prelude.{◌≡◌};
ghost use Rattle.directory_rules.specs.Acts.{perform};
ghost use Rattle.directory_rules.specs.Directory.{link, cut, fresh, append};
ghost use Rattle.directory.specs.View.{Same, viewed_mut, acted_mut};

use crate::asks::{allocate, load, put, store, write};
use crate::lent::LentMut;
use crate::walks::other_of;
use crate::{FIRST_FIELD, GROUP_REGISTER, NEXT_FIELD, Refusal};
use directory_rules::{Place, Via};
use store::Control;

// What names the record at hand now names what register `from` holds.
pub(crate) fn link(
    control: &mut Control,
    lent: &mut LentMut,
    at: u32,
    via: Via,
    from: u32,
) -> Result<(), Refusal>
    ensures did { acted_mut control.new lent.new result ≡ perform (viewed_mut control.old lent.old) (link at via from) }
    ensures same { Same lent.old lent.new }
{
    match via {
        Via::Next => store(control, lent, other_of(at), NEXT_FIELD, from),
        Via::First => store(control, lent, GROUP_REGISTER, FIRST_FIELD, from),
        Via::Top => put(control, lent, from),
    }
}

// The record at hand leaves its chain.
#[tactic(auto, using(crate::proofs::acts::Sequence::after))]
pub(crate) fn cut(
    control: &mut Control,
    lent: &mut LentMut,
    at: u32,
    via: Via,
) -> Result<(), Refusal>
    ensures did { acted_mut control.new lent.new result ≡ perform (viewed_mut control.old lent.old) (cut at via) }
    ensures same { Same lent.old lent.new }
{
    load(control, lent.read(), at, at, NEXT_FIELD)?;
    link(control, lent, at, via, at)
}

// A new record of some reference fields, with its word, in a register.
#[tactic(auto, using(crate::proofs::acts::Sequence::after))]
pub(crate) fn fresh(
    control: &mut Control,
    lent: &mut LentMut,
    register: u32,
    refs: u32,
    word: u32,
) -> Result<(), Refusal>
    ensures did { acted_mut control.new lent.new result ≡ perform (viewed_mut control.old lent.old) (fresh register refs word) }
    ensures same { Same lent.old lent.new }
{
    allocate(control, lent, register, refs)?;
    write(control, lent, register, word)
}

// A new person or link at the end of the chain.
#[tactic(auto, using(crate::proofs::acts::Sequence::after), unfolding(directory_rules::specs::Directory::append))]
pub(crate) fn append(
    control: &mut Control,
    lent: &mut LentMut,
    place: Place,
    person: u32,
) -> Result<(), Refusal>
    ensures did { acted_mut control.new lent.new result ≡ perform (viewed_mut control.old lent.old) (append place person) }
    ensures same { Same lent.old lent.new }
{
    fresh(control, lent, place.at, 1, person)?;
    link(control, lent, place.at, place.via, place.at)
}
