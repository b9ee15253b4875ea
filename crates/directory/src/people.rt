// Adding a person.
ghost use Rattle.std.specs.Prelude.{◌≡◌};
ghost use Rattle.directory_rules.specs.Acts.{perform};
ghost use Rattle.directory_rules.specs.Directory.{adding};
ghost use Rattle.directory.specs.View.{Same, viewed_mut, acted_mut};

use crate::chains::append;
use crate::lent::LentMut;
use crate::walks::entries;
use crate::{Refusal, test_number};
use store::Control;

// Add: a new person behind the last entry.
#[tactic(auto, using(crate::proofs::acts::Sequence::after), unfolding(directory_rules::specs::Directory::adding))]
pub(crate) fn adding(
    control: &mut Control,
    lent: &mut LentMut,
    half: usize,
    person: u32,
) -> Result<(), Refusal>
    ensures did { acted_mut control.new lent.new result ≡ perform (viewed_mut control.old lent.old) (adding half person) }
    ensures same { Same lent.old lent.new }
{
    test_number(person)?;
    let place = entries(control, lent.read(), half, person, 0)?;
    if place.found {
        return Err(Refusal::Already);
    }
    append(control, lent, place, person)
}
