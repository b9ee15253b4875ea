// The members of a group: counted, and then as many taken as the lent words hold.
ghost use Rattle.std.specs.Prelude.{◌≡◌, length};
ghost use Rattle.directory_rules.specs.Acts.{perform};
ghost use Rattle.directory_rules.specs.Directory.{counting, taking, taking_first, listing};
ghost use Rattle.directory.specs.View.{viewed, acted, answered, left_by};
ghost use Rattle.directory.specs.Parts.{passing, counting_members};
ghost use Rattle.directory.specs.Taking.{taken_to};

use crate::asks::load;
use crate::groups::grouping;
use crate::lent::Lent;
use crate::walks::{end, look};
use crate::{FIRST_FIELD, GROUP_REGISTER, NEXT_FIELD, Refusal, test_number};
use store::Control;

// The record in register 0 is read, and the next one comes there.
#[tactic(auto, using(crate::proofs::acts::Sequence::after), unfolding(crate::specs::Parts::passing))]
fn passing(control: &mut Control, lent: Lent) -> Result<Option<u32>, Refusal>
    ensures { acted control.new lent.entry result ≡ perform (viewed control.old lent.entry) passing }
{
    let Some(word) = look(control, lent, 0)? else {
        return Ok(None);
    };
    load(control, lent, 0, 0, NEXT_FIELD)?;
    Ok(Some(word))
}

// How many records the chain from register 0 has; refused where it passes `bound` links and finds one more.
#[tactic(auto, using(crate::proofs::acts::Sequence::after, crate::proofs::acts::Counting::counting_step, crate::proofs::acts::Counting::counting_none))]
fn counting(control: &mut Control, lent: Lent, bound: usize) -> Result<usize, Refusal>
    ensures { acted control.new lent.entry result ≡ perform (viewed control.old lent.entry) (counting bound 0) }
{
    for count in 0..bound {
        if passing(control, lent)?.is_none() {
            return Ok(count);
        }
    }
    end(control, lent, 0)?;
    Ok(bound)
}

// The same of the members of the group in its register.
#[tactic(auto, using(crate::proofs::acts::Sequence::after), unfolding(crate::specs::Parts::counting_members))]
fn counting_members(control: &mut Control, lent: Lent, half: usize) -> Result<usize, Refusal>
    ensures { acted control.new lent.entry result ≡ perform (viewed control.old lent.entry) (counting_members half) }
{
    load(control, lent, 0, GROUP_REGISTER, FIRST_FIELD)?;
    counting(control, lent, half)
}

// The words of the first records of the chain from register 0, one for each lent word.
#[tactic(auto, using(crate::proofs::acts::Sequence::after, crate::proofs::acts::Taking::taking_step))]
fn taking(control: &mut Control, lent: Lent, out: &mut [u32]) -> Result<(), Refusal>
    ensures { acted control.new lent.entry (taken_to result out.new) ≡ perform (viewed control.old lent.entry) (taking (length out.old)) }
{
    for slot in out.iter_mut() {
        *slot = passing(control, lent)?.ok_or(Refusal::Store(rules::Refusal::NullRegister))?;
    }
    Ok(())
}

// The words of the group's first members; no call for none.
#[tactic(auto, using(crate::proofs::acts::Sequence::after, crate::proofs::acts::Taking::first_step))]
fn taking_first(control: &mut Control, lent: Lent, out: &mut [u32]) -> Result<(), Refusal>
    ensures { acted control.new lent.entry (taken_to result out.new) ≡ perform (viewed control.old lent.entry) (taking_first (length out.old)) }
{
    if out.is_empty() {
        return Ok(());
    }
    load(control, lent, 0, GROUP_REGISTER, FIRST_FIELD)?;
    taking(control, lent, out)
}

// List: how many members the group has, and the first of them to the lent words. A count that ends is never followed by a
// refusal: the same records are read again.
#[tactic(auto, using(crate::proofs::acts::Sequence::after, crate::proofs::acts::Listing::listing_as))]
pub(crate) fn listing(
    control: &mut Control,
    lent: Lent,
    half: usize,
    group: u32,
    out: &mut [u32],
) -> Result<usize, Refusal>
    ensures { answered control.new lent.entry result out.new
        ≡ left_by out.old (perform (viewed control.old lent.entry) (listing half group out.old)) }
{
    test_number(group)?;
    grouping(control, lent, half, group)?;
    let count = counting_members(control, lent, half)?;
    let room = count.min(out.len());
    taking_first(control, lent, &mut out[..room])?;
    Ok(count)
}
