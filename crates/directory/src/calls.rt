// The directory's calls. All but open start with a safe point, and end by clearing the registers that they use, refused
// or not.
ghost use Rattle.std.specs.Prelude.{◌≡◌, []};
ghost use Rattle.directory_rules.specs.Table.{Open, Add, Remove, Make, Join, Leave, Members};
ghost use Rattle.directory_rules.specs.Acts.{Act, perform};
ghost use Rattle.directory_rules.specs.Directory.{directory_call};
ghost use Rattle.store.specs.View.{view};
ghost use Rattle.directory.specs.View.{Same, viewed, viewed_mut, answered, answered_mut, left, left_by};
ghost use Rattle.directory.specs.Parts.{clearing_first, whole};
ghost use Rattle.directory.specs.Changes.{Performs};

use crate::asks::{attach, safe_point};
use crate::groups::{joining, leaving, making};
use crate::lent::{Lent, LentMut};
use crate::lists::listing;
use crate::people::adding;
use crate::removal::removing;
use crate::{GROUP_REGISTERS, OWN_SESSION, REMOVE_REGISTERS, Refusal, Reply, WALK_REGISTERS};
use store::Control;

// The first registers cleared, each answer passed over.
fn clear_registers(control: &mut Control, lent: Lent, count: u32)
    ensures { viewed control.new lent.entry ≡ (perform (viewed control.old lent.entry) (clearing_first count)).store }
{
    for register in 0..count {
        let reply = control.clear(lent.h0, lent.h1, lent.list, OWN_SESSION, register);
        *control = reply.control;
    }
}

// Open: attach of the directory's session, with its share.
pub fn open(mut control: Control, h0: &[u32], h1: &[u32], list: &[u32], share: u32) -> Reply
    ensures { left result h0.now h1.now list.now []
        ≡ directory_call (view control h0.now h1.now list.now) (Open share) }
{
    let attached = attach(&mut control, Lent { h0, h1, list }, share);
    Reply {
        control,
        answer: attached.and(Ok(0)),
    }
}

// A change between its safe point and its end: what it does, and how many registers that uses. The lent words are put
// together by its callers: what a closure leaves of references that are made here isn't known afterwards.
fn change<F>(
    control: &mut Control,
    lent: &mut LentMut,
    registers: u32,
    act: F,
) -> Result<usize, Refusal>
where
    F: FnOnce(&mut Control, &mut LentMut) -> Result<(), Refusal>,
    ghost does: { Act (Unit {0}) }
    requires callable { F.IsAlwaysCallable act }
    requires performs { Performs (F.post act) does }
    ensures did { answered_mut control.new lent.new result
        ≡ left_by [] (perform (viewed_mut control.old lent.old) (whole registers does)) }
    ensures same { Same lent.old lent.new }
{
    safe_point(control, lent.read())?;
    let done = act(control, lent);
    clear_registers(control, lent.read(), registers);
    done.and(Ok(0))
}

// Add: a new person.
#[tactic(auto, using(crate::proofs::acts::Ending::directory_call_lem), unfolding(directory_rules::specs::Directory::program))]
pub fn add(
    mut control: Control,
    h0: &mut [u32],
    h1: &mut [u32],
    list: &mut [u32],
    person: u32,
) -> Reply
    ensures { left result h0.new h1.new list.new []
        ≡ directory_call (view control h0.old h1.old list.old) (Add person) }
{
    let half = control.length0;
    let mut lent = LentMut { h0, h1, list };
    let answer = change(
        &mut control,
        &mut lent,
        WALK_REGISTERS,
        move |control, lent| { adding(control, lent, half, person) },
    );
    Reply { control, answer }
}

// Remove: a person leaves all groups and the directory.
#[tactic(auto, using(crate::proofs::acts::Ending::directory_call_lem), unfolding(directory_rules::specs::Directory::program))]
pub fn remove(
    mut control: Control,
    h0: &mut [u32],
    h1: &mut [u32],
    list: &mut [u32],
    person: u32,
) -> Reply
    ensures { left result h0.new h1.new list.new []
        ≡ directory_call (view control h0.old h1.old list.old) (Remove person) }
{
    let half = control.length0;
    let mut lent = LentMut { h0, h1, list };
    let answer = change(
        &mut control,
        &mut lent,
        REMOVE_REGISTERS,
        move |control, lent| { removing(control, lent, half, person) },
    );
    Reply { control, answer }
}

// Make: a new group.
#[tactic(auto, using(crate::proofs::acts::Ending::directory_call_lem), unfolding(directory_rules::specs::Directory::program))]
pub fn make_group(
    mut control: Control,
    h0: &mut [u32],
    h1: &mut [u32],
    list: &mut [u32],
    group: u32,
) -> Reply
    ensures { left result h0.new h1.new list.new []
        ≡ directory_call (view control h0.old h1.old list.old) (Make group) }
{
    let half = control.length0;
    let mut lent = LentMut { h0, h1, list };
    let answer = change(
        &mut control,
        &mut lent,
        GROUP_REGISTERS,
        move |control, lent| { making(control, lent, half, group) },
    );
    Reply { control, answer }
}

// Join: a person comes into a group.
#[tactic(auto, using(crate::proofs::acts::Ending::directory_call_lem), unfolding(directory_rules::specs::Directory::program))]
pub fn join(
    mut control: Control,
    h0: &mut [u32],
    h1: &mut [u32],
    list: &mut [u32],
    person: u32,
    group: u32,
) -> Reply
    ensures { left result h0.new h1.new list.new []
        ≡ directory_call (view control h0.old h1.old list.old) (Join person group) }
{
    let half = control.length0;
    let mut lent = LentMut { h0, h1, list };
    let answer = change(
        &mut control,
        &mut lent,
        GROUP_REGISTERS,
        move |control, lent| { joining(control, lent, half, person, group) },
    );
    Reply { control, answer }
}

// Leave: a person goes out of a group.
#[tactic(auto, using(crate::proofs::acts::Ending::directory_call_lem), unfolding(directory_rules::specs::Directory::program))]
pub fn leave(
    mut control: Control,
    h0: &mut [u32],
    h1: &mut [u32],
    list: &mut [u32],
    person: u32,
    group: u32,
) -> Reply
    ensures { left result h0.new h1.new list.new []
        ≡ directory_call (view control h0.old h1.old list.old) (Leave person group) }
{
    let half = control.length0;
    let mut lent = LentMut { h0, h1, list };
    let answer = change(
        &mut control,
        &mut lent,
        GROUP_REGISTERS,
        move |control, lent| { leaving(control, lent, half, person, group) },
    );
    Reply { control, answer }
}

// A list between its safe point and its end.
#[tactic(auto, using(crate::proofs::acts::Sequence::after, crate::proofs::acts::Ending::directory_call_lem), unfolding(directory_rules::specs::Directory::program))]
fn list_out(
    control: &mut Control,
    lent: Lent,
    group: u32,
    out: &mut [u32],
) -> Result<usize, Refusal>
    ensures { answered control.new lent.entry result out.new
        ≡ directory_call (viewed control.old lent.entry) (Members group out.old) }
{
    let half = control.length0;
    safe_point(control, lent)?;
    let listed = listing(control, lent, half, group, out);
    clear_registers(control, lent, GROUP_REGISTERS);
    listed
}

// List: how many members a group has, and as many of them as the lent words hold, in joining order. A refused list
// leaves the lent words as they came.
pub fn list_members(
    mut control: Control,
    h0: &[u32],
    h1: &[u32],
    list: &[u32],
    group: u32,
    out: &mut [u32],
) -> Reply
    ensures { left result h0.now h1.now list.now out.new
        ≡ directory_call (view control h0.now h1.now list.now) (Members group out.old) }
{
    let answer = list_out(&mut control, Lent { h0, h1, list }, group, out);
    Reply { control, answer }
}
