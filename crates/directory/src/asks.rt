// The store's calls that the directory makes, for session 15: each leaves the next control record in place of the one before.
ghost use Rattle.std.specs.Prelude.{◌≡◌};
ghost use Rattle.directory_rules.specs.Acts.{perform, must, attach, load, store, get, put, move, allocate, write, safe_point};
ghost use Rattle.directory.specs.Answers.{accepted};
ghost use Rattle.directory.specs.View.{Same, viewed, acted, viewed_mut, acted_mut};

use crate::lent::{Lent, LentMut};
use crate::{NUMBER_FIELD, OWN_GLOBAL, OWN_SESSION, Refusal};
use store::{Control, Reply};

// What a store call leaves: the next control record comes in place of the one before, a refusal is handed on.
fn settle(control: &mut Control, reply: &Reply) -> Result<(), Refusal>
    ensures control { control.new ≡ reply.now.control }
    ensures answer { result ≡ accepted reply.now.answer }
{
    *control = reply.control;
    reply.answer?;
    Ok(())
}

// Attach, with a share.
pub(crate) fn attach(control: &mut Control, lent: Lent, share: u32) -> Result<(), Refusal>
    ensures { acted control.new lent.entry result ≡ perform (viewed control.old lent.entry) (must (attach share)) }
{
    let reply = control.attach(lent.h0, lent.h1, lent.list, OWN_SESSION, share);
    settle(control, &reply)
}

// Load: register `to` gets what the reference field holds.
pub(crate) fn load(
    control: &mut Control,
    lent: Lent,
    to: u32,
    register: u32,
    field: u32,
) -> Result<(), Refusal>
    ensures { acted control.new lent.entry result ≡ perform (viewed control.old lent.entry) (must (load to register field)) }
{
    let reply = control.load(
        lent.h0,
        lent.h1,
        lent.list,
        OWN_SESSION,
        to,
        register,
        field,
    );
    settle(control, &reply)
}

// Get: register `to` gets what the directory's global holds.
pub(crate) fn get(control: &mut Control, lent: Lent, to: u32) -> Result<(), Refusal>
    ensures { acted control.new lent.entry result ≡ perform (viewed control.old lent.entry) (must (get to)) }
{
    let reply = control.get(lent.h0, lent.h1, lent.list, OWN_SESSION, to, OWN_GLOBAL);
    settle(control, &reply)
}

// Move: register `to` gets what register `from` holds.
pub(crate) fn move_register(
    control: &mut Control,
    lent: Lent,
    to: u32,
    from: u32,
) -> Result<(), Refusal>
    ensures { acted control.new lent.entry result ≡ perform (viewed control.old lent.entry) (must (move to from)) }
{
    let reply = control.move_register(lent.h0, lent.h1, lent.list, OWN_SESSION, to, from);
    settle(control, &reply)
}

// The safe point.
pub(crate) fn safe_point(control: &mut Control, lent: Lent) -> Result<(), Refusal>
    ensures { acted control.new lent.entry result ≡ perform (viewed control.old lent.entry) (must safe_point) }
{
    let reply = control.safe_point(lent.h0, lent.h1, lent.list, OWN_SESSION);
    settle(control, &reply)
}

// Store: the reference field gets what register `from` holds.
pub(crate) fn store(
    control: &mut Control,
    lent: &mut LentMut,
    register: u32,
    field: u32,
    from: u32,
) -> Result<(), Refusal>
    ensures did { acted_mut control.new lent.new result ≡ perform (viewed_mut control.old lent.old) (must (store register field from)) }
    ensures same { Same lent.old lent.new }
{
    let reply = control.store(
        lent.h0,
        lent.h1,
        lent.list,
        OWN_SESSION,
        register,
        field,
        from,
    );
    settle(control, &reply)
}

// Put: the directory's global gets what register `from` holds.
pub(crate) fn put(control: &mut Control, lent: &mut LentMut, from: u32) -> Result<(), Refusal>
    ensures did { acted_mut control.new lent.new result ≡ perform (viewed_mut control.old lent.old) (must (put from)) }
    ensures same { Same lent.old lent.new }
{
    let reply = control.put(lent.h0, lent.h1, lent.list, OWN_SESSION, OWN_GLOBAL, from);
    settle(control, &reply)
}

// Allocate: a new record of some reference fields and one plain field, in a register.
pub(crate) fn allocate(
    control: &mut Control,
    lent: &mut LentMut,
    register: u32,
    refs: u32,
) -> Result<(), Refusal>
    ensures did { acted_mut control.new lent.new result ≡ perform (viewed_mut control.old lent.old) (must (allocate register refs 1)) }
    ensures same { Same lent.old lent.new }
{
    let list = &mut *lent.list;
    let reply = control.allocate(lent.h0, lent.h1, list, OWN_SESSION, register, refs, 1);
    settle(control, &reply)
}

// Write: the record's word.
pub(crate) fn write(
    control: &mut Control,
    lent: &mut LentMut,
    register: u32,
    word: u32,
) -> Result<(), Refusal>
    ensures did { acted_mut control.new lent.new result ≡ perform (viewed_mut control.old lent.old) (must (write register 0 word)) }
    ensures same { Same lent.old lent.new }
{
    let list = &mut *lent.list;
    let reply = control.write(
        lent.h0,
        lent.h1,
        list,
        OWN_SESSION,
        register,
        NUMBER_FIELD,
        word,
    );
    settle(control, &reply)
}
