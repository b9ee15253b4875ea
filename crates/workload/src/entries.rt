// The entries of a load: length byte, kind byte, argument bytes.
ghost use Rattle.std.specs.Prelude.{◌≡◌, ◌+◌, ◌≤◌, ◌<◌, length};
ghost use Rattle.std.proofs.lemmas.List.Edits.{sets};
ghost use Rattle.workload.specs.Load.{argument, bytes_of, kind_count, form_at};
ghost use Rattle.workload.specs.Entries.{placed_by, Room, arguments_into, entry_into};
ghost use Rattle.workload.specs.Pieces.{longest_entry};

use crate::generator::xorshift32;
use Class::{Global, Register, Session, Small, Value};

// What an argument is: the number of a session, of a register or of a global; a field, r or p; or a whole value.
#[derive(Clone, Copy)]
pub(crate) enum Class {
    Session,
    Register,
    Global,
    Small,
    Value,
}

// After arguments or an entry were put into a buffer: the value after them, and the place after their bytes.
#[derive(Clone, Copy)]
pub(crate) struct After {
    pub(crate) next: u32,
    pub(crate) end: usize,
}

// The kinds of entries in a load are 1 to this.
const KINDS: usize = 14;

// Puts bytes at a place of the output and answers the place after them.
pub(crate) fn write_bytes(out: &mut [u8], at: usize, bytes: &[u8]) -> usize
    requires { at + length bytes.now ≤ length out.old }
    ensures end { result ≡ at + length bytes.now }
    ensures bytes { out.new ≡ sets out.old at bytes.now }
{
    let end = at + bytes.len();
    out[at..end].copy_from_slice(bytes);
    end
}

// Puts the argument that a value gives at a place of the output and answers the place after it.
fn write_argument(out: &mut [u8], at: usize, class: Class, value: u32) -> usize
    requires { at + length (bytes_of class (argument class value)) ≤ length out.old }
    ensures end { result ≡ at + length (bytes_of class (argument class value)) }
    ensures bytes { out.new ≡ sets out.old at (bytes_of class (argument class value)) }
{
    match class {
        Session => write_bytes(out, at, &[(value % 16) as u8]),
        Register => write_bytes(out, at, &[(value % 8) as u8]),
        Global => write_bytes(out, at, &[(value % 32) as u8]),
        Small => write_bytes(out, at, &[(value % 4) as u8]),
        Value => write_bytes(out, at, &value.to_be_bytes()),
    }
}

// Puts arguments of these classes at a place of the output, drawn from a value on. Inlined, so that the loop over classes that are
// known is none in the program: over a table of them an entry took two fifths more instructions.
#[inline(always)]
fn draw_arguments(out: &mut [u8], at: usize, classes: &[Class], value: u32) -> After
    requires { Room classes.now value at out.old }
    ensures { placed_by result out.new ≡ arguments_into classes.now value at out.old }
{
    let mut next = value;
    let mut end = at;
    for class in classes {
        end = write_argument(out, end, *class, next);
        next = xorshift32(next);
    }
    After { next, end }
}

// Puts the arguments of an entry of kind k + 1 at a place of the output, drawn from a value on.
#[tactic(auto, unfolding(crate::specs::Load::form_at, crate::specs::Load::forms))]
fn draw_kind(out: &mut [u8], at: usize, k: usize, value: u32) -> After
    requires { (k < kind_count) × Room (form_at k).classes value at out.old }
    ensures { placed_by result out.new ≡ arguments_into (form_at k).classes value at out.old }
{
    match k {
        0..=2 => draw_arguments(out, at, &[Session], value),
        3 => draw_arguments(out, at, &[Session, Register, Small, Small], value),
        4 => draw_arguments(out, at, &[Session, Register, Register, Small], value),
        5 => draw_arguments(out, at, &[Session, Register, Small, Register], value),
        6 => draw_arguments(out, at, &[Session, Register, Small], value),
        7 => draw_arguments(out, at, &[Session, Register, Small, Value], value),
        8 | 10 => draw_arguments(out, at, &[Session, Register, Register], value),
        9 => draw_arguments(out, at, &[Session, Register], value),
        11 => draw_arguments(out, at, &[Session, Register, Global], value),
        12 => draw_arguments(out, at, &[Session, Global, Register], value),
        _ => draw_arguments(out, at, &[], value),
    }
}

// Puts the entry drawn from a value on at a place of the output that has room for the longest one.
pub(crate) fn write_entry(out: &mut [u8], at: usize, value: u32) -> After
    requires { at + longest_entry ≤ length out.old }
    ensures { placed_by result out.new ≡ entry_into value at out.old }
{
    let k = value as usize % KINDS;
    out[at + 1] = (k + 1) as u8;
    let after = draw_kind(out, at + 2, k, xorshift32(value));
    out[at] = (after.end - (at + 1)) as u8;
    after
}
