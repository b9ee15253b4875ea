// The load, piece by piece.
ghost use Rattle.std.specs.Prelude.{◌≡◌, ◌≤◌, length, false, if◌then◌else◌};
ghost use Rattle.std.proofs.lemmas.List.Edits.{sets};
ghost use Rattle.workload.specs.Load.{accepted};
ghost use Rattle.workload.specs.Pieces.{opening, started, any_left, longest_entry, fill_of, filled};

use crate::entries::{After, write_bytes, write_entry};
use crate::generator::xorshift32;

// The first byte of a script.
const VERSION: u8 = 1;

// No load has more entries than this.
const MOST_ENTRIES: u32 = 100000;

// No entry of a load has more bytes than this, its length byte among them.
pub const LONGEST_ENTRY: usize = 9;

// What is still to come of a load: the version byte or not, and how many entries, the first of them drawn from a value
// on. The version byte has a flag of its own, since the claim `NothingLost` is of every such record.
#[derive(Clone, Copy)]
pub struct Rest {
    pub version: bool,
    pub value: u32,
    pub left: u32,
}

// What is still to come after a buffer was filled, and the end of the bytes put into it.
#[derive(Clone, Copy)]
pub struct Piece {
    pub rest: Rest,
    pub end: usize,
}

// The piece that ends where entries end, with so many of them still to come.
fn piece_to(after: After, left: u32) -> Piece
    ensures { result ≡ record { rest = record { version = false; value = after.next; left = left }; end = after.end } }
{
    Piece {
        rest: Rest {
            version: false,
            value: after.next,
            left,
        },
        end: after.end,
    }
}

// The load that an input asks for, by its seed and count, four big-endian bytes each, if it asks for one.
#[tactic(auto, using(crate::proofs::Asking::other_length))]
pub fn asked(input: &[u8]) -> Option<Rest>
    ensures { result ≡ (if accepted input.now then Some (started input.now) else None) }
{
    let &[a, b, c, d, e, f, g, h] = input else {
        return None;
    };
    let seed = u32::from_be_bytes([a, b, c, d]);
    let count = u32::from_be_bytes([e, f, g, h]);
    if seed == 0 || MOST_ENTRIES < count {
        return None;
    }
    Some(Rest {
        version: true,
        value: xorshift32(seed),
        left: count,
    })
}

// What an input asks for: the load of its seed and count, or nothing.
#[tactic(auto, unfolding(crate::specs::Pieces::started))]
pub fn start(input: &[u8]) -> Rest
    ensures { result ≡ started input.now }
{
    match asked(input) {
        Some(load) => load,
        None => Rest {
            version: false,
            value: 0,
            left: 0,
        },
    }
}

// Whether anything is still to come.
#[tactic(auto, unfolding(crate::specs::Pieces::any_left))]
pub fn any_left(rest: Rest) -> bool
    ensures { result ≡ any_left rest }
{
    rest.version || 0 < rest.left
}

// Puts the version byte at the start of the output, where it is still to come, and answers the place after it.
fn write_version(out: &mut [u8], version: bool) -> usize
    requires { longest_entry ≤ length out.old }
    ensures end { result ≡ length (opening version) }
    ensures bytes { out.new ≡ sets out.old 0 (opening version) }
{
    if version {
        write_bytes(out, 0, &[VERSION])
    } else {
        0
    }
}

// Puts as much of what is still to come into a buffer as goes in: entry by entry, each whole, as long as the longest has
// room. A buffer with no room for that gets nothing.
pub fn fill(rest: Rest, out: &mut [u8]) -> Piece
    ensures filled { fill_of result out.new ≡ filled rest out.old }
    ensures within { result.end ≤ length out.new }
{
    let Some(last) = out.len().checked_sub(LONGEST_ENTRY) else {
        return Piece { rest, end: 0 };
    };
    let mut after = After {
        next: rest.value,
        end: write_version(out, rest.version),
    };
    for written in 0..rest.left {
        if last < after.end {
            return piece_to(after, rest.left - written);
        }
        after = write_entry(out, after.end, after.next);
    }
    piece_to(after, 0)
}
