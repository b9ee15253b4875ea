// What the programs do: the entries of their input, read through a buffer, and the lines of these, written through another. The halves and
// the list are lent one by one, as the store's calls take them.
ghost use Rattle.std.specs.Prelude.{◌≡◌, ℕ, ◌+◌, ◌≤◌, length, get_or, ltb, eqb, ◌&&◌};
ghost use Rattle.std.specs.Bool.{OnTrue};
ghost use Rattle.script.specs.Lines.{longest, Grows};
ghost use Rattle.script.specs.Window.{longest_entry, version};

use crate::buffers::{fetch, flush};
use crate::{Turn, is_version, stop_of, take_turns, write_bad_version};
use std::io::{Read, Write};

// What is particular to a program. Each number stands in the specs of the program too, and the check proves the two equal.
pub trait StatedProgram {
    // The version byte of its input.
    const VERSION: u8;

    // The bytes of the longest entry that isn't 15, its length byte among them.
    const LONGEST_ENTRY: usize;

    const LONGEST_LINE: usize;

    ghost VERSION: { ℕ };

    ghost LONGEST_ENTRY: { ℕ };

    ghost LONGEST_LINE: { ℕ };

    // Does the next entry, all bytes of which are there as far as the input has them, and maybe others after it. The input is what
    // is filled of a buffer of this size.
    fn take(
        turn: Turn,
        h0: &mut [u32],
        h1: &mut [u32],
        list: &mut [u32],
        input: &[u8],
        size: usize,
        out: &mut [u8],
    ) -> Turn
        requires inside { turn.at ≤ length input.now }
        requires room { turn.end + LONGEST_LINE ≤ length out.old }
        ensures reached { result.at ≤ length input.now }
        ensures within { result.end ≤ length out.new };
}

// The program for scripts.
pub struct Script;

impl StatedProgram for Script {
    const VERSION: u8 = 1;

    const LONGEST_ENTRY: usize = crate::window::LONGEST_ENTRY;

    const LONGEST_LINE: usize = crate::LONGEST_LINE;

    ghost VERSION = { version };

    ghost LONGEST_ENTRY = { longest_entry };

    ghost LONGEST_LINE = { longest };

    fn take(
        turn: Turn,
        h0: &mut [u32],
        h1: &mut [u32],
        list: &mut [u32],
        input: &[u8],
        size: usize,
        out: &mut [u8],
    ) -> Turn
        ensures reached { turn.at ≤ length input.now → result.at ≤ length input.now }
        ensures within { turn.end ≤ length out.old → result.end ≤ length out.new }
    {
        let stop = stop_of(input.len(), size);
        take_turns(turn, h0, h1, list, input, stop, out)
    }
}

// Whether the input begins with the program's version byte.
fn is_own<P: StatedProgram>(input: &[u8]) -> bool
    ensures { result ≡ (ltb 0 (length input.now) && eqb (get_or input.now 0 0) P.VERSION) }
{
    is_version(input, P::VERSION)
}

// Does the entries of the input, from the first on, until the input ends, an entry is 15 or a write fails, on a new store over the
// halves and the list. Answers whether all lines were written, a bool, as no caller asks why not: where they were, what
// the writer had got stays and bytes come behind it. After a write that failed there is no other, and there is none where the output has
// not the room for any.
#[tactic(auto, using(crate::proofs::Growing::grows_nothing, crate::proofs::Growing::grows_on, crate::proofs::Growing::grows_last))]
pub fn run_stated<P: StatedProgram, R: Read, W: Write>(
    stdin: &mut R,
    stdout: &mut W,
    h0: &mut [u32],
    h1: &mut [u32],
    list: &mut [u32],
    input: &mut [u8],
    out: &mut [u8],
) -> bool
    ensures { OnTrue result (Grows (W.contents stdout.old) (W.contents stdout.new)) }
{
    let mut filled = streams::read_full(stdin, input);
    if !is_own::<P>(&input[..filled]) {
        let end = write_bad_version(out);
        return streams::write_all(stdout, &out[..end]);
    }
    if out.len() < P::LONGEST_LINE {
        return false;
    }
    let mut turn = Turn {
        control: store::Control::make(h0, h1, list).control,
        at: 1,
        number: 1,
        end: 0,
        more: true,
    };
    // every loop has to end: there are no more turns than entries can be counted
    for _ in 0..u64::MAX {
        let window = fetch::<P, R>(stdin, input, turn.at, filled);
        turn.at = window.at;
        filled = window.filled;
        let Some(end) = flush::<P, W>(stdout, out, turn.end) else {
            return false;
        };
        turn.end = end;
        let number = turn.number;
        let size = input.len();
        turn = P::take(turn, h0, h1, list, &input[..filled], size, out);
        if !turn.more || turn.number == number {
            break;
        }
    }
    streams::write_all(stdout, &out[..turn.end])
}
