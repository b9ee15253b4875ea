// The programs' buffers: the input read on, and the output written out. The two functions that are given a longest entry or a longest line
// as a number are private here; the others take it from the program that they are given.
ghost use Rattle.std.specs.Prelude.{◌≡◌, ℕ, ◌+◌, ◌≤◌, length, IfSome};
ghost use Rattle.script.specs.Lines.{Flushed, Grows};
ghost use Rattle.script.specs.Window.{Fetched};

use crate::program::StatedProgram;
use crate::unstated::Program;
use crate::{is_short, keep};
use std::io::{Read, Write};

// Where the next entry starts in the input buffer, and how many bytes of the buffer are filled.
#[derive(Clone, Copy)]
pub(crate) struct Window {
    pub(crate) at: usize,
    pub(crate) filled: usize,
}

// The input buffer with the whole of the next entry in it, of at most so many bytes, as far as the input has it.
fn fetch_by<R: Read>(
    stdin: &mut R,
    input: &mut [u8],
    at: usize,
    filled: usize,
    longest: usize,
) -> Window
    requires { filled ≤ length input.old }
    ensures { Fetched longest input.old at filled input.new result.at result.filled }
{
    if !is_short(longest, at, filled, input.len()) {
        return Window { at, filled };
    }
    let kept = keep(input, at, filled);
    let got = streams::read_full(stdin, &mut input[kept..]);
    Window {
        at: 0,
        filled: kept + got,
    }
}

// The same for the program's longest entry.
pub(crate) fn fetch<P: StatedProgram, R: Read>(
    stdin: &mut R,
    input: &mut [u8],
    at: usize,
    filled: usize,
) -> Window
    requires { filled ≤ length input.old }
    ensures { Fetched P.LONGEST_ENTRY input.old at filled input.new result.at result.filled }
{
    fetch_by(stdin, input, at, filled, P::LONGEST_ENTRY)
}

// The same for the longest entry of a program whose specs don't state it: for some number.
pub(crate) fn fetch_unstated<P: Program, R: Read>(
    stdin: &mut R,
    input: &mut [u8],
    at: usize,
    filled: usize,
) -> Window
    requires { filled ≤ length input.old }
    ensures { (longest : ℕ) × Fetched longest input.old at filled input.new result.at result.filled }
{
    fetch_by(stdin, input, at, filled, P::LONGEST_ENTRY)
}

// Where the next line goes: after the output so far, or, where a line of so many bytes may not fit there, to the front, when the
// output so far is written out; None if that fails.
fn flush_by<W: Write>(stdout: &mut W, out: &[u8], end: usize, longest: usize) -> Option<usize>
    requires { end ≤ length out.now }
    ensures place { Flushed longest end (length out.now) result }
    ensures grown { IfSome result (λ _. Grows (W.contents stdout.old) (W.contents stdout.new)) }
{
    if longest <= out.len() - end {
        Some(end)
    } else {
        streams::write_all(stdout, &out[..end]).then_some(0)
    }
}

// The same for the program's longest line.
pub(crate) fn flush<P: StatedProgram, W: Write>(
    stdout: &mut W,
    out: &[u8],
    end: usize,
) -> Option<usize>
    requires { end ≤ length out.now }
    ensures place { Flushed P.LONGEST_LINE end (length out.now) result }
    ensures grown { IfSome result (λ _. Grows (W.contents stdout.old) (W.contents stdout.new)) }
{
    flush_by(stdout, out, end, P::LONGEST_LINE)
}

// The same for the longest line of a program whose specs state that alone.
pub(crate) fn flush_unstated<P: Program, W: Write>(
    stdout: &mut W,
    out: &[u8],
    end: usize,
) -> Option<usize>
    requires { end ≤ length out.now }
    ensures place { Flushed P.LONGEST_LINE end (length out.now) result }
    ensures grown { IfSome result (λ _. Grows (W.contents stdout.old) (W.contents stdout.new)) }
{
    flush_by(stdout, out, end, P::LONGEST_LINE)
}
