// What the programs do whose specs don't state their version byte and their longest entry: the same as in program.rt, by the numbers that
// they have. No clause can name these, so such a program can't be handed on as one of program.rt.
ghost use Rattle.std.specs.Prelude.{◌≡◌, ℕ, ◌+◌, ◌≤◌, length};
ghost use Rattle.std.specs.Bool.{OnTrue};
ghost use Rattle.script.specs.Lines.{longest, Grows};

use crate::buffers::{fetch_unstated, flush_unstated};
use crate::program::{Script, StatedProgram};
use crate::{Turn, is_version, write_bad_version};
use std::io::{Read, Write};

// What is particular to such a program. Of its numbers its specs state the longest line alone.
pub trait Program {
    // The version byte of its input.
    const VERSION: u8;

    // The bytes of the longest entry that isn't 15, its length byte among them.
    const LONGEST_ENTRY: usize;

    const LONGEST_LINE: usize;

    ghost LONGEST_LINE: { ℕ };

    // Does the next entry, all bytes of which are there as far as the input has them, and maybe others after it. The input is what
    // is filled of a buffer of this size.
    fn take(
        turn: Turn,
        h0: &mut [u32],
        h1: &mut [u32],
        list: &mut [u32],
        input: &[u8],
        size: usize,
        out: &mut [u8],
    ) -> Turn
        requires inside { turn.at ≤ length input.now }
        requires room { turn.end + LONGEST_LINE ≤ length out.old }
        ensures reached { result.at ≤ length input.now }
        ensures within { result.end ≤ length out.new };
}

// The program for scripts can be run as such a one too, with the numbers that its specs state.
impl Program for Script {
    const VERSION: u8 = <Script as StatedProgram>::VERSION;

    const LONGEST_ENTRY: usize = <Script as StatedProgram>::LONGEST_ENTRY;

    const LONGEST_LINE: usize = <Script as StatedProgram>::LONGEST_LINE;

    ghost LONGEST_LINE = { longest };

    fn take(
        turn: Turn,
        h0: &mut [u32],
        h1: &mut [u32],
        list: &mut [u32],
        input: &[u8],
        size: usize,
        out: &mut [u8],
    ) -> Turn
        ensures reached { turn.at ≤ length input.now → result.at ≤ length input.now }
        ensures within { turn.end ≤ length out.old → result.end ≤ length out.new }
    {
        <Script as StatedProgram>::take(turn, h0, h1, list, input, size, out)
    }
}

// Does the entries of the input as `run_stated` does, by the numbers that the program has. Answers whether all lines were written: where
// they were, what the writer had got stays and bytes come behind it.
#[tactic(auto, using(crate::proofs::Growing::grows_nothing, crate::proofs::Growing::grows_on, crate::proofs::Growing::grows_last))]
pub fn run<P: Program, R: Read, W: Write>(
    stdin: &mut R,
    stdout: &mut W,
    h0: &mut [u32],
    h1: &mut [u32],
    list: &mut [u32],
    input: &mut [u8],
    out: &mut [u8],
) -> bool
    ensures { OnTrue result (Grows (W.contents stdout.old) (W.contents stdout.new)) }
{
    let mut filled = streams::read_full(stdin, input);
    if !is_version(&input[..filled], P::VERSION) {
        let end = write_bad_version(out);
        return streams::write_all(stdout, &out[..end]);
    }
    if out.len() < P::LONGEST_LINE {
        return false;
    }
    let mut turn = Turn {
        control: store::Control::make(h0, h1, list).control,
        at: 1,
        number: 1,
        end: 0,
        more: true,
    };
    // every loop has to end: there are no more turns than entries can be counted
    for _ in 0..u64::MAX {
        let window = fetch_unstated::<P, R>(stdin, input, turn.at, filled);
        turn.at = window.at;
        filled = window.filled;
        let Some(end) = flush_unstated::<P, W>(stdout, out, turn.end) else {
            return false;
        };
        turn.end = end;
        let number = turn.number;
        let size = input.len();
        turn = P::take(turn, h0, h1, list, &input[..filled], size, out);
        if !turn.more || turn.number == number {
            break;
        }
    }
    streams::write_all(stdout, &out[..turn.end])
}

#[cfg(test)]
mod tests {
    use super::*;
    use crate::run_stated;

    // A program that writes the bytes of its input back, an entry each.
    struct Echo;

    impl Program for Echo {
        const VERSION: u8 = 7;

        const LONGEST_ENTRY: usize = 1;

        const LONGEST_LINE: usize = 1;

        ghost LONGEST_LINE = { 1 };

        fn take(
            mut turn: Turn,
            _h0: &mut [u32],
            _h1: &mut [u32],
            _list: &mut [u32],
            input: &[u8],
            _size: usize,
            out: &mut [u8],
        ) -> Turn {
            turn.more = turn.at < input.len();
            if turn.more {
                out[turn.end] = input[turn.at];
                turn.at += 1;
                turn.end += 1;
                turn.number = turn.number.saturating_add(1);
            }
            turn
        }
    }

    // Runs it on an input, through a buffer of two bytes and one of `room`, and gives what it answers, and the first bytes written.
    fn echoed(input: &[u8], room: usize) -> (bool, [u8; 8]) {
        let mut written = [0u8; 8];
        let mut lines = [0u8; 64];
        let mut rest = input;
        let mut output = &mut written[..];
        let whole = run::<Echo, _, _>(
            &mut rest,
            &mut output,
            &mut [0u32; 4],
            &mut [0u32; 4],
            &mut [0u32; 1],
            &mut [0u8; 2],
            &mut lines[..room.min(64)],
        );
        (whole, written)
    }

    // Runs the program for scripts on an input, through a buffer of `size` bytes, and gives what it answers, and what was written.
    fn scripted(stated: bool, input: &[u8], size: usize) -> (bool, [u8; 32]) {
        let mut written = [0u8; 32];
        let mut bytes = [0u8; 32];
        let mut rest = input;
        let mut output = &mut written[..];
        let (h0, h1, list, out) = (
            &mut [0u32; 4],
            &mut [0u32; 4],
            &mut [0u32; 1],
            &mut [0u8; 64],
        );
        let buffer = &mut bytes[..size.min(32)];
        let whole = if stated {
            run_stated::<Script, _, _>(&mut rest, &mut output, h0, h1, list, buffer, out)
        } else {
            run::<Script, _, _>(&mut rest, &mut output, h0, h1, list, buffer, out)
        };
        (whole, written)
    }

    #[test]
    fn runs_an_own_program(rt: HostRuntime) {
        for (input, room, want) in [
            (&b"\x07abcde"[..], 1, (true, *b"abcde\0\0\0")),
            (&b"\x07abcde"[..], 3, (true, *b"abcde\0\0\0")),
            (&b"\x07"[..], 1, (true, [0; 8])),
            (&b"\x07abc"[..], 0, (false, [0; 8])),
            (&b"\x07abcdefghi"[..], 1, (false, *b"abcdefgh")),
            (&b"\x01abc"[..], 64, (true, *b"0 15 0\n\0")),
        ] {
            assert_eq!(rt; echoed(input, room), want);
        }
    }

    // Three entries of nine bytes, the longest, which the buffer's end cuts at each place; and other version bytes.
    #[test]
    fn runs_scripts_by_the_numbers_of_their_specs(rt: HostRuntime) {
        for input in [
            &b"\x01\x08\x08\x00\x00\x00\x00\x00\x00\x01\x08\x08\x00\x00\x00\x00\x00\x00\x01\x08\x08\x00\x00\x00\x00\x00\x00\x01"[..],
            &b"\x02"[..],
            &b""[..],
        ] {
            for size in 9..32 {
                assert_eq!(rt; scripted(false, input, size), scripted(true, input, size));
            }
        }
    }
}
