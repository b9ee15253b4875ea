// The directory's program: does the script on standard input, with calls of the directory among its entries, on a store
// over its own halves and list, and writes a line for each entry to standard output.

#![tactic(auto)]

mod entries; // entries.rt: the entries of the directory's own kinds
mod lines; // lines.rt: the text of their lines
mod turns; // turns.rt: one entry, its call and its line

ghost use Rattle.directory_main.specs.Lines.{longest};
ghost use Rattle.directory_main.specs.Window.{longest_entry, version};

use script::{StatedProgram, Turn};

// The program for scripts with calls of the directory.
struct Directory;

impl StatedProgram for Directory {
    const VERSION: u8 = 2;

    const LONGEST_ENTRY: usize = 10;

    const LONGEST_LINE: usize = lines::LONGEST_LINE;

    ghost VERSION = { version };

    ghost LONGEST_ENTRY = { longest_entry };

    ghost LONGEST_LINE = { longest };

    fn take(
        turn: Turn,
        h0: &mut [u32],
        h1: &mut [u32],
        list: &mut [u32],
        input: &[u8],
        _size: usize,
        out: &mut [u8],
    ) -> Turn {
        if turn.number == u64::MAX {
            return turn;
        }
        let number = turn.number + 1;
        let at = entries::end_of(input, turn.at);
        let entry = &input[turn.at..at];
        let taken = turns::take_turn(turn, h0, h1, list, entry, out);
        Turn {
            at,
            number,
            ..taken
        }
    }
}

// The program ends well on every input, so what `run` answers goes no further.
fn main(rt: HostRuntime) {
    let mut half0 = [0u32; 4096];
    let mut half1 = [0u32; 4096];
    let mut list = [0u32; 1365];
    let mut input = [0u8; 4096];
    let mut out = [0u8; 4096];
    script::run_stated::<Directory, _, _>(
        &mut rt.stdin(),
        &mut rt.stdout(),
        &mut half0,
        &mut half1,
        &mut list,
        &mut input,
        &mut out,
    );
}
