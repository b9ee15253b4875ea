// The load program: reads a seed and a count from standard input, four big-endian bytes each, and writes the load that
// they give to standard output.

#![tactic(auto)]

ghost use Rattle.std.specs.Prelude.{◌≤◌, length};
ghost use Rattle.workload.specs.Pieces.{longest_entry};

use std::io::Write;

// Writes what is still to come of a load, piece by piece, and answers whether all of it was written; after a write that
// failed there is no other. How many pieces there are shows only as they are filled, so the loop is a `while`.
fn write_load<W: Write>(stdout: &mut W, load: workload::Rest, out: &mut [u8]) -> bool
    requires { longest_entry ≤ length out.old }
{
    let mut rest = load;
    while workload::any_left(rest) {
        let piece = workload::fill(rest, out);
        if !streams::write_all(stdout, &out[..piece.end]) {
            return false;
        }
        rest = piece.rest;
    }
    true
}

// Nine bytes are asked for: an input of more than eight gives nothing. The program ends well on every input, so what
// `write_load` answers goes no further.
fn main(rt: HostRuntime) {
    let mut stdin = rt.stdin();
    let mut stdout = rt.stdout();
    let mut input = [0u8; 9];
    let mut out = [0u8; 4096];
    let got = streams::read_full(&mut stdin, &mut input);
    let load = workload::start(&input[..got]);
    write_load(&mut stdout, load, &mut out);
}
