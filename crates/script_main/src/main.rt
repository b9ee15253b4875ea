// The script program: does the script on standard input on a store over its own halves and list, and writes a line for
// each entry to standard output.

#![tactic(auto)]

// The program ends well on every input, so what `run` answers goes no further.
fn main(rt: HostRuntime) {
    let mut half0 = [0u32; 4096];
    let mut half1 = [0u32; 4096];
    let mut list = [0u32; 1365];
    let mut input = [0u8; 4096];
    let mut out = [0u8; 4096];
    script::run_stated::<script::Script, _, _>(
        &mut rt.stdin(),
        &mut rt.stdout(),
        &mut half0,
        &mut half1,
        &mut list,
        &mut input,
        &mut out,
    );
}
