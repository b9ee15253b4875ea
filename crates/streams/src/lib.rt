// What the programs read and write by: std's `read` and `write`, but a call that a signal interrupts before it has moved a
// byte is made again. No function has a `requires`, and none answers an error.

#![tactic(auto)]

ghost use Rattle.std.specs.Io.KnownBytes.{Appends};
ghost use Rattle.std.specs.Bool.{OnTrue};
ghost use Rattle.streams.specs.Counts.{IsPrefixLen};

use std::io::{ErrorKind, Read, Write};

// Reads until buf is full, the input ends or a read fails, and answers how many bytes it put at the start of buf. Every loop
// has to end, so the reads are counted: there are no more than 2⁶⁴ − 1 of them, which no machine comes to.
pub fn read_full<R: Read>(input: &mut R, buf: &mut [u8]) -> usize
    ensures { IsPrefixLen result buf.new }
{
    let mut done = 0;
    for _ in 0..u64::MAX {
        if done == buf.len() {
            break;
        }
        match input.read(&mut buf[done..]) {
            Ok(0) => break,
            Ok(more) => done += more,
            Err(e) if e.kind() == ErrorKind::Interrupted => {}
            Err(_) => break,
        }
    }
    done
}

// Writes all of buf and answers true, or stops at the first write that takes nothing or fails and answers false, when some of buf may
// have been written. A bool and no error, since no caller asks for it.
pub fn write_all<W: Write>(output: &mut W, buf: &[u8]) -> bool
    ensures { OnTrue result (Appends (W.contents output.old) (W.contents output.new) buf.now) }
{
    output.write_all(buf).is_ok()
}
