// A program for tests: it puts any control record and any words before a call of the store or of the directory, and
// writes all that comes out. Its input is a row of cases, each in 32-bit words, big-endian: kind and four arguments of the
// call, three lent lengths, control record, eight links, then the words of half 0, half 1 and the list as far as they are
// lent. For each case it writes refusal number, value in two words, control record, the lent words, and a count with the
// words of a stretch, or with those that a list of the directory was lent. tests/programs/probe_program.py has both layouts.
// A case that is cut short or lends too much ends the program, and so does a reply that could not be written whole.

#![tactic(auto)]

mod words; // words.rt: words read from the input and written to the output
mod records; // records.rt: the control record out of the words of a case, and into those of a reply
mod cases; // cases.rt: a case, and the words that it lends
mod calls; // calls.rt: the call of a case, of the store
mod requests; // requests.rt: the call of a case, of the directory

use cases::{Case, Lent};
use records::CONTROL;
use std::io::{Read, Write};
use store::Control;
use words::MOST;

// The words of an answer, and those of a reply before the lent words. They are written at once.
const ANSWER: usize = 3;

const REPLY: usize = ANSWER + CONTROL;

// Writes the answer of a call, the control record after it, and the lent words. Answers whether all was written.
pub(crate) fn write_reply<W: Write>(
    stdout: &mut W,
    number: u32,
    value: u64,
    control: &Control,
    lent: &Lent,
) -> bool {
    let [upper, lower] = words::halves(value);
    let mut reply = [0u32; REPLY];
    reply[..ANSWER].copy_from_slice(&[number, upper, lower]);
    reply[ANSWER..].copy_from_slice(&records::words_of(control));
    words::write_words(stdout, &reply) & lent.write(stdout)
}

// Writes the words of the stretch of a case, after their count; for another call the count 0. Answers whether all were written.
fn write_stretch<W: Write>(stdout: &mut W, case: &Case, lent: &Lent) -> bool {
    if case.kind != calls::STRETCH {
        return words::write_words(stdout, &[0]);
    }
    let [s, register, ..] = case.arguments;
    let part = case
        .control
        .stretch(lent.half0, lent.half1, lent.list, s, register);
    words::write_counted(stdout, part)
}

// Makes the store's call of a case on the words lent, and writes what comes out. Answers whether all was written.
fn make_call<W: Write>(stdout: &mut W, case: &Case, lent: &mut Lent) -> bool {
    let reply = calls::call(case, lent);
    let number = rules::number_of(reply.answer);
    let value = rules::value_of(reply.answer);
    write_reply(stdout, number, value, &reply.control, lent) & write_stretch(stdout, case, lent)
}

// Reads a case and the words that it lends, makes its call and writes what comes out. Answers whether there may be another case.
fn take_case<R: Read, W: Write>(
    stdin: &mut R,
    stdout: &mut W,
    half0: &mut [u32],
    half1: &mut [u32],
    list: &mut [u32],
) -> bool {
    let Some(case) = Case::read(stdin) else {
        return false;
    };
    let Some(mut lent) = Lent::of(half0, half1, list, case.lengths) else {
        return false;
    };
    if !lent.read(stdin) {
        return false;
    }
    if requests::is_kind(case.kind) {
        requests::make_call(stdout, &case, &mut lent)
    } else {
        make_call(stdout, &case, &mut lent)
    }
}

// Takes the cases of the input, until it ends. Every loop has to end, so they are counted. The words that a case lends are the first
// of arrays that stand for all cases.
fn main(rt: HostRuntime) {
    let mut stdin = rt.stdin();
    let mut stdout = rt.stdout();
    let mut half0 = [0u32; MOST];
    let mut half1 = [0u32; MOST];
    let mut list = [0u32; MOST];
    for _ in 0..u64::MAX {
        if !take_case(&mut stdin, &mut stdout, &mut half0, &mut half1, &mut list) {
            return;
        }
    }
}
