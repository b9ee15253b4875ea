// The directory's call of a case: its kind is 100 and the kind that a directory script has for it, its arguments are those
// of the script, 32 bits each, and of open its share. A list's second argument is how many words it is lent; they are 1000,
// 1001 and so on before the call, and come at the end of the reply as the call left them.
use crate::cases::{Case, Lent};
use crate::{words, write_reply};
use directory::Reply;
use std::io::Write;

// The first kind and the last.
const OPEN: u32 = 116;

const LIST: u32 = 122;

// The most words that a list is lent.
const MOST_LENT: usize = 64;

// Whether a kind is one of the directory's.
pub(crate) fn is_kind(kind: u32) -> bool {
    (OPEN..=LIST).contains(&kind)
}

// Makes the call of a case on the words lent, and those for a list.
fn call(case: &Case, lent: &mut Lent, members: &mut [u32]) -> Reply {
    let control = case.control;
    let [a, b, ..] = case.arguments;
    let h0 = &mut *lent.half0;
    let h1 = &mut *lent.half1;
    let list = &mut *lent.list;
    match case.kind {
        OPEN => directory::open(control, h0, h1, list, a),
        117 => directory::add(control, h0, h1, list, a),
        118 => directory::remove(control, h0, h1, list, a),
        119 => directory::make_group(control, h0, h1, list, a),
        120 => directory::join(control, h0, h1, list, a, b),
        121 => directory::leave(control, h0, h1, list, a, b),
        _ => directory::list_members(control, h0, h1, list, a, members),
    }
}

// The words for a list, as they are before the call.
fn first_words() -> [u32; MOST_LENT] {
    let mut first = [0u32; MOST_LENT];
    for (word, value) in first.iter_mut().zip(1000..) {
        *word = value;
    }
    first
}

// Makes the call of a case, with words for a list, and writes what comes out. Answers whether all was written; a list that is to be
// lent more words than there are is not made.
pub(crate) fn make_call<W: Write>(stdout: &mut W, case: &Case, lent: &mut Lent) -> bool {
    let [_, count, ..] = case.arguments;
    let count = if case.kind == LIST { count } else { 0 };
    let mut first = first_words();
    let Some(members) = first.get_mut(..count as usize) else {
        return false;
    };
    let reply = call(case, lent, members);
    let value = reply.count() as u64;
    write_reply(stdout, reply.number(), value, &reply.control, lent)
        & words::write_counted(stdout, members)
}
