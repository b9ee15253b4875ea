// A case, and the words that it lends.
use crate::records::{self, CONTROL};
use crate::words;
use rules::Link;
use std::io::{Read, Write};
use store::Control;

// The words of the links: of each its field, then its register.
const LINKS: usize = 2 * rules::LINKS;

// Where the control record and the links of a case begin, and how many words it has. They are read at once.
const RECORD: usize = 8;

const LAST: usize = RECORD + CONTROL;

const CASE: usize = LAST + LINKS;

// The kind and the arguments of a call, how many words of half 0, of half 1 and of the list are lent, the control record, and
// the links.
#[derive(Clone, Copy)]
pub(crate) struct Case {
    pub(crate) kind: u32,
    pub(crate) arguments: [u32; 4],
    pub(crate) lengths: [u32; 3],
    pub(crate) control: Control,
    pub(crate) links: [Link; rules::LINKS],
}

// The links out of words.
fn links_of(words: &[u32; LINKS]) -> [Link; rules::LINKS] {
    let mut links = [Link { field: 0, from: 0 }; rules::LINKS];
    for (link, [field, from]) in links.iter_mut().zip(words.as_chunks::<2>().0) {
        *link = Link {
            field: *field,
            from: *from,
        };
    }
    links
}

impl Case {
    // The next case of the input, without the words that it lends.
    pub(crate) fn read<R: Read>(stdin: &mut R) -> Option<Case> {
        let mut words = [0u32; CASE];
        if !words::read_words(stdin, &mut words) {
            return None;
        }
        let [kind, a, b, c, d, length0, length1, capacity, ..] = words;
        let mut control = [0u32; CONTROL];
        control.copy_from_slice(&words[RECORD..LAST]);
        let mut links = [0u32; LINKS];
        links.copy_from_slice(&words[LAST..]);
        Some(Case {
            kind,
            arguments: [a, b, c, d],
            lengths: [length0, length1, capacity],
            control: records::control_of(&control),
            links: links_of(&links),
        })
    }
}

// The words that are lent to a call: the two halves and the list.
#[derive(Drop)]
pub(crate) struct Lent<'a> {
    pub(crate) half0: &'a mut [u32],
    pub(crate) half1: &'a mut [u32],
    pub(crate) list: &'a mut [u32],
}

impl<'a> Lent<'a> {
    // The first words of each, as many as a case lends, where there are as many.
    pub(crate) fn of(
        half0: &'a mut [u32],
        half1: &'a mut [u32],
        list: &'a mut [u32],
        lengths: [u32; 3],
    ) -> Option<Lent<'a>> {
        let [length0, length1, capacity] = lengths;
        Some(Lent {
            half0: half0.get_mut(..length0 as usize)?,
            half1: half1.get_mut(..length1 as usize)?,
            list: list.get_mut(..capacity as usize)?,
        })
    }

    // Fills them from the input. Answers whether it had as many.
    pub(crate) fn read<R: Read>(&mut self, stdin: &mut R) -> bool {
        words::read_words(stdin, self.half0)
            & words::read_words(stdin, self.half1)
            & words::read_words(stdin, self.list)
    }

    // Writes them to the output. Answers whether all were written.
    pub(crate) fn write<W: Write>(&self, stdout: &mut W) -> bool {
        words::write_words(stdout, self.half0)
            & words::write_words(stdout, self.half1)
            & words::write_words(stdout, self.list)
    }
}
