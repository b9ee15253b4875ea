// Words read from standard input and written to standard output, big-endian. What reads or writes answers by a bool whether all
// were there or were taken: where one part fails, the other parts of a case are tried all the same.
use std::io::{Read, Write};

// The most words that are read or written at once.
pub(crate) const MOST: usize = 1024;

const BYTES: usize = 4 * MOST;

// The two words of a number, the upper one first.
pub(crate) fn halves(x: u64) -> [u32; 2] {
    [(x >> 32) as u32, (x & 0xffff_ffff) as u32]
}

// Fills the words from standard input. Answers whether it had as many.
pub(crate) fn read_words<R: Read>(stdin: &mut R, words: &mut [u32]) -> bool {
    if MOST < words.len() {
        return false;
    }
    let mut bytes = [0u8; BYTES];
    let part = &mut bytes[..4 * words.len()];
    if streams::read_full(stdin, part) < part.len() {
        return false;
    }
    for (word, bytes) in words.iter_mut().zip(part.as_chunks().0) {
        *word = u32::from_be_bytes(*bytes);
    }
    true
}

// Writes the words to standard output. Answers whether all were written.
pub(crate) fn write_words<W: Write>(stdout: &mut W, words: &[u32]) -> bool {
    if MOST < words.len() {
        return false;
    }
    let mut bytes = [0u8; BYTES];
    let part = &mut bytes[..4 * words.len()];
    for (bytes, word) in part.as_chunks_mut().0.iter_mut().zip(words) {
        *bytes = word.to_be_bytes();
    }
    streams::write_all(stdout, part)
}

// Writes how many words there are, and the words. Answers whether all were written.
pub(crate) fn write_counted<W: Write>(stdout: &mut W, words: &[u32]) -> bool {
    let [_, count] = halves(words.len() as u64);
    write_words(stdout, &[count]) & write_words(stdout, words)
}
