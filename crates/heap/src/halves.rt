// What the functions of this crate look at: the lent halves, and with them what a barrier needs.
ghost use Rattle.std.specs.Prelude.{◌≤◌, length};

// A word that is going to be written: its reference, null for none, and what it gets.
#[derive(Clone, Copy)]
pub struct Pending {
    pub place: u32,
    pub word: u32,
}

// The lent halves, where the records of each end, and the words that are going to be written, in the order of writing. Every word
// is read as it will be then.
#[derive(Clone, Copy)]
pub struct Halves<'a> {
    pub half0: &'a [u32],
    pub half1: &'a [u32],
    pub frontier0: usize,
    pub frontier1: usize,
    pub pending: &'a [Pending],
    ghost low: { frontier0 ≤ length half0.now },
    ghost high: { frontier1 ≤ length half1.now },
}

// What a barrier looks at: the halves, which of them is fromspace, and the end and the length of the grey list.
#[derive(Clone, Copy)]
pub struct Heap<'a> {
    pub halves: Halves<'a>,
    pub from: u32,
    pub tail: usize,
    pub capacity: usize,
    ghost listed: { tail ≤ capacity },
}
