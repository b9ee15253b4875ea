// What a call is lent beside the control record, to be read: the two halves and the grey list. The exported calls keep the three
// apart, which their contracts name (docs/CALLS.md); a phase takes those that it reads or writes.

#[derive(Clone, Copy)]
pub struct Lent<'a> {
    pub half0: &'a [u32],
    pub half1: &'a [u32],
    pub list: &'a [u32],
}
