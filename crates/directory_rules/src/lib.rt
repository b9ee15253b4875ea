// The plain types that the directory's rules (specs/) and its code share. This crate has no function.

#![tactic(auto)]

// What names the record at hand of a walk: field 0 of the record before it, field 1 of the group, or the directory's
// global.
#[derive(Clone, Copy)]
pub enum Via {
    Next,
    First,
    Top,
}

// Where a walk ended: whether at the record that it looked for, the register of the record at hand, what names that
// record, and how many links the walk had left. `found` is a flag and no Option, as what isn't found is put in at that place
// (`append`), and `place`, `absent` and `present` of the rules name it.
#[derive(Clone, Copy)]
pub struct Place {
    pub found: bool,
    pub at: u32,
    pub via: Via,
    pub left: usize,
}
