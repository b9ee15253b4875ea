// Code over the two lent halves, without the control record: following, reading and writing words, writing records,
// forwarding, shading, comparing, and planning what a store or a put writes.
// The contract of each function that another crate calls is one equation with a definition of the crate rules, or with a
// part of one that `View.antt` names.
// A reference is a word as any other, and null, which is 0, is one: so "none" is that and no Option. A half is a number, 0 or 1, as the
// parity of its references gives it.

#![tactic(auto)]

mod halves; // halves.rt: what the functions look at
pub mod following;
pub mod forwarding;
pub mod pending;
pub mod records;
pub mod same;
pub mod shades;
pub mod stores;
pub mod words;

pub use halves::{Halves, Heap, Pending};

// The words of a record before its fields, and which of them is the shape, the colour, the replica and the birth number.
pub const HEADER: usize = 4;

pub const SHAPE_AT: usize = 0;

pub const COLOUR_AT: usize = 1;

pub const REPLICA_AT: usize = 2;

pub const BIRTH_AT: usize = 3;

// The largest shape word.
pub const MOST_SHAPE: u32 = 65535;

// The colours, each with its word.
#[derive(Clone, Copy)]
pub enum Colour {
    White = 0,
    Grey = 1,
    Black = 2,
}
