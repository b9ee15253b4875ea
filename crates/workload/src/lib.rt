// The test load: a script that everyone can make again from a seed and a count.

#![tactic(auto)]

mod generator; // generator.rt: the values
mod entries; // entries.rt: the entries drawn from them
mod pieces; // pieces.rt: the load, piece by piece

pub use pieces::{LONGEST_ENTRY, Piece, Rest, any_left, asked, fill, start};
