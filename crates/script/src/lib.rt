// The script: the entries of an input, the call of each, and the line that it gives.

#![tactic(auto)]

mod buffers; // buffers.rt: the programs' buffers, read on and written out
mod entries; // entries.rt: what stands at a place of the input
mod calls; // calls.rt: the call of an entry, made on the store
mod lines; // lines.rt: the text of a line
mod program; // program.rt: what the programs do with their input and output
mod turns; // turns.rt: the entries one after another, their calls and their lines
mod unstated; // unstated.rt: the same for a program whose specs don't state its numbers
mod window; // window.rt: which bytes of the input buffer hold entries that are still to be done

pub use calls::SCRIPT_SHARE;
pub use entries::{BadEntry, Command, decode, is_version, parse};
pub use lines::{LONGEST_LINE, write_bad_version, write_decimal};
pub use program::{Script, StatedProgram, run_stated};
pub use rules::{number_of, value_of};
pub use turns::{Turn, take_turns};
pub use unstated::{Program, run};
pub use window::{is_short, keep, stop_of};
