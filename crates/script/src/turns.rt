// The entries of a script, one after another: the call of each, and its line.
ghost use Rattle.std.specs.Prelude.{◌≡◌, ℕ, ◌≤◌, List, length, MatchOption};
ghost use Rattle.script.specs.Turns.{turned, goes_on, turns, AllTaken, IsCall};

use crate::calls::call;
use crate::lines::write_line;
use crate::{Command, LONGEST_LINE, parse};
use rules::Refusal;

// What is left after some entries: the control record, the place and the number of the next entry, the end of the output
// so far, and whether there may be more to do: a flag, since the rest counts either way, as in `Left` (specs/Turns.antt).
// The end of the output stands beside the buffer, since the project has no heap and fixed memory.
#[derive(Clone, Copy)]
pub struct Turn {
    pub control: store::Control,
    pub at: usize,
    pub number: u64,
    pub end: usize,
    pub more: bool,
}

impl Turn {
    // Whether the next entry is done: it begins before stop, its line has room, and its number can be counted.
    #[tactic(auto, unfolding(crate::specs::Turns::goes_on))]
    fn goes_on(&self, stop: usize, out: &[u8]) -> bool
        ensures { (h0 h1 l : List ℕ) → result ≡ goes_on stop (turned self.now h0 h1 l out.now) }
    {
        self.more
            && self.at < stop
            && LONGEST_LINE <= out.len().saturating_sub(self.end)
            && self.number < u64::MAX
    }

    // The call of the next entry with the place of the entry after it; None where no call is left to make. An entry that is 15
    // gets its line here.
    fn next_call(&mut self, input: &[u8], stop: usize, out: &mut [u8]) -> Option<(Command, usize)>
        ensures next { MatchOption result
            (AllTaken stop input.now self.old out.old self.new out.new)
            (λ next. IsCall stop input.now self.old out.old next.0 next.1 self.new out.new) }
        ensures same { self.new ≡ record self.old { end = self.new.end; more = self.new.more } }
        ensures within { self.old.end ≤ length out.old → self.new.end ≤ length out.new }
    {
        if !self.goes_on(stop, out) {
            return None;
        }
        match parse(input, self.at) {
            Ok(found) => {
                self.more = found.is_some();
                found
            }
            Err(_) => {
                self.end = write_line(out, self.end, self.number, Err(Refusal::BadScript));
                self.more = false;
                None
            }
        }
    }
}

// Does the entries that are left: the call of each on the store, and its line at the end of the output. Goes on until none
// begins before stop, one is 15, the input ends, the output has not the room for any line, or the entry number can't be
// counted.
pub fn take_turns(
    mut turn: Turn,
    h0: &mut [u32],
    h1: &mut [u32],
    list: &mut [u32],
    input: &[u8],
    stop: usize,
    out: &mut [u8],
) -> Turn
    ensures left { turned result h0.new h1.new list.new out.new
        ≡ turns stop stop input.now (turned turn h0.old h1.old list.old out.old) }
    ensures counted { turn.number ≤ result.number }
    ensures reached { turn.at ≤ length input.now → result.at ≤ length input.now }
    ensures within { turn.end ≤ length out.old → result.end ≤ length out.new }
{
    while let Some((command, next)) = turn.next_call(input, stop, out) {
        let answer = call(&mut turn.control, h0, h1, list, command);
        turn.end = write_line(out, turn.end, turn.number, answer);
        turn.at = next;
        turn.number += 1;
    }
    turn
}
