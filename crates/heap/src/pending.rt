// Words that are going to be written, and words read through them.
ghost use Rattle.std.specs.Prelude.{◌≡◌, ◌+◌, ◌*◌, ◌^◌, ◌≤◌, ◌<◌, cond, ◌&&◌, eqb, set};
ghost use Rattle.rules.specs.Memory.{in_half, word_of};
ghost use Rattle.heap.specs.Pending.{laid, seen};

use crate::Pending;
use crate::forwarding::in_half;
use crate::words::word_of;

// The word of a pending one where that is word `at` of half h, else x. The references are compared whole: to take each apart, into its half
// and its place there, costs three times as much.
#[tactic(auto, using(crate::proofs::Laid::one_reference))]
fn over(p: Pending, h: u32, at: usize, x: u32) -> u32
    requires { (h ≤ 1) × (at < 2 ^ 61) }
    ensures { result ≡ cond (in_half h p.place && eqb (word_of p.place) at) p.word x }
{
    if p.place as usize == 2 * at + 2 + h as usize {
        p.word
    } else {
        x
    }
}

// Word `at` of half h with the pending words written, where it is x before that.
#[tactic(auto, unfolding(crate::specs::Pending::seen))]
pub(crate) fn seen_word(pending: &[Pending], h: u32, at: usize, x: u32) -> u32
    requires { (h ≤ 1) × (at < 2 ^ 61) }
    ensures { result ≡ seen h pending.now at x }
{
    let mut word = x;
    for p in pending {
        word = over(*p, h, at, word);
    }
    word
}

// Writes a pending word to a half, half h, where it is one of that half's.
#[tactic(auto, unfolding(rules::specs::Memory::in_half))]
fn put_in(half: &mut [u32], h: u32, p: Pending)
    ensures { half.new ≡ cond (in_half h p.place) (set half.old (word_of p.place) p.word) half.old }
{
    // the bound is tested here: what a slice holds after `get_mut` is not known to a proof
    if in_half(h, p.place) {
        let at = word_of(p.place);
        if at < half.len() {
            half[at] = p.word;
        }
    }
}

// Writes the pending words of a half, half h.
pub fn lay(half: &mut [u32], h: u32, pending: &[Pending])
    ensures { half.new ≡ laid h pending.now half.old }
{
    for p in pending {
        put_in(half, h, *p);
    }
}
