// The input buffer: which of its bytes hold entries that are still to be done. How much of it is filled stands beside it, since the
// project has no heap and fixed memory.
ghost use Rattle.std.specs.Prelude.{◌≡◌, length};
ghost use Rattle.std.proofs.Math.Seq.{slice};
ghost use Rattle.script.specs.Window.{is_short, stop_of, kept};

// The bytes of a script's longest entry that isn't 15, its length byte among them.
pub(crate) const LONGEST_ENTRY: usize = 9;

// Whether an entry at this place, of at most so many bytes, may run past what is filled. A buffer that isn't full holds the end
// of the input.
#[tactic(auto, unfolding(crate::specs::Window::is_short))]
pub fn is_short(longest: usize, at: usize, filled: usize, size: usize) -> bool
    ensures { result ≡ is_short longest at filled size }
{
    size <= filled && filled.saturating_sub(at) < longest
}

// Where the entries of a script that are wholly in the buffer stop: an entry that begins before this place has all its bytes
// there, as far as the input has them.
#[tactic(auto, unfolding(crate::specs::Window::stop_of))]
pub fn stop_of(filled: usize, size: usize) -> usize
    ensures { result ≡ stop_of filled size }
{
    if filled < size {
        filled
    } else {
        filled.saturating_sub(LONGEST_ENTRY - 1)
    }
}

// Moves the bytes from a place up to what is filled to the front of the buffer and answers how many they are.
#[tactic(auto, using(crate::proofs::Moving::moved))]
pub fn keep(input: &mut [u8], at: usize, filled: usize) -> usize
    ensures count { result ≡ length (slice at filled input.old) }
    ensures bytes { input.new ≡ kept input.old at filled }
{
    let end = filled.min(input.len());
    let start = at.min(end);
    input.copy_within(start..end, 0);
    end - start
}
