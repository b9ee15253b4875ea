// The text of a line: entry number, refusal number or 0, value.
ghost use Rattle.std.specs.Prelude.{◌≡◌, [], ◌∷◌, ◌++◌, ◌+◌, ◌≤◌, ◌<◌, length};
ghost use Rattle.std.proofs.lemmas.List.Edits.{sets};
ghost use Rattle.rules.specs.Script.{decimal, text_of};
ghost use Rattle.script.specs.Lines.{line, longest, version_refused, bad_version};

use rules::{Answer, Refusal, number_of, value_of};

// No line is longer than this: 20, 10 and 20 digits, two spaces and a newline.
pub const LONGEST_LINE: usize = 53;

// How many decimal digits a number has.
#[tactic(auto, using(crate::proofs::Digits::one_digit, crate::proofs::Digits::digits_from_power))]
fn digit_count(n: u64) -> usize
    ensures { result ≡ length (decimal n) }
{
    match n.checked_ilog10() {
        Some(k) => k as usize + 1,
        None => 1,
    }
}

// Puts a number's decimal digits at a place of the output and answers the place after them; nothing where there is no room for
// them.
#[tactic(auto, using(crate::proofs::Digits::kit_digits, crate::proofs::Digits::written_digits))]
pub fn write_decimal(out: &mut [u8], at: usize, n: u64) -> usize
    ensures end { at + length (decimal n) ≤ length out.old → result ≡ at + length (decimal n) }
    ensures text { at + length (decimal n) ≤ length out.old → out.new ≡ sets out.old at (decimal n) }
    ensures no_room { length out.old < at + length (decimal n) → (result ≡ at) × (out.new ≡ out.old) }
{
    let end = at.saturating_add(digit_count(n));
    if out.len() < end {
        return at;
    }
    itoa::write_digits(n, out, end);
    end
}

// The same with a byte after them.
#[tactic(auto, using(crate::proofs::Digits::written_byte))]
fn write_number(out: &mut [u8], at: usize, n: u64, after: u8) -> usize
    requires { at + length (decimal n) < length out.old }
    ensures end { result ≡ at + length (decimal n ++ (after ∷ [])) }
    ensures text { out.new ≡ sets out.old at (decimal n ++ (after ∷ [])) }
{
    let end = write_decimal(out, at, n);
    out[end] = after;
    end + 1
}

// Puts the line of an entry at a place of the output that has room for the longest one and answers the place after it.
#[tactic(auto, using(crate::proofs::Digits::line_lengths))]
pub(crate) fn write_line(out: &mut [u8], at: usize, entry: u64, answer: Answer) -> usize
    requires { at + longest ≤ length out.old }
    ensures end { result ≡ at + length (text_of (line entry answer)) }
    ensures text { out.new ≡ sets out.old at (text_of (line entry answer)) }
    ensures short { result ≤ at + longest }
{
    let refusal_at = write_number(out, at, entry, b' ');
    let value_at = write_number(out, refusal_at, number_of(answer) as u64, b' ');
    write_number(out, value_at, value_of(answer), b'\n')
}

// The line of an input whose version is bad, or that is empty, at the start of the output; nothing where there is no room
// for a line. Answers the end of what was written.
pub fn write_bad_version(out: &mut [u8]) -> usize
    ensures text { version_refused result out.new ≡ bad_version out.old }
    ensures within { result ≤ length out.new }
{
    if out.len() < LONGEST_LINE {
        return 0;
    }
    write_line(out, 0, 0, Err(Refusal::BadScript))
}
