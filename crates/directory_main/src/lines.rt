// The text of a line: entry number, refusal number or 0, value, and the members that a list wrote.
ghost use Rattle.std.specs.Prelude.{◌≡◌, ◌∷◌, ◌+◌, ◌*◌, ◌≤◌, length};
ghost use Rattle.std.proofs.lemmas.List.Edits.{sets};
ghost use Rattle.rules.specs.Script.{decimal, space};
ghost use Rattle.directory_main.specs.Lines.{longest, words_text, line_text};

// No line is longer than this: 20, 10 and 20 digits, 255 members of 10 digits, 257 spaces and a newline.
pub(crate) const LONGEST_LINE: usize = 2858;

// Puts a space and a number's decimal digits at a place of the output and answers the place after them.
fn put_next(out: &mut [u8], at: usize, n: u64) -> usize
    requires { at + 1 + length (decimal n) ≤ length out.old }
    ensures end { result ≡ at + length (space ∷ decimal n) }
    ensures text { out.new ≡ sets out.old at (space ∷ decimal n) }
{
    out[at] = b' ';
    script::write_decimal(out, at + 1, n)
}

// Puts some words at a place of the output, each after a space, and answers the place after them.
fn put_words(out: &mut [u8], at: usize, words: &[u32]) -> usize
    requires { at + 11 * length words.now ≤ length out.old }
    ensures end { result ≡ at + length (words_text words.now) }
    ensures text { out.new ≡ sets out.old at (words_text words.now) }
    ensures short { result ≤ at + 11 * length words.now }
{
    let mut end = at;
    for word in words {
        end = put_next(out, end, u64::from(*word));
    }
    end
}

// Puts a line at a place of the output that has room for the longest one and answers the place after it.
#[tactic(auto, using(script::proofs::Digits::line_lengths))]
pub(crate) fn write_line(
    out: &mut [u8],
    at: usize,
    entry: u64,
    refusal: u32,
    value: u64,
    words: &[u32],
) -> usize
    requires { (at + longest ≤ length out.old) × (length words.now ≤ 255) }
    ensures end { result ≡ at + length (line_text entry refusal value words.now) }
    ensures text { out.new ≡ sets out.old at (line_text entry refusal value words.now) }
    ensures short { result ≤ at + longest }
{
    let first = script::write_decimal(out, at, entry);
    let second = put_next(out, first, refusal as u64);
    let third = put_next(out, second, value);
    let end = put_words(out, third, words);
    out[end] = b'\n';
    end + 1
}
