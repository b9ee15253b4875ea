// The entries of the directory's own kinds: length byte, kind byte, argument bytes.
ghost use Rattle.std.specs.Prelude.{◌≡◌, ◌≤◌, length};
ghost use Rattle.directory_main.specs.Entries.{lent_by, entry_of};
ghost use Rattle.directory_main.specs.Window.{end_of};

// A call of the directory, a variant for each kind, with its arguments in the script's order; of list, the group and how
// many words are lent.
#[derive(Clone, Copy, Debug, PartialEq, Eq)]
pub(crate) enum Request {
    Open,
    Add(u32),
    Remove(u32),
    Make(u32),
    Join(u32, u32),
    Leave(u32, u32),
    List(u32, u8),
}

// The request of an entry, given all its bytes, the length byte among them, as far as the input has them; None for an entry of
// another kind, which the script knows or is 15.
#[tactic(auto, using(crate::proofs::Sizes::reading), unfolding(crate::specs::Entries::kind_of, crate::specs::Entries::kinds, rules::specs::Script::number_at))]
pub(crate) fn read_entry(bytes: &[u8]) -> Option<Request>
    ensures { result ≡ entry_of bytes.now }
{
    let [size, kind, arguments @ ..] = bytes else {
        return None;
    };
    if *size as usize + 1 != bytes.len() {
        return None;
    }
    Some(match (*kind, arguments) {
        (16, &[]) => Request::Open,
        (17, &[a, b, c, d]) => Request::Add(u32::from_be_bytes([a, b, c, d])),
        (18, &[a, b, c, d]) => Request::Remove(u32::from_be_bytes([a, b, c, d])),
        (19, &[a, b, c, d]) => Request::Make(u32::from_be_bytes([a, b, c, d])),
        (20, &[a, b, c, d, e, f, g, h]) => Request::Join(
            u32::from_be_bytes([a, b, c, d]),
            u32::from_be_bytes([e, f, g, h]),
        ),
        (21, &[a, b, c, d, e, f, g, h]) => Request::Leave(
            u32::from_be_bytes([a, b, c, d]),
            u32::from_be_bytes([e, f, g, h]),
        ),
        (22, &[a, b, c, d, lent]) => Request::List(u32::from_be_bytes([a, b, c, d]), lent),
        _ => return None,
    })
}

// How many words a request is lent.
pub(crate) fn lent_by(request: Request) -> usize
    ensures count { result ≡ lent_by request }
    ensures small { result ≤ 255 }
{
    match request {
        Request::List(_, lent) => lent.into(),
        _ => 0,
    }
}

// Where the entry at a place ends, as far as the input has it.
#[tactic(auto, unfolding(crate::specs::Window::end_of))]
pub(crate) fn end_of(input: &[u8], at: usize) -> usize
    requires { at ≤ length input.now }
    ensures end { result ≡ end_of input.now at }
    ensures on { at ≤ result }
    ensures within { result ≤ length input.now }
{
    let size = input.get(at).copied().unwrap_or(0);
    (at + 1 + size as usize).min(input.len())
}
