// The entries of a script: length byte, kind byte, argument bytes.
ghost use Rattle.std.specs.Prelude.{◌≡◌, ◌&&◌, eqb, get_or, length, ltb};
ghost use Rattle.rules.specs.Script.{call_of, entry_at};
ghost use Rattle.script.specs.Commands.{tested, found};

// The call of an entry, a variant for each kind, with its arguments in the script's order.
#[derive(Clone, Copy, Debug, PartialEq, Eq)]
pub enum Command {
    Attach(u32),
    Detach(u32),
    SafePoint(u32),
    Allocate(u32, u32, u32, u32),
    Load(u32, u32, u32, u32),
    Store(u32, u32, u32, u32),
    Read(u32, u32, u32),
    Write(u32, u32, u32, u32),
    Move(u32, u32, u32),
    Clear(u32, u32),
    Same(u32, u32, u32),
    Get(u32, u32, u32),
    Put(u32, u32, u32),
    Step,
}

// An entry that is 15.
#[derive(Clone, Copy, Debug, PartialEq, Eq)]
pub struct BadEntry;

// The call that a body makes.
#[tactic(auto, using(crate::proofs::Sizes::decoding), unfolding(rules::specs::Script::kind_of, rules::specs::Script::kinds))]
pub fn decode(body: &[u8]) -> Result<Command, BadEntry>
    ensures { tested result ≡ call_of body.now }
{
    let [kind, arguments @ ..] = body else {
        return Err(BadEntry);
    };
    Ok(match (*kind, arguments) {
        (1, &[s]) => Command::Attach(s.into()),
        (2, &[s]) => Command::Detach(s.into()),
        (3, &[s]) => Command::SafePoint(s.into()),
        (4, &[s, k, r, p]) => Command::Allocate(s.into(), k.into(), r.into(), p.into()),
        (5, &[s, to, k, i]) => Command::Load(s.into(), to.into(), k.into(), i.into()),
        (6, &[s, k, i, from]) => Command::Store(s.into(), k.into(), i.into(), from.into()),
        (7, &[s, k, i]) => Command::Read(s.into(), k.into(), i.into()),
        (8, &[s, k, i, a, b, c, d]) => Command::Write(
            s.into(),
            k.into(),
            i.into(),
            u32::from_be_bytes([a, b, c, d]),
        ),
        (9, &[s, to, from]) => Command::Move(s.into(), to.into(), from.into()),
        (10, &[s, k]) => Command::Clear(s.into(), k.into()),
        (11, &[s, a, b]) => Command::Same(s.into(), a.into(), b.into()),
        (12, &[s, to, g]) => Command::Get(s.into(), to.into(), g.into()),
        (13, &[s, g, from]) => Command::Put(s.into(), g.into(), from.into()),
        (14, &[]) => Command::Step,
        _ => return Err(BadEntry),
    })
}

// What stands at a place of the input: nothing more, an entry that is 15, or a call and the place of the next entry.
pub fn parse(bytes: &[u8], at: usize) -> Result<Option<(Command, usize)>, BadEntry>
    ensures { found result ≡ entry_at bytes.now at }
{
    let Some(&size) = bytes.get(at) else {
        return Ok(None);
    };
    let start = at + 1;
    let end = start + size as usize;
    let Some(body) = bytes.get(start..end) else {
        return Err(BadEntry);
    };
    Ok(Some((decode(body)?, end)))
}

// Whether the input begins with this version byte.
pub fn is_version(input: &[u8], version: u8) -> bool
    ensures { result ≡ (ltb 0 (length input.now) && eqb (get_or input.now 0 0) version) }
{
    input.first() == Some(&version)
}
