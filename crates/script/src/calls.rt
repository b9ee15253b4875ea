// The call of an entry, made on the store. The halves and the list are lent one by one, as the store's calls take them.
ghost use Rattle.std.specs.Prelude.{◌≡◌};
ghost use Rattle.rules.specs.Runs.{apply};
ghost use Rattle.store.specs.View.{view};
ghost use Rattle.script.specs.Commands.{calling, answered};

use crate::Command;
use rules::Answer;

// The share of a session that a script attaches.
pub const SCRIPT_SHARE: u32 = 4294967295;

// Makes the call of a command and answers what the store answers. Read, write and same leave the control record as it came, so
// theirs isn't copied back (an entry that reads or writes would take a third more instructions).
#[tactic(auto, using(crate::proofs::Keeping::keeping))]
pub(crate) fn call(
    control: &mut store::Control,
    h0: &mut [u32],
    h1: &mut [u32],
    list: &mut [u32],
    command: Command,
) -> Answer
    ensures { answered control.new result h0.new h1.new list.new
        ≡ apply (view control.old h0.old h1.old list.old) (calling command) }
{
    let reply = match command {
        Command::Attach(s) => control.attach(h0, h1, list, s, SCRIPT_SHARE),
        Command::Detach(s) => control.detach(h0, h1, list, s),
        Command::SafePoint(s) => control.safe_point(h0, h1, list, s),
        Command::Allocate(s, k, r, p) => control.allocate(h0, h1, list, s, k, r, p),
        Command::Load(s, to, k, i) => control.load(h0, h1, list, s, to, k, i),
        Command::Store(s, k, i, from) => control.store(h0, h1, list, s, k, i, from),
        Command::Read(s, k, i) => return control.read(h0, h1, list, s, k, i).answer,
        Command::Write(s, k, i, a) => return control.write(h0, h1, list, s, k, i, a).answer,
        Command::Move(s, to, from) => control.move_register(h0, h1, list, s, to, from),
        Command::Clear(s, k) => control.clear(h0, h1, list, s, k),
        Command::Same(s, a, b) => return control.same(h0, h1, list, s, a, b).answer,
        Command::Get(s, to, g) => control.get(h0, h1, list, s, to, g),
        Command::Put(s, g, from) => control.put(h0, h1, list, s, g, from),
        Command::Step => control.step(h0, h1, list),
    };
    *control = reply.control;
    reply.answer
}
