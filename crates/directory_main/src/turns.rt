// One entry: its call, and its line.
// The halves and the list are lent one by one, as the directory's calls take them.
ghost use Rattle.std.specs.Prelude.{◌+◌, ◌≤◌, ◌≡◌, length};
ghost use Rattle.store.specs.View.{view};
ghost use Rattle.directory_rules.specs.Directory.{directory_call};
ghost use Rattle.directory.specs.View.{left};
ghost use Rattle.directory_main.specs.Entries.{asked, lent_by};
ghost use Rattle.directory_main.specs.Lines.{longest};
ghost use Rattle.directory_main.specs.Turns.{words_of, turned, own_turn, turn_of};

use crate::entries::{Request, lent_by, read_entry};
use crate::lines::write_line;
use script::Turn;

// Makes a request, a list with the words lent to it.
fn make_request(
    control: store::Control,
    h0: &mut [u32],
    h1: &mut [u32],
    list: &mut [u32],
    request: Request,
    lent: &mut [u32],
) -> directory::Reply
    ensures { left result h0.new h1.new list.new (words_of request lent.new)
        ≡ directory_call (view control h0.old h1.old list.old) (asked request lent.old) }
{
    match request {
        Request::Open => directory::open(control, h0, h1, list, script::SCRIPT_SHARE),
        Request::Add(n) => directory::add(control, h0, h1, list, n),
        Request::Remove(n) => directory::remove(control, h0, h1, list, n),
        Request::Make(g) => directory::make_group(control, h0, h1, list, g),
        Request::Join(n, g) => directory::join(control, h0, h1, list, n, g),
        Request::Leave(n, g) => directory::leave(control, h0, h1, list, n, g),
        Request::List(g, _) => directory::list_members(control, h0, h1, list, g, lent),
    }
}

// Makes a request, a list with the words lent to it, and writes its line with the words that were written.
fn take_own(
    turn: Turn,
    h0: &mut [u32],
    h1: &mut [u32],
    list: &mut [u32],
    request: Request,
    lent: &mut [u32],
    out: &mut [u8],
) -> Turn
    requires { (turn.end + longest ≤ length out.old) × (length lent.old ≤ 255) × (length lent.old ≡ lent_by request) }
    ensures left { turned result h0.new h1.new list.new out.new
        ≡ own_turn (view turn.control h0.old h1.old list.old) request lent.old turn.number out.old turn.end }
    ensures within { result.end ≤ length out.new }
{
    let reply = make_request(turn.control, h0, h1, list, request, lent);
    let count = reply.count();
    let shown = count.min(lent.len());
    let end = write_line(
        out,
        turn.end,
        turn.number,
        reply.number(),
        count as u64,
        &lent[..shown],
    );
    Turn {
        control: reply.control,
        end,
        more: true,
        ..turn
    }
}

// Does one entry, given all its bytes: a call of the directory here, any other by the script, for which 15 and the end of
// the input are the last.
pub(crate) fn take_turn(
    turn: Turn,
    h0: &mut [u32],
    h1: &mut [u32],
    list: &mut [u32],
    bytes: &[u8],
    out: &mut [u8],
) -> Turn
    requires { turn.end + longest ≤ length out.old }
    ensures left { turned result h0.new h1.new list.new out.new
        ≡ turn_of (view turn.control h0.old h1.old list.old) bytes.now turn.number out.old turn.end }
    ensures within { result.end ≤ length out.new }
{
    match read_entry(bytes) {
        Some(request) => {
            let mut words = [0; 255];
            let lent = &mut words[..lent_by(request)];
            take_own(turn, h0, h1, list, request, lent, out)
        }
        None => {
            let begun = Turn {
                at: 0,
                more: true,
                ..turn
            };
            script::take_turns(begun, h0, h1, list, bytes, 1, out)
        }
    }
}
