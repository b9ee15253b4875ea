// Scanning the registers of a session, in two passes over the registers themselves: the first tests each of them and
// counts the different white records, the second shades these.
ghost use Rattle.std.specs.Prelude.{◌≡◌, ℕ, ◌+◌, ◌≤◌, ◌<◌, not, ◌||◌, eqb, length, get_or};
ghost use Rattle.rules.specs.Refusals.{checked};
ghost use Rattle.rules.specs.Memory.{null, colour_at};
ghost use Rattle.rules.specs.Control.{Store, register_count};
ghost use Rattle.rules.specs.Phases.{absent};
ghost use Rattle.rules.specs.Barriers.{shade_all};
ghost use Rattle.rules.specs.Collector.{scan_session};
ghost use Rattle.heap.specs.View.{memory, Inside};
ghost use Rattle.heap.specs.Halves.{as_memory};
ghost use Rattle.store.specs.Steps.{stepped};
ghost use Rattle.store.specs.Cursors.{having, Ready};
ghost use Rattle.store.specs.Work.{worked};
ghost use Rattle.store.specs.Marking.{among, whites_among, white_count, ending};

use crate::shade::shade_one;
use crate::work::{Next, Touch, Work};
use crate::{Control, Cursor};
use heap::Halves;
use rules::{Damage, Session};

// Whether v isn't null and isn't one of the registers before it.
fn is_new(before: &[u32], v: u32) -> bool
    ensures { result ≡ not (eqb v null || among v before.now) }
{
    (v != 0) && !before.contains(&v)
}

// The first pass: each register tested, and the different white records among them counted.
fn count_whites(halves: &Halves<'_>, registers: &[u32; Control::REGISTERS]) -> Result<usize, Damage>
    requires { length registers.now ≡ register_count }
    ensures { checked result ≡ white_count (as_memory halves.now) registers.now }
{
    let mut count: usize = 0;
    for (i, register) in registers.iter().enumerate() {
        let w = halves.to_shade(*register)?;
        if is_new(&registers[..i], w) {
            count += 1;
        }
    }
    Ok(count)
}

// The second pass, on tested registers: each record that is white at its turn is shaded, until the list, which ends at `tail` before
// it, ends at `last`, as the first pass counted.
fn shade_registers(
    h0: &mut [u32],
    h1: &mut [u32],
    list: &mut [u32],
    tail: usize,
    last: usize,
    registers: &[u32; Control::REGISTERS],
)
    // a colour doesn't depend on the frontiers: 0 stands for any
    requires { (length registers.now ≡ register_count)
        × ((j : ℕ) → j < register_count → (get_or registers.now j 0 ≡ null → ⊥) → Inside h0.old h1.old (get_or registers.now j 0) colour_at)
        × (last ≡ tail + length (whites_among (memory h0.old h1.old 0 0) registers.now)) × (last ≤ length list.old) }
    ensures { (s : Store) → ending s h0.new h1.new list.new last
        ≡ shade_all (ending s h0.old h1.old list.old tail)
        (whites_among (memory h0.old h1.old 0 0) registers.now) }
{
    let mut end = tail;
    for v in registers {
        if last <= end {
            break;
        }
        let w = Halves::new(h0, h1, 0, 0, &[]).if_white(*v);
        end = shade_one(h0, h1, list, end, w);
    }
}

impl Cursor {
    // The white records among the registers of session n are shaded, and it is marked scanned.
    #[tactic(auto, unfolding(rules::specs::Collector::scan_session, rules::specs::Phases::session_at, rules::specs::Phases::with_session))]
    pub(crate) fn scan_session(
        mut self,
        n: usize,
        session: &Session,
        h0: &mut [u32],
        h1: &mut [u32],
        list: &mut [u32],
    ) -> Work
        requires { Ready self h0.old h1.old × (self.tail ≤ length list.old) }
        ensures { (s : Store) → session.now.registers ≡ (get_or s.sessions n absent).registers
            → worked (having s self h0.new h1.new list.new) result
            ≡ stepped (having s self h0.old h1.old list.old)
            (scan_session (having s self h0.old h1.old list.old) n) }
    {
        let count = count_whites(&self.halves(h0, h1), &session.registers)?;
        if list.len() - self.tail < count {
            return Err(Damage);
        }
        let last = self.tail + count;
        shade_registers(h0, h1, list, self.tail, last, &session.registers);
        self.tail = last;
        Ok(Next {
            cursor: self,
            touch: Touch::Session(n, None),
        })
    }
}
