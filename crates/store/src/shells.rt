// Phase 5, Allocate: a shell in the other half for each record that isn't white and has no replica.
ghost use Rattle.std.specs.Prelude.{◌≡◌, ℕ, ◌+◌, List};
ghost use Rattle.rules.specs.Memory.{header, colour_at, replica_at, frontier, with_frontier};
ghost use Rattle.rules.specs.Control.{Store};
ghost use Rattle.rules.specs.Collector.{have_level, needs_shell, with_shell, allocate_shells};
ghost use Rattle.heap.specs.View.{memory, Has};
ghost use Rattle.heap.specs.Halves.{as_memory};
ghost use Rattle.store.specs.Steps.{stepped};
ghost use Rattle.store.specs.Cursors.{having, Ready};
ghost use Rattle.store.specs.Work.{worked};
ghost use Rattle.store.specs.Shells.{Shelled};

use crate::Cursor;
use crate::walking::reference;
use crate::work::Work;
use heap::forwarding::other_half;
use heap::records::{Head, append_record};
use heap::words::put_word;
use heap::{BIRTH_AT, COLOUR_AT, Colour, HEADER, Halves, REPLICA_AT, SHAPE_AT};
use rules::{Damage, Followed};

// Whether the record v isn't white and has no replica.
#[tactic(auto, unfolding(rules::specs::Collector::needs_shell, rules::specs::Memory::colour, rules::specs::Memory::replica))]
fn needs_shell(halves: &Halves<'_>, v: u32) -> bool
    requires { Has (as_memory halves.now) v colour_at × Has (as_memory halves.now) v replica_at }
    ensures { result ≡ needs_shell (as_memory halves.now) v }
{
    let colour = halves.word(v, COLOUR_AT);
    let replica = halves.word(v, REPLICA_AT);
    (colour != Colour::White as u32) & (replica == 0)
}

// A shell for the record v of n fields at a word of the other half, with its birth number, and the replica words of both.
fn put_shell(h0: &mut [u32], h1: &mut [u32], other: u32, at: usize, v: u32, n: usize)
    requires { Shelled h0.old h1.old other at v n }
    ensures { (f0 f1 : ℕ) → frontier (memory h0.old h1.old f0 f1) other ≡ at
        → with_frontier (memory h0.new h1.new f0 f1) other (at + (n + header))
        ≡ with_shell (memory h0.old h1.old f0 f1) other v }
{
    let halves = Halves::new(h0, h1, 0, 0, &[]);
    let head = Head {
        shape: halves.word(v, SHAPE_AT),
        colour: Colour::White as u32,
        replica: v,
        birth: halves.word(v, BIRTH_AT),
    };
    append_record(h0, h1, other, at, head, n);
    put_word(h0, h1, v, REPLICA_AT, reference(other, at));
}

impl Cursor {
    // Phase 5: the next record gets its shell where it needs one; at the frontier the handshake.
    #[tactic(auto, unfolding(rules::specs::Collector::allocate_shells, rules::specs::Collector::past_record, rules::specs::Memory::follow, rules::specs::Memory::followed))]
    pub(crate) fn allocate_shells(self, ready: bool, h0: &mut [u32], h1: &mut [u32]) -> Work
        requires { Ready self h0.old h1.old }
        ensures { (s : Store) (l : List ℕ) → ready ≡ have_level (having s self h0.old h1.old l)
            → worked (having s self h0.new h1.new l) result
            ≡ stepped (having s self h0.old h1.old l)
            (allocate_shells (having s self h0.old h1.old l)) }
    {
        if !self.below() {
            return Ok(self.handshake(ready));
        }
        let v = self.walked();
        let halves = self.halves(h0, h1);
        let Followed::Sound(_, r, p) = halves.follow(v) else {
            return Err(Damage);
        };
        let n = (r as usize) + (p as usize);
        if !needs_shell(&halves, v) {
            return Ok(self.past_record(n + HEADER));
        }
        let other = other_half(self.current);
        let at = self.frontier(other);
        if h0.len() < at + (n + HEADER) {
            return Err(Damage);
        }
        put_shell(h0, h1, other, at, v, n);
        let grown = self.with_frontier(other, at + (n + HEADER));
        Ok(grown.past_record(n + HEADER))
    }
}
