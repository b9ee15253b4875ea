// Allocation: the tests, then a new record in one half or in both.
// No `?` in a call: refused or not, its reply hands the control record back.
ghost use Rattle.std.specs.Prelude.{◌≡◌, ℕ, ◌+◌, ◌≤◌, List, get_or};
ghost use Rattle.rules.specs.Refusals.{tested, tests_of};
ghost use Rattle.heap.specs.Halves.{word_of_colour};
ghost use Rattle.rules.specs.Memory.{most_count, next_reference};
ghost use Rattle.rules.specs.Control.{with_memory, most_length, last_session, last_register};
ghost use Rattle.rules.specs.Phases.{absent, with_charge};
ghost use Rattle.rules.specs.Barriers.{allocation_room, placed, allocated, allocated_reference};
ghost use Rattle.rules.specs.Calls.{within_share, with_register, charged, allocate};
ghost use Rattle.rules.specs.Runs.{apply, Allocate};
ghost use Rattle.store.specs.View.{view, viewed, outcome};
ghost use Rattle.store.specs.Allocation.{Small, Fits, last_tests, Room, Allocatable};

use crate::lent::Lent;
use crate::walking::reference;
use crate::{Control, Reply};
use heap::forwarding::other_half;
use heap::records::{Head, append_record};
use heap::{Colour, HEADER};
use rules::{Refusal, Session, Value};

impl Control {
    // Whether the halves that an allocation at this level writes have room: the current half, from level 3 on both.
    #[tactic(auto, unfolding(rules::specs::Barriers::allocation_room, rules::specs::Barriers::room_in, rules::specs::Memory::frontier, rules::specs::Memory::half))]
    fn allocation_room(&self, level: u32, r: u32, p: u32) -> bool
        requires { Small self.now r p }
        ensures { (h0 h1 l : List ℕ) → Fits self.now h0 h1 → result ≡ allocation_room (view self.now h0 h1 l) level r p }
    {
        let n = HEADER + (r as usize) + (p as usize);
        let low = self.cursor.frontier0 + n <= self.length0;
        let high = self.cursor.frontier1 + n <= self.length0;
        if 2 < level {
            return low & high;
        }
        if self.cursor.current == 0 { low } else { high }
    }

    // Whether a record of r and p fields may be charged to a session.
    #[tactic(auto, unfolding(rules::specs::Calls::within_share))]
    fn within_share(session: &Session, r: u32, p: u32) -> bool
        requires { (r ≤ most_count) × (p ≤ most_count) }
        ensures { result ≡ within_share session.now r p }
    {
        let n = HEADER + (r as usize) + (p as usize);
        (session.charge as usize) + n <= (session.share as usize)
    }

    // The tests 17, 14 and 16 of an allocation by a session.
    #[tactic(auto, unfolding(rules::specs::Calls::number_left))]
    fn last_tests(&self, session: &Session, r: u32, p: u32) -> Result<(), Refusal>
        requires { Small self.now r p }
        ensures { (h0 h1 l : List ℕ) → Fits self.now h0 h1 → tested result ≡ last_tests (view self.now h0 h1 l) session.now r p }
    {
        if !Control::within_share(session, r, p) {
            return Err(Refusal::PastShare);
        }
        if !self.allocation_room(session.level, r, p) {
            return Err(Refusal::NoRoom);
        }
        if self.births == Control::MOST_BIRTHS {
            return Err(Refusal::NoBirthNumber);
        }
        Ok(())
    }

    // The tests 4, 5, 6, 8, 10, 17, 14 and 16.
    #[tactic(auto, using(crate::proofs::allocation::Tests::allocation_tests), unfolding(rules::specs::Calls::allocate, rules::specs::Phases::session_at))]
    fn allocation_tests(
        &self,
        lent: Lent,
        s: u32,
        register: u32,
        r: u32,
        p: u32,
    ) -> Result<(), Refusal>
        ensures { tested result ≡ tests_of (allocate (viewed self.now lent.entry) s register r p) }
    {
        self.attached_tests(lent, s)?;
        if Control::LAST_REGISTER < register {
            return Err(Refusal::NoRegister);
        }
        let shape = (r <= Control::MOST_COUNT) & (p <= Control::MOST_COUNT);
        if !shape {
            return Err(Refusal::TooMany);
        }
        self.last_tests(&self.sessions[s as usize], r, p)
    }

    // A record of zero fields with a birth number at the frontier of half h.
    fn placed(
        self,
        h0: &mut [u32],
        h1: &mut [u32],
        h: u32,
        r: u32,
        p: u32,
        colour: Colour,
        replica: u32,
        birth: u32,
    ) -> Self
        requires { Room self h0.old h1.old h r p }
        ensures { (l : List ℕ) → view result h0.new h1.new l
            ≡ with_memory (view self h0.old h1.old l)
            (placed (view self h0.old h1.old l).memory h r p (word_of_colour colour) replica birth) }
    {
        let at = self.cursor.frontier(h);
        let n = (r as usize) + (p as usize);
        let head = Head {
            shape: 256 * r + p,
            colour: colour as u32,
            replica,
            birth,
        };
        append_record(h0, h1, h, at, head, n);
        self.with_frontier(h, at + (n + HEADER))
    }

    // The new record by the session's level: white or black in the current half, or a black copy in fromspace with a
    // white one in tospace, with the next birth number in each.
    fn allocated(self, h0: &mut [u32], h1: &mut [u32], level: u32, r: u32, p: u32) -> Self
        requires { Allocatable self h0.old h1.old level r p }
        ensures { (l : List ℕ) → view result h0.new h1.new l
            ≡ with_memory (view self h0.old h1.old l)
            (allocated (view self h0.old h1.old l) level r p) }
    {
        let birth = self.births + 1;
        let c = self.cursor;
        if level <= 1 {
            return self.placed(h0, h1, c.current, r, p, Colour::White, 0, birth);
        }
        if level <= 2 {
            return self.placed(h0, h1, c.current, r, p, Colour::Black, 0, birth);
        }
        let from = self.fromspace();
        let to = other_half(from);
        let old = reference(from, c.frontier(from));
        let new = reference(to, c.frontier(to));
        let first = self.placed(h0, h1, from, r, p, Colour::Black, new, birth);
        first.placed(h0, h1, to, r, p, Colour::White, old, birth)
    }

    // The half whose copy the register gets.
    fn allocated_half(self, level: u32) -> u32
        requires { self.cursor.current ≤ 1 }
        ensures { (result ≤ 1) × ((h0 h1 l : List ℕ) → next_reference (view self h0 h1 l).memory result ≡ allocated_reference (view self h0 h1 l) level) }
    {
        if level <= 2 {
            return self.cursor.current;
        }
        let from = self.fromspace();
        if level <= 5 {
            return from;
        }
        other_half(from)
    }

    // The reference that the register gets.
    fn allocated_reference(self, level: u32) -> u32
        requires { (self.cursor.current ≤ 1) × (self.cursor.frontier0 ≤ most_length) × (self.cursor.frontier1 ≤ most_length) }
        ensures { (h0 h1 l : List ℕ) → result ≡ allocated_reference (view self h0 h1 l) level }
    {
        let h = self.allocated_half(level);
        reference(h, self.cursor.frontier(h))
    }

    // A session with n more words charged to it, within its share.
    fn charged(mut session: Session, n: u32) -> Session
        requires { session.charge + n ≤ session.share }
        ensures { result ≡ with_charge session (session.charge + n) }
    {
        session.charge += n;
        session
    }

    // The control record with register k of session s set to v, and a record of n words, within its share, charged to the
    // session.
    fn given(mut self, s: u32, k: u32, v: u32, n: u32) -> Self
        requires { (s ≤ last_session) × (k ≤ last_register) × ((get_or self.sessions s absent).charge + n ≤ (get_or self.sessions s absent).share) }
        ensures { (h0 h1 l : List ℕ) → view result h0 h1 l ≡ charged (with_register (view self h0 h1 l) s k v) s n }
    {
        let i = s as usize;
        let mut session = self.sessions[i];
        session.registers[k as usize] = v;
        self.sessions[i] = Control::charged(session, n);
        self
    }

    // Allocate: the register gets a record of r null references and p zeros, its birth number is used, and its words are
    // charged to the session.
    #[tactic(auto, using(crate::proofs::allocation::Tests::allocating))]
    pub fn allocate(
        self,
        h0: &mut [u32],
        h1: &mut [u32],
        list: &[u32],
        s: u32,
        register: u32,
        r: u32,
        p: u32,
    ) -> Reply
        ensures { outcome result h0.new h1.new list.now
            ≡ apply (view self h0.old h1.old list.now) (Allocate s register r p) }
    {
        let lent = Lent {
            half0: h0,
            half1: h1,
            list,
        };
        match self.allocation_tests(lent, s, register, r, p) {
            Ok(()) => {
                let level = self.sessions[s as usize].level;
                let v = self.allocated_reference(level);
                let mut written = self.allocated(h0, h1, level, r, p);
                written.births = self.births + 1;
                Reply {
                    control: written.given(s, register, v, (HEADER as u32) + r + p),
                    answer: Ok(Value::Done),
                }
            }
            Err(refusal) => Reply {
                control: self,
                answer: Err(refusal),
            },
        }
    }
}
