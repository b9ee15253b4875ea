// The calls that read a field of the record in a register: load and read. Of both the tests on the record itself, for a
// crate above that makes many such calls of one session: it tests the session once and goes from reference to reference.
ghost use Rattle.std.specs.Prelude.{◌≡◌};
ghost use Rattle.rules.specs.Refusals.{tested};
ghost use Rattle.rules.specs.Calls.{load_plan};
ghost use Rattle.rules.specs.Runs.{apply, Load, Read};
ghost use Rattle.heap.specs.View.{memory};
ghost use Rattle.heap.specs.Halves.{as_memory};
ghost use Rattle.store.specs.View.{view, viewed, outcome, answered};
ghost use Rattle.store.specs.Fields.{named, reference_in, word_in, field_reference, field_word};

use crate::lent::Lent;
use crate::{Control, Cursor, Reply};
use heap::{HEADER, Halves};
use rules::{Answer, Followed, Refusal, Value};

// 12, 13: what a reference field of the record that v names holds.
#[tactic(auto, unfolding(rules::specs::Memory::follow, rules::specs::Memory::followed, crate::specs::Fields::reference_in))]
fn reference_in(halves: &Halves<'_>, v: u32, field: u32) -> Result<u32, Refusal>
    ensures { tested result ≡ reference_in (as_memory halves.now) v field }
{
    let Followed::Sound(_, r, _) = halves.follow(v) else {
        return Err(Refusal::Damaged);
    };
    if r <= field {
        return Err(Refusal::NoField);
    }
    Ok(halves.word(v, HEADER + (field as usize)))
}

// 12, 13: the word of a plain field of the record that v names. Not one function with the other: the rules tell the two kinds apart, and
// a flag for the kind would stand in both contracts.
#[tactic(auto, unfolding(rules::specs::Memory::follow, rules::specs::Memory::followed, crate::specs::Fields::word_in))]
fn word_in(halves: &Halves<'_>, v: u32, field: u32) -> Result<u32, Refusal>
    ensures { tested result ≡ word_in (as_memory halves.now) v field }
{
    let Followed::Sound(_, r, p) = halves.follow(v) else {
        return Err(Refusal::Damaged);
    };
    if p <= field {
        return Err(Refusal::NoField);
    }
    Ok(halves.word(v, HEADER + (r as usize) + (field as usize)))
}

impl Cursor {
    // 4, 11: that the frontiers are within the lent halves, and that v isn't null.
    #[tactic(auto, unfolding(crate::specs::Fields::named))]
    fn reference_tests(self, h0: &[u32], h1: &[u32], v: u32) -> Result<(), Refusal>
        ensures { tested result ≡ named (memory h0.now h1.now self.frontier0 self.frontier1) v }
    {
        let within = (self.frontier0 <= h0.len()) & (self.frontier1 <= h1.len());
        if !within {
            return Err(Refusal::OutOfRange);
        }
        if v == 0 {
            return Err(Refusal::NullRegister);
        }
        Ok(())
    }

    // What reference field `field` of the record that v names holds: a load, past the tests on its session and registers.
    #[tactic(auto, unfolding(crate::specs::Fields::named, crate::specs::Fields::field_reference))]
    pub fn field_reference(self, h0: &[u32], h1: &[u32], v: u32, field: u32) -> Result<u32, Refusal>
        ensures { tested result ≡ field_reference (memory h0.now h1.now self.frontier0 self.frontier1) v field }
    {
        self.reference_tests(h0, h1, v)?;
        reference_in(&self.halves(h0, h1), v, field)
    }

    // The word of plain field `field` of the record that v names: a read, past those tests.
    #[tactic(auto, unfolding(crate::specs::Fields::named, crate::specs::Fields::field_word))]
    pub fn field_word(self, h0: &[u32], h1: &[u32], v: u32, field: u32) -> Result<u32, Refusal>
        ensures { tested result ≡ field_word (memory h0.now h1.now self.frontier0 self.frontier1) v field }
    {
        self.reference_tests(h0, h1, v)?;
        word_in(&self.halves(h0, h1), v, field)
    }
}

impl Control {
    // The tests of a load, and what its register gets.
    #[tactic(auto, using(crate::proofs::tests::Opening::held_bounds), unfolding(rules::specs::Calls::load_plan, rules::specs::Calls::record_of, crate::specs::Fields::reference_in))]
    fn load_plan(
        &self,
        lent: Lent,
        s: u32,
        to: u32,
        register: u32,
        field: u32,
    ) -> Result<u32, Refusal>
        ensures { tested result ≡ load_plan (viewed self.now lent.entry) s to register field }
    {
        let operands = self.held(lent, s, register, to)?;
        reference_in(
            &self.cursor.halves(lent.half0, lent.half1),
            operands.own,
            field,
        )
    }

    // Load: register `to` gets what a reference field holds. It is set in place, so that the control record isn't copied.
    #[tactic(auto, using(crate::proofs::calls::Fields::load_numbers), unfolding(rules::specs::Calls::load, rules::specs::Calls::with_register, rules::specs::Phases::with_session, rules::specs::Phases::session_at))]
    pub fn load(
        mut self,
        h0: &[u32],
        h1: &[u32],
        list: &[u32],
        s: u32,
        to: u32,
        register: u32,
        field: u32,
    ) -> Reply
        ensures { outcome result h0.now h1.now list.now
            ≡ apply (view self h0.now h1.now list.now) (Load s to register field) }
    {
        let lent = Lent {
            half0: h0,
            half1: h1,
            list,
        };
        // no `?`: refused or not, the reply hands the control record back
        let answer = match self.load_plan(lent, s, to, register, field) {
            Ok(w) => {
                let session = &mut self.sessions[s as usize];
                session.registers[to as usize] = w;
                Ok(Value::Done)
            }
            Err(refusal) => Err(refusal),
        };
        Reply {
            control: self,
            answer,
        }
    }

    // What a read answers: the tests in order, then the word of the plain field.
    #[tactic(auto, using(crate::proofs::tests::Opening::held_bounds), unfolding(rules::specs::Calls::read, rules::specs::Calls::record_of, crate::specs::Fields::word_in))]
    fn read_answer(&self, lent: Lent, s: u32, register: u32, field: u32) -> Answer
        ensures { answered self.now lent.entry result
            ≡ apply (viewed self.now lent.entry) (Read s register field) }
    {
        let operands = self.held(lent, s, register, register)?;
        let word = word_in(
            &self.cursor.halves(lent.half0, lent.half1),
            operands.own,
            field,
        )?;
        Ok(Value::Word(word))
    }

    // Read: the word of a plain field.
    pub fn read(
        self,
        h0: &[u32],
        h1: &[u32],
        list: &[u32],
        s: u32,
        register: u32,
        field: u32,
    ) -> Reply
        ensures { outcome result h0.now h1.now list.now
            ≡ apply (view self h0.now h1.now list.now) (Read s register field) }
    {
        let lent = Lent {
            half0: h0,
            half1: h1,
            list,
        };
        let answer = self.read_answer(lent, s, register, field);
        Reply {
            control: self,
            answer,
        }
    }
}
