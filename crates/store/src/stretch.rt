// The plain fields of a record as a stretch of its half; and its companion, which makes the same tests and answers the number
// of the first that fails, or 0.
ghost use Rattle.std.specs.Prelude.{◌≡◌};
ghost use Rattle.rules.specs.Answers.{answer_of};
ghost use Rattle.rules.specs.Refusals.{words_or, done_or};
ghost use Rattle.rules.specs.Calls.{stretch};
ghost use Rattle.store.specs.View.{view};

use crate::Control;
use crate::lent::Lent;
use heap::HEADER;
use rules::{Answer, Followed, Value};

impl Control {
    // The plain fields of the record in a register, as a part of the half that holds it; refused, the empty part.
    #[tactic(auto, using(crate::proofs::tests::Opening::held_bounds, crate::proofs::calls::Stretch::stretch_within), unfolding(rules::specs::Calls::stretch, rules::specs::Calls::record_of, rules::specs::Memory::follow, rules::specs::Memory::followed))]
    pub fn stretch<'a>(
        self,
        h0: &'a [u32],
        h1: &'a [u32],
        list: &[u32],
        s: u32,
        register: u32,
    ) -> &'a [u32]
        ensures { result.now ≡ words_or (stretch (view self h0.now h1.now list.now) s register) }
    {
        let lent = Lent {
            half0: h0,
            half1: h1,
            list,
        };
        let Ok(operands) = self.held(lent, s, register, register) else {
            return &[];
        };
        let halves = self.cursor.halves(h0, h1);
        let Followed::Sound(at, r, p) = halves.follow(operands.own) else {
            return &[];
        };
        let half = halves.half_of(operands.own);
        let start = at + HEADER + (r as usize);
        let end = start + (p as usize);
        &half[start..end]
    }

    // The companion: the refusal that the stretch met, if any.
    #[tactic(auto, unfolding(rules::specs::Calls::stretch))]
    pub fn companion(self, h0: &[u32], h1: &[u32], list: &[u32], s: u32, register: u32) -> Answer
        ensures { answer_of result ≡ done_or (stretch (view self h0.now h1.now list.now) s register) }
    {
        let lent = Lent {
            half0: h0,
            half1: h1,
            list,
        };
        self.held_record(lent, s, register)?;
        Ok(Value::Done)
    }
}
