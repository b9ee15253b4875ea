// The store's call of a case, by its kind: 0 is making, 1 to 14 are those of the script, 15 is the stretch, 16 its companion,
// 17 the birth number, 18 the store of several links; 116 to 122 are the directory's (requests.rt). The kinds stay numbers,
// as they come in: each stands in one arm alone, beside its call.
use crate::cases::{Case, Lent};
use rules::{Refusal, Value};
use store::{Control, Reply};

// The kind of a stretch, which no script has.
pub(crate) const STRETCH: u32 = 15;

// Makes the call of a case on the words lent.
pub(crate) fn call(case: &Case, lent: &mut Lent) -> Reply {
    let control = case.control;
    let [s, a, b, c] = case.arguments;
    let h0 = &mut *lent.half0;
    let h1 = &mut *lent.half1;
    let list = &mut *lent.list;
    match case.kind {
        0 => Control::make(h0, h1, list),
        1 => control.attach(h0, h1, list, s, a),
        2 => control.detach(h0, h1, list, s),
        3 => control.safe_point(h0, h1, list, s),
        4 => control.allocate(h0, h1, list, s, a, b, c),
        5 => control.load(h0, h1, list, s, a, b, c),
        6 => control.store(h0, h1, list, s, a, b, c),
        7 => control.read(h0, h1, list, s, a, b),
        8 => control.write(h0, h1, list, s, a, b, c),
        9 => control.move_register(h0, h1, list, s, a, b),
        10 => control.clear(h0, h1, list, s, a),
        11 => control.same(h0, h1, list, s, a, b),
        12 => control.get(h0, h1, list, s, a, b),
        13 => control.put(h0, h1, list, s, a, b),
        14 => control.step(h0, h1, list),
        // a stretch answers only its words
        STRETCH => Reply {
            control,
            answer: Ok(Value::Done),
        },
        16 => Reply {
            control,
            answer: control.companion(h0, h1, list, s, a),
        },
        17 => control.birth(h0, h1, list, s, a),
        18 => control.store_links(h0, h1, list, s, a, b, case.links),
        _ => Reply {
            control,
            answer: Err(Refusal::BadScript),
        },
    }
}
