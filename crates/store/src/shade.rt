// Shading: the record coloured grey, and put on the list.
// The halves and the list are lent one by one: what is written stands in the parameters.
ghost use Rattle.std.specs.Prelude.{◌≡◌, ℕ, ◌+◌, ◌<◌, length, set};
ghost use Rattle.rules.specs.Memory.{colour_at, grey, put};
ghost use Rattle.rules.specs.Control.{Store};
ghost use Rattle.rules.specs.Barriers.{shade};
ghost use Rattle.heap.specs.View.{memory, Inside};
ghost use Rattle.store.specs.Marking.{ending};

use heap::words::put_word;
use heap::{COLOUR_AT, Colour};

// What shading writes: the record v coloured grey, and put on the list at its end.
pub(crate) fn put_grey(h0: &mut [u32], h1: &mut [u32], list: &mut [u32], end: usize, v: u32)
    requires { Inside h0.old h1.old v colour_at × (end < length list.old) }
    ensures { ((f0 f1 : ℕ) → memory h0.new h1.new f0 f1
        ≡ put (memory h0.old h1.old f0 f1) v colour_at grey)
        × (list.new ≡ set list.old end v) }
{
    put_word(h0, h1, v, COLOUR_AT, Colour::Grey as u32);
    list[end] = v;
}

// The record v shaded, or nothing where v is null: the list's end after it.
#[tactic(auto, unfolding(rules::specs::Barriers::shade))]
pub(crate) fn shade_one(
    h0: &mut [u32],
    h1: &mut [u32],
    list: &mut [u32],
    end: usize,
    v: u32,
) -> usize
    requires { (v ≡ 0 → ⊥) → Inside h0.old h1.old v colour_at × (end < length list.old) }
    ensures { (s : Store) → ending s h0.new h1.new list.new result
        ≡ shade (ending s h0.old h1.old list.old end) v }
{
    if v == 0 {
        return end;
    }
    put_grey(h0, h1, list, end, v);
    end + 1
}

// The records that a store or a put shades, one after the other, where there are any: the list's end after them.
pub(crate) fn shade_both(
    h0: &mut [u32],
    h1: &mut [u32],
    list: &mut [u32],
    end: usize,
    first: u32,
    second: u32,
) -> usize
    requires { ((first ≡ 0 → ⊥) → Inside h0.old h1.old first colour_at × (end < length list.old))
        × ((second ≡ 0 → ⊥) → Inside h0.old h1.old second colour_at × (end + 1 < length list.old)) }
    ensures { (s : Store) → ending s h0.new h1.new list.new result
        ≡ shade (shade (ending s h0.old h1.old list.old end) first) second }
{
    let next = shade_one(h0, h1, list, end, first);
    shade_one(h0, h1, list, next, second)
}
