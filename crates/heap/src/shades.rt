// Shading: the record to colour grey, with room for it in the grey list, and what a store or a put shades.
ghost use Rattle.std.specs.Prelude.{◌≡◌, true, cond, [], ◌∷◌};
ghost use Rattle.rules.specs.Refusals.{checked};
ghost use Rattle.rules.specs.Memory.{null, colour_at};
ghost use Rattle.rules.specs.Barriers.{to_shade, shading, listing, shading_all, shades_at, shades_old_at, barrier_shades};
ghost use Rattle.heap.specs.View.{if_white, records, Has};
ghost use Rattle.heap.specs.Halves.{as_memory, as_heap, shaded};

use crate::{COLOUR_AT, Colour, Halves, Heap};
use rules::{Damage, Followed};

// The records that a store or a put shades, one after the other: null for none.
pub(crate) type Shades = (u32, u32);

impl Halves<'_> {
    // v where the record that it names is white, else null.
    #[tactic(auto, unfolding(rules::specs::Memory::colour))]
    pub fn if_white(&self, v: u32) -> u32
        requires { (v ≡ null → ⊥) → Has (as_memory self.now) v colour_at }
        ensures { result ≡ if_white (as_memory self.now) v }
    {
        if v == 0 {
            return 0;
        }
        let colour = self.word(v, COLOUR_AT);
        if colour == Colour::White as u32 { v } else { 0 }
    }

    // The reference to shade, or null where there is nothing to do.
    #[tactic(auto, unfolding(rules::specs::Memory::follow, rules::specs::Memory::followed, rules::specs::Barriers::to_shade))]
    pub fn to_shade(&self, v: u32) -> Result<u32, Damage>
        ensures { checked result ≡ to_shade (as_memory self.now) v }
    {
        if v == 0 {
            return Ok(0);
        }
        let Followed::Sound(_, _, _) = self.follow(v) else {
            return Err(Damage);
        };
        Ok(self.if_white(v))
    }
}

impl Heap<'_> {
    // What there is to shade of a reference, with room for it in the grey list.
    #[tactic(auto, unfolding(rules::specs::Barriers::shading, rules::specs::Barriers::list_room))]
    pub fn shading(&self, v: u32) -> Result<u32, Damage>
        ensures { checked result ≡ shading (as_heap self.now) v }
    {
        let w = self.halves.to_shade(v)?;
        if (w != 0) & (self.tail == self.capacity) {
            return Err(Damage);
        }
        Ok(w)
    }

    // The records `first` and `second` (null: none), with room for them in the grey list.
    #[tactic(auto, unfolding(rules::specs::Barriers::listing, rules::specs::Barriers::list_room))]
    fn listing(&self, first: u32, second: u32) -> Result<Shades, Damage>
        ensures { shaded result ≡ listing (as_heap self.now) (records first second) }
    {
        let free = self.capacity - self.tail;
        if ((first != 0) & (free < 1)) | ((second != 0) & (free < 2)) {
            return Err(Damage);
        }
        Ok((first, second))
    }

    // What there is to shade of two references, in their order, each record once, with room for all of it in the grey list.
    #[tactic(auto, unfolding(rules::specs::Barriers::shading_all))]
    fn shading_both(&self, v: u32, w: u32) -> Result<Shades, Damage>
        ensures { shaded result ≡ shading_all (as_heap self.now) (v ∷ w ∷ []) }
    {
        let first = self.halves.to_shade(v)?;
        let second = self.halves.to_shade(w)?;
        if (first == 0) | (first == second) {
            return self.listing(second, 0);
        }
        self.listing(first, second)
    }

    // What a store or a put of q over `old` shades at level l, one that shades: the overwritten reference before the stored one.
    #[tactic(auto, unfolding(rules::specs::Barriers::barrier_shades))]
    pub(crate) fn barrier_shades(&self, l: u32, old: u32, q: u32) -> Result<Shades, Damage>
        requires { shades_at l ≡ true }
        ensures { shaded result ≡ barrier_shades (as_heap self.now) l old q }
    {
        self.shading_both(overwritten(l, old), q)
    }
}

// Whether a store or a put at level l shades: at levels 1 to 3.
#[tactic(auto, unfolding(rules::specs::Barriers::shades_at))]
pub(crate) fn shades_at(l: u32) -> bool
    ensures { result ≡ shades_at l }
{
    (1..=3).contains(&l)
}

// The overwritten reference where a store or a put at level l shades it, at levels 2 and 3, else null.
#[tactic(auto, unfolding(rules::specs::Barriers::shades_old_at))]
fn overwritten(l: u32, old: u32) -> u32
    ensures { result ≡ cond (shades_old_at l) old null }
{
    if (2..=3).contains(&l) { old } else { 0 }
}
