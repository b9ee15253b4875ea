// Following a reference: the tests of a sound one, that its replica points back, then the place and the shape of its record.
// Each function that follows takes the answer apart by `let .. else`: a form by place of docs/CALLS.md.
ghost use Rattle.std.specs.Prelude.{◌≡◌, true};
ghost use Rattle.rules.specs.Memory.{size, sound, points_back, follow};
ghost use Rattle.heap.specs.View.{sound_at};
ghost use Rattle.heap.specs.Halves.{as_memory};

use crate::words::word_of;
use crate::{COLOUR_AT, Colour, HEADER, Halves, MOST_SHAPE, REPLICA_AT, SHAPE_AT};
use rules::Followed;

impl Halves<'_> {
    // The place and the shape of the record that a reference names, where it is sound, or damage.
    #[tactic(auto, unfolding(rules::specs::Memory::word_of, rules::specs::Memory::word, rules::specs::Memory::colour, rules::specs::Memory::size, rules::specs::Memory::refs, rules::specs::Memory::plains, rules::specs::Memory::refs_of, rules::specs::Memory::plains_of, rules::specs::Memory::sound))]
    fn sound_at(&self, v: u32) -> Followed
        ensures { result ≡ sound_at (as_memory self.now) v }
    {
        if v < 2 {
            return Followed::Damage;
        }
        let at = word_of(v);
        let frontier = self.frontier_of(v);
        if frontier < at + HEADER {
            return Followed::Damage;
        }
        let shape = self.word_at(v, at + SHAPE_AT);
        let colour = self.word_at(v, at + COLOUR_AT);
        let r = shape / 256;
        let p = shape % 256;
        let end = at + HEADER + (r as usize) + (p as usize);
        if (shape <= MOST_SHAPE) & (colour <= Colour::Black as u32) & (end <= frontier) {
            Followed::Sound(at, r, p)
        } else {
            Followed::Damage
        }
    }

    // Whether w, the replica word of a sound record v of n words, names a record that points back: in the other half, sound, with the
    // same word 0, and so as long, and with v as its replica word.
    #[tactic(auto, using(crate::proofs::Soundness::size_most), unfolding(rules::specs::Memory::word_of, rules::specs::Memory::half_of, rules::specs::Memory::word, rules::specs::Memory::colour, rules::specs::Memory::replica, rules::specs::Memory::size, rules::specs::Memory::refs, rules::specs::Memory::plains, rules::specs::Memory::sound, rules::specs::Memory::points_back))]
    fn points_back(&self, w: u32, v: u32, n: usize) -> bool
        requires { (sound (as_memory self.now) v ≡ true) × (n ≡ size (as_memory self.now) v) }
        ensures { result ≡ points_back (as_memory self.now) w v }
    {
        if (w < 2) | (w % 2 == v % 2) {
            return false;
        }
        let at = word_of(w);
        let frontier = self.frontier_of(w);
        if frontier < at + n {
            return false;
        }
        let shape = self.word(v, SHAPE_AT);
        let copied = self.word_at(w, at + SHAPE_AT);
        let colour = self.word_at(w, at + COLOUR_AT);
        let back = self.word_at(w, at + REPLICA_AT);
        (copied == shape) & (colour <= Colour::Black as u32) & (back == v)
    }

    // The place and the shape of the record that a reference names, or damage: it is sound, and its replica, if there is one, points
    // back.
    #[tactic(auto, unfolding(rules::specs::Memory::follow, rules::specs::Memory::followable, rules::specs::Memory::replica, rules::specs::Memory::size))]
    pub fn follow(&self, v: u32) -> Followed
        ensures { result ≡ follow (as_memory self.now) v }
    {
        let Followed::Sound(at, r, p) = self.sound_at(v) else {
            return Followed::Damage;
        };
        let w = self.word(v, REPLICA_AT);
        if w == 0 {
            return Followed::Sound(at, r, p);
        }
        let n = HEADER + (r as usize) + (p as usize);
        if self.points_back(w, v, n) {
            Followed::Sound(at, r, p)
        } else {
            Followed::Damage
        }
    }
}
