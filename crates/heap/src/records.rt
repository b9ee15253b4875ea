// Writing a new record into a half.
// The halves are lent one by one, as the calls of the store are lent them.
ghost use Rattle.std.specs.Prelude.{◌≡◌, ℕ, ◌+◌, ◌≤◌, length};
ghost use Rattle.std.proofs.lemmas.List.Edits.{sets};
ghost use Rattle.rules.specs.Memory.{half, with_half, header, new_record};
ghost use Rattle.heap.specs.View.{memory};

use crate::{BIRTH_AT, COLOUR_AT, HEADER, REPLICA_AT, SHAPE_AT};

// The words of a new record before its fields, any words.
#[derive(Clone, Copy)]
pub struct Head {
    pub shape: u32,
    pub colour: u32,
    pub replica: u32,
    pub birth: u32,
}

// A record of n zero fields at the start of a lent part.
fn write_record(part: &mut [u32], head: Head, n: usize)
    requires { n + header ≤ length part.old }
    ensures { part.new ≡ sets part.old 0 (new_record head.shape head.colour head.replica head.birth n) }
{
    part[..n + HEADER].fill(0);
    part[SHAPE_AT] = head.shape;
    part[COLOUR_AT] = head.colour;
    part[REPLICA_AT] = head.replica;
    part[BIRTH_AT] = head.birth;
}

// A record of n zero fields at a word of half h: only the part from there on is lent on.
#[tactic(auto, using(crate::proofs::Written::part_back, crate::proofs::Written::record_length), unfolding(rules::specs::Memory::half, rules::specs::Memory::with_half))]
pub fn append_record(h0: &mut [u32], h1: &mut [u32], h: u32, at: usize, head: Head, n: usize)
    requires { at + (n + header) ≤ length (half (memory h0.old h1.old 0 0) h) }
    ensures { (f0 f1 : ℕ) → memory h0.new h1.new f0 f1
        ≡ with_half (memory h0.old h1.old f0 f1) h
        (sets (half (memory h0.old h1.old f0 f1) h) at (new_record head.shape head.colour head.replica head.birth n)) }
{
    // an arm for each half: the prover has no rule for a borrow of one of two by a test
    if h == 0 {
        write_record(&mut h0[at..], head, n);
    } else {
        write_record(&mut h1[at..], head, n);
    }
}
