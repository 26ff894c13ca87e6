// Sets of processors: numbers below 32 as the bits of a u32. Only these have places removed and unions under a test.
ghost use Rattle.std.specs.Prelude.{◌≡◌, cond, ltb};
ghost use Rattle.std.specs.Int.Bits.{bit_or};
ghost use Rattle.masks.specs.Sets.{removed, without};

use crate::mask::Mask;

impl Mask for u32 {
    ghost number = { λ set. set };

    ghost width = { 32 };

    #[tactic(auto, using(crate::proofs::Places::not_within), unfolding(crate::specs::Sets::bit))]
    fn has(self, place: u32) -> bool {
        place < 32 && (self >> place) % 2 == 1
    }

    fn with(self, place: u32) -> u32 {
        if place < 32 {
            self | (1 << place)
        } else {
            self
        }
    }
}

// The set with place k removed.
pub fn remove32(set: u32, k: u32) -> u32
    ensures { result ≡ cond (ltb k 32) (removed 32 set k) set }
{
    if k < 32 { set & !(1 << k) } else { set }
}

// The places of the first set that are not in the second.
pub fn without32(a: u32, b: u32) -> u32
    ensures { result ≡ without 32 a b }
{
    a & !b
}

// The union of both sets if the test holds, else the first set.
// Kept: a function of its own, as a caller that makes several such unions loses their facts where the branches meet.
pub fn join_if(set: u32, other: u32, test: bool) -> u32
    ensures { result ≡ cond test (bit_or set other) set }
{
    if test { set | other } else { set }
}
