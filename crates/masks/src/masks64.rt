// Sets of resources or of entries: numbers below 64 as the bits of a u64. Only for these it is asked whether two meet,
// and whether one fits below a count.
ghost use Rattle.std.specs.Prelude.{◌≡◌, ◌^◌, ltb};
ghost use Rattle.masks.specs.Sets.{meets};

use crate::mask::Mask;

impl Mask for u64 {
    ghost number = { λ set. set };

    ghost width = { 64 };

    #[tactic(auto, using(crate::proofs::Places::not_within), unfolding(crate::specs::Sets::bit))]
    fn has(self, place: u32) -> bool {
        place < 64 && (self >> place) % 2 == 1
    }

    fn with(self, place: u32) -> u64 {
        if place < 64 {
            self | (1 << place)
        } else {
            self
        }
    }
}

// Whether the two sets share a place.
pub fn meet64(row: u64, set: u64) -> bool
    ensures { result ≡ meets row set }
{
    row & set != 0
}

// Whether every place of the set is below the count. If the count is 64 or more, this is true for every set.
#[tactic(auto, using(crate::proofs::Shifts::none_past, crate::proofs::Shifts::all_below))]
pub fn below64(set: u64, count: u32) -> bool
    ensures { result ≡ ltb set (2 ^ count) }
{
    count >= 64 || set >> count == 0
}
