// The places of a set of processors, one by one, from the lowest to the highest.
ghost use Rattle.std.specs.Iterator.{at_most};
ghost use Rattle.masks.specs.Walk.{NextPlace};

// The places that are left of a set, as the bits of a number: `for p in EachPlace(set)`.
#[derive(Drop)]
pub struct EachPlace(pub u32);

impl Iterator for EachPlace {
    type Item = u32;

    ghost next_gives = { λ s place t. NextPlace s.0 place t.0 };

    ghost remaining = { λ s. at_most s.0 };

    fn next(&mut self) -> Option<u32> {
        let left = self.0;
        if left == 0 {
            return None;
        }
        self.0 = left & (left - 1);
        Some(left.trailing_zeros())
    }
}
