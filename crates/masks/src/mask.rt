// What the sets of both widths share: the test of a place, and a place added. A place past the width is in no set, and
// adding it changes nothing.
ghost use Rattle.std.specs.Prelude.{◌≡◌, ℕ, cond, ltb};
ghost use Rattle.masks.specs.Sets.{bit, added};

// A set of small numbers as the bits of an integer.
// Kept: an impl for each width, alike but for 32 and 64. A generic body would need a bound for each operator.
pub trait Mask: Copy {
    // The set as a number, and how many places it has.
    ghost number: { Self → ℕ };

    ghost width: { ℕ };

    // Whether the place is in the set.
    fn has(self, place: u32) -> bool
        ensures { result ≡ bit (number self) place };

    // The set with the place added.
    fn with(self, place: u32) -> Self
        ensures { number result ≡ cond (ltb place width) (added (number self) place) (number self) };
}
