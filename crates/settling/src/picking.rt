// The processors of a mask that pass a test.
ghost use Rattle.std.specs.Prelude.{◌≡◌, cond, ◌&&◌, Bool, true, ℕ, ◌<◌};
ghost use Rattle.masks.specs.Sets.{bit, added, mask_of};
ghost use Rattle.plans.specs.Entries.{max_processors};

use masks::EachPlace;

// Adds the place to the set if the test holds. The compiled code does not branch on a test that is itself without
// branches.
fn add_if(set: u32, place: u32, test: bool) -> u32
    requires { place < 32 }
    ensures { result ≡ cond test (added set place) set }
{
    if test { set | (1 << place) } else { set }
}

// The processors of the mask that pass the test.
pub fn those<F: Fn(u32) -> bool>(among: u32, passes: F) -> u32
    requires { (p : ℕ) → p < max_processors → bit among p ≡ true → F.pre passes p }
    ensures { (P : ℕ → Bool)
        → ((p : ℕ) (r : Bool) → p < max_processors → bit among p ≡ true → F.post passes p r → r ≡ P p)
        → result ≡ mask_of max_processors (λ p. bit among p && P p) }
{
    let mut out: u32 = 0;
    for p in EachPlace(among) {
        out = add_if(out, p, passes(p));
    }
    out
}
