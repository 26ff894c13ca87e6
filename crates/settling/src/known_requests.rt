// Known requests: those whose entries are below a count, as masks of processors. With the number of a plan's entries as
// the count, they are the requests that count (specification, clause 4.10). With the number of rows, they are those
// that can conflict at all (clause 5.7).
ghost use Rattle.std.specs.Prelude.{◌≡◌, ◌&&◌, ℕ, ◌<◌, ◌≤◌, ltb, get_or};
ghost use Rattle.masks.specs.Sets.{bit, mask_of};
ghost use Rattle.plans.specs.Entries.{max_processors};

use crate::picking::those;
use plans::MAX_PROCESSORS;

// A mask of all processors.
pub const ALL: u32 = ((1u64 << MAX_PROCESSORS as u64) - 1) as u32;

// The largest entry of a request. The loop does nothing else, so that the compiled code compares 16 entries at once.
#[inline(always)]
fn largest(requested: &[u8; MAX_PROCESSORS]) -> u8
    ensures { (p : ℕ) → p < max_processors → get_or requested.now p 0 ≤ result }
{
    let mut most: u8 = 0;
    for &entry in requested {
        most = most.max(entry);
    }
    most
}

// Those among the processors whose requests' entries are below the count, checked one by one.
#[inline(never)]
fn each_below(among: u32, count: u8, requested: &[u8; MAX_PROCESSORS]) -> u32
    ensures { result ≡ mask_of max_processors (λ p. bit among p && ltb (get_or requested.now p 0) count) }
{
    those(among, |p| requested[p as usize] < count)
}

// Those among the processors whose requests' entries are below the count. On a board that was made from a plan all are:
// one comparison with the largest is enough, and the compiled code calls nothing.
#[inline(always)]
pub fn entries_below(among: u32, count: u8, requested: &[u8; MAX_PROCESSORS]) -> u32
    ensures { result ≡ mask_of max_processors (λ p. bit among p && ltb (get_or requested.now p 0) count) }
{
    if largest(requested) < count {
        among
    } else {
        each_below(among, count, requested)
    }
}
