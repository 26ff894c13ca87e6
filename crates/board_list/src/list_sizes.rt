// The size of the list: how many processors are listed, and how many bytes that takes. Specification, clauses 4.10 and
// 7.7.
ghost use Rattle.std.specs.Prelude.{◌≡◌};
ghost use Rattle.plans.specs.Entries.{mask_size_for};
ghost use Rattle.board_list.specs.Sizes.{listed_of, list_size};

use plans::{MAX_PROCESSORS, mask_size};

// The bytes of a part before its mask.
pub const PART_FIXED_BYTES: usize = 6;

// Clause 4.10: how many processors are listed: those of the plan, but no more than a state has places for.
pub fn listed(processors: u8) -> usize
    ensures { result ≡ listed_of processors }
{
    (processors as usize).min(MAX_PROCESSORS)
}

// Clause 7.7: how many bytes the list takes for a board with this number of processors.
pub fn list_size(processors: u8) -> usize
    ensures { result ≡ list_size (mask_size_for processors) (listed_of processors) }
{
    1 + (PART_FIXED_BYTES + mask_size(processors)) * listed(processors)
}
