// Which resources two entries conflict over, on memory that a program in C or Rust owns. Nothing is changed.
// `c_queries_c` exports it, and include/bittmelon.h declares it. Specification, sections 7 and 11.
ghost use Rattle.std.specs.Prelude.{◌≡◌};
ghost use Rattle.queries.specs.Contention.{shared_as_numbers, shared_of};
ghost use Rattle.c_boards.specs.Parts.{terms_by};
ghost use Rattle.c_queries.specs.Shared.{c_conflict_as_numbers};

use c_boards::terms_of;
use conflicts::Conflict;
use plans::MAX_ENTRIES;
use queries::shared_on;
use refusals::Refusal;

// The number of the refusal, 0 if there is none; 1 for a conflict, with the lowest shared resource and how many are
// shared.
// Kept: the refusal's number beside the values, as the C interface has it.
#[repr(C)]
#[derive(Clone, Copy)]
pub struct CConflict {
    pub refusal: u32,
    pub conflict: u32,
    pub lowest: u32,
    pub count: u32,
}

// What two entries conflict over, or the refusal.
impl From<Result<Option<Conflict>, Refusal>> for CConflict {
    ghost from_gives = { λ answer told. c_conflict_as_numbers told ≡ shared_as_numbers answer };

    fn from(answer: Result<Option<Conflict>, Refusal>) -> CConflict {
        match answer {
            Ok(None) => CConflict {
                refusal: 0,
                conflict: 0,
                lowest: 0,
                count: 0,
            },
            Ok(Some(Conflict { lowest, count })) => CConflict {
                refusal: 0,
                conflict: 1,
                lowest: u32::from(lowest),
                count: u32::from(count),
            },
            Err(refusal) => CConflict {
                refusal: u32::from(u8::from(refusal)),
                conflict: 0,
                lowest: 0,
                count: 0,
            },
        }
    }
}

// Clause 7.10: what two entries conflict over. Refused with 12.
pub fn bittmelon_shared_parts(
    processors: u8,
    entries: u8,
    writes: u64,
    names: &[u64; MAX_ENTRIES],
    widened: &[u64; MAX_ENTRIES],
    first: u8,
    second: u8,
) -> CConflict
    ensures { c_conflict_as_numbers result
        ≡ shared_of (terms_by processors entries writes) names.now widened.now first second }
{
    let terms = terms_of(processors, entries, writes);
    CConflict::from(shared_on(terms, names, widened, first, second))
}
