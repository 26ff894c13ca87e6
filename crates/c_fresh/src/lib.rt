// For C and Rust: a fresh arbiter, made from the bytes of a plan and stored in memory that the caller owns; and the
// version of the archive. `c_fresh_c` exports these functions, and include/bittmelon.h declares them. Specification,
// sections 4 and 11.
// Kept: the parts one by one, as they are the parameters of the C interface.
#![tactic(auto)]

mod stores;

ghost use Rattle.std.specs.Prelude.{◌≡◌};
ghost use Rattle.plans.specs.Reading.{read_as_numbers};
ghost use Rattle.rules.specs.InPlace.{state_by};
ghost use Rattle.c_boards.specs.Parts.{terms_by, moment_by, board_in};
ghost use Rattle.c_boards.specs.Answers.{c_answer_as_numbers};
ghost use Rattle.c_fresh.specs.Fresh.{version_number, board_after, state_after_plan};

use boards::fresh_of;
use c_boards::CAnswer;
use plans::{MAX_ENTRIES, MAX_PROCESSORS};
use stores::{store_board, store_state};

// The version of the archive, to compare with the header's.
pub fn bittmelon_version_number() -> u32
    ensures { result ≡ version_number }
{
    30200
}

// Stores the fresh arbiter of the plan in the bytes; bytes after the plan are ignored. Returns how many bytes the plan
// took, or its refusal, 1 or 3 to 8, and then writes nothing. A plan that was read is never refused.
// Kept: a match for each refusal, here, and no function with `?` that returns the arbiter: each result that is passed on
// is one more copy of the plan or of the board on the stack, and a program in C may run on a small one.
#[tactic(auto, using(refusals::proofs::Numbers::number_not_zero, refusals::proofs::Numbers::refused_not_zero, plans::proofs::RoundTrip::read_is_accepted), unfolding(crate::specs::Fresh::board_after, crate::specs::Fresh::state_after_plan))]
pub fn bittmelon_fresh_parts(
    plan: &[u8],
    processors: &mut u8,
    entries: &mut u8,
    writes: &mut u64,
    lengths: &mut [u16; MAX_ENTRIES],
    names: &mut [u64; MAX_ENTRIES],
    widened: &mut [u64; MAX_ENTRIES],
    rows: &mut [u64; MAX_ENTRIES],
    last: &mut u64,
    phases: &mut [u32; 3],
    requested: &mut [u8; MAX_PROCESSORS],
    since: &mut [u64; MAX_PROCESSORS],
    earlier: &mut [u32; MAX_PROCESSORS],
) -> CAnswer
    ensures told { c_answer_as_numbers result ≡ read_as_numbers plan.now }
    ensures board { board_in (terms_by processors.new entries.new writes.new)
        lengths.new names.new widened.new rows.new
        ≡ board_after plan.now
        (board_in (terms_by processors.old entries.old writes.old)
        lengths.old names.old widened.old rows.old) }
    ensures state { state_by (moment_by last.new phases.new)
        requested.new since.new earlier.new
        ≡ state_after_plan plan.now (state_by (moment_by last.old phases.old)
        requested.old since.old earlier.old) }
{
    let read = match plan_bytes::read(plan) {
        Ok(read) => read,
        Err(refusal) => return CAnswer::from(Err(refusal)),
    };
    match fresh_of(read.plan) {
        Ok(fresh) => {
            store_board(
                &fresh.board,
                processors,
                entries,
                writes,
                lengths,
                names,
                widened,
                rows,
            );
            store_state(&fresh.state, last, phases, requested, since, earlier);
            CAnswer::from(Ok(read.bytes as u64))
        }
        Err(refusal) => CAnswer::from(Err(refusal)),
    }
}
