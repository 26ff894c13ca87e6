// Exported to C and Rust: the functions of `c_fresh`, a fresh board and the version, under the same names and with the
// same clauses. include/bittmelon.h declares what is exported.
// Kept: functions that only pass on, as the C interface exports them from a crate of its own.
#![tactic(auto)]

ghost use Rattle.std.specs.Prelude.{◌≡◌};
ghost use Rattle.plans.specs.Reading.{read_as_numbers};
ghost use Rattle.rules.specs.InPlace.{state_by};
ghost use Rattle.c_boards.specs.Parts.{terms_by, moment_by, board_in};
ghost use Rattle.c_boards.specs.Answers.{c_answer_as_numbers};
ghost use Rattle.c_fresh.specs.Fresh.{version_number, board_after, state_after_plan};

use c_boards::CAnswer;
use plans::{MAX_ENTRIES, MAX_PROCESSORS};

// The version of the archive, to compare with the header's.
#[unsafe(no_mangle)]
pub extern "C" fn bittmelon_version_number() -> u32
    ensures { result ≡ version_number }
{
    c_fresh::bittmelon_version_number()
}

// Stores the fresh arbiter of the plan in the bytes; bytes after the plan are ignored. Returns how many bytes the plan
// took, or its refusal, 1 or 3 to 8, and then writes nothing.
#[unsafe(no_mangle)]
pub extern "C" fn bittmelon_fresh_parts(
    plan: &[u8],
    processors: &mut u8,
    entries: &mut u8,
    writes: &mut u64,
    lengths: &mut [u16; MAX_ENTRIES],
    names: &mut [u64; MAX_ENTRIES],
    widened: &mut [u64; MAX_ENTRIES],
    rows: &mut [u64; MAX_ENTRIES],
    last: &mut u64,
    phases: &mut [u32; 3],
    requested: &mut [u8; MAX_PROCESSORS],
    since: &mut [u64; MAX_PROCESSORS],
    earlier: &mut [u32; MAX_PROCESSORS],
) -> CAnswer
    ensures told { c_answer_as_numbers result ≡ read_as_numbers plan.now }
    ensures board { board_in (terms_by processors.new entries.new writes.new)
        lengths.new names.new widened.new rows.new
        ≡ board_after plan.now
        (board_in (terms_by processors.old entries.old writes.old)
        lengths.old names.old widened.old rows.old) }
    ensures state { state_by (moment_by last.new phases.new)
        requested.new since.new earlier.new
        ≡ state_after_plan plan.now (state_by (moment_by last.old phases.old)
        requested.old since.old earlier.old) }
{
    c_fresh::bittmelon_fresh_parts(
        plan, processors, entries, writes, lengths, names, widened, rows, last, phases, requested,
        since, earlier,
    )
}
