// Exported to C and Rust: the four calls of `c_calls`, under the same names and with the same clauses.
// include/bittmelon.h declares what is exported.
// Kept: functions that only pass on, as the C interface exports them from a crate of its own.
#![tactic(auto)]

ghost use Rattle.std.specs.Prelude.{◌≡◌};
ghost use Rattle.rules.specs.Calls.{issued, completed, withdrawn, handed_over};
ghost use Rattle.rules.specs.InPlace.{board_by, state_by};
ghost use Rattle.c_boards.specs.Parts.{terms_by, moment_by};
ghost use Rattle.c_calls.specs.Replies.{answer_in};

use c_calls::CReply;
use plans::{MAX_ENTRIES, MAX_PROCESSORS};

// The processor issues a request for an entry at a tick. Refused with 10, 11, 12 or 13, checked in this order.
#[unsafe(no_mangle)]
pub extern "C" fn bittmelon_issue_parts(
    processors: u8,
    entries: u8,
    writes: u64,
    rows: &[u64; MAX_ENTRIES],
    lengths: &[u16; MAX_ENTRIES],
    last: &mut u64,
    phases: &mut [u32; 3],
    requested: &mut [u8; MAX_PROCESSORS],
    since: &mut [u64; MAX_PROCESSORS],
    earlier: &mut [u32; MAX_PROCESSORS],
    processor: u8,
    entry: u8,
    tick: u64,
) -> CReply
    ensures { answer_in result
        last.new phases.new requested.new since.new earlier.new
        ≡ issued (board_by (terms_by processors entries writes) rows.now lengths.now)
        (state_by (moment_by last.old phases.old)
        requested.old since.old earlier.old) processor entry tick }
{
    c_calls::bittmelon_issue_parts(
        processors, entries, writes, rows, lengths, last, phases, requested, since, earlier,
        processor, entry, tick,
    )
}

// The processor completes its request at a tick. Refused with 10, 11, 14 or 15, checked in this order.
#[unsafe(no_mangle)]
pub extern "C" fn bittmelon_complete_parts(
    processors: u8,
    entries: u8,
    writes: u64,
    rows: &[u64; MAX_ENTRIES],
    lengths: &[u16; MAX_ENTRIES],
    last: &mut u64,
    phases: &mut [u32; 3],
    requested: &[u8; MAX_PROCESSORS],
    since: &mut [u64; MAX_PROCESSORS],
    earlier: &[u32; MAX_PROCESSORS],
    processor: u8,
    tick: u64,
) -> CReply
    ensures { answer_in result
        last.new phases.new requested.now since.new earlier.now
        ≡ completed (board_by (terms_by processors entries writes) rows.now lengths.now)
        (state_by (moment_by last.old phases.old)
        requested.now since.old earlier.now) processor tick }
{
    c_calls::bittmelon_complete_parts(
        processors, entries, writes, rows, lengths, last, phases, requested, since, earlier,
        processor, tick,
    )
}

// The processor leaves the queue at a tick; its request must not hold. Refused with 10, 11, 14 or 17, checked in this
// order.
#[unsafe(no_mangle)]
pub extern "C" fn bittmelon_withdraw_parts(
    processors: u8,
    entries: u8,
    writes: u64,
    rows: &[u64; MAX_ENTRIES],
    lengths: &[u16; MAX_ENTRIES],
    last: &mut u64,
    phases: &mut [u32; 3],
    requested: &[u8; MAX_PROCESSORS],
    since: &mut [u64; MAX_PROCESSORS],
    earlier: &[u32; MAX_PROCESSORS],
    processor: u8,
    tick: u64,
) -> CReply
    ensures { answer_in result
        last.new phases.new requested.now since.new earlier.now
        ≡ withdrawn (board_by (terms_by processors entries writes) rows.now lengths.now)
        (state_by (moment_by last.old phases.old)
        requested.now since.old earlier.now) processor tick }
{
    c_calls::bittmelon_withdraw_parts(
        processors, entries, writes, rows, lengths, last, phases, requested, since, earlier,
        processor, tick,
    )
}

// The processor completes its request and issues one for an entry, at one tick. Refused with 10, 11, 12, 14 or 15,
// checked in this order.
#[unsafe(no_mangle)]
pub extern "C" fn bittmelon_handover_parts(
    processors: u8,
    entries: u8,
    writes: u64,
    rows: &[u64; MAX_ENTRIES],
    lengths: &[u16; MAX_ENTRIES],
    last: &mut u64,
    phases: &mut [u32; 3],
    requested: &mut [u8; MAX_PROCESSORS],
    since: &mut [u64; MAX_PROCESSORS],
    earlier: &mut [u32; MAX_PROCESSORS],
    processor: u8,
    entry: u8,
    tick: u64,
) -> CReply
    ensures { answer_in result
        last.new phases.new requested.new since.new earlier.new
        ≡ handed_over (board_by (terms_by processors entries writes) rows.now lengths.now)
        (state_by (moment_by last.old phases.old)
        requested.old since.old earlier.old) processor entry tick }
{
    c_calls::bittmelon_handover_parts(
        processors, entries, writes, rows, lengths, last, phases, requested, since, earlier,
        processor, entry, tick,
    )
}
