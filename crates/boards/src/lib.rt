// The fresh arbiter of a plan: its board, computed once for all calls, and the state in which nobody is active.
// `replay`, `c_fresh`, `conflict_listing`, `register_listing` and `bench_library` use it. Specification, clauses 3.3
// and 4.3.
#![tactic(auto)]

ghost use Rattle.std.specs.Prelude.{◌≡◌, cond, ◌&&◌, ltb};
ghost use Rattle.plans.specs.Entries.{max_entries, is_write};
ghost use Rattle.plans.specs.Acceptance.{plan_fault};
ghost use Rattle.boards.specs.Fresh.{fresh_state, board_of, fresh_board, fresh_number, board_made, state_made};

use conflicts::conflicts_of;
use masks::Mask;
use plan_checks::check;
use plans::{Entry, MAX_ENTRIES, MAX_PROCESSORS, Plan, is_write};
use refusals::Refusal;
use rules::{Board, Phases, State, Terms};
use std::array;

// A fresh arbiter: its board, and the state in which nobody is active.
#[derive(Clone, Copy)]
pub struct Fresh {
    pub board: Board,
    pub state: State,
}

// The place of entry i in the set of writes, or a place past all others if the entry is not a write or is not counted.
// Kept: a place past all others for an entry that is no write: `with` adds no such place.
fn write_place(entry: Entry, i: u8, count: u8) -> u32
    ensures { result ≡ cond (ltb i count && is_write entry) i max_entries }
{
    if (i < count) & is_write(entry) {
        i as u32
    } else {
        MAX_ENTRIES as u32
    }
}

// Which entries are writes.
fn writes_of(plan: Plan) -> u64
    ensures { result ≡ (board_of plan).terms.writes }
{
    let mut out: u64 = 0;
    for i in 0..MAX_ENTRIES as u8 {
        out = out.with(write_place(plan.entries[i as usize], i, plan.count));
    }
    out
}

// The length of entry i, or 0 past the count.
// Kept: not one with the names of an entry in `conflicts`, which are of another type and another field.
fn counted_length(entry: Entry, i: usize, count: u8) -> u16
    ensures { result ≡ cond (ltb i count) entry.length 0 }
{
    if i < count as usize { entry.length } else { 0 }
}

fn lengths_of(plan: Plan) -> [u16; MAX_ENTRIES]
    ensures { result ≡ (board_of plan).lengths }
{
    array::from_fn(|i| counted_length(plan.entries[i], i, plan.count))
}

// Clause 3.3: conflicts are computed here, once for all calls.
fn board_of(plan: Plan) -> Board
    ensures { result ≡ board_of plan }
{
    let worked = conflicts_of(plan);
    let lengths = lengths_of(plan);
    let names = worked.names;
    let widened = worked.widened;
    let rows = worked.rows;
    Board {
        terms: Terms {
            processors: plan.processors,
            count: plan.count,
            writes: writes_of(plan),
        },
        lengths,
        names,
        widened,
        rows,
    }
}

// Clause 4.3: nobody is active, and the last accepted tick is 0.
fn fresh_state() -> State
    ensures { result ≡ fresh_state }
{
    State {
        last: 0,
        phases: Phases {
            waiting: 0,
            entitled: 0,
            holding: 0,
        },
        since: [0; MAX_PROCESSORS],
        earlier: [0; MAX_PROCESSORS],
        requested: [0; MAX_PROCESSORS],
    }
}

// A fresh arbiter of the plan, or a refusal with 3 to 8.
#[tactic(auto, unfolding(crate::specs::Fresh::fresh_board), using(refusals::proofs::Numbers::number_not_zero))]
pub fn fresh_of(plan: Plan) -> Result<Fresh, Refusal>
    ensures verdict { fresh_number result ≡ plan_fault plan }
    ensures board { board_made result ≡ fresh_board plan }
    ensures state { state_made result ≡ fresh_state }
{
    check(plan)?;
    Ok(Fresh {
        board: board_of(plan),
        state: fresh_state(),
    })
}
