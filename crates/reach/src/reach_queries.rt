// Reach: all that a processor waits for through a chain of direct waits. Only the lent scratch changes.
// Specification, clauses 7.3 and 7.4.
ghost use Rattle.std.specs.Prelude.{◌≡◌, ◌<◌, ◌≤◌, length};
ghost use Rattle.masks.specs.Sets.{mask_of};
ghost use Rattle.encoding.specs.Buffers.{overwritten, outcome_as_numbers};
ghost use Rattle.plans.specs.Entries.{max_processors};
ghost use Rattle.queries.specs.Queries.{reaches, scratch_size, reach_bytes, reach_query, reach_scratch};
ghost use Rattle.queries.specs.Parts.{board_from, state_from};

use crate::reach_checks::check_reach;
use crate::reaching::reach_rows;
use crate::row_words::write_rows;
use queries::{direct_rows, lent};
use refusals::Refusal;
use rules::{Board, LentFacts, Phases, State};

// Writes the rows of all processors into the scratch, as words, and returns the row of one processor.
#[tactic(auto, using(crate::proofs::reach_queries::AllReached::rows_reached, crate::proofs::reach_queries::AllReached::row_asked, crate::proofs::reach_queries::AllReached::words_stored))]
fn write_reach(facts: LentFacts<'_>, phases: Phases, processor: u8, scratch: &mut [u8]) -> u32
    requires { (processor < max_processors) × (scratch_size facts.terms.processors ≤ length scratch.old) }
    ensures mask { result
        ≡ mask_of max_processors (reaches (board_from facts.entry) (state_from facts.entry phases) processor) }
    ensures stored { scratch.new
        ≡ overwritten scratch.old 0 (reach_bytes (board_from facts.entry) (state_from facts.entry phases)) }
{
    let direct = direct_rows(facts, phases);
    let rows = reach_rows(facts.terms.processors, direct);
    // There is room, so this is not refused.
    let _ = write_rows(facts.terms.processors, rows, scratch);
    rows[processor as usize]
}

// Clause 7.3: all that a processor reaches, as a mask, on lent parts of a board and a state. The scratch then contains
// a word for each processor, and the bytes after them stay. Refuses with 11, then with 16. A refusal writes nothing.
#[tactic(auto, using(refusals::proofs::Numbers::number_not_zero), unfolding(queries::specs::Queries::reach_fault, queries::specs::Queries::reach_scratch))]
pub fn reach_in_place(
    facts: LentFacts<'_>,
    phases: Phases,
    processor: u8,
    scratch: &mut [u8],
) -> Result<u32, Refusal>
    ensures mask { outcome_as_numbers result
        ≡ reach_query (board_from facts.entry) (state_from facts.entry phases) processor scratch.old }
    ensures stored { scratch.new
        ≡ reach_scratch (board_from facts.entry) (state_from facts.entry phases) processor scratch.old }
{
    check_reach(facts.terms, processor, scratch.len())?;
    Ok(write_reach(facts, phases, processor, scratch))
}

// The same by value.
pub fn reach(board: Board, state: State, processor: u8, scratch: &mut [u8]) -> Result<u32, Refusal>
    ensures mask { outcome_as_numbers result ≡ reach_query board state processor scratch.old }
    ensures stored { scratch.new ≡ reach_scratch board state processor scratch.old }
{
    reach_in_place(lent(&board, &state), state.phases, processor, scratch)
}
