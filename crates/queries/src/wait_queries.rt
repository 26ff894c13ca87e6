// The direct waits of a processor. Nothing is changed. Specification, clause 7.2.
ghost use Rattle.std.specs.Prelude.{◌≡◌};
ghost use Rattle.encoding.specs.Buffers.{outcome_as_numbers};
ghost use Rattle.queries.specs.Queries.{waits_query};
ghost use Rattle.queries.specs.Parts.{board_from, state_from};
ghost use Rattle.queries.specs.inner.Rows.{direct_rows};

use crate::lending::lent;
use crate::query_checks::check_processor;
use plans::MAX_PROCESSORS;
use refusals::Refusal;
use rules::{Board, LentFacts, Phases, State};
use settling::clean;
use waits::{waits_of, waits_of_all};

// Kept: facts and phases are two parameters, since the phases of the requests that count take the place of those given.
// The direct waits of every processor.
#[tactic(auto, using(crate::proofs::Answers::rows_counted))]
pub fn direct_rows(facts: LentFacts<'_>, phases: Phases) -> [u32; MAX_PROCESSORS]
    ensures { result ≡ direct_rows (board_from facts.entry) (state_from facts.entry phases) }
{
    let counted = clean(facts.terms, *facts.requested, phases);
    waits_of_all(facts, counted)
}

// The direct waits of a processor, as a mask, with the parts of a board and a state lent. Refused with 11.
#[tactic(auto, using(crate::proofs::Answers::waits_counted, crate::proofs::Answers::processor_below))]
pub fn direct_waits_in_place(
    facts: LentFacts<'_>,
    phases: Phases,
    processor: u8,
) -> Result<u32, Refusal>
    ensures { outcome_as_numbers result
        ≡ waits_query (board_from facts.entry) (state_from facts.entry phases) processor }
{
    check_processor(facts.terms, processor)?;
    let counted = clean(facts.terms, *facts.requested, phases);
    Ok(waits_of(facts, counted, processor as u32))
}

// The same by value.
#[tactic(auto, unfolding(crate::specs::Queries::waits_for))]
pub fn direct_waits(board: Board, state: State, processor: u8) -> Result<u32, Refusal>
    ensures { outcome_as_numbers result ≡ waits_query board state processor }
{
    direct_waits_in_place(lent(&board, &state), state.phases, processor)
}
