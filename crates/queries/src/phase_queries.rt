// The state of a processor: idle, waiting, entitled or holding. Nothing is changed. Specification, clause 7.1.
ghost use Rattle.std.specs.Prelude.{◌≡◌, []};
ghost use Rattle.queries.specs.Answers.{phase_as_numbers};
ghost use Rattle.queries.specs.Queries.{phase_query};
ghost use Rattle.queries.specs.Parts.{board_with, state_with};

use crate::query_checks::check_processor;
use board_list::{Phase, phase_at};
use plans::MAX_PROCESSORS;
use refusals::Refusal;
use rules::{Board, Phases, State, Terms};
use settling::clean;

// The state of a processor, with the parts of a board and a state lent, as in a call in place. Refused with 11.
// Kept: no `LentFacts`, since the C interface lends no rows and no earlier requests to this query.
#[tactic(auto, unfolding(crate::specs::Queries::state_number))]
pub fn phase_in_place(
    terms: Terms,
    requested: &[u8; MAX_PROCESSORS],
    phases: Phases,
    processor: u8,
) -> Result<Phase, Refusal>
    ensures { phase_as_numbers result
        ≡ phase_query (board_with terms []) (state_with requested.now [] phases) processor }
{
    check_processor(terms, processor)?;
    let counted = clean(terms, *requested, phases);
    Ok(phase_at(counted, processor as u32))
}

// The same by value.
#[tactic(auto, unfolding(crate::specs::Queries::state_number))]
pub fn phase_of(board: Board, state: State, processor: u8) -> Result<Phase, Refusal>
    ensures { phase_as_numbers result ≡ phase_query board state processor }
{
    phase_in_place(board.terms, &state.requested, state.phases, processor)
}
