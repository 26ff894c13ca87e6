// The state of a processor: the phase of its request, or idle. `queries` answers it, and the list shows its number.
// Specification, clause 7.1.
ghost use Rattle.std.specs.Prelude.{◌≡◌};
ghost use Rattle.board_list.specs.Fields.{phase_number, state_in};

use masks::Mask;
use rules::Phases;

#[derive(Clone, Copy, Debug, PartialEq, Eq)]
pub enum Phase {
    Idle = 0,
    Waiting = 1,
    Entitled = 2,
    Holding = 3,
}

// Clause 7.1: the number of a state.
impl From<Phase> for u8 {
    ghost from_gives = { λ phase number. number ≡ phase_number phase };

    fn from(phase: Phase) -> u8 {
        phase as u8
    }
}

// The state of processor p, from the masks of the phases.
#[tactic(auto, unfolding(crate::specs::Fields::state_in))]
pub fn phase_at(phases: Phases, p: u32) -> Phase
    ensures { phase_number result ≡ state_in phases p }
{
    if phases.holding.has(p) {
        Phase::Holding
    } else if phases.entitled.has(p) {
        Phase::Entitled
    } else if phases.waiting.has(p) {
        Phase::Waiting
    } else {
        Phase::Idle
    }
}
