// The opening of a log: its plan is read, the plan's fresh arbiter is made, and the line that opens the listing is
// written at the start of a lent buffer (specification, sections 2, 5 and 9). `log_ends` handles the call count and the
// end.
ghost use Rattle.std.specs.Prelude.{◌≡◌, ◌≤◌, length, IfOk};
ghost use Rattle.encoding.specs.Buffers.{outcome_as_numbers};
ghost use Rattle.plans.specs.Acceptance.{plan_fault};
ghost use Rattle.plans.specs.Reading.{read_as_numbers, plan_read, taken_as_numbers, plan_taken};
ghost use Rattle.boards.specs.Fresh.{fresh_board, fresh_state};
ghost use Rattle.listings.specs.PlainLines.{line_as_numbers, line_buffer};
ghost use Rattle.replay.specs.Openings.{opening_line, opened_as_numbers, board_opened, state_opened};
ghost use Rattle.replay.specs.inner.Opening.{opening_by};

use boards::fresh_of;
use listings::{first_line, refusal_line};
use plans::Read;
use refusals::Refusal;
use rules::{Board, State};

// What an accepted plan opens: how many bytes it took, and its fresh arbiter.
#[derive(Clone, Copy)]
pub struct Opened {
    pub bytes: usize,
    pub board: Board,
    pub state: State,
}

// What the plan opens, or its refusal; and the line that opens the listing.
#[derive(Clone, Copy)]
pub struct Begun {
    pub plan: Result<Opened, Refusal>,
    pub line: Result<usize, Refusal>,
}

// The fresh arbiter of a plan that was read. A plan that was read is accepted.
// Kept: not one with `bittmelon_fresh_parts`, since a log's opening also speaks of the blank board of a refused plan.
#[tactic(auto, using(crate::proofs::Openings::blank_refused))]
fn open(read: Result<Read, Refusal>) -> Result<Opened, Refusal>
    requires { (taken_as_numbers read).number ≡ 0 → plan_fault (plan_taken read) ≡ 0 }
    ensures outcome { opened_as_numbers result ≡ taken_as_numbers read }
    ensures board { board_opened result ≡ fresh_board (plan_taken read) }
    ensures state { state_opened result ≡ fresh_state }
{
    let read = read?;
    let fresh = fresh_of(read.plan)?;
    Ok(Opened {
        bytes: read.bytes,
        board: fresh.board,
        state: fresh.state,
    })
}

// The first line of an accepted plan, or the line of the plan's refusal.
fn opening_line(read: Result<Read, Refusal>, out: &mut [u8]) -> Result<usize, Refusal>
    ensures outcome { outcome_as_numbers result
        ≡ line_as_numbers (opening_by (taken_as_numbers read).number (plan_taken read)) (length out.old) 0 }
    ensures written { out.new
        ≡ line_buffer (opening_by (taken_as_numbers read).number (plan_taken read)) out.old 0 }
{
    match read {
        Ok(read) => first_line(read.plan, out, 0),
        Err(refusal) => refusal_line(refusal, out, 0),
    }
}

// Reads the plan at the start of a log, makes its fresh arbiter, and writes the line that opens the listing at the
// start of `out`. If `out` is too short for the line, nothing is written.
#[tactic(auto, using(crate::proofs::Openings::accepted_if_read))]
pub fn begin(bytes: &[u8], out: &mut [u8]) -> Begun
    ensures outcome { opened_as_numbers result.plan ≡ read_as_numbers bytes.now }
    ensures inside { IfOk result.plan (λ opened. opened.bytes ≤ length bytes.now) }
    ensures board { board_opened result.plan ≡ fresh_board (plan_read bytes.now) }
    ensures state { state_opened result.plan ≡ fresh_state }
    ensures line { outcome_as_numbers result.line ≡ line_as_numbers (opening_line bytes.now) (length out.old) 0 }
    ensures written { out.new ≡ line_buffer (opening_line bytes.now) out.old 0 }
{
    let read = plan_bytes::read(bytes);
    Begun {
        plan: open(read),
        line: opening_line(read, out),
    }
}
