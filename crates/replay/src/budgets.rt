// How many records of a log a block of its bytes carries out, so that each record is whole and its line has room
// (specification, section 9). `run` carries them out.
ghost use Rattle.std.specs.Prelude.{◌≡◌};
ghost use Rattle.replay.specs.Budgets.{budget_of};

use logs::RECORD_BYTES;

// The room that a line needs: the longest line of a call, whatever the plan, or of a refusal, rounded up.
const LINE_ROOM: usize = 88;

// How many records a block carries out: those that are left, are whole in the bytes, and have room for their lines.
pub fn budget_of(left: u16, size: usize, room: usize) -> u16
    ensures { result ≡ budget_of left size room }
{
    let whole = size / RECORD_BYTES;
    let lines = room / LINE_ROOM;
    whole.min(lines).min(left as usize) as u16
}
