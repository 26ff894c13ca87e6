// The sizes of the buffers that `lockreplay` uses, and the theorem over these buffers: what the program writes is the
// listing of the whole log (proofs/Program.antt). `lockreplay` and `demands` use it.
#![tactic(auto)]

ghost use Rattle.std.specs.Prelude.{◌≡◌};
ghost use Rattle.whole_listing.specs.Rooms.{plan_room, block_room, lines_room};

use plans::MAX_PLAN_BYTES;

// The program's buffers: for the plan, for a block of the input, and for a block's lines.
pub const PLAN_ROOM: usize = MAX_PLAN_BYTES;

pub const BLOCK_ROOM: usize = 4096;

pub const LINES_ROOM: usize = 65536;

#[derive(Clone, Copy)]
pub struct Rooms {
    pub plan: usize,
    pub block: usize,
    pub lines: usize,
}

// The sizes of the program's buffers are those of the definitions. The plan's buffer has room for the longest plan.
pub fn buffer_rooms() -> Rooms
    ensures { result ≡ record { plan = plan_room; block = block_room; lines = lines_room } }
{
    Rooms {
        plan: PLAN_ROOM,
        block: BLOCK_ROOM,
        lines: LINES_ROOM,
    }
}
