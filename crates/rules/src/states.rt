// The board that calls read and the state that they change.
ghost use Rattle.std.specs.Prelude.{◌≡◌};

use plans::{MAX_ENTRIES, MAX_PROCESSORS};

// The counts of a plan, and which of its entries are writes. A call reads these from a board, and also the conflict
// rows and the lengths.
#[derive(Clone, Copy)]
pub struct Terms {
    pub processors: u8,
    pub count: u8,
    pub writes: u64,
}

// Kept: an array for each field, here and in a state, as the C interface lays them out and calls lend them one by one.
// What the calls and queries read. A board is made from a plan: its terms, the lengths, names and widened sets of its
// entries, and which entries conflict.
#[derive(Clone, Copy)]
pub struct Board {
    pub terms: Terms,
    pub lengths: [u16; MAX_ENTRIES],
    pub names: [u64; MAX_ENTRIES],
    pub widened: [u64; MAX_ENTRIES],
    pub rows: [u64; MAX_ENTRIES],
}

// The phases of all processors: bit p of a mask is processor p.
#[derive(Clone, Copy)]
pub struct Phases {
    pub waiting: u32,
    pub entitled: u32,
    pub holding: u32,
}

// The last accepted tick, and one request for each processor: its phase, the tick of its issue (of its grant while it
// holds), the processors whose requests were active when it was issued, and the entry that it requests.
#[derive(Clone, Copy)]
pub struct State {
    pub last: u64,
    pub phases: Phases,
    pub since: [u64; MAX_PROCESSORS],
    pub earlier: [u32; MAX_PROCESSORS],
    pub requested: [u8; MAX_PROCESSORS],
}

// What every call changes in a state in addition to its arrays: the last accepted tick and the phases.
#[derive(Clone, Copy)]
pub struct Moment {
    pub last: u64,
    pub phases: Phases,
}

// ---- what is lent to a call or a query

// What a call reads of a board.
#[derive(Clone, Copy)]
pub struct LentBoard<'a> {
    pub terms: Terms,
    pub rows: &'a [u64; MAX_ENTRIES],
    pub lengths: &'a [u16; MAX_ENTRIES],
}

// What settling, the direct waits and the queries read of a board and of a state's arrays.
#[derive(Clone, Copy)]
pub struct LentFacts<'a> {
    pub terms: Terms,
    pub rows: &'a [u64; MAX_ENTRIES],
    pub requested: &'a [u8; MAX_PROCESSORS],
    pub earlier: &'a [u32; MAX_PROCESSORS],
}

// The three arrays of a state, which a call changes in place.
// Kept: each function that is lent them says that the same arrays stay in it, since nothing else tells its caller.
#[derive(Drop)]
pub struct LentArrays<'a> {
    pub requested: &'a mut [u8; MAX_PROCESSORS],
    pub since: &'a mut [u64; MAX_PROCESSORS],
    pub earlier: &'a mut [u32; MAX_PROCESSORS],
}

impl Board {
    // The board, lent to a call.
    pub fn lend(&self) -> LentBoard<'_>
        ensures terms { result.terms ≡ self.now.terms }
        ensures rows { result.rows.now ≡ self.now.rows }
        ensures lengths { result.lengths.now ≡ self.now.lengths }
    {
        LentBoard {
            terms: self.terms,
            rows: &self.rows,
            lengths: &self.lengths,
        }
    }
}

impl State {
    // The last accepted tick and the phases.
    pub fn moment(&self) -> Moment
        ensures { result ≡ record { last = self.now.last; phases = self.now.phases } }
    {
        Moment {
            last: self.last,
            phases: self.phases,
        }
    }
}
