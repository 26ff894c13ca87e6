// Accepted calls, in place, on a board where the first so many processors are never idle: each turn completes a holder
// and issues again at once.
ghost use Rattle.std.specs.Prelude.{◌<◌, ◌≤◌};

use crate::board::plan;
use calls_in_place::{complete_in_place, issue_in_place};
use rules::{Board, Done, LentArrays, LentBoard, Moment, Reply, State};

// The next number of a fixed sequence.
fn next(seed: u64) -> u64 {
    (seed % 2147483648 * 1103515245 + 12345) % 2147483648
}

// The plan has 16 processors for up to 16 busy ones, otherwise 32.
fn processors_for(busy: u8) -> u8
    ensures { result ≤ 32 }
{
    if busy <= 16 { 16 } else { 32 }
}

// A place on a board of so many processors: the seed's low 20 bits, scaled to the number of places.
fn place(seed: u64, processors: u8) -> u32
    requires { processors ≤ 32 }
    ensures { result < 32 }
{
    (seed % 1048576 * processors as u64 / 1048576) as u32
}

// The lowest holder at or above a place, or the lowest of all if there is none.
fn holder_from(holding: u32, place: u32) -> u32
    requires { place < 32 }
    ensures { result ≤ 32 }
{
    let above = holding >> place << place;
    if above != 0 {
        u32::trailing_zeros(above)
    } else {
        u32::trailing_zeros(holding)
    }
}

fn mixed(sum: u64, reply: Reply) -> u64 {
    match reply {
        Ok(
            Done {
                granted,
                entitled,
                late,
            },
        ) => {
            let masks = u64::from(granted) * 65536 + u64::from(entitled) * 2;
            (sum % 4294967296 * 31 + masks + u64::from(late)) % 4294967296
        }
        Err(_) => sum,
    }
}

// Each busy processor issues its first request.
fn filled(board: Board, fresh: State, busy: u8) -> State
    requires { busy ≤ 32 }
{
    let mut state = fresh;
    for p in 0..busy {
        state = arbiter::issue(board, state, p, p * 3 % 64, 0).state;
    }
    state
}

// The turns, and the checksum of their answers. The arrays of the state are lent to each call.
fn sum_from(board: &Board, full: State, processors: u8, turns: u64) -> u64
    requires { (processors ≤ 32) × (turns < 1000000000) }
{
    let lent = board.lend();
    let mut requested = full.requested;
    let mut since = full.since;
    let mut earlier = full.earlier;
    let mut moment = Moment {
        last: full.last,
        phases: arbiter::phases_of(*board, full),
    };
    let mut seed: u64 = 1;
    let mut sum: u64 = 0;
    for tick in 1..=turns {
        seed = next(seed);
        let p = holder_from(moment.phases.holding, place(seed, processors)) as u8;
        let e = (seed / 1048576 % 64) as u8;
        let completed = complete_in_place(lent, moment, &requested, &mut since, &earlier, p, tick);
        let mut arrays = LentArrays {
            requested: &mut requested,
            since: &mut since,
            earlier: &mut earlier,
        };
        let issued = issue_in_place(lent, completed.moment, &mut arrays, p, e, tick);
        moment = issued.moment;
        sum = mixed(mixed(sum, completed.reply), issued.reply);
    }
    sum
}

pub fn sum_of(busy: u8, turns: u64) -> u64
    requires { (busy ≤ 32) × (turns < 1000000000) }
{
    let processors = processors_for(busy);
    match boards::fresh_of(plan(processors)) {
        Ok(fresh) => {
            let full = filled(fresh.board, fresh.state, busy);
            sum_from(&fresh.board, full, processors, turns)
        }
        Err(_) => 0,
    }
}
