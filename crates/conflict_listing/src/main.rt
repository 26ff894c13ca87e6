// Test program: reads a plan from standard input, and prints for each pair of its entries what they conflict over: the
// lowest-numbered resource that they share, and how many they share. Its output is compared with another program's.
#![tactic(auto)]

use conflicts::Conflict;
use log_input::fill_to;
use plans::MAX_PLAN_BYTES;
use probe_io::Refused;
use queries::shared_by;
use refusals::Refusal;
use rules::Board;

fn print_pair(rt: &HostRuntime, board: &Board, first: u8, second: u8) {
    let _ = match shared_by(*board, first, second) {
        Ok(None) => println!(rt; "{first} {second} none"),
        Ok(Some(Conflict { lowest, count })) => println!(rt; "{first} {second} {lowest} {count}"),
        Err(refusal) => println!(rt; "{first} {second} {}", Refused(refusal)),
    };
}

// The pairs of an entry with itself and with each later one.
fn print_row(rt: &HostRuntime, board: &Board, first: u8) {
    for second in first..board.terms.count {
        print_pair(rt, board, first, second);
    }
}

// All pairs, and then one with the first number that is not an entry.
fn print_pairs(rt: &HostRuntime, board: &Board) {
    let count = board.terms.count;
    for first in 0..count {
        print_row(rt, board, first);
    }
    print_pair(rt, board, 0, count);
}

// The board of the plan at the start of the bytes.
// Kept: two lines, as wherever a plan is read and its arbiter made; what is made of both differs.
fn board_of(bytes: &[u8]) -> Result<Board, Refusal> {
    let read = plan_bytes::read(bytes)?;
    let fresh = boards::fresh_of(read.plan)?;
    Ok(fresh.board)
}

fn main(rt: HostRuntime) {
    let mut bytes = [0u8; MAX_PLAN_BYTES];
    let fed = fill_to(&mut rt.stdin(), &mut bytes, 0, MAX_PLAN_BYTES);
    match board_of(&bytes[..fed.have]) {
        Ok(board) => print_pairs(&rt, &board),
        Err(refusal) => {
            let _ = println!(rt; "{}", Refused(refusal));
        }
    }
}
