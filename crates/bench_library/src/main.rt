// The library's part of the benchmarks. Prints a checksum of all answers, which the Rust programs print too.
//   bench_library [BUSY [TURNS]]    makes calls with so many busy processors; by default 16 processors and five million
//                                   turns, which are ten million calls
//   bench_library plans TURNS       reads a plan of 64 entries so many times
#![tactic(auto)]

mod board;
mod reads;
mod turns;

ghost use Rattle.std.specs.Prelude.{◌<◌, ◌≤◌, length};

use std::env::Env;

const BUSY: u64 = 16;

const TURNS: u64 = 5000000;

// Argument i as a number of at most nine digits, or `other` if there is none.
// Kept: no `parse`, so that the program does what it did on every input: each byte counts as some digit.
fn number_of(rt: &HostRuntime, i: usize, other: u64) -> u64
    requires { other < 1000000000 }
    ensures { result < 1000000000 }
{
    let mut text = [0; 9];
    let size = rt.arg(i, &mut text).unwrap_or(0);
    if size == 0 {
        return other;
    }
    let mut sum = 0;
    for byte in &text[..size] {
        sum = sum % 100000000 * 10 + u64::from(byte % 16 % 10);
    }
    sum
}

// Whether the first argument is `plans`.
fn is_of_plans(rt: &HostRuntime) -> bool {
    let mut text = [0; 9];
    matches!(rt.arg(1, &mut text), Ok(5)) && text[0] == b'p'
}

fn main(rt: HostRuntime) {
    let plans = is_of_plans(&rt);
    let turns = number_of(&rt, 2, TURNS);
    let sum = if plans {
        reads::sum_of(turns)
    } else {
        turns::sum_of(number_of(&rt, 1, BUSY).min(32) as u8, turns)
    };
    let _ = println!(rt; "{sum}");
}
