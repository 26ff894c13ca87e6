// Reads of a plan of 64 entries; each turn changes the length of one of them.
ghost use Rattle.std.specs.Prelude.{◌<◌};

use crate::board::plan;
use plans::{Entry, MAX_PLAN_BYTES};

fn mixed(sum: u64, taken: usize, entry: Entry) -> u64 {
    (sum % 4294967296 * 31 + taken as u64 % 65536 * 65536 + u64::from(entry.length)) % 4294967296
}

// Kept: the bound on the turns in the clauses. A type for it would only move the bound to the argument's test.
// The turns over the bytes of a plan, and the checksum of what was read.
fn sum_over(bytes: &mut [u8; MAX_PLAN_BYTES], turns: u64) -> u64
    requires { turns < 1000000000 }
{
    let mut sum = 0;
    for turn in 0..turns {
        let i = (turn % 64) as usize;
        bytes[12 + 11 * i] = (turn / 64 % 255 + 1) as u8;
        if let Ok(read) = plan_bytes::read(bytes) {
            sum = mixed(sum, read.bytes, read.plan.entries[i]);
        }
    }
    sum
}

pub fn sum_of(turns: u64) -> u64
    requires { turns < 1000000000 }
{
    let mut bytes = [0; MAX_PLAN_BYTES];
    let _ = plan_bytes::write(plan(16), &mut bytes, 0);
    sum_over(&mut bytes, turns)
}
