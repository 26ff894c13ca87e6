// Reads into a lent buffer, after the bytes that it already contains.
// Kept: what is at hand is a number beside the buffer, since each read lends the rest of the same buffer.
ghost use Rattle.std.specs.Prelude.{◌≡◌, ◌+◌, ◌≤◌, ◌<◌, Bool, true, false, length, take, IfOk, OnSome};
ghost use Rattle.std.specs.Fn.{FnReturnsAt};
ghost use Rattle.log_input.specs.Reads.{at_hand, EnoughIsLeft, FailsShort, FailsUndecided};

use crate::needed_input::is_short;
use std::io;
use std::io::Read;

// How many bytes a buffer contains after some reads, and why the last read failed, if it did.
// Kept: no `Result`, since the bytes that came before a failure still count: their calls are carried out.
#[derive(Clone, Copy)]
pub struct Fed {
    pub have: usize,
    pub failure: Option<io::Error>,
}

// One read, into the buffer after its first bytes. No bytes mean the end of the input.
fn read_behind<R: Read>(input: &mut R, buffer: &mut [u8], have: usize) -> io::Result<usize>
    requires { have ≤ length buffer.old }
    ensures size { length buffer.new ≡ length buffer.old }
    ensures within { IfOk result (λ bytes. have + bytes ≤ length buffer.new) }
    ensures kept { take have buffer.new ≡ take have buffer.old }
{
    input.read(&mut buffer[have..])
}

// Reads while the bytes so far ask for more, until the buffer is full, or the input ends, or a read fails. The first
// bytes are at hand: they stay and are counted.
fn fill_while<R: Read, F: Fn(&[u8]) -> bool>(
    input: &mut R,
    buffer: &mut [u8],
    first: usize,
    waits: F,
) -> Fed
    requires callable { F.IsAlwaysCallable waits }
    requires inside { first ≤ length buffer.old }
    ensures within { result.have ≤ length buffer.new }
    ensures kept { take first buffer.new ≡ take first buffer.old }
    ensures size { length buffer.new ≡ length buffer.old }
    ensures counted { first ≤ result.have }
    ensures enough { ((more : Bool) → FnReturnsAt F.Fn waits (take first buffer.old) more → more ≡ false)
        → (buffer.new ≡ buffer.old) × (result.have ≡ first) }
    ensures failure { OnSome result.failure
        ((result.have < length buffer.new) × FnReturnsAt F.Fn waits (take result.have buffer.new) true) }
{
    let mut have = first;
    while have < buffer.len() && waits(&buffer[..have]) {
        match read_behind(input, buffer, have) {
            Ok(0) => return Fed {
                have,
                failure: None,
            },
            Ok(bytes) => have += bytes,
            Err(reason) => return Fed {
                have,
                failure: Some(reason),
            },
        }
    }
    Fed {
        have,
        failure: None,
    }
}

// Reads until the buffer contains as many bytes as are needed, or is full, or the input ends, or a read fails. The
// first bytes are at hand: they stay and are counted. If they are enough, nothing is read.
pub fn fill_to<R: Read>(input: &mut R, buffer: &mut [u8], first: usize, needed: usize) -> Fed
    ensures within { result.have ≤ length buffer.new }
    ensures kept { take first buffer.new ≡ take first buffer.old }
    ensures size { length buffer.new ≡ length buffer.old }
    ensures counted { at_hand first buffer.old ≤ result.have }
    ensures enough { EnoughIsLeft first needed buffer.old buffer.new result.have }
    ensures failure { FailsShort needed buffer.old result.have result.failure }
{
    let at_hand = first.min(buffer.len());
    fill_while(input, buffer, at_hand, |bytes| bytes.len() < needed)
}

// Reads until the bytes so far decide that the plan at the start of the buffer is accepted or refused, or the input
// ends, or a read fails. Nothing is at hand at first. A plan that fits is never short once the buffer is full.
pub fn fill_plan<R: Read>(input: &mut R, buffer: &mut [u8]) -> Fed
    ensures within { result.have ≤ length buffer.new }
    ensures kept { length buffer.new ≡ length buffer.old }
    ensures failure { FailsUndecided buffer.new result.have result.failure }
{
    fill_while(input, buffer, 0, is_short)
}
