// What the reply to a command leaves in the registers of a block. Specification, clauses 10.8 and 10.9. `command_calls`
// reads what a command takes from them.
ghost use Rattle.std.specs.Prelude.{◌≡◌, ◌+◌, ◌≤◌, Ok, set};
ghost use Rattle.refusals.specs.Number.{number_of};
ghost use Rattle.rules.specs.Replies.{reply_as_numbers};
ghost use Rattle.register_block.specs.Registers.{with_mask, accepted_block, replied_block};

use encoding::write_number;
use refusals::Refusal;
use registers::{BLOCK, Block, pending_in, with_line};
use rules::{Done, Reply};

// Stores a mask in four of the bytes.
fn put_mask(bytes: &mut [u8; BLOCK], place: usize, mask: u64)
    requires { place + 4 ≤ 32 }
    ensures { bytes.new ≡ with_mask place mask bytes.old }
{
    // There is room, so this is not refused.
    let _ = write_number(mask, 4, bytes, place);
}

// Clause 10.8: stores the answer to an accepted command in the registers.
#[tactic(auto, using(crate::proofs::command_registers::Blocks::or_joined), unfolding(crate::specs::Registers::accepted_block))]
fn accept(mut bytes: [u8; BLOCK], done: Done) -> Block
    ensures { result ≡ accepted_block bytes (reply_as_numbers (Ok done)) }
{
    let pending = pending_in(bytes) | u64::from(done.granted);
    bytes[3] = 0;
    bytes[9] = done.late;
    put_mask(&mut bytes, 12, u64::from(done.granted));
    put_mask(&mut bytes, 16, u64::from(done.entitled));
    put_mask(&mut bytes, 20, pending);
    with_line(bytes)
}

// Clause 10.9: stores the number of a command's refusal in its register.
fn refuse(mut bytes: [u8; BLOCK], refusal: Refusal) -> Block
    ensures { result ≡ record { bytes = set bytes 3 (number_of refusal) } }
{
    bytes[3] = u8::from(refusal);
    Block { bytes }
}

// Clauses 10.8 and 10.9: what a command leaves.
pub fn show(bytes: [u8; BLOCK], reply: Reply) -> Block
    ensures { result ≡ replied_block bytes (reply_as_numbers reply) }
{
    match reply {
        Ok(done) => accept(bytes, done),
        Err(refusal) => refuse(bytes, refusal),
    }
}
