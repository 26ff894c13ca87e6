// What a command reads from the registers of a block: the call that it makes. Specification, clause 10.7.
ghost use Rattle.std.specs.Prelude.{◌≡◌};
ghost use Rattle.register_block.specs.Calls.{command_call};

use registers::{BLOCK, tick_in};
use rules::Call;

// Clause 10.7: the call that a command makes from the registers.
// Kept: the command is the byte that a driver writes, and `command` refuses every other than 1 to 4.
#[tactic(auto, using(std::proofs::lemmas::Bool::Decides::nat_tests), unfolding(crate::specs::Calls::command_call))]
pub fn call_of(bytes: [u8; BLOCK], command: u8) -> Call
    ensures { result ≡ command_call bytes command }
{
    let processor = bytes[1];
    let entry = bytes[2];
    let tick = tick_in(bytes);
    match command {
        1 => Call::Issue {
            processor,
            entry,
            tick,
        },
        2 => Call::Complete { processor, tick },
        3 => Call::Withdraw { processor, tick },
        _ => Call::Handover {
            processor,
            entry,
            tick,
        },
    }
}
