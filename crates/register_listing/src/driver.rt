// A driver: it keeps a board, a state and a register block, and lends them to the functions that read and write the
// block.
ghost use Rattle.std.specs.Prelude.{◌≡◌, OnErr, replicate};
ghost use Rattle.rules.specs.InPlace.{board_by};
ghost use Rattle.encoding.specs.Buffers.{outcome_as_numbers};
ghost use Rattle.registers.specs.Registers.{register_read};
ghost use Rattle.register_block.specs.Commands.{register_write, written_as_numbers};

use boards::Fresh;
use refusals::Refusal;
use register_block::{read_register, write_register};
use registers::{BLOCK, Block};
use rules::{Board, State};

#[derive(Clone, Copy)]
pub struct Driver {
    pub board: Board,
    pub state: State,
    pub block: Block,
}

impl Driver {
    // A fresh board, and a block of zeros.
    pub fn new(fresh: Fresh) -> Driver
        ensures board { result.board ≡ fresh.board }
        ensures state { result.state ≡ fresh.state }
        ensures block { result.block.bytes ≡ replicate 32 0 }
    {
        Driver {
            board: fresh.board,
            state: fresh.state,
            block: Block { bytes: [0; BLOCK] },
        }
    }

    pub fn read(&self, offset: u8) -> Result<u8, Refusal>
        ensures { outcome_as_numbers result ≡ register_read self.now.block offset }
    {
        read_register(&self.block, offset)
    }

    // If the write is refused, the block and the state stay as they are.
    pub fn write(&mut self, offset: u8, value: u8) -> Result<(), Refusal>
        ensures board { self.new.board ≡ self.old.board }
        ensures state { OnErr result (self.new.state ≡ self.old.state) }
        ensures change { written_as_numbers (record { verdict = result; state = self.new.state }) self.new.block
            ≡ register_write (board_by self.old.board.terms self.old.board.rows self.old.board.lengths)
            self.old.state self.old.block offset value }
    {
        let lent = self.board.lend();
        let written = write_register(&mut self.block, lent, self.state, offset, value);
        self.state = written.state;
        written.verdict
    }
}
