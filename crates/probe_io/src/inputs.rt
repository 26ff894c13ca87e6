// An input as it arrives: the program waits for no more bytes than it needs to go on. No contract can say what a read
// returns, so these functions promise what every choice of a read has in common.
ghost use Rattle.std.specs.Prelude.{◌≡◌, ◌≤◌, ◌<◌, true, [], length, take, drop, IsOk, OnErr};
ghost use Rattle.log_input.specs.Stages.{is_short};
ghost use Rattle.probe_io.specs.Inputs.{unread};

use log_input::{bring_to_front, fill_plan, fill_to};
use std::io;
use std::io::Read;

// More than the size of the longest plan.
const ROOM: usize = 4096;

// The bytes that were read and not yet used come first in the buffer.
// Kept: a buffer and how much of it is filled, since there is no heap.
#[derive(Drop)]
pub struct Input<R> {
    source: R,
    bytes: [u8; ROOM],
    have: usize,
}

impl<R: Read> Input<R> {
    // Nothing is read yet.
    pub fn new(source: R) -> Input<R>
        ensures { unread result ≡ [] }
    {
        Input {
            source,
            bytes: [0; ROOM],
            have: 0,
        }
    }

    // The bytes that were read and not yet used.
    pub fn unread(&self) -> &[u8]
        ensures { result.now ≡ unread self.now }
    {
        &self.bytes[..self.have.min(ROOM)]
    }

    // Reads the start of the input, until it decides whether its plan is accepted. It fails only while it does not.
    pub fn read_plan(&mut self) -> io::Result<()>
        ensures { OnErr result (is_short (unread self.new) ≡ true) }
    {
        let plan = fill_plan(&mut self.source, &mut self.bytes);
        self.have = plan.have;
        plan.failure.map_or(Ok(()), Err)
    }

    // So many bytes are used. After them so many are needed: it reads until they are there, or the input ends. It fails
    // only while they are not.
    pub fn advance(&mut self, used: usize, needed: usize) -> io::Result<()>
        ensures left { take (length (drop used (unread self.old))) (unread self.new) ≡ drop used (unread self.old) }
        ensures enough { needed ≤ length (drop used (unread self.old))
            → (unread self.new ≡ drop used (unread self.old)) × IsOk result }
        ensures failure { OnErr result (length (unread self.new) < needed) }
    {
        let left = bring_to_front(&mut self.bytes, used, self.have);
        let fed = fill_to(&mut self.source, &mut self.bytes, left, needed);
        self.have = fed.have;
        fed.failure.map_or(Ok(()), Err)
    }
}
