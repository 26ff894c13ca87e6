// Whether a lent buffer has room for a number of bytes from a position on. Code that writes bytes checks this first.
// Specification, clauses 2.12 and 8.1.
ghost use Rattle.std.specs.Prelude.{◌≡◌, true, ◌+◌, ◌≤◌};
ghost use Rattle.refusals.specs.Number.{verdict_number};
ghost use Rattle.encoding.specs.Buffers.{has_room, room_fault};

use refusals::{Refusal, refuse_unless};

// Whether a buffer of this size has the needed bytes from a position on. The position can be any number, so nothing is
// added to it: the sum might overflow.
pub fn has_room(needed: usize, size: usize, at: usize) -> bool
    ensures is { result ≡ has_room needed size at }
    ensures room { result ≡ true → at + needed ≤ size }
{
    size.checked_sub(at).is_some_and(|room| needed <= room)
}

// Refuses with 16 if there is no room.
pub fn check_room(needed: usize, size: usize, at: usize) -> Result<(), Refusal>
    ensures { verdict_number result ≡ room_fault needed size at }
{
    refuse_unless(has_room(needed, size, at), Refusal::Room)
}
