// Reads one byte of a lent slice, and checks that the slice has as many bytes as are due. Specification, clauses 2.9
// and 8.1.
ghost use Rattle.std.specs.Prelude.{◌≡◌, get_or};
ghost use Rattle.refusals.specs.Number.{verdict_number};
ghost use Rattle.encoding.specs.Buffers.{short_fault};

use refusals::{Refusal, refuse_unless};

// The byte at a place, or 0 past the end.
// Kept: not generic with `masks::row_at`, as said there.
pub fn byte_at(bytes: &[u8], place: usize) -> u8
    ensures { result ≡ get_or bytes.now place 0 }
{
    bytes.get(place).copied().unwrap_or(0)
}

// Refuses with 1 if there are fewer bytes than are due.
pub fn check_due(needed: usize, bytes: &[u8]) -> Result<(), Refusal>
    ensures { verdict_number result ≡ short_fault needed bytes.now }
{
    refuse_unless(needed <= bytes.len(), Refusal::Short)
}
