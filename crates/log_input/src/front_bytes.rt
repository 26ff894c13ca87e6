// Moves bytes to the front of a buffer: from another buffer, or from further back in the same one.
ghost use Rattle.std.specs.Prelude.{◌≡◌, ◌-◌, min, length};
ghost use Rattle.log_input.specs.Fronts.{copied_in, brought_front};

// Copies bytes to the front of the buffer, as many as fit, and returns how many.
pub fn copy_in(bytes: &[u8], buffer: &mut [u8]) -> usize
    ensures size { result ≡ min (length bytes.now) (length buffer.old) }
    ensures bytes { buffer.new ≡ copied_in bytes.now buffer.old }
{
    let most = bytes.len().min(buffer.len());
    buffer[..most].copy_from_slice(&bytes[..most]);
    most
}

// Moves the bytes between two positions of the buffer to its front, and returns how many there are. The positions count
// only as far as the buffer goes.
pub fn bring_to_front(buffer: &mut [u8], from: usize, have: usize) -> usize
    ensures size { result ≡ min have (length buffer.old) - from }
    ensures bytes { buffer.new ≡ brought_front from have buffer.old }
{
    let end = have.min(buffer.len());
    let start = from.min(end);
    buffer.copy_within(start..end, 0);
    end - start
}
