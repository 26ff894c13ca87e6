// Reads a number from bytes, low byte first. Plans, logs and registers are read with it. Specification, clause 2.1.
ghost use Rattle.std.specs.Prelude.{◌≡◌, ◌^◌, ◌<◌, min, length, take};
ghost use Rattle.encoding.specs.Numbers.{number};

// Clause 2.1: the number in the first eight bytes, or in all bytes if there are fewer. It is read from the high byte
// down.
// Kept: no `from_le_bytes`, which takes eight bytes and no fewer.
pub fn read_number(bytes: &[u8]) -> u64
    ensures value { result ≡ number (take 8 bytes.now) }
    ensures bound { result < 256 ^ min 8 (length bytes.now) }
{
    let low = &bytes[..bytes.len().min(8)];
    let mut sum = 0;
    for &byte in low.iter().rev() {
        sum = u64::from(byte) + 256 * sum;
    }
    sum
}
