// Tells on standard error why a read or a write failed. No heap: the words of the reason pass through a fixed buffer.
use std::io::Write;
use std::{io, str};

// More than the words of any reason take.
const WORDS_ROOM: usize = 128;

// Writes a line to standard error, if there is a reason: what failed, a colon and the reason as the system words it,
// without the error's number. A line that cannot be written is left out, since there is nowhere left to say so.
pub fn tell<H: Eprint>(rt: &H, what: &str, reason: Option<io::Error>) {
    if let Some(reason) = reason {
        let mut words = [0u8; WORDS_ROOM];
        let mut rest = &mut words[..];
        let _ = write!(rest, "{reason}");
        let size = WORDS_ROOM.saturating_sub(rest.len());
        let _ = match str::from_utf8(&words[..size]) {
            Ok(whole) => match whole.split_once(" (os error ") {
                Some((short, _)) => eprintln!(rt; "{what}: {short}"),
                None => eprintln!(rt; "{what}: {whole}"),
            },
            Err(_) => eprintln!(rt; "{what}: {reason}"),
        };
    }
}
