// What is said of a read or a write that failed.
ghost use Rattle.std.specs.Io.{StartsWith};

use arrayvec::ArrayString;
use std::fmt::Write;
use std::io;

// What std writes after the system's reason, before the error's number.
const NUMBER: &str = " (os error ";

// How many bytes of an error's text are kept: the system's reasons are shorter.
const ROOM: usize = 256;

// The reason alone, where its number may stand after it.
fn reason(text: &str) -> &str
    ensures { StartsWith text.now result.now }
{
    match text.split_once(NUMBER) {
        Some((reason, _)) => reason,
        None => text,
    }
}

// Writes a line to standard error: what failed, a colon and the system's reason.
pub(crate) fn fail(rt: &impl Eprint, what: &str, error: io::Error) {
    let mut text = ArrayString::<ROOM>::new();
    // What does not fit is left out.
    let _ = write!(text, "{error}");
    let _ = eprintln!(rt; "{what}: {}", reason(text.as_str()));
}
