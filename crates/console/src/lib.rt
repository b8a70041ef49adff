// What the programs read and write. Standard input is read to a slice. Words, numbers and hex digits are put into a buffer, which goes to
// standard output when it is full and at the end. What is written is no part of the logic, so the contracts say what waits in the buffer.
#![tactic(auto)]

ghost use Rattle.std.specs.Prelude.{◌≡◌, ltb};

mod failures; // failures.rt: what is said of a read or a write that failed
mod output; // output.rt: standard output
mod reading; // reading.rt: standard input

pub use output::Output;
pub use reading::{Stop, read_input};
use std::env::FillError;
use std::rt::Env;

// How many arguments a program was started with: its own name counts among them.
pub fn argument_count(rt: &impl Env) -> usize {
    let mut front = [0u8; 1];
    for i in 0..usize::MAX {
        // One that is longer than a byte is there too, whatever its bytes are.
        if let Err(FillError::NotPresent) = rt.arg(i, &mut front) {
            return i;
        }
    }
    usize::MAX
}

// Whether a program that takes no argument was given one: its own name counts among them. If so, its usage goes to standard
// error.
pub fn is_misused(rt: HostRuntime, arguments: usize, usage: &[u8]) -> bool
    ensures { result ≡ ltb 1 arguments }
{
    if arguments <= 1 {
        return false;
    }
    let _ = rt.stderr().write_all(usage);
    true
}
