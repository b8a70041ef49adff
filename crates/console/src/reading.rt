// Standard input.
ghost use Rattle.std.specs.Prelude.{◌≤◌, length, IfSome};

use crate::failures;
use std::io::Read;

// Why a program reads no further: input that breaks off or is over a limit, or that cannot be read.
#[derive(Clone, Copy, Debug, PartialEq, Eq)]
pub enum Stop {
    Bad,
    Failed,
}

// Reads standard input to the front of a slice until the slice is full or the input ends, and returns how many bytes that is. A read
// that fails is a line on standard error, with its reason, and None, so that it is not taken for the end.
pub fn read_input(rt: HostRuntime, buffer: &mut [u8]) -> Option<usize>
    ensures within { IfSome result (λ n. n ≤ length buffer.new) }
{
    let mut done = 0;
    // By index: a read says only how many bytes it gave, and they may be any number of those asked for.
    while done < buffer.len() {
        match rt.stdin().read(&mut buffer[done..]) {
            Ok(0) => break,
            Ok(more) => done += more,
            Err(e) => {
                failures::fail(&rt, "standard input", e);
                return None;
            }
        }
    }
    Some(done)
}
