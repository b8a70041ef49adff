// Runs scripts of store calls from standard input, and prints what each call answers.
#![tactic(auto)]

ghost use Rattle.std.specs.Prelude.{◌≤◌, ◌+◌, length, IfSome, IfOk};

use console::{Output, Stop};
use gap_quarantine::Quarantine;

mod calls; // calls.rt: the calls that may change the store
mod dump; // dump.rt: the whole store as text
mod print; // print.rt: answers as text
mod reads; // reads.rt: the calls that only read

// How long standard input may be.
const INPUT: usize = 1048576;

// How long a script may be.
const LONGEST: usize = 65536;

// Runs the call that the bytes begin with, and returns its size in bytes, or None where no call stands. A mark that is none of this
// program's own is a trace's, or none.
fn run_call(out: &mut Output, q: &mut Quarantine, s: &[u8]) -> Option<usize>
    ensures within { IfSome result (λ size. size ≤ length s.now) }
{
    if s.len() < 2 || s[0] != b'C' {
        return None;
    }
    match s[1] {
        b'M' => calls::short_poll(out, q, s),
        b'W' => calls::sweep(out, q, s),
        letter @ (b'S' | b'B' | b'T' | b'L' | b'N' | b'C' | b'K' | b'H' | b'D') => {
            reads::read(out, *q, letter, s)
        }
        letter => calls::trace_call(out, q, letter, s),
    }
}

// A script from an empty store, a line a call.
fn run_script(out: &mut Output, s: &[u8]) {
    let mut q = Quarantine::new();
    let mut rest = s;
    // A call has a byte at least, so there are no more calls than bytes.
    for place in 0..s.len() {
        if rest.is_empty() {
            return;
        }
        out.number(place as u64);
        let Some(size) = run_call(out, &mut q, rest) else {
            out.text(b" bad\n");
            return;
        };
        out.text(b"\n");
        rest = &rest[size..];
    }
}

// Reads the next script of standard input, where so many bytes of it may still come, and returns its length, or None at the end.
fn next_script(rt: HostRuntime, left: usize, script: &mut [u8]) -> Result<Option<usize>, Stop>
    ensures fits { IfOk result (λ next. IfSome next (λ len. len ≤ length script.new)) }
    ensures left { IfOk result (λ next. IfSome next (λ len. len + 4 ≤ left)) }
{
    let mut head = [0u8; 4];
    let got = console::read_input(rt, &mut head).ok_or(Stop::Failed)?;
    if got == 0 {
        return Ok(None);
    }
    if got < 4 || left < 4 {
        return Err(Stop::Bad);
    }
    let len = wire::number(&head, 0, 4) as usize;
    if script.len() < len || left - 4 < len {
        return Err(Stop::Bad);
    }
    let got = console::read_input(rt, &mut script[..len]).ok_or(Stop::Failed)?;
    if got < len {
        return Err(Stop::Bad);
    }
    Ok(Some(len))
}

// The scripts of standard input, one after another, each after a line with its place.
fn run_scripts(rt: HostRuntime, out: &mut Output) -> Result<(), Stop> {
    let mut script = [0u8; LONGEST];
    let mut left = INPUT;
    for place in 0..=INPUT {
        let Some(len) = next_script(rt, left, &mut script)? else {
            return Ok(());
        };
        out.count(b"==", place as u64);
        out.text(b"\n");
        run_script(out, &script[..len]);
        left -= len + 4;
    }
    Ok(())
}

// Refuses arguments, runs the scripts, and writes what waits at the end.
fn main(rt: HostRuntime) {
    if console::is_misused(
        rt,
        console::argument_count(&rt),
        b"usage: replay < SCRIPTS\n",
    ) {
        return;
    }
    let mut out = Output::new(rt);
    if let Err(Stop::Bad) = run_scripts(rt, &mut out) {
        out.text(b"bad input\n");
    }
    out.flush();
}
