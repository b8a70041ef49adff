// What the program `trace` prints: a line for each call of the trace that was read, and the totals if it is whole, put into the buffer
// that goes to standard output.
#![tactic(auto)]

ghost use Rattle.std.specs.Prelude.{◌≡◌};
ghost use Rattle.console.specs.Waiting.{waits, all_behind};
ghost use Rattle.trace_format.specs.Traces.{read_trace};
ghost use Rattle.trace_run.specs.Promises.{totals_of};
ghost use Rattle.trace_output.specs.Examples.{Examples};
ghost use Rattle.trace_output.specs.Lines.{placed_line, placed_lines, totals_line, trace_lines, trace_output};

use console::Output;
use trace_run::{MOST_BYTES, MOST_LINES};
use trace_totals::Totals;

// How many bytes of a trace are read: one more than it may have, so that a longer one is refused.
pub const READ: usize = MOST_BYTES + 1;

// A line: a place, a space and a number.
fn placed_line(out: &mut Output, place: usize, n: u64)
    ensures { waits out.new ≡ all_behind (waits out.old) (placed_line place n) }
{
    out.number(place as u64);
    out.next(n);
    out.text(b"\n");
}

// A line for each number, from place 0 on.
fn placed_lines(out: &mut Output, lines: &[u64])
    ensures { waits out.new ≡ all_behind (waits out.old) (placed_lines 0 lines.now) }
{
    for (place, n) in lines.iter().enumerate() {
        placed_line(out, place, *n);
    }
}

// The last line of a whole trace.
fn totals_line(out: &mut Output, totals: Totals)
    ensures { waits out.new ≡ all_behind (waits out.old) (totals_line (totals_of totals)) }
{
    out.count(b"accepted", totals.accepted as u64);
    out.count(b" held", totals.held as u64);
    out.count(b" rescued", totals.rescued as u64);
    out.count(b" dead", totals.dead as u64);
    out.count(b" evicted", totals.evicted as u64);
    out.text(b"\n");
}

// Runs a trace and puts its lines.
fn put_lines(out: &mut Output, trace: &[u8])
    ensures { waits out.new ≡ all_behind (waits out.old) (trace_lines (read_trace trace.now)) }
{
    let mut lines = [0u64; MOST_LINES];
    let ran = trace_run::run_trace(trace, &mut lines);
    let whole = ran.whole;
    placed_lines(out, &lines[..ran.lines]);
    if whole {
        totals_line(out, ran.totals);
    }
}

// Puts what is printed where n bytes of a file were read to the front of `read`.
// The count stands beside the array, since the contract holds at each count: over the limit the bytes do not matter.
pub fn put_trace(out: &mut Output, read: &[u8; READ], n: usize)
    ensures { waits out.new ≡ all_behind (waits out.old) (trace_output n read.now) }
{
    put_lines(out, &read[..n.min(READ)]);
}

// What is printed of some traces, byte by byte. It does nothing, and has the claim as its contract, so that no check passes with the
// claim unproved.
pub fn byte_by_byte()
    ensures { Examples }
{}
