// Runs the trace of standard input from an empty store, and prints a line a call: its place, and the number of its refusal or 0. If the
// trace is whole, its totals follow.
#![tactic(auto)]

use console::Output;

// Refuses arguments, reads, puts the lines, and writes them.
fn main(rt: HostRuntime) {
    if console::is_misused(rt, console::argument_count(&rt), b"usage: trace < TRACE\n") {
        return;
    }
    let mut trace = [0u8; trace_output::READ];
    let Some(n) = console::read_input(rt, &mut trace) else {
        return;
    };
    let mut out = Output::new(rt);
    trace_output::put_trace(&mut out, &trace, n);
    out.flush();
}
