// Folds the journal of standard input and prints one line: what is pending, the totals and the end, or a refusal.
#![tactic(auto)]

use console::Output;

// Refuses arguments, reads, puts the line, and writes it.
fn main(rt: HostRuntime) {
    if console::is_misused(rt, console::argument_count(&rt), b"usage: fold < JOURNAL\n") {
        return;
    }
    let mut journal = [0u8; fold_output::READ];
    let Some(n) = console::read_input(rt, &mut journal) else {
        return;
    };
    let mut out = Output::new(rt);
    fold_output::put_fold(&mut out, &journal, n);
    out.flush();
}
