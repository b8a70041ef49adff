// Folds the journals of standard input, restores what is pending and records alone, writes records again, and prints every answer.
#![tactic(auto)]

use console::{Output, Stop};
use item::Kind;
use journal_record::PARK_SIZE;

mod item; // item.rt: an item of standard input
mod rewrite; // rewrite.rt: one record, read and written again

// How long standard input may be.
const INPUT: usize = 1048576;

// A frame: hash, sender and five numbers.
fn print_frame(out: &mut Output, frame: &[u8; 92]) {
    out.hex(&frame[..32]);
    out.text(b" ");
    out.hex(&frame[32..52]);
    for number in frame[52..].chunks_exact(8) {
        out.next(wire::number(number, 0, 8));
    }
    out.text(b"\n");
}

// The frame of a record, or its refusal.
fn print_restored(out: &mut Output, record: &[u8]) {
    let mut frame = [0u8; 92];
    // C's function returns 0 or the refusal's number, and writes the frame's bytes.
    let code = journal_exports::gap_quarantine_restore(record, &mut frame);
    out.text(b"restore ");
    if code == 0 {
        print_frame(out, &frame);
        return;
    }
    out.count(b"refused", code);
    out.text(b"\n");
}

// The pending records, the first `count` of the output, each with its frame.
fn print_pending(out: &mut Output, records: &[u8], count: u64) {
    for record in records.chunks_exact(PARK_SIZE).take(count as usize) {
        out.hex(record);
        out.text(b"\n");
        print_restored(out, record);
    }
}

// Folds a journal.
fn run_journal(out: &mut Output, journal: &[u8], records: &mut [u8]) {
    let mut totals = [0u8; 40];
    // C's function returns 0 or a refusal with its offset, and writes the totals' bytes.
    let code = journal_exports::gap_quarantine_fold(journal, records, &mut totals);
    fold_output::fold_line(out, code, &totals);
    if code == 0 {
        print_pending(out, records, wire::number(&totals, 0, 8));
    }
}

// Writes a record again, and prints the length of the record that was written and its bytes, or the refusal.
fn run_record(out: &mut Output, bytes: &[u8], record: &mut [u8]) {
    match rewrite::rewrite(bytes, record) {
        Some(Ok(n)) => {
            out.count(b"written", n as u64);
            out.text(b" ");
            out.hex(&record[..n.min(record.len())]);
        }
        Some(Err(x)) => out.count(b"refused", refusal::number(x)),
        None => out.text(b"no record"),
    }
    out.text(b"\n");
}

// Folds, restores or writes again the bytes of an item.
fn run(out: &mut Output, kind: Kind, bytes: &[u8]) {
    let mut lent = [0u8; item::LENT];
    match kind {
        Kind::Fold(room) => run_journal(out, bytes, &mut lent[..room.min(item::LENT)]),
        Kind::Restore => print_restored(out, bytes),
        Kind::Rewrite(room) => run_record(out, bytes, &mut lent[..room.min(item::LENT)]),
    }
}

// The items of standard input, one after another, each after a line with its place.
fn run_items(rt: HostRuntime, out: &mut Output) -> Result<(), Stop> {
    let mut bytes = [0u8; item::LONGEST];
    let mut left = INPUT;
    for place in 0..=INPUT {
        let Some(head) = item::next_item(rt, left, &mut bytes)? else {
            return Ok(());
        };
        out.count(b"==", place as u64);
        out.text(b"\n");
        run(out, head.kind, &bytes[..head.len]);
        left -= head.size;
    }
    Ok(())
}

// Refuses arguments, runs the items, and writes what waits at the end.
fn main(rt: HostRuntime) {
    if console::is_misused(
        rt,
        console::argument_count(&rt),
        b"usage: journals < ITEMS\n",
    ) {
        return;
    }
    let mut out = Output::new(rt);
    if let Err(Stop::Bad) = run_items(rt, &mut out) {
        out.text(b"bad input\n");
    }
    out.flush();
}
