// Answers as text.
ghost use Rattle.std.specs.Prelude.{◌<◌};

use console::Output;
use gap_quarantine::{Answer, FrameState, NonceConsumed, Whose};
use refusal::Refusal;
use trace_calls::Reply;

// Numbers, each with a space before it.
pub(crate) fn numbers(out: &mut Output, list: &[u64]) {
    for n in list {
        out.next(*n);
    }
}

// Bytes as lowercase hex digits, with a space before them.
pub(crate) fn hex(out: &mut Output, bytes: &[u8]) {
    out.text(b" ");
    out.hex(bytes);
}

// A refusal by its number.
pub(crate) fn refused(out: &mut Output, x: Refusal) {
    out.count(b"refused", refusal::number(x));
}

// A truth value as a word.
pub(crate) fn truth(out: &mut Output, b: bool) {
    if b {
        out.text(b"true");
    } else {
        out.text(b"false");
    }
}

// The kind and the block of a consumption.
fn consumed(out: &mut Output, c: NonceConsumed) {
    let (kind, block) = match c {
        NonceConsumed::MinedAt(b) => (1, b),
        NonceConsumed::SlotTakenAt(b) => (2, b),
        NonceConsumed::SlotTakenBy(b) => (3, b),
    };
    out.next(kind);
    out.next(block);
}

// A state: tracked, or tentative with its kind, block, block hash and taker.
pub(crate) fn state(out: &mut Output, s: FrameState, block_hash: &[u8; 32], taker: &[u8; 32]) {
    let FrameState::Tentative(c) = s else {
        out.text(b"tracked");
        return;
    };
    out.text(b"tentative");
    consumed(out, c);
    hex(out, block_hash);
    hex(out, taker);
}

// Whose a frame is: its sender, and its place among the sender's frames.
pub(crate) fn whose(out: &mut Output, w: Whose) {
    out.text(b" of");
    hex(out, &w.sender);
    out.next(w.place as u64);
}

// What a call answers: a word, how many it lists, and its list. Rows have 19 numbers or five; of a dead frame there are three
// numbers and two hashes.
pub(crate) fn answer(out: &mut Output, a: Result<Answer, Refusal>, list: &[u64], hashes: &[u8]) {
    match a {
        Ok(Answer::Total(n)) => out.count(b"total", n as u64),
        Ok(Answer::Rows(n)) => {
            out.count(b"rows", n as u64);
            rows(out, list, 19, n);
        }
        Ok(Answer::ShortRows(n)) => {
            out.count(b"short", n as u64);
            rows(out, list, 5, n);
        }
        Ok(Answer::Recorded) => out.text(b"done"),
        Ok(Answer::Frames(n)) => {
            out.count(b"tickets", n as u64);
            for ticket in list.iter().take(n) {
                out.next(*ticket);
            }
        }
        Ok(Answer::Dead(n)) => {
            out.count(b"dead", n as u64);
            rows_with_hashes(out, list, 3, hashes, 64, n);
        }
        Err(x) => refused(out, x),
    }
}

// Whether a frame entered, and whose it is.
fn entered(out: &mut Output, w: Option<Whose>) {
    truth(out, w.is_some());
    if let Some(w) = w {
        whose(out, w);
    }
}

// What a call of a trace replies.
pub(crate) fn reply(out: &mut Output, r: Reply, list: &[u64], hashes: &[u8]) {
    match r {
        Reply::Answered(a) => answer(out, a, list, hashes),
        Reply::Entered(w) => entered(out, w),
    }
}

// ---- lists

// So many rows of this width, each after a bar.
fn rows(out: &mut Output, list: &[u64], width: usize, count: usize)
    requires { 0 < width }
{
    for row in list.chunks_exact(width).take(count) {
        out.text(b" |");
        numbers(out, row);
    }
}

// So many rows of numbers, each after a bar, with so many bytes of hashes after it.
pub(crate) fn rows_with_hashes(
    out: &mut Output,
    list: &[u64],
    width: usize,
    bytes: &[u8],
    size: usize,
    count: usize,
)
    requires numbers { 0 < width }
    requires hashes { 0 < size }
{
    let rows = list.chunks_exact(width).zip(bytes.chunks_exact(size));
    for (row, hashes) in rows.take(count) {
        out.text(b" |");
        numbers(out, row);
        parts(out, hashes, 32);
    }
}

// The parts of this width, each with a space before it.
pub(crate) fn parts(out: &mut Output, bytes: &[u8], width: usize)
    requires { 0 < width }
{
    for part in bytes.chunks_exact(width) {
        hex(out, part);
    }
}
