// A line for each call: its name and how long its slices are, its answer, and whether slices and store are as they were.
use super::MARK;
use console::Output;
use gap_quarantine::{Answer, Quarantine};
use refusal::Refusal;

// A call that is lent a slice of this length.
pub(crate) fn call(out: &mut Output, name: &[u8], len: usize) {
    out.count(name, len as u64);
    out.text(b": ");
}

// A call that is lent a slice of numbers and one of bytes.
pub(crate) fn call_with_bytes(out: &mut Output, name: &[u8], numbers: usize, bytes: usize) {
    out.count(name, numbers as u64);
    out.count(b" and", bytes as u64);
    out.text(b": ");
}

// ---- answers

// A refusal by its number.
fn refused(out: &mut Output, x: Refusal) {
    out.count(b"refused", refusal::number(x));
}

// How many a call that may change the store lists.
pub(crate) fn answer(out: &mut Output, a: Result<Answer, Refusal>) {
    match a {
        Ok(Answer::Rows(n)) => out.count(b"rows", n as u64),
        Ok(Answer::ShortRows(n)) => out.count(b"short", n as u64),
        Ok(Answer::Frames(n)) => out.count(b"tickets", n as u64),
        Ok(Answer::Dead(n)) => out.count(b"dead", n as u64),
        Ok(_) => out.text(b"no list"),
        Err(x) => refused(out, x),
    }
}

// How many a call that only reads lists.
pub(crate) fn listed(out: &mut Output, word: &[u8], l: Result<usize, Refusal>) {
    match l {
        Ok(n) => out.count(word, n as u64),
        Err(x) => refused(out, x),
    }
}

// Whether a store is empty.
pub(crate) fn is_empty(out: &mut Output, what: &[u8], q: Quarantine) {
    out.text(b"is_empty of ");
    out.text(what);
    if q.is_empty() {
        out.text(b": true\n");
    } else {
        out.text(b": false\n");
    }
}

// ---- slices

// How a slice is named: the only one of its call, or one of two.
#[derive(Clone, Copy)]
pub(crate) enum Name {
    Only,
    Numbers,
    Bytes,
}

// Whether elements are as they were lent.
fn kept<T: Copy + PartialEq + From<u8>>(out: &mut Output, elements: &[T]) {
    if elements.iter().all(|x| *x == T::from(MARK)) {
        out.text(b" kept");
    } else {
        out.text(b" written");
    }
}

// Whether a slice, whose list has this length, is kept: as far as the list goes, and past it.
pub(crate) fn slice<T: Copy + PartialEq + From<u8>>(
    out: &mut Output,
    name: Name,
    slice: &[T],
    len: usize,
) {
    let (list, rest) = slice.split_at(len.min(slice.len()));
    match name {
        Name::Only if rest.is_empty() => out.text(b", slice"),
        Name::Only => out.text(b", list"),
        Name::Numbers => out.text(b", numbers"),
        Name::Bytes => out.text(b", bytes"),
    }
    kept(out, list);
    if rest.is_empty() {
        return;
    }
    out.count(b",", rest.len() as u64);
    match name {
        Name::Only => out.text(b" past it"),
        Name::Numbers | Name::Bytes => out.text(b" past them"),
    }
    kept(out, rest);
}

// ---- the store

// A word, and a number before and after the call.
fn change(out: &mut Output, word: &[u8], before: usize, after: usize) {
    out.count(word, before as u64);
    out.count(b" ->", after as u64);
}

// How many frames are held and tentative, before and after the call.
pub(crate) fn stores(out: &mut Output, before: Quarantine, after: Quarantine) {
    change(out, b", held", before.len(), after.len());
    change(
        out,
        b", tentative",
        before.tentative_count(),
        after.tentative_count(),
    );
    out.text(b"\n");
}
