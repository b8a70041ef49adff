// The calls that may change the store: each is shown with the frames held and tentative before and after it.
use super::print::Name;
use super::{MARK, print, tentative, tracked};
use console::Output;
use gap_quarantine::{Outcome, Quarantine};

// The longest slice of numbers that is lent.
const LONGEST: usize = 79;

// A call on a store that lists numbers, lent a slice of this length, and whether its list, of that length, is written.
pub(crate) fn listing<F: FnOnce(Quarantine, &mut [u64]) -> Outcome<Quarantine>>(
    out: &mut Output,
    name: &[u8],
    q: Quarantine,
    lent: usize,
    list: usize,
    call: F,
)
    requires { F.IsAlwaysCallable call }
{
    let mut numbers = [u64::from(MARK); LONGEST];
    let slice = &mut numbers[..lent.min(LONGEST)];
    print::call(out, name, slice.len());
    let r = call(q, &mut *slice);
    print::answer(out, r.answer);
    print::slice(out, Name::Only, slice, list);
    print::stores(out, q, r.store);
}

// A poll that rescues both frames: 19 numbers each.
fn poll(out: &mut Output, lent: usize) {
    listing(out, b"poll", tracked(), lent, 38, |q, rows| {
        q.poll([1; 20], 8, &[], rows)
    });
}

// A poll with content that rescues both frames: 19 numbers each.
fn poll_with_content(out: &mut Output, lent: usize) {
    listing(out, b"poll_with_content", tracked(), lent, 38, |q, rows| {
        q.poll_with_content([1; 20], 8, &[], &[7], &[9; 32], rows)
    });
}

// A poll that rescues both frames with short rows: five numbers each.
fn poll_short(out: &mut Output, lent: usize) {
    listing(out, b"poll_short", tracked(), lent, 10, |q, rows| {
        q.poll_short([1; 20], 8, &[], rows)
    });
}

// A poll with content that rescues both frames with short rows: five numbers each.
fn poll_short_with_content(out: &mut Output, lent: usize) {
    listing(
        out,
        b"poll_short_with_content",
        tracked(),
        lent,
        10,
        |q, rows| { q.poll_short_with_content([1; 20], 8, &[], &[7], &[9; 32], rows) },
    );
}

// The polls, lent a slice that is one number short, and one that is just long enough.
pub(crate) fn polls(out: &mut Output) {
    poll(out, 37);
    poll(out, 38);
    poll_with_content(out, 37);
    poll_with_content(out, 38);
    poll_short(out, 9);
    poll_short(out, 10);
    poll_short_with_content(out, 9);
    poll_short_with_content(out, 10);
}

// The eviction of the sender: a ticket each.
fn evict(out: &mut Output, lent: usize) {
    listing(out, b"evict_sender", tracked(), lent, 2, |q, tickets| {
        q.evict_sender([1; 20], tickets)
    });
}

// The eviction, lent a slice that is one ticket short, and one that is just long enough.
pub(crate) fn evictions(out: &mut Output) {
    evict(out, 1);
    evict(out, 2);
}

// The reorganisation that revives both frames: a ticket each.
fn reorganise(out: &mut Output, lent: usize) {
    listing(
        out,
        b"check_reorg",
        tentative(100, 100),
        lent,
        2,
        |q, tickets| { q.check_reorg(100, None, tickets) },
    );
}

// The reorganisation, lent a slice that is one ticket short, and one that is just long enough.
pub(crate) fn reorganisations(out: &mut Output) {
    reorganise(out, 1);
    reorganise(out, 2);
}

// The finality that ends both frames: 3 numbers and 64 bytes each.
fn finalise(out: &mut Output, numbers: &mut [u64], bytes: &mut [u8]) {
    let q = tentative(100, 100);
    print::call_with_bytes(out, b"check_finalized", numbers.len(), bytes.len());
    let r = q.check_finalized(100, &mut *numbers, &mut *bytes);
    print::answer(out, r.answer);
    print::slice(out, Name::Numbers, numbers, 6);
    print::slice(out, Name::Bytes, bytes, 128);
    print::stores(out, q, r.store);
}

// Finality, with either slice one element short, and with both just long enough.
pub(crate) fn finalities(out: &mut Output) {
    finalise(out, &mut [u64::from(MARK); 5], &mut [MARK; 128]);
    finalise(out, &mut [u64::from(MARK); 6], &mut [MARK; 127]);
    finalise(out, &mut [u64::from(MARK); 6], &mut [MARK; 128]);
}

// Each call, lent slices that are three elements longer than their lists.
pub(crate) fn longer(out: &mut Output) {
    poll(out, 41);
    poll_with_content(out, 41);
    poll_short(out, 13);
    poll_short_with_content(out, 13);
    evict(out, 5);
    reorganise(out, 5);
    finalise(out, &mut [u64::from(MARK); 9], &mut [MARK; 131]);
}
