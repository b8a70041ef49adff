// The calls that only read: they return no store.
use super::print::Name;
use super::{MARK, print, tentative, tracked};
use console::Output;

// The two blocks: a number and 32 bytes each.
fn list_blocks(out: &mut Output, numbers: &mut [u64], bytes: &mut [u8]) {
    let q = tentative(100, 101);
    print::call_with_bytes(out, b"tentative_blocks", numbers.len(), bytes.len());
    let listed = q.tentative_blocks(&mut *numbers, &mut *bytes);
    print::listed(out, b"blocks", listed);
    print::slice(out, Name::Numbers, numbers, 2);
    print::slice(out, Name::Bytes, bytes, 64);
    out.text(b"\n");
}

// The blocks, with either slice one element short, and with both just long enough.
pub(crate) fn blocks(out: &mut Output) {
    list_blocks(out, &mut [u64::from(MARK); 1], &mut [MARK; 64]);
    list_blocks(out, &mut [u64::from(MARK); 2], &mut [MARK; 63]);
    list_blocks(out, &mut [u64::from(MARK); 2], &mut [MARK; 64]);
}

// The one sender: 20 bytes.
fn list_senders(out: &mut Output, bytes: &mut [u8]) {
    print::call(out, b"senders", bytes.len());
    let listed = tracked().senders(&mut *bytes);
    print::listed(out, b"senders", listed);
    print::slice(out, Name::Only, bytes, 20);
    out.text(b"\n");
}

// The senders, lent a slice that is one byte short, and one that is just long enough.
pub(crate) fn senders(out: &mut Output) {
    list_senders(out, &mut [MARK; 19]);
    list_senders(out, &mut [MARK; 20]);
}

// The gap of both frames, in a pool that has all of it: 3 numbers.
fn list_gap(out: &mut Output, numbers: &mut [u64]) {
    print::call(out, b"pool_known_gap", numbers.len());
    let listed = tracked().pool_known_gap([1; 20], 5, 8, &mut *numbers);
    print::listed(out, b"numbers", listed);
    print::slice(out, Name::Only, numbers, 3);
    out.text(b"\n");
}

// The gap, lent a slice that is one number short, and one that is just long enough.
pub(crate) fn gaps(out: &mut Output) {
    list_gap(out, &mut [u64::from(MARK); 2]);
    list_gap(out, &mut [u64::from(MARK); 3]);
}

// Each call, lent slices that are three elements longer than their lists.
pub(crate) fn longer(out: &mut Output) {
    list_blocks(out, &mut [u64::from(MARK); 5], &mut [MARK; 67]);
    list_senders(out, &mut [MARK; 23]);
    list_gap(out, &mut [u64::from(MARK); 6]);
}
