// Sweeps: each is shown with the frames held and tentative before and after it.
use super::changing::listing;
use super::{tentative, tracked};
use console::Output;

// The sender, whose two frames are rescued, and one that has none: 19 numbers for each frame.
fn of_two(out: &mut Output, lent: usize) {
    let mut senders = [1; 40];
    senders[39] = 2;
    listing(out, b"sweep", tracked(), lent, 38, |q, rows| {
        q.sweep(&senders, &[8; 2], &[0; 2], &[], rows)
    });
}

// The sender twice: its frames wait at the first head and are rescued at the second, with a row each time.
fn twice(out: &mut Output, lent: usize) {
    let name = b"sweep of a sender twice";
    listing(out, name, tracked(), lent, 76, |q, rows| {
        q.sweep(&[1; 40], &[5, 8], &[0; 2], &[], rows)
    });
}

// The sender twice, with rows at its first place only, where its frames are rescued: they need room at the second too.
fn after_rescue(out: &mut Output, lent: usize) {
    let name = b"sweep after a rescue";
    listing(out, name, tracked(), lent, 38, |q, rows| {
        q.sweep(&[1; 40], &[8; 2], &[0; 2], &[], rows)
    });
}

// Tentative frames have no row, and need room.
fn of_tentative(out: &mut Output, lent: usize) {
    let name = b"sweep of tentative frames";
    listing(out, name, tentative(100, 100), lent, 0, |q, rows| {
        q.sweep(&[1; 20], &[8], &[0], &[], rows)
    });
}

// The sweeps, lent slices that are one number short, and slices that are just long enough.
pub(crate) fn sweeps(out: &mut Output) {
    of_two(out, 37);
    of_two(out, 38);
    // room for the sender once
    twice(out, 38);
    twice(out, 75);
    twice(out, 76);
    after_rescue(out, 75);
    after_rescue(out, 76);
    of_tentative(out, 37);
    of_tentative(out, 38);
}

// A sweep of the sender with these heads, this count and these nonces.
fn of_one(out: &mut Output, name: &[u8], heads: &[u64], count: u64, nonces: &[u64]) {
    listing(out, name, tracked(), 37, 37, |q, rows| {
        q.sweep(&[1; 20], heads, &[count], nonces, rows)
    });
}

// 17, 18 and 3 come before 5; and a sweep of no sender, which needs no room.
pub(crate) fn lists(out: &mut Output) {
    of_one(out, b"sweep with a head more", &[8; 2], 0, &[]);
    of_one(out, b"sweep with a nonce more", &[8], 0, &[5]);
    of_one(out, b"sweep with 257 nonces", &[8], 257, &[5; 257]);
    listing(out, b"sweep of no sender", tracked(), 0, 0, |q, rows| {
        q.sweep(&[], &[], &[], &[], rows)
    });
}

// Sweeps, lent slices that are three numbers longer than their lists.
pub(crate) fn longer(out: &mut Output) {
    of_two(out, 41);
    twice(out, 79);
}
