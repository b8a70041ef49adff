// The calls that only read: each prints its mark and its answer, and returns its size in bytes, or None if the bytes end first.
ghost use Rattle.std.specs.Prelude.{◌≤◌, length, IfSome};

use super::{dump, print};
use console::Output;
use gap_quarantine::Quarantine;
use refusal::Refusal;
use wire::array_at;

// CS: the state of a frame, and whose it is.
fn state(out: &mut Output, q: Quarantine, s: &[u8]) -> Option<usize>
    ensures { IfSome result (λ size. size ≤ length s.now) }
{
    if s.len() < 34 {
        return None;
    }
    match q.state(array_at(s, 2)) {
        Some(held) => {
            out.text(b" CS ");
            print::state(out, held.state, &held.block_hash, &held.taker);
            print::whose(out, held.whose);
        }
        None => out.text(b" CS none"),
    }
    Some(34)
}

// CB: the expected boundary of a frame, and whose it is.
fn boundary(out: &mut Output, q: Quarantine, s: &[u8]) -> Option<usize>
    ensures { IfSome result (λ size. size ≤ length s.now) }
{
    if s.len() < 34 {
        return None;
    }
    match q.expected_boundary(array_at(s, 2)) {
        Some(boundary) => {
            out.text(b" CB some");
            out.next(boundary.expected);
            print::whose(out, boundary.whose);
        }
        None => out.text(b" CB none"),
    }
    Some(34)
}

// How many are listed, after a word; 0 if the call was refused.
fn listed(out: &mut Output, word: &[u8], l: Result<usize, Refusal>) -> usize {
    match l {
        Ok(n) => {
            out.count(word, n as u64);
            n
        }
        Err(x) => {
            print::refused(out, x);
            0
        }
    }
}

// CK: the gap nonces that the pool has.
fn pool_gap(out: &mut Output, q: Quarantine, s: &[u8]) -> Option<usize>
    ensures { IfSome result (λ size. size ≤ length s.now) }
{
    if s.len() < 38 {
        return None;
    }
    let mut numbers = [0u64; 1024];
    let head = wire::number(s, 22, 8);
    let count = wire::number(s, 30, 8);
    let known = q.pool_known_gap(array_at(s, 2), head, count, &mut numbers);
    out.text(b" CK ");
    let n = listed(out, b"numbers", known);
    for nonce in numbers.iter().take(n) {
        out.next(*nonce);
    }
    Some(38)
}

// CH: whether a guard stands for a sender.
fn guarded(out: &mut Output, q: Quarantine, s: &[u8]) -> Option<usize>
    ensures { IfSome result (λ size. size ≤ length s.now) }
{
    if s.len() < 22 {
        return None;
    }
    out.text(b" CH ");
    print::truth(out, q.has_guard_for_sender(array_at(s, 2)));
    Some(22)
}

// CT: the blocks in which tentative frames stand.
fn blocks(out: &mut Output, q: Quarantine) {
    let mut numbers = [0u64; 64];
    let mut bytes = [0u8; 2048];
    out.text(b" CT ");
    let n = listed(out, b"blocks", q.tentative_blocks(&mut numbers, &mut bytes));
    print::rows_with_hashes(out, &numbers, 1, &bytes, 32, n);
}

// CN: the senders of all frames.
fn senders(out: &mut Output, q: Quarantine) {
    let mut bytes = [0u8; 1280];
    out.text(b" CN ");
    let n = listed(out, b"senders", q.senders(&mut bytes));
    print::parts(out, &bytes[..20 * n.min(64)], 20);
}

// A call that has no inputs, by the letter of its mark.
fn bare(out: &mut Output, q: Quarantine, letter: u8) {
    match letter {
        b'T' => blocks(out, q),
        b'L' => out.count(b" CL number", q.len() as u64),
        b'N' => senders(out, q),
        b'C' => out.count(b" CC number", q.tentative_count() as u64),
        _ => dump::store(out, q),
    }
}

// A call that only reads, by the letter of its mark.
pub(crate) fn read(out: &mut Output, q: Quarantine, letter: u8, s: &[u8]) -> Option<usize>
    requires { 2 ≤ length s.now }
    ensures { IfSome result (λ size. size ≤ length s.now) }
{
    match letter {
        b'S' => state(out, q, s),
        b'B' => boundary(out, q, s),
        b'K' => pool_gap(out, q, s),
        b'H' => guarded(out, q, s),
        _ => {
            bare(out, q, letter);
            Some(2)
        }
    }
}
