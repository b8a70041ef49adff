// The calls that may change the store: those of a trace, and the two that only this program has.
ghost use Rattle.std.specs.Prelude.{◌≡◌, ◌≤◌, length, Some, None, IfSome, MatchResult};

use super::print;
use console::Output;
use gap_quarantine::Quarantine;
use trace_calls::{Made, RowForm, make_call, make_poll};
use trace_parts::{list_end, put_numbers};

// Prints the mark and the reply of a call that was made, if it is a call, and keeps the store after it.
fn shown(
    out: &mut Output,
    q: &mut Quarantine,
    mark: &[u8],
    made: Made,
    numbers: &[u64],
    hashes: &[u8],
) -> Option<usize>
    ensures { MatchResult made.call (λ called. result ≡ Some called.size) (λ x. result ≡ None) }
{
    *q = made.store;
    let called = made.call.ok()?;
    out.text(mark);
    print::reply(out, called.reply, numbers, hashes);
    Some(called.size)
}

// A call of a trace, by the letter of its mark.
pub(crate) fn trace_call(
    out: &mut Output,
    q: &mut Quarantine,
    letter: u8,
    s: &[u8],
) -> Option<usize>
    ensures { IfSome result (λ size. size ≤ length s.now) }
{
    let mut numbers = [0u64; 1216];
    let mut hashes = [0u8; 4096];
    let made = make_call(*q, s, &mut numbers, &mut hashes);
    shown(out, q, &[b' ', b'C', letter, b' '], made, &numbers, &hashes)
}

// CM: a poll with short rows.
pub(crate) fn short_poll(out: &mut Output, q: &mut Quarantine, s: &[u8]) -> Option<usize>
    ensures { IfSome result (λ size. size ≤ length s.now) }
{
    let mut rows = [0u64; 1216];
    let made = make_poll(*q, RowForm::Short, s, &mut rows);
    shown(out, q, b" CM ", made, &rows, b"")
}

// CW: a sweep of senders. The rows have room for all 64 frames of each of 64 senders. Over 64 heads or counts their number alone
// decides the answer, so no more than 65 are kept; and a script has no room for 8,192 nonces.
pub(crate) fn sweep(out: &mut Output, q: &mut Quarantine, s: &[u8]) -> Option<usize>
    ensures { IfSome result (λ size. size ≤ length s.now) }
{
    let heads_at = list_end(s, 2, 1)?;
    let counts_at = list_end(s, heads_at, 8)?;
    let nonces_at = list_end(s, counts_at, 8)?;
    let end = list_end(s, nonces_at, 8)?;
    // The lists are arrays with a count, since the slice that put_numbers fills is lent to it.
    let mut heads = [0u64; 65];
    let mut counts = [0u64; 65];
    let mut nonces = [0u64; 8192];
    let mut rows = [0u64; 77824];
    let head_count = put_numbers(s, heads_at, &mut heads);
    let count_count = put_numbers(s, counts_at, &mut counts);
    let nonce_count = put_numbers(s, nonces_at, &mut nonces);
    let r = q.sweep(
        &s[4..heads_at],
        &heads[..head_count],
        &counts[..count_count],
        &nonces[..nonce_count],
        &mut rows,
    );
    *q = r.store;
    out.text(b" CW ");
    print::answer(out, r.answer, &rows, b"");
    Some(end)
}
