// The sweep: polls of many senders in one call.
ghost use Rattle.std.specs.Prelude.{◌≡◌, ◌+◌, ◌*◌, ◌/◌, ◌≤◌, length};
ghost use Rattle.lists.specs.Bytes.{eq_bytes};
ghost use Rattle.lists.specs.Lists.{sum, keep, chunks};
ghost use Rattle.store_rules.specs.Sweeps.{bad_lists, bad_sum, big_count, listed_entries};
ghost use Rattle.store_rules.specs.View.{entries_seen};
ghost use Rattle.answers.specs.Promises.{heard, asked_sweep, SweepsAlways};
ghost use Rattle.polls.specs.Promises.{IsSenders, rows_said, PollsInTurn};

use super::polling::poll_inner;
use answers::{Answer, Outcome};
use decisions::asked::Poll;
use decisions::rows::RowForm;
use refusal::Refusal;
use store_rules::Held;
use wire::array_at;

// ---- what is tested before the first poll

// Whether there are over 64 senders, or the lengths of the lists do not agree.
fn bad_lists(senders: &[u8], heads: &[u64], counts: &[u64]) -> bool
    ensures { result ≡ bad_lists senders.now heads.now counts.now }
{
    let n = heads.len();
    64 < n || senders.len() != 20 * n || n != counts.len()
}

// Whether the counts do not sum to the nonce list's length. Each is taken off what is left, so no sum wraps.
fn bad_sum(counts: &[u64], nonces: &[u64]) -> bool
    ensures { result ≡ bad_sum counts.now nonces.now }
{
    let mut left = nonces.len() as u64;
    for count in counts {
        let Some(rest) = left.checked_sub(*count) else {
            return true;
        };
        left = rest;
    }
    left != 0
}

// Whether a count exceeds 256.
fn big_count(counts: &[u64]) -> bool
    ensures { result ≡ big_count counts.now }
{
    counts.iter().any(|count| 256 < *count)
}

// How many of the senders, 20 bytes each, have this address. Two addresses mostly differ in the first byte.
fn times_listed(senders: &[u8], address: [u8; 20]) -> usize
    requires { IsSenders senders.now }
    ensures { (result ≡ length (keep (λ a. eq_bytes address a) (chunks 20 (length senders.now / 20) senders.now))) × (result ≤ 64) }
{
    let mut times = 0;
    for sender in senders.chunks_exact(20) {
        if address[0] == sender[0] && lists::same_bytes(&address, sender) {
            times += 1;
        }
    }
    times
}

// The entries of the senders; those of a sender listed twice count twice.
fn listed_entries(h: &Held, senders: &[u8]) -> usize
    requires { IsSenders senders.now }
    ensures { (result ≡ listed_entries senders.now (length senders.now / 20) (entries_seen h.now)) × (result ≤ 4096) }
{
    let mut count = 0;
    let frames = h.frames();
    for e in frames {
        count += times_listed(senders, e.frame.from);
    }
    count
}

// ---- the polls

// How many rows of 19 numbers an answer tells of.
fn rows_of(answer: Result<Answer, Refusal>) -> usize
    ensures { result ≡ rows_said (heard answer) }
{
    match answer {
        Ok(Answer::Rows(n)) => n,
        _ => 0,
    }
}

// The polls of a sweep, one after another, and how many rows they wrote in all. Each is lent the rows that those before it left.
fn polls_in_turn(
    h: &mut Held,
    senders: &[u8],
    heads: &[u64],
    counts: &[u64],
    nonces: &[u64],
    rows: &mut [u64],
) -> usize
    requires { (length senders.now ≡ 20 * length heads.now) × (length counts.now ≡ length heads.now) × (sum counts.now ≡ length nonces.now) }
    ensures { PollsInTurn h.old
        (asked_sweep senders.now heads.now counts.now nonces.now rows.old)
        rows.old result h.new rows.new }
{
    let mut total = 0;
    let mut left = nonces;
    for ((sender, head), count) in senders.chunks_exact(20).zip(heads).zip(counts) {
        let (known, later) = left.split_at(*count as usize);
        let poll = Poll {
            sender: array_at(sender, 0),
            head: *head,
            known,
            given: None,
        };
        let answer = poll_inner(h, RowForm::Long, &poll, &mut rows[19 * total..]);
        total += rows_of(answer);
        left = later;
    }
    total
}

// A sweep of the store.
fn sweep_held(
    h: &mut Held,
    senders: &[u8],
    heads: &[u64],
    counts: &[u64],
    nonces: &[u64],
    rows: &mut [u64],
) -> Result<Answer, Refusal>
    ensures { SweepsAlways h.old
        (asked_sweep senders.now heads.now counts.now nonces.now rows.old)
        rows.old (record { answer = result; store = h.new }) rows.new }
{
    if bad_lists(senders, heads, counts) {
        return Err(Refusal::BadSweepLists);
    }
    if bad_sum(counts, nonces) {
        return Err(Refusal::BadNonceCounts);
    }
    if big_count(counts) {
        return Err(Refusal::ManyKnown);
    }
    if rows.len() < 19 * listed_entries(h, senders) {
        return Err(Refusal::ShortSlice);
    }
    let n = polls_in_turn(h, senders, heads, counts, nonces, rows);
    Ok(Answer::Rows(n))
}

// Polls each sender of a list in turn, with no content; all rows go to the slice.
pub fn sweep(
    mut h: Held,
    senders: &[u8],
    heads: &[u64],
    counts: &[u64],
    nonces: &[u64],
    rows: &mut [u64],
) -> Outcome<Held>
    ensures { SweepsAlways h
        (asked_sweep senders.now heads.now counts.now nonces.now rows.old)
        rows.old result rows.new }
{
    let answer = sweep_held(&mut h, senders, heads, counts, nonces, rows);
    Outcome { answer, store: h }
}
