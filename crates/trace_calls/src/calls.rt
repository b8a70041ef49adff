// The seven calls: each reads its inputs from the bytes of the call, mark and all, and is made on the store.
ghost use Rattle.std.specs.Prelude.{◌≡◌, List, [], ℕ, ◌≤◌, length, take, drop, None, Some};
ghost use Rattle.wire.specs.Numbers.{num};
ghost use Rattle.store_rules.specs.Store.{long, poll, enter_tentative};
ghost use Rattle.store_rules.specs.View.{consumed_of};
ghost use Rattle.decisions.specs.Courses.{form_of};
ghost use Rattle.gap_quarantine.specs.Promises.{PerformsIn};
ghost use Rattle.trace_format.specs.Reading.{read_push, read_poll, read_guard, read_enter, read_reorg, read_final, read_evict, got, content};
ghost use Rattle.trace_calls.specs.Promises.{MakesOne, Makes, TwoLists, answered_as};

use super::{Called, Made, Reply, no_call};
use decisions::rows::RowForm;
use gap_quarantine::{NonceConsumed, Outcome, ParkedFrame, Quarantine};
use trace_parts::{list_end, put_numbers};
use wire::array_at;

// A call of so many bytes, an eviction or none, with what it answered.
fn answered(size: usize, evicts: bool, r: Outcome<Quarantine>) -> Made
    ensures { result ≡ answered_as size evicts r }
{
    Made {
        call: Ok(Called {
            size,
            evicts,
            reply: Reply::Answered(r.answer),
        }),
        store: r.store,
    }
}

// Where a list of numbers at a place ends, and where the list of bytes after it does, if neither is cut short.
fn two_lists(bytes: &[u8], at: usize) -> Option<(usize, usize)>
    ensures { TwoLists at bytes.now result }
{
    let middle = list_end(bytes, at, 8)?;
    let end = list_end(bytes, middle, 1)?;
    Some((middle, end))
}

// CP: a frame is parked.
pub(crate) fn push(q: Quarantine, bytes: &[u8]) -> Made
    ensures { (slice hashes : List ℕ) → Makes long q bytes.now (read_push (drop 2 bytes.now)) slice hashes result slice hashes }
{
    if bytes.len() < 94 {
        return no_call(q);
    }
    let frame = ParkedFrame {
        hash: array_at(bytes, 2),
        from: array_at(bytes, 34),
        expected: wire::number(bytes, 54, 8),
        claim: wire::number(bytes, 62, 8),
        chain_id: wire::number(bytes, 70, 8),
        gas: wire::number(bytes, 78, 8),
        ticket: wire::number(bytes, 86, 8),
    };
    answered(94, false, q.push(frame))
}

// A poll without content.
fn poll_alone(
    q: Quarantine,
    form: RowForm,
    sender: [u8; 20],
    head: u64,
    known: &[u64],
    rows: &mut [u64],
) -> Outcome<Quarantine>
    ensures { PerformsIn (form_of form) q (poll sender head known.now None) rows.old [] result rows.new [] }
{
    match form {
        RowForm::Long => q.poll(sender, head, known, rows),
        RowForm::Short => q.poll_short(sender, head, known, rows),
    }
}

// A poll with content.
fn poll_with_content(
    q: Quarantine,
    form: RowForm,
    sender: [u8; 20],
    head: u64,
    known: &[u64],
    nonces: &[u64],
    hashes: &[u8],
    rows: &mut [u64],
) -> Outcome<Quarantine>
    ensures { PerformsIn (form_of form) q
        (poll sender head known.now (Some (record { nonces = nonces.entry.now; hashes = hashes.now })))
        rows.old [] result rows.new [] }
{
    match form {
        RowForm::Long => q.poll_with_content(sender, head, known, nonces, hashes, rows),
        RowForm::Short => q.poll_short_with_content(sender, head, known, nonces, hashes, rows),
    }
}

// A poll whose content is at a place. Over 64 nonces their number alone decides the answer, so no more than 65 are kept.
fn poll_content_at(
    q: Quarantine,
    form: RowForm,
    bytes: &[u8],
    at: usize,
    known: &[u64],
    rows: &mut [u64],
) -> Made
    requires { 30 ≤ at }
    ensures { (list hashes : List ℕ) → known.now ≡ take 257 list →
        Makes (form_of form) q bytes.now
        (content (drop at bytes.now)
        (λ c. got (poll (take 20 (drop 2 bytes.now)) (num (take 8 (drop 22 bytes.now))) list (Some c))))
        rows.old hashes result rows.new hashes }
{
    let Some((hashes_at, end)) = two_lists(bytes, at) else {
        return no_call(q);
    };
    let mut nonces = [0; 65];
    let count = put_numbers(bytes, at, &mut nonces);
    let sender = array_at(bytes, 2);
    let head = wire::number(bytes, 22, 8);
    let hashes = &bytes[hashes_at + 2..end];
    let r = poll_with_content(q, form, sender, head, known, &nonces[..count], hashes, rows);
    answered(end, false, r)
}

// CQ, and any mark with the inputs of a poll: the sender's frames are polled. Over 256 known nonces their number alone decides the
// answer, so no more than 257 are kept.
pub fn make_poll(q: Quarantine, form: RowForm, bytes: &[u8], rows: &mut [u64]) -> Made
    ensures { (hashes : List ℕ) → Makes (form_of form) q bytes.now (read_poll (drop 2 bytes.now))
        rows.old hashes result rows.new hashes }
{
    let Some(at) = list_end(bytes, 30, 8) else {
        return no_call(q);
    };
    let mut known = [0; 257];
    let count = put_numbers(bytes, 30, &mut known);
    let Some(flag) = bytes.get(at) else {
        return no_call(q);
    };
    match *flag {
        0 => {
            let sender = array_at(bytes, 2);
            let head = wire::number(bytes, 22, 8);
            let r = poll_alone(q, form, sender, head, &known[..count], rows);
            answered(at + 1, false, r)
        }
        1 => poll_content_at(q, form, bytes, at + 1, &known[..count], rows),
        _ => no_call(q),
    }
}

// CG: a guard of either kind is recorded. Over 16 predecessors their number alone decides the answer, so no more than 17 are kept.
pub(crate) fn guard(q: Quarantine, bytes: &[u8]) -> Made
    ensures { (slice hashes : List ℕ) → Makes long q bytes.now (read_guard (drop 2 bytes.now)) slice hashes result slice hashes }
{
    let Some((contents_at, end)) = two_lists(bytes, 35) else {
        return no_call(q);
    };
    let hash = array_at(bytes, 3);
    let mut preds = [0; 17];
    let count = put_numbers(bytes, 35, &mut preds);
    let contents = &bytes[contents_at + 2..end];
    match bytes[2] {
        1 if 8 <= bytes.len() - end => {
            let boundary = wire::number(bytes, end, 8);
            let r = q.record_repark_guard_with_content(hash, &preds[..count], contents, boundary);
            answered(end + 8, false, r)
        }
        2 => {
            let r = q.record_unhydratable_guard_with_content(hash, &preds[..count], contents);
            answered(end, false, r)
        }
        _ => no_call(q),
    }
}

// A frame becomes tentative, by a call of so many bytes.
fn enter_by(
    q: Quarantine,
    size: usize,
    bytes: &[u8],
    consumed: NonceConsumed,
    taker: [u8; 32],
) -> Made
    requires { 75 ≤ length bytes.now }
    ensures { (slice hashes : List ℕ) →
        MakesOne long q (enter_tentative (take 32 (drop 2 bytes.now)) (consumed_of consumed (take 32 (drop 43 bytes.now)) taker)) size
        slice hashes result.call result.store slice hashes }
{
    let r = q.enter_tentative(array_at(bytes, 2), consumed, array_at(bytes, 43), taker);
    Made {
        call: Ok(Called {
            size,
            evicts: false,
            reply: Reply::Entered(r.whose),
        }),
        store: r.store,
    }
}

// CE: a frame becomes tentative; a taker's hash follows kind 3 only.
pub(crate) fn enter(q: Quarantine, bytes: &[u8]) -> Made
    ensures { (slice hashes : List ℕ) → Makes long q bytes.now (read_enter (drop 2 bytes.now)) slice hashes result slice hashes }
{
    if bytes.len() < 75 {
        return no_call(q);
    }
    let block = wire::number(bytes, 35, 8);
    match bytes[34] {
        1 => enter_by(q, 75, bytes, NonceConsumed::MinedAt(block), [0; 32]),
        2 => enter_by(q, 75, bytes, NonceConsumed::SlotTakenAt(block), [0; 32]),
        3 if 107 <= bytes.len() => {
            let taker = array_at(bytes, 75);
            enter_by(q, 107, bytes, NonceConsumed::SlotTakenBy(block), taker)
        }
        _ => no_call(q),
    }
}

// CR: a block is reorganised; its hash now, if there is one.
pub(crate) fn reorganise(q: Quarantine, bytes: &[u8], tickets: &mut [u64]) -> Made
    ensures { (hashes : List ℕ) → Makes long q bytes.now (read_reorg (drop 2 bytes.now))
        tickets.old hashes result tickets.new hashes }
{
    if bytes.len() < 11 {
        return no_call(q);
    }
    let block = wire::number(bytes, 2, 8);
    match bytes[10] {
        0 => answered(11, false, q.check_reorg(block, None, tickets)),
        1 if 43 <= bytes.len() => {
            let hash = Some(array_at(bytes, 11));
            answered(43, false, q.check_reorg(block, hash, tickets))
        }
        _ => no_call(q),
    }
}

// CF: blocks become final.
pub(crate) fn finalise(q: Quarantine, bytes: &[u8], numbers: &mut [u64], hashes: &mut [u8]) -> Made
    ensures { Makes long q bytes.now (read_final (drop 2 bytes.now))
        numbers.old hashes.old result numbers.new hashes.new }
{
    if bytes.len() < 10 {
        return no_call(q);
    }
    let n = wire::number(bytes, 2, 8);
    answered(10, false, q.check_finalized(n, numbers, hashes))
}

// CV: a sender is evicted.
pub(crate) fn evict(q: Quarantine, bytes: &[u8], tickets: &mut [u64]) -> Made
    ensures { (hashes : List ℕ) → Makes long q bytes.now (read_evict (drop 2 bytes.now))
        tickets.old hashes result tickets.new hashes }
{
    if bytes.len() < 22 {
        return no_call(q);
    }
    answered(22, true, q.evict_sender(array_at(bytes, 2), tickets))
}
