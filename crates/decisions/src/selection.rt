// The entries that eviction, reorganisation and finality take up, and what is written of each.
ghost use Rattle.std.specs.Prelude.{◌≡◌, true, ◌||◌, ◌+◌, ◌*◌, ◌≤◌, ltb, length};
ghost use Rattle.lists.specs.Bytes.{Bytes};
ghost use Rattle.lists.specs.Lists.{written_at};
ghost use Rattle.store_rules.specs.Answers.{kind_number};
ghost use Rattle.store_rules.specs.View.{consumed_of, state_seen, entry_of};
ghost use Rattle.decisions.specs.Selections.{revives, ends, selected, number_width, byte_width, numbers_for, bytes_for, is_finality, is_tentative};

use store_rules::{
    Entry, FrameState, NonceConsumed, block_of, put_array, same_address, same_hash, taker_of,
};

// Which entries are taken up: an eviction takes those of a sender, a reorganisation the tentative ones of its block whose block
// hash differs from the one given, finality the tentative ones of blocks up to its own.
#[derive(Clone, Copy)]
pub enum Selection {
    OfSender([u8; 20]),
    Reorganised { block: u64, hash: Option<[u8; 32]> },
    Finalized(u64),
}

// Whether an entry is tentative in this block and the block's hash differs, or none is given.
fn is_reorged(e: &Entry, block: u64, hash: Option<[u8; 32]>) -> bool
    ensures { result ≡ revives (state_seen e.now.state e.now.block_hash e.now.taker) block hash }
{
    let FrameState::Tentative(consumed) = e.state else {
        return false;
    };
    if block_of(consumed) != block {
        return false;
    }
    match hash {
        Some(hash) => !same_hash(hash, e.block_hash),
        None => true,
    }
}

// Whether an entry is tentative in a block up to this one.
fn is_final(e: &Entry, block: u64) -> bool
    ensures { result ≡ ends (state_seen e.now.state e.now.block_hash e.now.taker) block }
{
    let FrameState::Tentative(consumed) = e.state else {
        return false;
    };
    block_of(consumed) <= block
}

// Whether an entry is taken up.
pub fn selects(s: Selection, e: &Entry) -> bool
    ensures { result ≡ selected s (entry_of e.now) }
{
    match s {
        Selection::OfSender(sender) => same_address(e.frame.from, sender),
        Selection::Reorganised { block, hash } => is_reorged(e, block, hash),
        Selection::Finalized(block) => is_final(e, block),
    }
}

// Whether slices of these lengths are too short for so many entries.
pub fn lacks_room(s: Selection, count: usize, numbers: usize, bytes: usize) -> bool
    requires { count ≤ 64 }
    ensures { result ≡ (ltb numbers (number_width s * count) || ltb bytes (byte_width s * count)) }
{
    match s {
        Selection::Finalized(_) => numbers < 3 * count || bytes < 64 * count,
        _ => numbers < count,
    }
}

// Document 01's number of a consumption's kind.
#[tactic(auto, unfolding(store_rules::specs::Answers::kind_number))]
fn kind_number(c: NonceConsumed) -> u64
    ensures { (hash taker : Bytes) → result ≡ kind_number (consumed_of c hash taker).kind }
{
    match c {
        NonceConsumed::MinedAt(_) => 1,
        NonceConsumed::SlotTakenAt(_) => 2,
        NonceConsumed::SlotTakenBy(_) => 3,
    }
}

// Lists an entry after n others: its ticket; and, where it is final, the block and kind of what consumed its nonce, and the hashes.
pub fn put_entry(s: Selection, e: &Entry, n: usize, numbers: &mut [u64], bytes: &mut [u8])
    requires few { n ≤ 63 }
    requires numbers_fit { number_width s * n + number_width s ≤ length numbers.old }
    requires bytes_fit { byte_width s * n + byte_width s ≤ length bytes.old }
    requires tentative { is_finality s ≡ true → is_tentative (entry_of e.now).standing.state ≡ true }
    ensures numbers { numbers.new ≡ written_at (number_width s * n) (numbers_for s (entry_of e.now)) numbers.old }
    ensures bytes { bytes.new ≡ written_at (byte_width s * n) (bytes_for s (entry_of e.now)) bytes.old }
    ensures sized { length (bytes_for s (entry_of e.now)) ≡ byte_width s }
{
    let Selection::Finalized(_) = s else {
        numbers[n] = e.frame.ticket;
        return;
    };
    let FrameState::Tentative(consumed) = e.state else {
        return;
    };
    let at = 3 * n;
    numbers[at..at + 3].copy_from_slice(&[
        e.frame.ticket,
        block_of(consumed),
        kind_number(consumed),
    ]);
    let place = 64 * n;
    put_array(bytes, place, &e.block_hash);
    put_array(bytes, place + 32, &taker_of(consumed, e.taker));
}
