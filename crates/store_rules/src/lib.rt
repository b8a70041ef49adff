// Parked frames and rescue guards as values, and what every call does with them: the definitions are written from document 01.
#![tactic(auto)]

ghost use Rattle.std.specs.Prelude.{◌≡◌, ◌+◌, ◌-◌, ◌≤◌, min, map, take, length};
ghost use Rattle.lists.specs.Bytes.{Bytes, eq_bytes};
ghost use Rattle.store_rules.specs.Frames.{degraded};
ghost use Rattle.store_rules.specs.Answers.{taker_hash};
ghost use Rattle.store_rules.specs.Store.{empty};
ghost use Rattle.store_rules.specs.View.{consumed_of, block_of, frame_of, entry_of, with_state, with_held, Bodies, entries_seen, held_view};
ghost use Rattle.store_rules.specs.Listing.{Puts};

mod lookup; // lookup.rt: the lookup by hash, one entry after another
mod matching; // matching.rt: whether a guard matches a frame

pub use lookup::{Found, Whose, count_of, first_sought};
pub use matching::{Content, GuardBody, guard_matches};

// ---- frames

// Who consumed a frame's nonce, and in which block: the frame itself, another transaction, or another whose hash is known.
// The block's hash and the taker's stand beside the state in the entry.
#[derive(Clone, Copy, Debug, PartialEq, Eq)]
pub enum NonceConsumed {
    MinedAt(u64),
    SlotTakenAt(u64),
    SlotTakenBy(u64),
}

#[derive(Clone, Copy, Debug, PartialEq, Eq)]
pub enum FrameState {
    Tracked,
    Tentative(NonceConsumed),
}

// A frame parked at its gap. The ticket is the caller's own, and is never compared.
#[derive(Clone, Copy, Debug, PartialEq, Eq)]
pub struct ParkedFrame {
    pub hash: [u8; 32],
    pub from: [u8; 20],
    pub expected: u64,
    pub claim: u64,
    pub chain_id: u64,
    pub gas: u64,
    pub ticket: u64,
}

// A held frame with its standing: its state, and the last head for which it was reported as waiting, if it is degraded. The two
// hashes mean something only in a tentative entry.
#[derive(Clone, Copy, Debug, PartialEq, Eq)]
pub struct Entry {
    pub frame: ParkedFrame,
    pub state: FrameState,
    pub held: Option<u64>,
    pub block_hash: [u8; 32],
    pub taker: [u8; 32],
}

impl Entry {
    // The entry in another state. The hashes beside it stay.
    pub fn with_state(self, state: FrameState) -> Entry
        ensures { result ≡ with_state self state }
    {
        Entry { state, ..self }
    }

    // The entry, held at this head.
    pub fn with_held(self, head: u64) -> Entry
        ensures { result ≡ with_held self head }
    {
        Entry {
            held: Some(head),
            ..self
        }
    }
}

// Why a rescue is known to be futile; a re-park carries its boundary.
#[derive(Clone, Copy, Debug, PartialEq, Eq)]
pub enum RescueKind {
    Reparked(u64),
    Unhydratable,
}

// ---- the held part of a store

// The held frames, the first `len` of the entries: ascending address, then push order. And which guards stand: the labels of the
// first `guards` guards, 33 bytes each, a hash and 1 while the guard stands. What a guard compares, its body, lies elsewhere.
// They are arrays with their counts: the customer's form is one array of 64 entries by value, and any content of them is a store.
#[derive(Clone, Copy)]
pub struct Held {
    pub entries: [Entry; 64],
    pub len: usize,
    pub labels: [u8; 2112],
    pub guards: usize,
}

impl Held {
    // No held frame, and no guard.
    pub fn new() -> Held
        ensures { (bodies : Bodies) → held_view bodies result ≡ empty }
    {
        let frame = ParkedFrame {
            hash: [0; 32],
            from: [0; 20],
            expected: 0,
            claim: 0,
            chain_id: 0,
            gas: 0,
            ticket: 0,
        };
        let none = Entry {
            frame,
            state: FrameState::Tracked,
            held: None,
            block_hash: [0; 32],
            taker: [0; 32],
        };
        Held {
            entries: [none; 64],
            len: 0,
            labels: [0; 2112],
            guards: 0,
        }
    }

    // The held frames with their standing, in walk order.
    pub fn frames(&self) -> &[Entry]
        ensures value { map entry_of result.now ≡ entries_seen self.now }
        ensures few { length result.now ≤ 64 }
    {
        &self.entries[..self.len.min(64)]
    }
}

// ---- what is asked of a frame

pub fn is_degraded(f: ParkedFrame) -> bool
    ensures { result ≡ degraded (frame_of f) }
{
    f.chain_id == 0 && f.gas == 0
}

// The number of nonces of a gap, at most sixteen.
pub fn gap_count(expected: u64, claim: u64) -> u64
    ensures { result ≡ min 16 (claim - expected) }
{
    claim.saturating_sub(expected).min(16)
}

// The block that carries a consumption.
pub fn block_of(c: NonceConsumed) -> u64
    ensures { result ≡ block_of c }
{
    match c {
        NonceConsumed::MinedAt(b) | NonceConsumed::SlotTakenAt(b) | NonceConsumed::SlotTakenBy(b) =>
            b,
    }
}

// The taker's hash, or zeros where it is not known.
pub fn taker_of(c: NonceConsumed, taker: [u8; 32]) -> [u8; 32]
    ensures { (hash : Bytes) → result ≡ taker_hash (consumed_of c hash taker).kind }
{
    match c {
        NonceConsumed::MinedAt(_) | NonceConsumed::SlotTakenAt(_) => [0; 32],
        NonceConsumed::SlotTakenBy(_) => taker,
    }
}

// ---- hashes and addresses

// Whether two hashes are the same, in the definitions' words: each caller of `==` would need a lemma to reach them.
pub fn same_hash(a: [u8; 32], b: [u8; 32]) -> bool
    ensures { result ≡ eq_bytes a b }
{
    a == b
}

// Whether two addresses are the same. Those of two senders mostly differ in the first byte, which `==` alone finds more slowly.
pub fn same_address(a: [u8; 20], b: [u8; 20]) -> bool
    ensures { result ≡ eq_bytes a b }
{
    a[0] == b[0] && a == b
}

// The bytes of a hash or an address, to their place in the slice.
pub fn put_array<const N: usize>(out: &mut [u8], at: usize, bytes: &[u8; N])
    requires { at + N ≤ length out.old }
    ensures { Puts at bytes.now out.old N out.new }
{
    wire::put_bytes(out, at, &bytes[..])
}
