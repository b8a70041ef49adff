// The gap quarantine: parked frames and rescue guards, held by value, with every call of the store.
//
// A call that may change the store takes it by value and returns it beside its answer. What it lists goes to slices that the
// caller lends. A refused call returns the store as it was and leaves the slices alone.
//
// The calls stand twice. The functions of this crate are calls on the held part alone (`Held`, 15 KB), which is changed in place;
// the guards' bodies (43 KB) are lent to the two that need them, a poll with content and the guard call. The methods of
// `Quarantine` are the same calls on the whole store as one value.
#![tactic(auto)]

ghost use Rattle.std.specs.Prelude.{◌≡◌, [], None, Some};
ghost use Rattle.store_rules.specs.Frames.{reparked, unhydratable};
ghost use Rattle.store_rules.specs.Store.{empty, push, poll, short, guard, evict_sender, check_reorg, check_finalized};
ghost use Rattle.store_rules.specs.View.{consumed_of, frame_of};
ghost use Rattle.answers.specs.Promises.{asked_sweep};
ghost use Rattle.gap_quarantine.specs.Promises.{view_of, Performs, PerformsIn, SweepPerforms, Enters, joined};

mod entering; // entering.rt: entering the tentative state
mod parking; // parking.rt: push
mod passing; // passing.rt: eviction, reorganisation and finality
mod reads; // reads.rt: the calls that only read
mod recording; // recording.rt: the guard calls

pub use answers::{Answer, Outcome};
pub use entering::enter_tentative;
pub use guards::GuardBodies;
pub use parking::push;
pub use passing::{check_finalized, check_reorg, evict_sender};
pub use polls::{poll, poll_short, poll_short_with_content, poll_with_content, sweep};
pub use queries::{
    Boundary, HeldState, expected_boundary, has_guard_for_sender, is_empty, len, pool_known_gap,
    senders, state, tentative_blocks, tentative_count,
};
pub use recording::{record_repark_guard_with_content, record_unhydratable_guard_with_content};
pub use short_rows::{Nonces, first_nonce, nonces_of};
pub use store_rules::{Entry, FrameState, Held, NonceConsumed, ParkedFrame, RescueKind, Whose};

// Whose the frame is that entered the tentative state, if one did, and the store after the call.
#[derive(Clone, Copy)]
pub struct Entered<S> {
    pub whose: Option<Whose>,
    pub store: S,
}

// ---- the store as one value

// The held part, and the bodies of the guards, in the places of the labels.
#[derive(Clone, Copy)]
pub struct Quarantine {
    pub held: Held,
    pub bodies: GuardBodies,
}

impl Quarantine {
    // The empty store.
    pub fn new() -> Quarantine
        ensures { view_of result ≡ empty }
    {
        Quarantine {
            held: Held::new(),
            bodies: GuardBodies {
                numbers: [0; 1280],
                contents: [0; 32768],
            },
        }
    }

    // The outcome of a call on the held part as that of the same call on the whole store.
    fn after(self, r: Outcome<Held>) -> Outcome<Quarantine>
        ensures { result ≡ record { answer = r.answer; store = joined r.store self.bodies } }
    {
        Outcome {
            answer: r.answer,
            store: Quarantine {
                held: r.store,
                ..self
            },
        }
    }

    // Parks a frame, and returns the total.
    pub fn push(self, frame: ParkedFrame) -> Outcome<Quarantine>
        ensures { Performs self (push (frame_of frame)) [] [] result [] [] }
    {
        self.after(push(self.held, frame))
    }

    // Polls a sender's frames at this head; the rows go to the slice.
    pub fn poll(
        self,
        sender: [u8; 20],
        head: u64,
        known: &[u64],
        rows: &mut [u64],
    ) -> Outcome<Quarantine>
        ensures { Performs self (poll sender head known.now None) rows.old [] result rows.new [] }
    {
        self.after(poll(self.held, sender, head, known, rows))
    }

    // Polls with the current content: pairs of a nonce and a hash of 32 bytes.
    pub fn poll_with_content(
        self,
        sender: [u8; 20],
        head: u64,
        known: &[u64],
        nonces: &[u64],
        hashes: &[u8],
        rows: &mut [u64],
    ) -> Outcome<Quarantine>
        ensures { Performs self
            (poll sender head known.now (Some (record { nonces = nonces.entry.now; hashes = hashes.now })))
            rows.old [] result rows.new [] }
    {
        self.after(poll_with_content(
            self.held,
            &self.bodies,
            sender,
            head,
            known,
            nonces,
            hashes,
            rows,
        ))
    }

    // Polls with short rows: ticket, decision, expected nonce, mark and count.
    pub fn poll_short(
        self,
        sender: [u8; 20],
        head: u64,
        known: &[u64],
        rows: &mut [u64],
    ) -> Outcome<Quarantine>
        ensures { PerformsIn short self (poll sender head known.now None) rows.old [] result rows.new [] }
    {
        self.after(poll_short(self.held, sender, head, known, rows))
    }

    // Polls with the current content; short rows go to the slice.
    pub fn poll_short_with_content(
        self,
        sender: [u8; 20],
        head: u64,
        known: &[u64],
        nonces: &[u64],
        hashes: &[u8],
        rows: &mut [u64],
    ) -> Outcome<Quarantine>
        ensures { PerformsIn short self
            (poll sender head known.now (Some (record { nonces = nonces.entry.now; hashes = hashes.now })))
            rows.old [] result rows.new [] }
    {
        self.after(poll_short_with_content(
            self.held,
            &self.bodies,
            sender,
            head,
            known,
            nonces,
            hashes,
            rows,
        ))
    }

    // Polls each sender of a list in turn: senders of 20 bytes, their heads, how many of the nonces each takes, and the nonces. All
    // rows go to the slice.
    pub fn sweep(
        self,
        senders: &[u8],
        heads: &[u64],
        counts: &[u64],
        nonces: &[u64],
        rows: &mut [u64],
    ) -> Outcome<Quarantine>
        ensures { SweepPerforms self
            (asked_sweep senders.now heads.now counts.now nonces.now rows.old)
            rows.old result rows.new }
    {
        self.after(sweep(self.held, senders, heads, counts, nonces, rows))
    }

    // Records that a rescue of this hash with these predecessors and contents leads back to this boundary.
    pub fn record_repark_guard_with_content(
        mut self,
        hash: [u8; 32],
        preds: &[u64],
        contents: &[u8],
        boundary: u64,
    ) -> Outcome<Quarantine>
        ensures { Performs self
            (guard (record { hash = hash; kind = reparked boundary; predecessors = preds.now; contents = contents.now }))
            [] [] result [] [] }
    {
        let r = record_repark_guard_with_content(
            self.held,
            &mut self.bodies,
            hash,
            preds,
            contents,
            boundary,
        );
        self.after(r)
    }

    // Records that a rescue of this hash with these predecessors and contents cannot be rebuilt.
    pub fn record_unhydratable_guard_with_content(
        mut self,
        hash: [u8; 32],
        preds: &[u64],
        contents: &[u8],
    ) -> Outcome<Quarantine>
        ensures { Performs self
            (guard (record { hash = hash; kind = unhydratable; predecessors = preds.now; contents = contents.now }))
            [] [] result [] [] }
    {
        let r = record_unhydratable_guard_with_content(
            self.held,
            &mut self.bodies,
            hash,
            preds,
            contents,
        );
        self.after(r)
    }

    // Makes the first tracked entry of a hash tentative, drops the hash's guard, and returns whose the entry is, if there is one.
    pub fn enter_tentative(
        self,
        hash: [u8; 32],
        consumed: NonceConsumed,
        block_hash: [u8; 32],
        taker: [u8; 32],
    ) -> Entered<Quarantine>
        ensures { Enters self hash (consumed_of consumed block_hash taker) result }
    {
        let r = enter_tentative(self.held, hash, consumed, block_hash, taker);
        Entered {
            whose: r.whose,
            store: Quarantine {
                held: r.store,
                ..self
            },
        }
    }

    // Removes the entries of a sender, and lists their tickets.
    pub fn evict_sender(self, sender: [u8; 20], tickets: &mut [u64]) -> Outcome<Quarantine>
        ensures { Performs self (evict_sender sender) tickets.old [] result tickets.new [] }
    {
        self.after(evict_sender(self.held, sender, tickets))
    }

    // Makes the tentative entries of a reorganised block tracked again, and lists their tickets.
    pub fn check_reorg(
        self,
        block: u64,
        hash: Option<[u8; 32]>,
        tickets: &mut [u64],
    ) -> Outcome<Quarantine>
        ensures { Performs self (check_reorg block hash) tickets.old [] result tickets.new [] }
    {
        self.after(check_reorg(self.held, block, hash, tickets))
    }

    // Removes the tentative entries of blocks up to n, and lists ticket, block, kind, block hash and taker of each.
    pub fn check_finalized(
        self,
        n: u64,
        numbers: &mut [u64],
        bytes: &mut [u8],
    ) -> Outcome<Quarantine>
        ensures { Performs self (check_finalized n) numbers.old bytes.old result numbers.new bytes.new }
    {
        self.after(check_finalized(self.held, n, numbers, bytes))
    }
}
