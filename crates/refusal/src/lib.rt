// The nineteen refusals, and the number of each: document 01's sixteen, and those of requests 2027-05 and 2027-06.
#![tactic(auto)]

ghost use Rattle.std.specs.Prelude.{◌≡◌};
ghost use Rattle.refusal.specs.Numbers.{refusal_number};

#[derive(Clone, Copy, PartialEq, Eq, Debug)]
pub enum Refusal {
    // push: claim exceeds expected by more than 16; 64 frames held
    WideGap = 1,
    StoreFull = 2,
    // poll: over 256 known; over 64 pairs, or hash bytes not 32 times nonces
    ManyKnown = 3,
    BadContent = 4,
    // a slice shorter than its list
    ShortSlice = 5,
    // guard: over 16 predecessors; content not whole hashes or over 16; 64 guards, none of this hash
    ManyPredecessors = 6,
    BadGuardContent = 7,
    GuardsFull = 8,
    // fold: input over 65,536 bytes; unknown mark; field outside its layout or version above 2; a 65th key; output too short
    LongJournal = 9,
    UnknownMark = 10,
    BadRecord = 11,
    PendingFull = 12,
    ShortOutput = 13,
    // restore: text doesn't parse; degraded, no sender; full, no from or wire 0
    BadHashText = 14,
    NoSender = 15,
    NoWire = 16,
    // sweep: over 64 senders, or lists whose lengths do not go together; counts that do not sum to the number of nonces
    BadSweepLists = 17,
    BadNonceCounts = 18,
    // trace: unknown mark, bad byte, call cut short, or over 65,536 bytes
    BadTrace = 19,
}

// Its number.
pub fn number(r: Refusal) -> u64
    ensures { result ≡ refusal_number r }
{
    r as u64
}
