// Loops over store calls, for drivers that time them. Each makes its store, runs so many rounds, at most 2^32, and returns how
// many rows or frames the answers told of. All but one run on the held part of a store.
#![tactic(auto)]

ghost use Rattle.std.specs.Prelude.{◌≡◌, ◌*◌, min};
ghost use Rattle.gap_quarantine.specs.Promises.{view_of};
ghost use Rattle.store_rules.specs.Store.{empty, push, short, check_finalized};
ghost use Rattle.store_rules.specs.View.{held_view};
ghost use Rattle.guards.specs.Recording.{bodies_in};
ghost use Rattle.store_bench.specs.Loads.{alone, pushed, guarded_by, lone, addresses, polled_in_turn, sized, frame, waiting, guarded, rescuing, mining, evicting, told, told_in, Repeats};

use gap_quarantine::{Held, NonceConsumed, Quarantine};
use rounds::told_in_all;
use stores::{
    addresses, counted, frame, guarded_store, lone_store, mined, numbered, sized, store_of,
};

mod rounds; // rounds.rt: the rounds of a run
mod stores; // stores.rt: the stores, and how many an answer tells of

// ---- rounds that give the store on

// Polls of a sender with 8 frames, which all wait.
#[unsafe(no_mangle)]
pub extern "C" fn gap_quarantine_polls(rounds: u64) -> u64
    ensures { result ≡ 8 * min rounds 4294967296 }
{
    let mut h = store_of(8);
    let round = ||
        ensures { Repeats alone (pushed 8) 8 h.entry result h.exit }
    {
        let r = gap_quarantine::poll(h, [1u8; 20], 5, &[6], &mut [0u64; 152]);
        h = r.store;
        counted(r.answer)
    };
    told_in_all(rounds, round)
}

// Polls of a sender with 8 frames, which all wait, of the whole store as one value.
#[unsafe(no_mangle)]
pub extern "C" fn store_bench_whole_waiting(rounds: u64) -> u64
    ensures { result ≡ 8 * min rounds 4294967296 }
{
    let mut q = Quarantine {
        held: store_of(8),
        ..Quarantine::new()
    };
    let round = ||
        ensures { Repeats view_of (pushed 8) 8 q.entry result q.exit }
    {
        let r = q.poll([1u8; 20], 5, &[6], &mut [0u64; 152]);
        q = r.store;
        counted(r.answer)
    };
    told_in_all(rounds, round)
}

// Polls with content of a sender with 8 frames, each held back by its guard.
#[unsafe(no_mangle)]
pub extern "C" fn gap_quarantine_guarded_polls(rounds: u64) -> u64
    ensures { result ≡ 8 * min rounds 4294967296 }
{
    let mut bodies = Quarantine::new().bodies;
    let mut h = guarded_store(8, &mut bodies);
    let round = ||
        ensures { Repeats (held_view (bodies_in bodies)) (guarded_by 8) 8 h.entry result h.exit }
    {
        let gap = [5u64, 6, 7];
        let mut rows = [0u64; 152];
        let r = gap_quarantine::poll_with_content(
            h, &bodies, [1u8; 20], 5, &gap, &gap, &[7u8; 96], &mut rows,
        );
        h = r.store;
        counted(r.answer)
    };
    told_in_all(rounds, round)
}

// Sweeps of 64 senders with a frame each, which all wait.
#[unsafe(no_mangle)]
pub extern "C" fn gap_quarantine_sweeps(rounds: u64) -> u64
    ensures { result ≡ 64 * min rounds 4294967296 }
{
    let senders = addresses();
    let mut h = lone_store();
    let round = ||
        ensures { senders ≡ addresses 64 → Repeats alone (lone 64) 64 h.entry result h.exit }
    {
        let heads = [5u64; 64];
        let counts = [1u64; 64];
        let nonces = [6u64; 64];
        let r = gap_quarantine::sweep(h, &senders, &heads, &counts, &nonces, &mut [0u64; 1216]);
        h = r.store;
        counted(r.answer)
    };
    told_in_all(rounds, round)
}

// Polls of the same senders, one after another: a poll a round.
#[unsafe(no_mangle)]
pub extern "C" fn gap_quarantine_polls_in_turn(rounds: u64) -> u64
    ensures { result ≡ (polled_in_turn (min rounds 4294967296)).1 }
{
    let mut h = lone_store();
    let mut seen: u64 = 0;
    // Its own loop: what a round tells of depends on which it is.
    for i in 0..rounds.min(1 << 32) {
        let sender = numbered((i % 64) as u8);
        let r = gap_quarantine::poll(h, sender, 5, &[6], &mut [0u64; 19]);
        h = r.store;
        seen += counted(r.answer);
    }
    seen
}

// A push, and the poll that rescues the frame.
#[unsafe(no_mangle)]
pub extern "C" fn gap_quarantine_push_and_rescue(rounds: u64) -> u64
    ensures { result ≡ min rounds 4294967296 }
{
    let mut h = Held::new();
    let mut seen: u64 = 0;
    // Its own loop: tried as a closure's round, which clears a store each time, and a fifth slower.
    for _ in 0..rounds.min(1 << 32) {
        let pushed = gap_quarantine::push(h, frame(0));
        let r = gap_quarantine::poll(pushed.store, [1u8; 20], 8, &[], &mut [0u64; 19]);
        h = r.store;
        seen += counted(r.answer);
    }
    seen
}

// A push, an entering, and the finality that ends the frame.
#[unsafe(no_mangle)]
pub extern "C" fn gap_quarantine_finality(rounds: u64) -> u64
    ensures { result ≡ min rounds 4294967296 }
{
    let mut h = Held::new();
    let mut seen: u64 = 0;
    // Its own loop: tried as a closure's round, which clears a store each time, and a fifth slower.
    for _ in 0..rounds.min(1 << 32) {
        let pushed = gap_quarantine::push(h, frame(0));
        let entered = mined(pushed.store);
        let r = gap_quarantine::check_finalized(entered, 100, &mut [0u64; 3], &mut [0u8; 64]);
        h = r.store;
        seen += counted(r.answer);
    }
    seen
}

// ---- one call on a store that is kept, so that each round finds the same store

// Pushes to a store of 8 frames: each tells of 9.
#[unsafe(no_mangle)]
pub extern "C" fn store_bench_push(rounds: u64) -> u64
    ensures { result ≡ 9 * min rounds 4294967296 }
{
    let h = store_of(8);
    let call = ||
        ensures { result ≡ told (alone h) (push (frame 8)) 0 0 }
    {
        let r = gap_quarantine::push(h, frame(8));
        counted(r.answer)
    };
    told_in_all(rounds, call)
}

// Polls of a sender with 1, 8 or 64 frames, which all wait.
#[unsafe(no_mangle)]
pub extern "C" fn store_bench_waiting(frames: u64, rounds: u64) -> u64
    ensures { result ≡ sized frames * min rounds 4294967296 }
{
    let h = store_of(sized(frames));
    let call = ||
        ensures { result ≡ told (alone h) waiting 1216 0 }
    {
        let r = gap_quarantine::poll(h, [1u8; 20], 5, &[6], &mut [0u64; 1216]);
        counted(r.answer)
    };
    told_in_all(rounds, call)
}

// Polls with short rows of a sender with 1, 8 or 64 frames, which all wait.
#[unsafe(no_mangle)]
pub extern "C" fn store_bench_waiting_short(frames: u64, rounds: u64) -> u64
    ensures { result ≡ sized frames * min rounds 4294967296 }
{
    let h = store_of(sized(frames));
    let call = ||
        ensures { result ≡ told_in short (alone h) waiting 320 0 }
    {
        let r = gap_quarantine::poll_short(h, [1u8; 20], 5, &[6], &mut [0u64; 320]);
        counted(r.answer)
    };
    told_in_all(rounds, call)
}

// Polls with content of a sender with 1, 8 or 64 frames, each held back by its guard.
#[unsafe(no_mangle)]
pub extern "C" fn store_bench_guarded(frames: u64, rounds: u64) -> u64
    ensures { result ≡ sized frames * min rounds 4294967296 }
{
    let mut bodies = Quarantine::new().bodies;
    let h = guarded_store(sized(frames), &mut bodies);
    let call = ||
        ensures { result ≡ told (held_view (bodies_in bodies) h) guarded 1216 0 }
    {
        let gap = [5u64, 6, 7];
        let mut rows = [0u64; 1216];
        let r = gap_quarantine::poll_with_content(
            h, &bodies, [1u8; 20], 5, &gap, &gap, &[7u8; 96], &mut rows,
        );
        counted(r.answer)
    };
    told_in_all(rounds, call)
}

// Polls of a sender with 1, 8 or 64 frames, which are all rescued.
#[unsafe(no_mangle)]
pub extern "C" fn store_bench_rescued(frames: u64, rounds: u64) -> u64
    ensures { result ≡ sized frames * min rounds 4294967296 }
{
    let h = store_of(sized(frames));
    let call = ||
        ensures { result ≡ told (alone h) rescuing 1216 0 }
    {
        let r = gap_quarantine::poll(h, [1u8; 20], 8, &[], &mut [0u64; 1216]);
        counted(r.answer)
    };
    told_in_all(rounds, call)
}

// Enterings of the first of 1, 8 or 64 frames.
#[unsafe(no_mangle)]
pub extern "C" fn store_bench_enter(frames: u64, rounds: u64) -> u64
    ensures { result ≡ min rounds 4294967296 }
{
    let h = store_of(sized(frames));
    let call = ||
        ensures { result ≡ told (alone h) mining 0 0 }
    {
        let mined = NonceConsumed::MinedAt(100);
        let r = gap_quarantine::enter_tentative(h, numbered(0), mined, [3u8; 32], [0u8; 32]);
        r.whose.is_some() as u64
    };
    told_in_all(rounds, call)
}

// Evictions of a sender's 8 frames.
#[unsafe(no_mangle)]
pub extern "C" fn store_bench_evict(rounds: u64) -> u64
    ensures { result ≡ 8 * min rounds 4294967296 }
{
    let h = store_of(8);
    let call = ||
        ensures { result ≡ told (alone h) evicting 64 0 }
    {
        let r = gap_quarantine::evict_sender(h, [1u8; 20], &mut [0u64; 64]);
        counted(r.answer)
    };
    told_in_all(rounds, call)
}

// Finality that ends one of 8 frames.
#[unsafe(no_mangle)]
pub extern "C" fn store_bench_finality(rounds: u64) -> u64
    ensures { result ≡ min rounds 4294967296 }
{
    let h = mined(store_of(8));
    let call = ||
        ensures { result ≡ told (alone h) (check_finalized 100) 3 64 }
    {
        let r = gap_quarantine::check_finalized(h, 100, &mut [0u64; 3], &mut [0u8; 64]);
        counted(r.answer)
    };
    told_in_all(rounds, call)
}
