// The stores that the loops run on, and how many an answer tells of.
ghost use Rattle.std.specs.Prelude.{◌≡◌, ◌<◌, set, replicate};
ghost use Rattle.store_rules.specs.View.{frame_of, Bodies, held_view};
ghost use Rattle.guards.specs.Recording.{bodies_in};
ghost use Rattle.answers.specs.Promises.{heard};
ghost use Rattle.store_bench.specs.Loads.{whose, frame_by, frame, filled, pushed, lone, mining, after, guarded_by, addresses, sized, counted};

use gap_quarantine::{Answer, GuardBodies, Held, NonceConsumed, ParkedFrame};
use refusal::Refusal;

// The largest of 1, 8 and 64 that is not above the number, and 1 for 0.
pub(crate) fn sized(frames: u64) -> u8
    ensures { result ≡ sized frames }
{
    if frames < 8 {
        return 1;
    }
    if frames < 64 {
        return 8;
    }
    64
}

// How many an answer tells of: the total, or how many are listed; 0 for a refusal.
pub(crate) fn counted(answer: Result<Answer, Refusal>) -> u64
    ensures { result ≡ counted (heard answer) }
{
    match answer {
        Ok(Answer::Total(n) | Answer::Rows(n) | Answer::ShortRows(n)) => n as u64,
        Ok(Answer::Frames(n) | Answer::Dead(n)) => n as u64,
        Ok(Answer::Recorded) | Err(_) => 0,
    }
}

// The n-th address or hash: ones after its first byte, which is n.
pub(crate) fn numbered<const N: usize>(n: u8) -> [u8; N]
    requires { 0 < N }
    ensures { result ≡ set (replicate N 1) 0 n }
{
    let mut bytes = [1u8; N];
    bytes[0] = n;
    bytes
}

// Whose the n-th frame is: a sender's of its own, or that of the one sender.
fn whose(apart: bool, n: u8) -> [u8; 20]
    ensures { result ≡ whose apart n }
{
    if apart { numbered(n) } else { [1u8; 20] }
}

// Document 01's frame F as the n-th, of this sender.
fn frame_of(from: [u8; 20], n: u8) -> ParkedFrame
    ensures { frame_of result ≡ frame_by from n }
{
    ParkedFrame {
        hash: numbered(n),
        from,
        expected: 5,
        claim: 8,
        chain_id: 1,
        gas: 21000,
        ticket: n as u64,
    }
}

// The n-th frame of the one sender.
pub(crate) fn frame(n: u8) -> ParkedFrame
    ensures { frame_of result ≡ frame n }
{
    frame_of([1u8; 20], n)
}

// So many frames, each of a sender of its own, or all of one.
fn filled(frames: u8, apart: bool) -> Held
    ensures { (bodies : Bodies) → held_view bodies result ≡ filled apart frames }
{
    let mut h = Held::new();
    for n in 0..frames {
        h = gap_quarantine::push(h, frame_of(whose(apart, n), n)).store;
    }
    h
}

// So many frames of one sender.
pub(crate) fn store_of(frames: u8) -> Held
    ensures { (bodies : Bodies) → held_view bodies result ≡ pushed frames }
{
    filled(frames, false)
}

// The frames of 64 senders.
pub(crate) fn lone_store() -> Held
    ensures { (bodies : Bodies) → held_view bodies result ≡ lone 64 }
{
    filled(64, true)
}

// The addresses of the 64 senders, one after another.
pub(crate) fn addresses() -> [u8; 1280]
    ensures { result ≡ addresses 64 }
{
    let mut all = [1u8; 1280];
    // By index: of the chunks of an array that were lent and written, a proof knows only the length.
    for n in 0..64u8 {
        all[20 * n as usize] = n;
    }
    all
}

// So many frames, each with its guard, whose body goes to what is lent.
pub(crate) fn guarded_store(frames: u8, bodies: &mut GuardBodies) -> Held
    ensures { held_view (bodies_in bodies.new) result ≡ guarded_by frames }
{
    let gap = [5u64, 6, 7];
    let hashes = [7u8; 96];
    let mut h = Held::new();
    for n in 0..frames {
        let held = gap_quarantine::push(h, frame(n)).store;
        let r = gap_quarantine::record_repark_guard_with_content(
            held,
            &mut *bodies,
            numbered(n),
            &gap,
            &hashes,
            5,
        );
        h = r.store;
    }
    h
}

// The store after its first frame was mined in block 100.
pub(crate) fn mined(h: Held) -> Held
    ensures { (bodies : Bodies) → held_view bodies result ≡ after (held_view bodies h) mining }
{
    let mined = NonceConsumed::MinedAt(100);
    gap_quarantine::enter_tentative(h, numbered(0), mined, [3u8; 32], [0u8; 32]).store
}
