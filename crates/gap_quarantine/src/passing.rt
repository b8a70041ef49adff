// Eviction, reorganisation and finality: one pass, which lists the entries that it takes up.
ghost use Rattle.std.specs.Prelude.{◌≡◌, false, ◌||◌, [], map, ◌*◌, ltb, length, Ok};
ghost use Rattle.lists.specs.Lists.{keep};
ghost use Rattle.store_rules.specs.Store.{evict_sender, check_reorg, check_finalized};
ghost use Rattle.store_rules.specs.View.{entry_of, entries_seen};
ghost use Rattle.decisions.specs.Selections.{call_of, selected, listed_as, number_width, byte_width};
ghost use Rattle.answers.specs.Promises.{Always};
ghost use Rattle.gap_quarantine.specs.Promises.{answered};

use answers::{Answer, Outcome};
use decisions::selection::{Selection, lacks_room, put_entry, selects};
use guards::drop_guard;
use refusal::Refusal;
use store_rules::{Entry, FrameState, Held};

// What a pass that listed n entries answers.
fn answer_of(s: Selection, n: usize) -> Answer
    ensures { result ≡ answered s n }
{
    match s {
        Selection::OfSender(_) | Selection::Reorganised { .. } => Answer::Frames(n),
        Selection::Finalized(_) => Answer::Dead(n),
    }
}

// A selected entry as it is listed: revived, if a reorganisation takes it up.
fn as_listed(s: Selection, e: Entry) -> Entry
    ensures { entry_of result ≡ listed_as s (entry_of e) }
{
    match s {
        Selection::Reorganised { .. } => e.with_state(FrameState::Tracked),
        _ => e,
    }
}

// How many of the entries are selected.
fn count_selected(entries: &[Entry], s: Selection) -> usize
    ensures { result ≡ length (keep (selected s) (map entry_of entries.now)) }
{
    entries.iter().filter(|e| selects(s, e)).count()
}

// Takes up the entries that are selected, for which there is room, and returns how many they are: each is listed, its hash's guard is
// dropped, and it leaves or is revived.
fn take_up(h: &mut Held, s: Selection, numbers: &mut [u64], bytes: &mut [u8]) -> usize
    requires { (ltb (length numbers.old) (number_width s * length (keep (selected s) (entries_seen h.old)))
        || ltb (length bytes.old) (byte_width s * length (keep (selected s) (entries_seen h.old)))) ≡ false }
    ensures { Always h.old (call_of s) numbers.old bytes.old (record { answer = Ok (answered s result); store = h.new }) numbers.new bytes.new }
{
    let len = h.len.min(64);
    let mut n = 0;
    let mut w = 0;
    // By index: the entries move within the array that the loop reads.
    for i in 0..len {
        let e = h.entries[i];
        if !selects(s, &e) {
            h.entries[w] = e;
            w += 1;
            continue;
        }
        let f = as_listed(s, e);
        put_entry(s, &f, n, numbers, bytes);
        n += 1;
        drop_guard(&mut h.labels, h.guards, e.frame.hash);
        if let Selection::Reorganised { .. } = s {
            h.entries[w] = f;
            w += 1;
        }
    }
    h.len = w;
    n
}

// Takes up the entries that are selected, if the slices have room for what is listed of them.
fn pass(
    h: &mut Held,
    s: Selection,
    numbers: &mut [u64],
    bytes: &mut [u8],
) -> Result<Answer, Refusal>
    ensures { Always h.old (call_of s) numbers.old bytes.old (record { answer = result; store = h.new }) numbers.new bytes.new }
{
    let count = count_selected(h.frames(), s);
    if lacks_room(s, count, numbers.len(), bytes.len()) {
        return Err(Refusal::ShortSlice);
    }
    let n = take_up(h, s, numbers, bytes);
    Ok(answer_of(s, n))
}

// Removes the entries of a sender, and lists their tickets.
pub fn evict_sender(mut h: Held, sender: [u8; 20], tickets: &mut [u64]) -> Outcome<Held>
    ensures { Always h (evict_sender sender) tickets.old [] result tickets.new [] }
{
    let answer = pass(&mut h, Selection::OfSender(sender), tickets, &mut []);
    Outcome { answer, store: h }
}

// Makes the tentative entries of a reorganised block tracked again, and lists their tickets.
pub fn check_reorg(
    mut h: Held,
    block: u64,
    hash: Option<[u8; 32]>,
    tickets: &mut [u64],
) -> Outcome<Held>
    ensures { Always h (check_reorg block hash) tickets.old [] result tickets.new [] }
{
    let answer = pass(
        &mut h,
        Selection::Reorganised { block, hash },
        tickets,
        &mut [],
    );
    Outcome { answer, store: h }
}

// Removes the tentative entries of blocks up to n, and lists ticket, block, kind, block hash and taker of each.
pub fn check_finalized(mut h: Held, n: u64, numbers: &mut [u64], bytes: &mut [u8]) -> Outcome<Held>
    ensures { Always h (check_finalized n) numbers.old bytes.old result numbers.new bytes.new }
{
    let answer = pass(&mut h, Selection::Finalized(n), numbers, bytes);
    Outcome { answer, store: h }
}
