// What a poll decides of one entry.
ghost use Rattle.std.specs.Prelude.{◌≡◌, false, not, ◌+◌, min, ◌-◌};
ghost use Rattle.lists.specs.Lists.{is_empty};
ghost use Rattle.store_rules.specs.Poll.{unknown, poll_given, poll_rule};
ghost use Rattle.store_rules.specs.Rules.{only_of};
ghost use Rattle.store_rules.specs.Store.{guard_of};
ghost use Rattle.store_rules.specs.View.{frame_of, entry_of, guards_seen, Bodies};
ghost use Rattle.decisions.specs.Courses.{staying_as, visit_of};
ghost use Rattle.decisions.specs.Polls.{content_given, IsWhole, LendsBodies};

use super::asked::Poll;
use super::rows::{Telling, gap_end, listed};
use guards::guard_holds;
use store_rules::{Entry, FrameState, Held, ParkedFrame, is_degraded, same_address};

// Whether any predecessor is unknown.
fn any_unknown(frame: ParkedFrame, poll: &Poll) -> bool
    ensures { result ≡ not (is_empty (unknown poll.now.head poll.now.known.now (frame_of frame))) }
{
    for n in frame.expected.max(poll.head)..gap_end(frame) {
        if !lists::is_in(n, poll.known) {
            return true;
        }
    }
    false
}

// Decides of an entry, as if no guard matched: what a row tells of it, if one does.
fn decide(e: &Entry, poll: &Poll) -> Option<Telling>
    ensures { visit_of result poll.now.head poll.now.known.now (entry_of e.now)
        ≡ poll_given poll.now.head poll.now.known.now false (entry_of e.now) }
{
    let FrameState::Tracked = e.state else {
        return None;
    };
    // Rules 2 and 3 begin alike.
    if e.frame.claim < poll.head {
        return Some(Telling::Consumed);
    }
    if is_degraded(e.frame) {
        if e.held == Some(poll.head) {
            return None;
        }
        return Some(Telling::Hold);
    }
    if any_unknown(e.frame, poll) {
        return Some(Telling::Waits);
    }
    Some(Telling::Rescued)
}

// What a poll makes of an entry of the store: its own, told by the rules and the guard of its hash; or another sender's, of which no
// row tells. Without content no guard matches, and neither labels nor bodies are read.
pub fn course_of(h: &Held, e: &Entry, poll: &Poll) -> Option<Telling>
    requires { IsWhole poll.now.given }
    ensures { (bodies : Bodies) → LendsBodies poll.now.given bodies →
        only_of poll.now.sender (poll_rule poll.now.head poll.now.known.now (content_given poll.now.given))
        (guard_of e.now.frame.hash (guards_seen bodies h.now)) (entry_of e.now)
        ≡ visit_of result poll.now.head poll.now.known.now (entry_of e.now) }
{
    if !same_address(e.frame.from, poll.sender) {
        return None;
    }
    let telling = decide(e, poll)?;
    let Telling::Rescued = telling else {
        return Some(telling);
    };
    let Some(given) = poll.given else {
        return Some(telling);
    };
    let preds = listed(e.frame, telling, poll);
    if guard_holds(
        h,
        given.bodies,
        e.frame.hash,
        &preds.at[..preds.count],
        e.frame.expected,
        given.content,
    ) {
        return Some(Telling::HeldBack);
    }
    Some(telling)
}

// The entry as it stays after its row.
pub fn stays(e: Entry, telling: Telling, head: u64) -> Entry
    ensures { (entry_of result ≡ record { frame = frame_of e.frame; standing = staying_as telling head (entry_of e).standing }) × (result.frame ≡ e.frame) }
{
    match telling {
        Telling::Hold => e.with_held(head),
        _ => e,
    }
}
