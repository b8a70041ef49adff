// The row that tells of an entry: which nonces it lists, and its numbers in either form.
ghost use Rattle.std.specs.Prelude.{◌≡◌, ◌+◌, ◌-◌, ◌≤◌, min, length};
ghost use Rattle.lists.specs.Lists.{written};
ghost use Rattle.short_rows.specs.Reading.{Lists};
ghost use Rattle.store_rules.specs.Store.{row_width};
ghost use Rattle.store_rules.specs.Answers.{decision_number, row_numbers};
ghost use Rattle.store_rules.specs.View.{frame_of};
ghost use Rattle.decisions.specs.Courses.{decision_of, nonces_of, is_listed, row_of, form_of};

use super::asked::Poll;
use short_rows::{Nonces, mark_of};
use store_rules::{ParkedFrame, gap_count};

// What a row tells of a frame: its nonce is consumed, a degraded frame is held, predecessors are unknown, its guard holds it back,
// or it is rescued and leaves.
#[derive(Clone, Copy, Debug, PartialEq, Eq)]
pub enum Telling {
    Consumed,
    Hold,
    Waits,
    HeldBack,
    Rescued,
}

// How rows are written: in 19 numbers, or in five.
#[derive(Clone, Copy, Debug, PartialEq, Eq)]
pub enum RowForm {
    Long,
    Short,
}

// How many numbers a row takes.
#[tactic(auto, unfolding(store_rules::specs::Store::row_width))]
pub fn row_width(form: RowForm) -> usize
    ensures { result ≡ row_width (form_of form) }
{
    match form {
        RowForm::Long => 19,
        RowForm::Short => 5,
    }
}

// Document 01's number of what a row tells.
#[tactic(auto, unfolding(store_rules::specs::Answers::decision_number))]
fn decision_number(telling: Telling) -> u64
    ensures { result ≡ decision_number (decision_of telling) }
{
    match telling {
        Telling::Rescued => 1,
        Telling::Consumed => 2,
        Telling::Hold | Telling::Waits | Telling::HeldBack => 3,
    }
}

// Whether a row lists this predecessor: all, those that are unknown, or none.
fn is_listed(telling: Telling, n: u64, known: &[u64]) -> bool
    ensures { result ≡ is_listed telling known.now n }
{
    match telling {
        Telling::Consumed => false,
        Telling::Hold | Telling::Waits => !lists::is_in(n, known),
        Telling::HeldBack | Telling::Rescued => true,
    }
}

// The nonce after the last of a frame's gap.
pub(crate) fn gap_end(frame: ParkedFrame) -> u64
    ensures { result ≡ frame.expected + min 16 (frame.claim - frame.expected) }
{
    frame.expected + gap_count(frame.expected, frame.claim)
}

// The nonces that a row lists.
pub fn listed(frame: ParkedFrame, telling: Telling, poll: &Poll) -> Nonces
    ensures { Lists (nonces_of telling poll.now.head poll.now.known.now (frame_of frame)) result }
{
    let mut at = [0; 16];
    let mut count = 0;
    for n in frame.expected.max(poll.head)..gap_end(frame) {
        if is_listed(telling, n, poll.known) {
            at[count] = n;
            count += 1;
        }
    }
    Nonces { at, count }
}

// Writes a row to the front of the slice: ticket and decision; then the count, the nonces and zeros, or the expected nonce, the mark and
// its count.
pub fn put_row(form: RowForm, frame: ParkedFrame, telling: Telling, poll: &Poll, rows: &mut [u64])
    requires { row_width (form_of form) ≤ length rows.old }
    ensures { rows.new ≡ written (row_numbers (form_of form) (row_of telling poll.now.head poll.now.known.now (frame_of frame))) rows.old }
{
    let decision = decision_number(telling);
    let nonces = listed(frame, telling, poll);
    match form {
        RowForm::Long => {
            rows[..3].copy_from_slice(&[frame.ticket, decision, nonces.count as u64]);
            rows[3..19].copy_from_slice(&nonces.at);
        }
        RowForm::Short => {
            let mark = mark_of(frame.expected, &nonces.at[..nonces.count]);
            let ones = mark.count_ones();
            rows[..5].copy_from_slice(&[
                frame.ticket,
                decision,
                frame.expected,
                mark as u64,
                ones as u64,
            ]);
        }
    }
}
