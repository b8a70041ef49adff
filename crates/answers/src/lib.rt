// What a call of the store answers. What each call promises is in specs/: that it gives what the definitions say.
#![tactic(auto)]

use refusal::Refusal;

// What a call that is done answers, each its own case. Entering answers whose the frame is that entered (`Whose`).
#[derive(Clone, Copy, Debug, PartialEq, Eq)]
pub enum Answer {
    // the frames held after a push
    Total(usize),
    // the rows of a poll or a sweep, each of 19 numbers
    Rows(usize),
    // the short rows of a poll, each of five
    ShortRows(usize),
    // a guard was recorded
    Recorded,
    // the frames that an eviction or a reorganisation lists
    Frames(usize),
    // the frames that finality ends
    Dead(usize),
}

// An answer, or why the call is refused; and the store after the call, which a refused call leaves as it was.
#[derive(Clone, Copy)]
pub struct Outcome<S> {
    pub answer: Result<Answer, Refusal>,
    pub store: S,
}
