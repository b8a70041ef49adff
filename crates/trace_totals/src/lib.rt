// The running totals of a trace (request 2027-07): what each answer adds to them.
#![tactic(auto)]

ghost use Rattle.std.specs.Prelude.{◌≡◌, ◌+◌, ◌*◌, ◌≤◌, length};
ghost use Rattle.answers.specs.Promises.{heard};
ghost use Rattle.trace_totals.specs.Counting.{zero, with_held, rescue_rows, plus, Below, numbers_said, counted};

use answers::Answer;
use refusal::Refusal;

// How many frames pushes have accepted, and how many polls have rescued, finality has ended and evictions have taken out.
#[derive(Clone, Copy)]
pub struct Counts {
    pub accepted: usize,
    pub rescued: usize,
    pub dead: usize,
    pub evicted: usize,
}

// The five totals: the frames that pushes accepted, and those that are held at the end, were rescued, are dead or were evicted.
#[derive(Clone, Copy)]
pub struct Totals {
    pub accepted: usize,
    pub held: usize,
    pub rescued: usize,
    pub dead: usize,
    pub evicted: usize,
}

// Nothing counted yet.
pub fn none() -> Counts
    ensures { result ≡ zero }
{
    Counts {
        accepted: 0,
        rescued: 0,
        dead: 0,
        evicted: 0,
    }
}

// The counts with these added.
fn added(c: Counts, accepted: usize, rescued: usize, dead: usize, evicted: usize) -> Counts
    requires { Below c (accepted + rescued + dead + evicted) }
    ensures { result ≡ plus c accepted rescued dead evicted }
{
    Counts {
        accepted: c.accepted + accepted,
        rescued: c.rescued + rescued,
        dead: c.dead + dead,
        evicted: c.evicted + evicted,
    }
}

// How many of the first rows of a slice say Rescue, each row of `width` numbers: the second is document 01's number of the decision.
fn rescue_rows(rows: &[u64], width: usize, n: usize) -> usize
    requires { (2 ≤ width) × (width * n ≤ length rows.now) }
    ensures { (result ≡ rescue_rows width n rows.now) × (result ≤ n) }
{
    let mut count = 0;
    for i in 0..n {
        if rows[width * i + 1] == 1 {
            count += 1;
        }
    }
    count
}

// The counts after an answer, whose rows are at the front of the slice. The frames that it lists have left if the call is an eviction.
#[tactic(auto, unfolding(store_rules::specs::Store::row_width))]
pub fn count(c: Counts, evicts: bool, answer: Result<Answer, Refusal>, rows: &[u64]) -> Counts
    requires { (numbers_said (heard answer) ≤ length rows.now) × Below c (1 + length rows.now) }
    ensures { result ≡ counted c evicts (heard answer) rows.now }
{
    match answer {
        Ok(Answer::Total(_)) => added(c, 1, 0, 0, 0),
        Ok(Answer::Rows(n)) => added(c, 0, rescue_rows(rows, 19, n), 0, 0),
        Ok(Answer::ShortRows(n)) => added(c, 0, rescue_rows(rows, 5, n), 0, 0),
        Ok(Answer::Frames(n)) if evicts => added(c, 0, 0, 0, n),
        Ok(Answer::Dead(n)) => added(c, 0, 0, n, 0),
        Ok(Answer::Recorded | Answer::Frames(_)) => added(c, 0, 0, 0, 0),
        Err(_) => added(c, 0, 0, 0, 0),
    }
}

// The totals at the end, where `held` frames are held.
pub fn with_held(c: Counts, held: usize) -> Totals
    ensures { result ≡ with_held c held }
{
    Totals {
        accepted: c.accepted,
        held,
        rescued: c.rescued,
        dead: c.dead,
        evicted: c.evicted,
    }
}
