// A trace, run from an empty store (request 2027-06), and its totals (request 2027-07).
#![tactic(auto)]

ghost use Rattle.std.specs.Prelude.{◌≡◌, false, [], ◌∷◌, ◌+◌, ◌≤◌, ◌<◌, length};
ghost use Rattle.lists.specs.Lists.{written};
ghost use Rattle.store_rules.specs.Store.{empty};
ghost use Rattle.answers.specs.Promises.{heard};
ghost use Rattle.gap_quarantine.specs.Promises.{view_of};
ghost use Rattle.trace_totals.specs.Counting.{zero, Below};
ghost use Rattle.trace_run.specs.Promises.{number_said, number_of, numbers_listed, counted_by, ended_with, Runs};

use gap_quarantine::{Answer, Quarantine};
use refusal::Refusal;
use trace_calls::Reply;
use trace_totals::{Counts, Totals};

// How many bytes a trace may have.
pub const MOST_BYTES: usize = 65536;

// How many lines it comes to at most: a call has ten bytes or more, and a 19 may come after the calls.
pub const MOST_LINES: usize = 6554;

// How many lines there are, whether the trace is whole, so that none of them is a 19, the totals of the calls that were made, and the
// store at the end.
#[derive(Clone, Copy)]
pub struct Ran {
    pub lines: usize,
    pub whole: bool,
    pub totals: Totals,
    pub store: Quarantine,
}

// The number of an answer: that of its refusal, or 0.
fn number_said(answer: Result<Answer, Refusal>) -> u64
    ensures { result ≡ number_said (heard answer) }
{
    match answer {
        Ok(_) => 0,
        Err(x) => refusal::number(x),
    }
}

// That of a reply; entering is never refused.
fn number_of(reply: Reply) -> u64
    ensures { result ≡ number_of reply }
{
    match reply {
        Reply::Answered(answer) => number_said(answer),
        Reply::Entered(_) => 0,
    }
}

// The counts after a reply; entering adds nothing.
fn counts_after(c: Counts, evicts: bool, reply: Reply, numbers: &[u64]) -> Counts
    requires { (numbers_listed reply ≤ length numbers.now) × Below c (1 + length numbers.now) }
    ensures { result ≡ counted_by c evicts reply numbers.now }
{
    match reply {
        Reply::Answered(answer) => trace_totals::count(c, evicts, answer, numbers),
        Reply::Entered(_) => c,
    }
}

// The end of a run: what is held is counted in the store.
fn ended(lines: usize, whole: bool, c: Counts, q: Quarantine) -> Ran
    ensures { result ≡ ended_with lines whole c q }
{
    Ran {
        lines,
        whole,
        totals: trace_totals::with_held(c, q.len()),
        store: q,
    }
}

// A trace over the limit: nothing is run.
fn too_long(lines: &mut [u64]) -> Ran
    requires { 0 < length lines.old }
    ensures { (result ≡ ended_with 1 false zero result.store) × (view_of result.store ≡ empty) × (lines.new ≡ written (19 ∷ []) lines.old) }
{
    lines[0] = refusal::number(Refusal::BadTrace);
    ended(1, false, trace_totals::none(), Quarantine::new())
}

// Runs a trace within the limit.
fn run_calls(trace: &[u8], lines: &mut [u64]) -> Ran
    requires { (length trace.now ≤ 65536) × (length lines.old ≡ 6554) }
    ensures { Runs trace.now lines.old result lines.new }
{
    let mut numbers = [0; 1216];
    let mut hashes = [0; 4096];
    let mut q = Quarantine::new();
    let mut counts = trace_totals::none();
    let mut count = 0;
    let mut at = 0;
    // By index: a call says how many bytes it takes, and they may be any number.
    while at < trace.len() {
        let made = trace_calls::make_call(q, &trace[at..], &mut numbers, &mut hashes);
        q = made.store;
        let Ok(called) = made.call else {
            lines[count] = refusal::number(Refusal::BadTrace);
            return ended(count + 1, false, counts, q);
        };
        lines[count] = number_of(called.reply);
        counts = counts_after(counts, called.evicts, called.reply, &numbers);
        count += 1;
        at += called.size;
    }
    ended(count, true, counts, q)
}

// Runs a trace from an empty store. A number for each call goes to the front of the lines, its refusal or 0; and 19 after them where
// no call stands, or in place 0 if the trace is too long.
pub fn run_trace(trace: &[u8], lines: &mut [u64; MOST_LINES]) -> Ran
    ensures { Runs trace.now lines.old result lines.new }
{
    if MOST_BYTES < trace.len() {
        return too_long(lines);
    }
    run_calls(trace, lines)
}
