// Traces (request 2027-06): how a call is read from bytes and written as bytes, what the run of a trace is, and its totals (request
// 2027-07), in specs/. The code that reads and runs one stands above. The functions here do nothing: each has a claim of specs/ as its
// contract, so that no check passes with the claim unproved.
#![tactic(auto)]

ghost use Rattle.trace_format.specs.Standing.{EveryCallStands, BadStaysBad};

// A call is read from its own bytes, whatever comes after them.
pub fn every_call_stands()
    ensures { EveryCallStands }
{}

// A bad mark or byte settles that there is no call.
pub fn bad_stays_bad()
    ensures { BadStaysBad }
{}
