// The laws of traces: what they claim is in specs/, their proofs in proofs/. No code is added to the reader's: the functions here do
// nothing, and each has a law as its contract, so that no check passes with the law unproved.
#![tactic(auto)]

ghost use Rattle.trace_laws.specs.Examples.{Examples};
ghost use Rattle.trace_laws.specs.Laws.{ReadsBack, WrittenAgain, EveryBreak, NeverShort, TraceAddsUp, HeldAtTheEnd};

// Every list of calls within the widths can be written as a trace, and is read from it.
pub fn reads_back()
    ensures { ReadsBack }
{}

// What is read from a whole trace fits the widths, and is written again as the same bytes.
pub fn written_again()
    ensures { WrittenAgain }
{}

// A trace with a 19 is its calls before that place, and no byte after it matters.
pub fn every_break()
    ensures { EveryBreak }
{}

// The slices that are lent are long enough: no call is refused with 5.
pub fn never_short()
    ensures { NeverShort }
{}

// The totals of every trace add up.
pub fn trace_adds_up()
    ensures { TraceAddsUp }
{}

// Held are the entries of the store at the end.
pub fn held_at_the_end()
    ensures { HeldAtTheEnd }
{}

// Traces of one frame, byte by byte.
pub fn byte_by_byte()
    ensures { Examples }
{}
