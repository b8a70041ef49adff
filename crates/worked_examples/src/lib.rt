// Worked examples, document 01's and a request's: claims in specs/, proofs in proofs/. No code is added: the functions here do nothing,
// and each has a claim as its contract, so that no check passes with the claim unproved.
#![tactic(auto)]

ghost use Rattle.worked_examples.specs.ShortRows.{ShortRows};
ghost use Rattle.worked_examples.specs.Starred.{Starred};
ghost use Rattle.worked_examples.specs.Sweeps.{Sweeps};
ghost use Rattle.worked_examples.specs.Tempting.{Tempting};

// The thirteen starred examples.
pub fn starred_examples()
    ensures { Starred }
{}

// The readings that are tempting and wrong.
pub fn tempting_readings()
    ensures { Tempting }
{}

// The short rows of polls.
pub fn short_row_examples()
    ensures { ShortRows }
{}

// Sweeps of two senders.
pub fn sweep_examples()
    ensures { Sweeps }
{}
