// What holds of every fold of a journal: what is claimed is in specs/, the proofs in proofs/. No code is added to the journal's: the
// functions here do nothing, and each has a law as its contract, so that no check passes with the law unproved.
#![tactic(auto)]

ghost use Rattle.journal_laws.specs.CutRule.{CutRule};
ghost use Rattle.journal_laws.specs.Keys.{Keys};
ghost use Rattle.journal_laws.specs.Places.{Places, Codes, RestoreNumbers, WriteCodes};
ghost use Rattle.journal_laws.specs.Refolding.{Refolding, NoSixteen};
ghost use Rattle.journal_laws.specs.Rewriting.{JournalAgain};
ghost use Rattle.journal_laws.specs.Sizes.{Sizes};

// The sizes of the five records.
pub fn sizes()
    ensures { Sizes }
{}

// The rule on cutting a journal.
pub fn cut_rule()
    ensures { CutRule }
{}

// The keys that a fold leaves: in byte order, none twice, at most 64.
pub fn keys()
    ensures { Keys }
{}

// Where a fold is refused, and with which number.
pub fn places()
    ensures { Places }
{}

// What the exported fold returns.
pub fn codes()
    ensures { Codes }
{}

// The numbers that restore is refused with.
pub fn restore_numbers()
    ensures { RestoreNumbers }
{}

// What the exported writers return.
pub fn write_codes()
    ensures { WriteCodes }
{}

// What a fold writes out, folded again, gives the same pending records.
pub fn refolding()
    ensures { Refolding }
{}

// None of the records that a fold writes out is refused with 16 by restore.
pub fn no_sixteen()
    ensures { NoSixteen }
{}

// The records of a journal that folds, each read to its value and written again, are the journal up to its end.
pub fn journal_again()
    ensures { JournalAgain }
{}
