// The laws of the store: what they claim is in specs/, their proofs in proofs/. No code is added to the store's: the functions here do
// nothing, and each has a law as its contract, so that no check passes with the law unproved.
#![tactic(auto)]

ghost use Rattle.store_laws.specs.Listings.{EveryListing};
ghost use Rattle.store_laws.specs.Lookups.{EveryLookup, EveryEntering};
ghost use Rattle.store_laws.specs.Reachable.{EveryRun, GapIsWhole};
ghost use Rattle.store_laws.specs.Refusals.{RefusedByPlace, RefusedByInputs, ReadingRefused, RefusedChangesNothing, EverySweepRefusal, RefusedUnsound, SweepPollsAnswer};
ghost use Rattle.store_laws.specs.ShortRows.{EveryShortRow, ShortAsLong, ShortNeedsLess};
ghost use Rattle.store_laws.specs.Totals.{TotalsAddUpFrom, TotalsAddUp};
ghost use Rattle.store_rules.specs.Store.{Store};
ghost use Rattle.store_rules.specs.Sweeps.{Sweep};

// A refusal is one of its place's.
pub fn refused_by_place()
    ensures { RefusedByPlace }
{}

// Refusals but 2, 5 and 8 depend on inputs alone.
pub fn refused_by_inputs()
    ensures { RefusedByInputs }
{}

// A call that only reads is refused with 5 alone.
pub fn reading_refused()
    ensures { (s : Store) → ReadingRefused s }
{}

// A refused call returns its number and changes nothing.
pub fn refused_changes_nothing()
    ensures { RefusedChangesNothing }
{}

// A refused sweep returns a number of its place and changes nothing.
pub fn every_sweep_refusal()
    ensures { EverySweepRefusal }
{}

// A sweep is refused for its inputs exactly when they are not sound.
pub fn refused_unsound()
    ensures { (w : Sweep) → RefusedUnsound w }
{}

// No poll of a sweep that is not refused is refused.
pub fn sweep_polls_answer()
    ensures { SweepPollsAnswer }
{}

// Every store that calls and sweeps lead to from an empty one is in walk order, within its bounds, with narrow gaps.
pub fn every_run()
    ensures { EveryRun }
{}

// The gap of a frame whose gap is narrow has every nonce in it, ascending.
pub fn gap_is_whole()
    ensures { GapIsWhole }
{}

// The calls that only read list all that they should of such a store, in its order.
pub fn every_listing()
    ensures { EveryListing }
{}

// A lookup finds the first entry that passes its test, and sender and place lead to it.
pub fn every_lookup()
    ensures { EveryLookup }
{}

// After entering, they lead to that entry, tentative now.
pub fn every_entering()
    ensures { EveryEntering }
{}

// A short row says how many nonces the long row lists, and which.
pub fn every_short_row()
    ensures { EveryShortRow }
{}

// Short rows tell what long ones do.
pub fn short_as_long()
    ensures { ShortAsLong }
{}

// A slice that is long enough for the long rows is so for the short ones.
pub fn short_needs_less()
    ensures { ShortNeedsLess }
{}

// The totals add up, from any store.
pub fn totals_add_up_from()
    ensures { TotalsAddUpFrom }
{}

// The totals add up, from an empty store.
pub fn totals_add_up()
    ensures { TotalsAddUp }
{}
