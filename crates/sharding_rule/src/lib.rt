// The sharding rule: what it claims is in specs/, its proof in proofs/. No code is added to the store's: the functions here do
// nothing, and each has a claim as its contract, so that no check passes with the claim unproved.
#![tactic(auto)]

ghost use Rattle.sharding_rule.specs.Premises.{Premises};
ghost use Rattle.sharding_rule.specs.Readings.{ReadsRule, TotalRule};
ghost use Rattle.sharding_rule.specs.Shards.{MergedOnce, ShardingRule, ShardingRuleTold, OwnerSoFar};
ghost use Rattle.sharding_rule.specs.Splitting.{SplitIsRead, SplittingRule};
ghost use Rattle.sharding_rule.specs.Totals.{TotalsAreTold};

// Shards in the place of one store, with the owners of the order rule.
pub fn sharding_rule()
    ensures { ShardingRule }
{}

// Shards in the place of one store, with owners that the host tells.
pub fn sharding_rule_told()
    ensures { ShardingRuleTold }
{}

// Once a hash is pushed, the calls so far tell its owner.
pub fn owner_so_far()
    ensures { OwnerSoFar }
{}

// The shards' transcripts settle the one that is put together from them.
pub fn merged_once()
    ensures { MergedOnce }
{}

// The totals of a run with room are those that its transcript tells.
pub fn totals_are_told()
    ensures { TotalsAreTold }
{}

// What a host may send is read as the shard's calls.
pub fn split_is_read()
    ensures { SplitIsRead }
{}

// If one store has room for all, each shard has room for its part, and the shards are that store.
pub fn splitting_rule()
    ensures { SplittingRule }
{}

// What the reading calls answer of shards.
pub fn reads_rule()
    ensures { ReadsRule }
{}

// What a push's total is.
pub fn total_rule()
    ensures { TotalRule }
{}

// None of the rule's premises is idle.
pub fn every_premise_is_needed()
    ensures { Premises }
{}
