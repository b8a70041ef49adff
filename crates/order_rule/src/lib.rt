// The order rule: what it claims is in specs/, its proof in proofs/. No code is added to the store's: the functions here do
// nothing, and each has a claim as its contract, so that no check passes with the claim unproved.
#![tactic(auto)]

ghost use Rattle.lists.specs.Bytes.{Bytes};
ghost use Rattle.order_rule.specs.Orders.{OrderRule, OrderRuleFrom, PlainIsSpecial, TwoOrders, OneSender, key_by, owner_in};
ghost use Rattle.order_rule.specs.Premises.{Premises};
ghost use Rattle.std.specs.Prelude.{List, ◌≡◌};
ghost use Rattle.store_rules.specs.Store.{Store, Sorted, Call};

// Two orders of the same calls, from an empty store.
pub fn order_rule()
    ensures { OrderRule }
{}

// Two orders of the same calls, from any store whose entries are in walk order.
pub fn order_rule_from()
    ensures { (s : Store) → Sorted s.entries → OrderRuleFrom s }
{}

// It is immaterial that the owners are read from the first list: the second gives the same ones.
pub fn same_owners()
    ensures { (xs ys : List Call) → TwoOrders (key_by (owner_in xs)) xs ys → OneSender xs → (h : Bytes) → owner_in xs h ≡ owner_in ys h }
{}

// The rule for lists without sweeps is its special case.
pub fn plain_rule()
    ensures { PlainIsSpecial }
{}

// None of the rule's premises is idle.
pub fn every_premise_is_needed()
    ensures { Premises }
{}
