// Entering the tentative state.
ghost use Rattle.std.specs.Prelude.{◌≡◌};
ghost use Rattle.store_rules.specs.Lookup.{enter_with};
ghost use Rattle.store_rules.specs.View.{consumed_of, entry_of};
ghost use Rattle.gap_quarantine.specs.Promises.{EntersAlways};

use super::Entered;
use guards::drop_guard;
use store_rules::{Entry, FrameState, Held, NonceConsumed, Whose, first_sought};

// An entry as it is, but tentative.
fn made_tentative(e: Entry, consumed: NonceConsumed, block_hash: [u8; 32], taker: [u8; 32]) -> Entry
    ensures { entry_of result ≡ enter_with (consumed_of consumed block_hash taker) (entry_of e) }
{
    Entry {
        block_hash,
        taker,
        ..e.with_state(FrameState::Tentative(consumed))
    }
}

// Makes the first tracked entry of a hash tentative, drops the hash's guard, and returns whose the entry is, if there is one.
fn enter(
    h: &mut Held,
    hash: [u8; 32],
    consumed: NonceConsumed,
    block_hash: [u8; 32],
    taker: [u8; 32],
) -> Option<Whose>
    ensures { EntersAlways h.old hash (consumed_of consumed block_hash taker) (record { whose = result; store = h.new }) }
{
    let found = first_sought(h.frames(), hash, true)?;
    h.entries[found.at] = made_tentative(h.entries[found.at], consumed, block_hash, taker);
    drop_guard(&mut h.labels, h.guards, hash);
    Some(found.whose)
}

// Makes the first tracked entry of a hash tentative, drops the hash's guard, and returns whose the entry is, if there is one.
pub fn enter_tentative(
    mut h: Held,
    hash: [u8; 32],
    consumed: NonceConsumed,
    block_hash: [u8; 32],
    taker: [u8; 32],
) -> Entered<Held>
    ensures { EntersAlways h hash (consumed_of consumed block_hash taker) result }
{
    let whose = enter(&mut h, hash, consumed, block_hash, taker);
    Entered { whose, store: h }
}
