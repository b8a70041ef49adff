// The lookup by hash: the first entry that is sought, and whose it is.
ghost use Rattle.std.specs.Prelude.{◌≡◌, ◌<◌, map, length, position, IfSome};
ghost use Rattle.store_rules.specs.Lookup.{entries_of};
ghost use Rattle.store_rules.specs.View.{entry_of};
ghost use Rattle.store_rules.specs.Searching.{sought, found_first};

use super::{Entry, FrameState, same_address, same_hash};

// Whose a held frame is: its sender, and its place among that sender's held frames in push order, counted from 0.
#[derive(Clone, Copy, Debug, PartialEq, Eq)]
pub struct Whose {
    pub sender: [u8; 20],
    pub place: usize,
}

// An entry that was found: where it stands, and whose it is.
#[derive(Clone, Copy, Debug, PartialEq, Eq)]
pub struct Found {
    pub at: usize,
    pub whose: Whose,
}

// Whether an entry has this hash, and is tracked where only a tracked one is sought.
fn is_sought(e: &Entry, hash: [u8; 32], tracked: bool) -> bool
    ensures { result ≡ sought hash tracked (entry_of e.now) }
{
    if tracked {
        let FrameState::Tracked = e.state else {
            return false;
        };
    }
    same_hash(e.frame.hash, hash)
}

// How many of the entries are of a sender.
pub fn count_of(entries: &[Entry], sender: [u8; 20]) -> usize
    ensures { result ≡ length (entries_of sender (map entry_of entries.now)) }
{
    entries
        .iter()
        .filter(|e| same_address(e.frame.from, sender))
        .count()
}

// Where the first sought entry stands.
fn place_of(entries: &[Entry], hash: [u8; 32], tracked: bool) -> Option<usize>
    ensures { result ≡ position (λ e. sought hash tracked (entry_of e)) entries.now }
{
    entries.iter().position(|e| is_sought(e, hash, tracked))
}

// The first of the entries that has this hash, and is tracked where only a tracked one is sought.
pub fn first_sought(entries: &[Entry], hash: [u8; 32], tracked: bool) -> Option<Found>
    ensures found { result ≡ found_first (sought hash tracked) (map entry_of entries.now) }
    ensures within { IfSome result (λ f. f.at < length entries.now) }
{
    let at = place_of(entries, hash, tracked)?;
    let sender = entries[at].frame.from;
    let place = count_of(&entries[..at], sender);
    Some(Found {
        at,
        whose: Whose { sender, place },
    })
}
