// The polls of a sender's frames, and the sweep, which polls many senders in one call. They run on the held part of a store, which
// they change in place.
#![tactic(auto)]

mod polling; // polling.rt: the polls
mod sweeping; // sweeping.rt: the sweep

pub use polling::{poll, poll_short, poll_short_with_content, poll_with_content};
pub use sweeping::sweep;
