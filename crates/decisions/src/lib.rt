// What the calls decide of one entry, and what they write of it to the lent slices.
#![tactic(auto)]

pub mod asked; // asked.rt: what a poll asks
pub mod poll; // poll.rt: what a poll decides of an entry
pub mod rows; // rows.rt: the row that tells of an entry
pub mod selection; // selection.rt: the entries that eviction, reorganisation and finality take up
