// What a poll asks, and what comes with it.
use guards::GuardBodies;
use store_rules::Content;

// What comes with a poll so that guards hold frames back: the current content, and the guards' bodies.
#[derive(Clone, Copy)]
pub struct Given<'a> {
    pub content: Content<'a>,
    pub bodies: &'a GuardBodies,
}

// What a poll asks: a sender, the head of its account, the nonces of which a transaction is known, and what guards are matched by.
#[derive(Clone, Copy)]
pub struct Poll<'a> {
    pub sender: [u8; 20],
    pub head: u64,
    pub known: &'a [u64],
    pub given: Option<Given<'a>>,
}
