// Whether a guard matches a frame, by the content that came with a poll.
ghost use Rattle.std.specs.Prelude.{◌≡◌, Some};
ghost use Rattle.lists.specs.Bytes.{Bytes};
ghost use Rattle.store_rules.specs.Poll.{first_is, contents_hold, content_matches, boundary_holds, guard_matches};
ghost use Rattle.store_rules.specs.View.{kind_of, IsPaired, content_seen, body_seen, guard_seen};

use super::RescueKind;

// What is given to a poll: the nonces of the current content, and the hash of each, 32 bytes, one after another.
#[derive(Clone, Copy)]
pub struct Content<'a> {
    pub nonces: &'a [u64],
    pub hashes: &'a [u8],
}

// What a guard compares: its kind, its predecessors, and its contents, hashes of 32 bytes, one after another.
#[derive(Clone, Copy)]
pub struct GuardBody<'a> {
    pub kind: RescueKind,
    pub predecessors: &'a [u64],
    pub contents: &'a [u8],
}

// Whether the first current pair with this nonce exists and has this hash.
fn first_is(n: u64, hash: &[u8], content: Content) -> bool
    requires { IsPaired content }
    ensures { result ≡ first_is n hash.now content.entry.nonces.now content.entry.hashes.now }
{
    for (m, own) in content.nonces.iter().zip(content.hashes.chunks_exact(32)) {
        if *m == n {
            // `==` on slices was slower where they are alike.
            return lists::same_bytes(own, hash);
        }
    }
    false
}

// Whether the predecessors and the guard's hashes, paired up to the shorter list, are each found so.
fn contents_hold(preds: &[u64], guarded: &[u8], content: Content) -> bool
    requires { IsPaired content }
    ensures { result ≡ contents_hold preds.now guarded.now (content_seen content.entry) }
{
    for (n, hash) in preds.iter().zip(guarded.chunks(32)) {
        if !first_is(*n, hash, content) {
            return false;
        }
    }
    true
}

// Whether the guard's content matches: never if either is empty.
fn content_matches(preds: &[u64], guarded: &[u8], content: Content) -> bool
    requires { IsPaired content }
    ensures { result ≡ content_matches guarded.now preds.now (Some (content_seen content.entry)) }
{
    !guarded.is_empty() && !content.nonces.is_empty() && contents_hold(preds, guarded, content)
}

// Whether the boundary of a re-park is the frame's.
fn boundary_holds(kind: RescueKind, expected: u64) -> bool
    ensures { result ≡ boundary_holds (kind_of kind) expected }
{
    match kind {
        RescueKind::Reparked(b) => b == expected,
        RescueKind::Unhydratable => true,
    }
}

// Whether a guard with this body matches a frame with these predecessors and this boundary, by the content of a poll.
pub fn guard_matches(guard: GuardBody, preds: &[u64], expected: u64, content: Content) -> bool
    requires { IsPaired content }
    ensures { (hash : Bytes) → result ≡ guard_matches (Some (guard_seen hash (body_seen guard.entry))) preds.now expected (Some (content_seen content.entry)) }
{
    guard.predecessors == preds
        && boundary_holds(guard.kind, expected)
        && content_matches(preds, guard.contents, content)
}
