// The guard calls.
ghost use Rattle.std.specs.Prelude.{◌≡◌};
ghost use Rattle.store_rules.specs.Frames.{reparked, unhydratable};
ghost use Rattle.store_rules.specs.Store.{guard, bad_contents};
ghost use Rattle.store_rules.specs.View.{guard_seen, body_seen};
ghost use Rattle.gap_quarantine.specs.Promises.{Writes};

use answers::{Answer, Outcome};
use guards::{GuardBodies, put_guard};
use refusal::Refusal;
use store_rules::{GuardBody, Held, RescueKind};

// Whether the content is not whole hashes, or over sixteen.
fn bad_contents(contents: &[u8]) -> bool
    ensures { result ≡ bad_contents contents.now }
{
    contents.len() % 32 != 0 || 512 < contents.len()
}

// Records a guard of a hash, whose body is put among those that are lent.
fn record(
    h: &mut Held,
    bodies: &mut GuardBodies,
    hash: [u8; 32],
    body: GuardBody,
) -> Result<Answer, Refusal>
    ensures { Writes h.old bodies.old (guard (guard_seen hash (body_seen body.entry)))
        (record { answer = result; store = h.new }) bodies.new }
{
    if 16 < body.predecessors.len() {
        return Err(Refusal::ManyPredecessors);
    }
    if bad_contents(body.contents) {
        return Err(Refusal::BadGuardContent);
    }
    h.guards = put_guard(&mut h.labels, h.guards, bodies, hash, body)?;
    Ok(Answer::Recorded)
}

// The guard call, by value.
fn record_guard(
    mut h: Held,
    bodies: &mut GuardBodies,
    hash: [u8; 32],
    body: GuardBody,
) -> Outcome<Held>
    ensures { Writes h bodies.old (guard (guard_seen hash (body_seen body.entry))) result bodies.new }
{
    let answer = record(&mut h, bodies, hash, body);
    Outcome { answer, store: h }
}

// Records that a rescue of this hash with these predecessors and contents leads back to this boundary.
pub fn record_repark_guard_with_content(
    h: Held,
    bodies: &mut GuardBodies,
    hash: [u8; 32],
    preds: &[u64],
    contents: &[u8],
    boundary: u64,
) -> Outcome<Held>
    ensures { Writes h bodies.old
        (guard (record { hash = hash; kind = reparked boundary; predecessors = preds.now; contents = contents.now }))
        result bodies.new }
{
    let body = GuardBody {
        kind: RescueKind::Reparked(boundary),
        predecessors: preds,
        contents,
    };
    record_guard(h, bodies, hash, body)
}

// Records that a rescue of this hash with these predecessors and contents cannot be rebuilt.
pub fn record_unhydratable_guard_with_content(
    h: Held,
    bodies: &mut GuardBodies,
    hash: [u8; 32],
    preds: &[u64],
    contents: &[u8],
) -> Outcome<Held>
    ensures { Writes h bodies.old
        (guard (record { hash = hash; kind = unhydratable; predecessors = preds.now; contents = contents.now }))
        result bodies.new }
{
    let body = GuardBody {
        kind: RescueKind::Unhydratable,
        predecessors: preds,
        contents,
    };
    record_guard(h, bodies, hash, body)
}
