// What the guards compare: a body in the place of each label.
ghost use Rattle.std.specs.Prelude.{◌≡◌, false, ◌+◌, ◌≤◌, ◌<◌, cond, eqb, length};
ghost use Rattle.store_rules.specs.Frames.{reparked, unhydratable};
ghost use Rattle.store_rules.specs.Store.{bad_contents};
ghost use Rattle.store_rules.specs.View.{kind_of, body_seen};
ghost use Rattle.guards.specs.Moving.{IsHead, BodyPut};
ghost use Rattle.guards.specs.Recording.{bodies_in};

use store_rules::{GuardBody, RescueKind};

// The bodies of the guards: 20 numbers and 512 bytes a guard.
#[derive(Clone, Copy)]
pub struct GuardBodies {
    pub numbers: [u64; 1280],
    pub contents: [u8; 32768],
}

// The kind of a guard, by the first two of its numbers: those of a form in which guards are stored, and so no enum.
fn kind_at(tag: u64, boundary: u64) -> RescueKind
    ensures { kind_of result ≡ cond (eqb tag 1) (reparked boundary) unhydratable }
{
    if tag == 1 {
        return RescueKind::Reparked(boundary);
    }
    RescueKind::Unhydratable
}

// The first four numbers of a body.
fn head_of(kind: RescueKind, preds: usize, hashes: usize) -> [u64; 4]
    ensures { IsHead (kind_of kind) preds hashes result }
{
    match kind {
        RescueKind::Reparked(boundary) => [1, boundary, preds as u64, hashes as u64],
        RescueKind::Unhydratable => [0, 0, preds as u64, hashes as u64],
    }
}

impl GuardBodies {
    // The body in place k.
    pub fn at(&self, k: usize) -> GuardBody<'_>
        requires { k < 64 }
        ensures { body_seen result ≡ bodies_in self.now k }
    {
        let body = 20 * k;
        let first = body + 4;
        let count = (self.numbers[body + 2] as usize).min(16);
        let hashes = (self.numbers[body + 3] as usize).min(16);
        GuardBody {
            kind: kind_at(self.numbers[body], self.numbers[body + 1]),
            predecessors: &self.numbers[first..first + count],
            contents: &self.contents[512 * k..512 * k + 32 * hashes],
        }
    }

    // Writes the body in place k.
    pub(crate) fn put(&mut self, k: usize, body: GuardBody)
        requires within { k < 64 }
        requires few { length body.predecessors.now ≤ 16 }
        requires whole { bad_contents body.contents.now ≡ false }
        ensures { BodyPut k (body_seen body.entry) (bodies_in self.old) (bodies_in self.new) }
    {
        let preds = body.predecessors;
        let contents = body.contents;
        let at = 20 * k;
        let from = 512 * k;
        let head = head_of(body.kind, preds.len(), contents.len() / 32);
        self.numbers[at..at + 4].copy_from_slice(&head);
        self.numbers[at + 4..at + 4 + preds.len()].copy_from_slice(preds);
        self.contents[from..from + contents.len()].copy_from_slice(contents);
    }

    // Copies the body in place i to place k.
    pub(crate) fn copy(&mut self, i: usize, k: usize)
        requires from { i < 64 }
        requires to { k < 64 }
        ensures { BodyPut k (bodies_in self.old i) (bodies_in self.old) (bodies_in self.new) }
    {
        self.numbers.copy_within(20 * i..20 * i + 20, 20 * k);
        self.contents.copy_within(512 * i..512 * i + 512, 512 * k);
    }
}
