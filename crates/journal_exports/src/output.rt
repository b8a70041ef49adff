// What the exported functions write: the pending records, the totals, and a frame, as bytes.
ghost use Rattle.std.specs.Prelude.{◌≡◌, [], ◌∷◌, ◌+◌, ◌*◌, ◌≤◌, map, length};
ghost use Rattle.lists.specs.Lists.{collect, written};
ghost use Rattle.wire.specs.Numbers.{digits};
ghost use Rattle.refusal.specs.Numbers.{refusal_number};
ghost use Rattle.store_rules.specs.View.{frame_of};
ghost use Rattle.gap_quarantine_journal.specs.Fold.{output};
ghost use Rattle.journal_record.specs.View.{park_seen};
ghost use Rattle.journal_exports.specs.Export.{frame_bytes};
ghost use Rattle.journal_exports.specs.Writers.{Short, code_of};
ghost use Rattle.journal_writer.specs.View.{answer_seen};

use journal_record::{PARK_SIZE, ParkRecord};
use refusal::Refusal;
use store_rules::ParkedFrame;
use totals::Totals;

// Writes the pending records, 240 bytes each.
pub(crate) fn write_parks(parks: &[ParkRecord], out: &mut [u8])
    requires { 240 * length parks.now ≤ length out.old }
    ensures { out.new ≡ written (output (map park_seen parks.now)) out.old }
{
    for (i, park) in parks.iter().enumerate() {
        wire::put_bytes(out, PARK_SIZE * i, &journal_writer::park_bytes(*park));
    }
}

// Writes the five totals, 8 bytes each.
pub(crate) fn write_totals(out: &mut [u8], pending: u64, sums: Totals, end: u64)
    requires { length out.old ≡ 40 }
    ensures { out.new ≡ collect (digits 8) (pending ∷ sums.skipped ∷ sums.migrated ∷ sums.degraded ∷ end ∷ []) }
{
    wire::put_number(out, 0, 8, pending);
    wire::put_number(out, 8, 8, sums.skipped);
    wire::put_number(out, 16, 8, sums.migrated);
    wire::put_number(out, 24, 8, sums.degraded);
    wire::put_number(out, 32, 8, end);
}

// Writes a frame.
pub(crate) fn write_frame(out: &mut [u8], f: ParkedFrame)
    requires { length out.old ≡ 92 }
    ensures { out.new ≡ frame_bytes (frame_of f) }
{
    wire::put_bytes(out, 0, &f.hash);
    wire::put_bytes(out, 32, &f.from);
    wire::put_number(out, 52, 8, f.expected);
    wire::put_number(out, 60, 8, f.claim);
    wire::put_number(out, 68, 8, f.chain_id);
    wire::put_number(out, 76, 8, f.gas);
    wire::put_number(out, 84, 8, f.ticket);
}

// A refusal's number and offset in one.
pub(crate) fn code_of(refusal: Refusal, at: usize) -> u64
    requires { at ≤ 65536 }
    ensures { result ≡ refusal_number refusal + 256 * at }
{
    refusal::number(refusal) + 256 * at as u64
}

// The length of a record that was written, 256 times, or a refusal's number.
#[tactic(auto, unfolding(crate::specs::Writers::code_of))]
pub(crate) fn code_of_answer(answer: Result<usize, Refusal>) -> u64
    requires { Short (answer_seen answer) }
    ensures { result ≡ code_of (answer_seen answer) }
{
    match answer {
        Ok(n) => 256 * n as u64,
        Err(x) => refusal::number(x),
    }
}
