// What the exported C functions do: the fold of a journal, the restore of a frame and the writers of the records, on numbers and byte
// slices. `journal_exports_c` exports each under its name.
#![tactic(auto)]

ghost use Rattle.std.specs.Prelude.{◌≡◌};
ghost use Rattle.journal_exports.specs.Export.{exported, exported_frame};

use journal_record::PARK_SIZE;
use refusal::Refusal;

mod given; // given.rt: the arguments of the exported writers
mod output; // output.rt: what the exported functions write and return
pub mod writers; // writers.rt: the exported writers

// Folds a journal. Returns 0, and writes the pending records to `out` and pending, skipped, migrated, degraded and end to
// `totals`; or writes nothing, and returns a refusal's number + 256 × offset.
pub fn gap_quarantine_fold(journal: &[u8], out: &mut [u8], totals: &mut [u8]) -> u64
    ensures { record { code = result; out = out.new; totals = totals.new } ≡ exported journal.now out.old totals.old }
{
    let folded = match gap_quarantine_journal::fold_journal(journal) {
        Ok(folded) => folded,
        Err(refused) => return output::code_of(refused.refusal, refused.at),
    };
    let parks = folded.pending.as_slice();
    if out.len() < PARK_SIZE * parks.len() {
        return output::code_of(Refusal::ShortOutput, folded.end);
    }
    if totals.len() != 40 {
        return output::code_of(Refusal::ShortOutput, folded.end);
    }
    output::write_parks(parks, out);
    output::write_totals(totals, parks.len() as u64, folded.totals, folded.end as u64);
    0
}

// Restores the frame of one QP's bytes. Returns 0 and writes hash, from, expected, claim, chain_id, gas and ticket to `frame`;
// or writes nothing, and returns a refusal's number.
pub fn gap_quarantine_restore(bytes: &[u8], frame: &mut [u8]) -> u64
    ensures { record { code = result; frame = frame.new } ≡ exported_frame bytes.now frame.old }
{
    let restored = match gap_quarantine_journal::to_parked_frame(bytes) {
        Ok(restored) => restored,
        Err(refusal) => return refusal::number(refusal),
    };
    if frame.len() != 92 {
        return refusal::number(Refusal::ShortOutput);
    }
    output::write_frame(frame, restored);
    0
}
