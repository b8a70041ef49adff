// The exported writers of the five records.
//
// A slice stands for an optional field, and an empty one for an absent field; a kind 0 for an absent tentative field, of which
// nothing else is looked at. Where the arguments stand for a value, the call is that value's writer. A call returns 256 × the
// record's length, or a refusal's number.

ghost use Rattle.std.specs.Prelude.{◌≡◌};
ghost use Rattle.journal_exports.specs.Writers.{exported_park, exported_entry, exported_resolve, exported_legacy, exported_other};

use super::{given, output};
use journal_record::{
    LegacyParkRecord, ParkRecord, Resolution, ResolveRecord, TentativeEntryRecord,
};
use refusal::Refusal;

// Writes a QP.
pub fn gap_quarantine_write_park(
    version: u32,
    text: &[u8],
    from: &[u8],
    sender: &[u8],
    chain_id: u64,
    gas: u64,
    wire: u8,
    list: u8,
    claimed_nonce: u64,
    expected_nonce: u64,
    parked_at: u64,
    fidelity: u8,
    kind: u8,
    block: u64,
    block_hash: &[u8],
    by: &[u8],
    ticket: u64,
    out: &mut [u8],
) -> u64
    ensures { record { code = result; out = out.new } ≡ exported_park version text.now from.now sender.now chain_id gas wire list claimed_nonce expected_nonce parked_at fidelity kind block block_hash.now by.now ticket out.old }
{
    let flags = [wire, list, fidelity];
    if !given::is_park(text, from, sender, &flags, kind, block_hash, by) {
        return refusal::number(Refusal::BadRecord);
    }
    let p = ParkRecord {
        version,
        text: given::text(text),
        from: given::optional(from),
        sender: given::optional(sender),
        chain_id,
        gas,
        wire: wire == 1,
        list: list == 1,
        claimed_nonce,
        expected_nonce,
        parked_at,
        fidelity: given::fidelity(fidelity),
        tentative: given::tentative(kind, block, block_hash, by),
        ticket,
    };
    output::code_of_answer(journal_writer::write_park(p, out))
}

// Writes a QT.
pub fn gap_quarantine_write_tentative(
    version: u32,
    hash: &[u8],
    kind: u8,
    block: u64,
    block_hash: &[u8],
    by: &[u8],
    entered_at: u64,
    out: &mut [u8],
) -> u64
    ensures { record { code = result; out = out.new } ≡ exported_entry version hash.now kind block block_hash.now by.now entered_at out.old }
{
    if !given::is_entry(hash, kind, block_hash, by) {
        return refusal::number(Refusal::BadRecord);
    }
    let t = TentativeEntryRecord {
        version,
        hash: given::array(hash),
        consumed: given::consumed(kind, block, block_hash, by),
        entered_at,
    };
    output::code_of_answer(journal_writer::write_tentative(t, out))
}

// Writes a QR.
pub fn gap_quarantine_write_resolve(
    version: u32,
    hash: &[u8],
    resolution: u8,
    resolved_at: u64,
    out: &mut [u8],
) -> u64
    ensures { record { code = result; out = out.new } ≡ exported_resolve version hash.now resolution resolved_at out.old }
{
    if !given::is_resolve(hash, resolution) {
        return refusal::number(Refusal::BadRecord);
    }
    let r = ResolveRecord {
        version,
        hash: given::array(hash),
        resolution: Resolution::from(resolution),
        resolved_at,
    };
    output::code_of_answer(journal_writer::write_resolve(r, out))
}

// Writes a QL.
pub fn gap_quarantine_write_legacy(
    frame_hash: &[u8],
    top_hash: &[u8],
    has_claimed: u8,
    claimed_nonce: u64,
    has_frame_nonce: u8,
    frame_nonce: u64,
    has_top_nonce: u8,
    top_nonce: u64,
    sender: &[u8],
    from: &[u8],
    has_expected: u8,
    expected_nonce: u64,
    has_parked_at: u8,
    parked_at: u64,
    has_chain_id: u8,
    chain_id: u64,
    has_gas: u8,
    gas: u64,
    rest: u8,
    kind: u8,
    block: u64,
    block_hash: &[u8],
    by: &[u8],
    ticket: u64,
    out: &mut [u8],
) -> u64
    ensures { record { code = result; out = out.new } ≡ exported_legacy frame_hash.now top_hash.now has_claimed claimed_nonce has_frame_nonce frame_nonce has_top_nonce top_nonce sender.now from.now has_expected expected_nonce has_parked_at parked_at has_chain_id chain_id has_gas gas rest kind block block_hash.now by.now ticket out.old }
{
    let flags = [
        has_claimed,
        has_frame_nonce,
        has_top_nonce,
        has_expected,
        has_parked_at,
        has_chain_id,
        has_gas,
        rest,
    ];
    if !given::is_legacy(
        frame_hash, top_hash, sender, from, &flags, kind, block_hash, by,
    ) {
        return refusal::number(Refusal::BadRecord);
    }
    let l = LegacyParkRecord {
        frame_hash: given::optional(frame_hash),
        top_hash: given::optional(top_hash),
        claimed_nonce: given::number(has_claimed, claimed_nonce),
        frame_nonce: given::number(has_frame_nonce, frame_nonce),
        top_nonce: given::number(has_top_nonce, top_nonce),
        sender: given::optional(sender),
        from: given::optional(from),
        expected_nonce: given::number(has_expected, expected_nonce),
        parked_at: given::number(has_parked_at, parked_at),
        chain_id: given::number(has_chain_id, chain_id),
        gas: given::number(has_gas, gas),
        rest: rest == 1,
        tentative: given::tentative(kind, block, block_hash, by),
        ticket,
    };
    output::code_of_answer(journal_writer::write_legacy(l, out))
}

// Writes a QX.
pub fn gap_quarantine_write_other(ticket: u64, out: &mut [u8]) -> u64
    ensures { record { code = result; out = out.new } ≡ exported_other ticket out.old }
{
    output::code_of_answer(journal_writer::write_other(ticket, out))
}
