// The exported C functions, for hosts that link an archive: the functions of `journal_exports` under the same names, with the same
// contracts. A crate is a library or an archive, and nothing can depend on an archive: so the theorems and the programs stand on
// `journal_exports`, and this crate only hands on.
//
// A slice stands for an optional field, and an empty one for an absent field; a kind 0 for an absent tentative field, of which
// nothing else is looked at. A writer returns 256 × the record's length, or a refusal's number.
#![tactic(auto)]

ghost use Rattle.std.specs.Prelude.{◌≡◌};
ghost use Rattle.journal_exports.specs.Export.{exported, exported_frame};
ghost use Rattle.journal_exports.specs.Writers.{exported_park, exported_entry, exported_resolve, exported_legacy, exported_other};

// Folds a journal. Returns 0, and writes the pending records to `out` and pending, skipped, migrated, degraded and end to
// `totals`; or writes nothing, and returns a refusal's number + 256 × offset.
#[unsafe(no_mangle)]
pub extern "C" fn gap_quarantine_fold(journal: &[u8], out: &mut [u8], totals: &mut [u8]) -> u64
    ensures { record { code = result; out = out.new; totals = totals.new } ≡ exported journal.now out.old totals.old }
{
    journal_exports::gap_quarantine_fold(journal, out, totals)
}

// Restores the frame of one QP's bytes. Returns 0 and writes hash, from, expected, claim, chain_id, gas and ticket to `frame`;
// or writes nothing, and returns a refusal's number.
#[unsafe(no_mangle)]
pub extern "C" fn gap_quarantine_restore(bytes: &[u8], frame: &mut [u8]) -> u64
    ensures { record { code = result; frame = frame.new } ≡ exported_frame bytes.now frame.old }
{
    journal_exports::gap_quarantine_restore(bytes, frame)
}

// Writes a QP.
#[unsafe(no_mangle)]
pub extern "C" fn gap_quarantine_write_park(
    version: u32,
    text: &[u8],
    from: &[u8],
    sender: &[u8],
    chain_id: u64,
    gas: u64,
    wire: u8,
    list: u8,
    claimed_nonce: u64,
    expected_nonce: u64,
    parked_at: u64,
    fidelity: u8,
    kind: u8,
    block: u64,
    block_hash: &[u8],
    by: &[u8],
    ticket: u64,
    out: &mut [u8],
) -> u64
    ensures { record { code = result; out = out.new } ≡ exported_park version text.now from.now sender.now chain_id gas wire list claimed_nonce expected_nonce parked_at fidelity kind block block_hash.now by.now ticket out.old }
{
    journal_exports::writers::gap_quarantine_write_park(
        version,
        text,
        from,
        sender,
        chain_id,
        gas,
        wire,
        list,
        claimed_nonce,
        expected_nonce,
        parked_at,
        fidelity,
        kind,
        block,
        block_hash,
        by,
        ticket,
        out,
    )
}

// Writes a QT.
#[unsafe(no_mangle)]
pub extern "C" fn gap_quarantine_write_tentative(
    version: u32,
    hash: &[u8],
    kind: u8,
    block: u64,
    block_hash: &[u8],
    by: &[u8],
    entered_at: u64,
    out: &mut [u8],
) -> u64
    ensures { record { code = result; out = out.new } ≡ exported_entry version hash.now kind block block_hash.now by.now entered_at out.old }
{
    journal_exports::writers::gap_quarantine_write_tentative(
        version, hash, kind, block, block_hash, by, entered_at, out,
    )
}

// Writes a QR.
#[unsafe(no_mangle)]
pub extern "C" fn gap_quarantine_write_resolve(
    version: u32,
    hash: &[u8],
    resolution: u8,
    resolved_at: u64,
    out: &mut [u8],
) -> u64
    ensures { record { code = result; out = out.new } ≡ exported_resolve version hash.now resolution resolved_at out.old }
{
    journal_exports::writers::gap_quarantine_write_resolve(
        version,
        hash,
        resolution,
        resolved_at,
        out,
    )
}

// Writes a QL.
#[unsafe(no_mangle)]
pub extern "C" fn gap_quarantine_write_legacy(
    frame_hash: &[u8],
    top_hash: &[u8],
    has_claimed: u8,
    claimed_nonce: u64,
    has_frame_nonce: u8,
    frame_nonce: u64,
    has_top_nonce: u8,
    top_nonce: u64,
    sender: &[u8],
    from: &[u8],
    has_expected: u8,
    expected_nonce: u64,
    has_parked_at: u8,
    parked_at: u64,
    has_chain_id: u8,
    chain_id: u64,
    has_gas: u8,
    gas: u64,
    rest: u8,
    kind: u8,
    block: u64,
    block_hash: &[u8],
    by: &[u8],
    ticket: u64,
    out: &mut [u8],
) -> u64
    ensures { record { code = result; out = out.new } ≡ exported_legacy frame_hash.now top_hash.now has_claimed claimed_nonce has_frame_nonce frame_nonce has_top_nonce top_nonce sender.now from.now has_expected expected_nonce has_parked_at parked_at has_chain_id chain_id has_gas gas rest kind block block_hash.now by.now ticket out.old }
{
    journal_exports::writers::gap_quarantine_write_legacy(
        frame_hash,
        top_hash,
        has_claimed,
        claimed_nonce,
        has_frame_nonce,
        frame_nonce,
        has_top_nonce,
        top_nonce,
        sender,
        from,
        has_expected,
        expected_nonce,
        has_parked_at,
        parked_at,
        has_chain_id,
        chain_id,
        has_gas,
        gas,
        rest,
        kind,
        block,
        block_hash,
        by,
        ticket,
        out,
    )
}

// Writes a QX.
#[unsafe(no_mangle)]
pub extern "C" fn gap_quarantine_write_other(ticket: u64, out: &mut [u8]) -> u64
    ensures { record { code = result; out = out.new } ≡ exported_other ticket out.old }
{
    journal_exports::writers::gap_quarantine_write_other(ticket, out)
}
