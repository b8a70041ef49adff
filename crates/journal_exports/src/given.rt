// The arguments of the exported writers: whether they stand for fields, and the typed values that they stand for.
ghost use Rattle.std.specs.Prelude.{◌≡◌, true, [], ◌∷◌, ◌≤◌, eqb, leb, length};
ghost use Rattle.lists.specs.Lists.{every};
ghost use Rattle.layout.specs.Layout.{within};
ghost use Rattle.journal_record.specs.View.{fidelity_seen, consumed_seen, tentative_seen};
ghost use Rattle.journal_writer.specs.View.{text_given};
ghost use Rattle.journal_exports.specs.Writers.{optional, given, given_number, given_fidelity, is_consumed, given_consumed, is_tentative, given_tentative};

use journal_record::{ConsumedKind, HashText, RecordFidelity, TentativeRecord};

// ---- whether arguments stand for fields

// No bytes, or `width` of them.
#[tactic(auto, unfolding(crate::specs::Writers::optional))]
pub(crate) fn is_optional(bytes: &[u8], width: usize) -> bool
    ensures { result ≡ optional width bytes.now }
{
    bytes.is_empty() || bytes.len() == width
}

// What consumed the nonce.
#[tactic(auto, unfolding(crate::specs::Writers::is_consumed, lists::specs::Lists::every))]
pub(crate) fn is_consumed(kind: u8, block_hash: &[u8], by: &[u8]) -> bool
    ensures { result ≡ is_consumed kind block_hash.now by.now }
{
    (1..=2).contains(&kind) && block_hash.len() == 32 && is_optional(by, 32)
}

// What consumed the nonce, or kind 0 for nothing.
#[tactic(auto, unfolding(crate::specs::Writers::is_tentative))]
pub(crate) fn is_tentative(kind: u8, block_hash: &[u8], by: &[u8]) -> bool
    ensures { result ≡ is_tentative kind block_hash.now by.now }
{
    kind == 0 || is_consumed(kind, block_hash, by)
}

// The arguments of a QP.
#[tactic(auto, unfolding(lists::specs::Lists::every))]
pub(crate) fn is_park(
    text: &[u8],
    from: &[u8],
    sender: &[u8],
    flags: &[u8],
    kind: u8,
    block_hash: &[u8],
    by: &[u8],
) -> bool
    ensures { result ≡ every (leb (length text.now) 66 ∷ optional 20 from.now ∷ optional 20 sender.now ∷ within 0 1 flags.now ∷ is_tentative kind block_hash.now by.now ∷ []) }
{
    text.len() <= 66
        && is_optional(from, 20)
        && is_optional(sender, 20)
        && layout::all_within(flags, 0, 1)
        && is_tentative(kind, block_hash, by)
}

// The arguments of a QT.
#[tactic(auto, unfolding(lists::specs::Lists::every))]
pub(crate) fn is_entry(hash: &[u8], kind: u8, block_hash: &[u8], by: &[u8]) -> bool
    ensures { result ≡ every (eqb (length hash.now) 32 ∷ is_consumed kind block_hash.now by.now ∷ []) }
{
    hash.len() == 32 && is_consumed(kind, block_hash, by)
}

// The arguments of a QR.
#[tactic(auto, unfolding(lists::specs::Lists::every))]
pub(crate) fn is_resolve(hash: &[u8], resolution: u8) -> bool
    ensures { result ≡ every (eqb (length hash.now) 32 ∷ leb 1 resolution ∷ leb resolution 4 ∷ []) }
{
    hash.len() == 32 && (1..=4).contains(&resolution)
}

// The arguments of a QL.
#[tactic(auto, unfolding(lists::specs::Lists::every))]
pub(crate) fn is_legacy(
    frame_hash: &[u8],
    top_hash: &[u8],
    sender: &[u8],
    from: &[u8],
    flags: &[u8],
    kind: u8,
    block_hash: &[u8],
    by: &[u8],
) -> bool
    ensures { result ≡ every (optional 32 frame_hash.now ∷ optional 32 top_hash.now ∷ optional 20 sender.now ∷ optional 20 from.now ∷ within 0 1 flags.now ∷ is_tentative kind block_hash.now by.now ∷ []) }
{
    is_optional(frame_hash, 32)
        && is_optional(top_hash, 32)
        && is_optional(sender, 20)
        && is_optional(from, 20)
        && layout::all_within(flags, 0, 1)
        && is_tentative(kind, block_hash, by)
}

// ---- the values of fields

// A hash or an address.
pub(crate) fn array<const N: usize>(bytes: &[u8]) -> [u8; N]
    requires { length bytes.now ≡ N }
    ensures { result ≡ bytes.now }
{
    wire::array_at(bytes, 0)
}

// A hash or an address that may be absent.
pub(crate) fn optional<const N: usize>(bytes: &[u8]) -> Option<[u8; N]>
    requires { optional N bytes.now ≡ true }
    ensures { result ≡ given bytes.now }
{
    if bytes.is_empty() {
        return None;
    }
    Some(array(bytes))
}

// A number that may be absent, which C gives as a tag and a number.
#[tactic(auto, unfolding(crate::specs::Writers::given_number))]
pub(crate) fn number(tag: u8, number: u64) -> Option<u64>
    ensures { result ≡ given_number tag number }
{
    if tag == 1 { Some(number) } else { None }
}

pub(crate) fn text(bytes: &[u8]) -> HashText
    requires { length bytes.now ≤ 66 }
    ensures { text_given result ≡ bytes.now }
{
    let mut text = [0u8; 66];
    wire::put_bytes(&mut text, 0, bytes);
    HashText {
        len: bytes.len(),
        bytes: text,
    }
}

// A fidelity, which C gives as a byte.
#[tactic(auto, unfolding(crate::specs::Writers::given_fidelity))]
pub(crate) fn fidelity(byte: u8) -> RecordFidelity
    ensures { fidelity_seen result ≡ given_fidelity byte }
{
    if byte == 1 {
        RecordFidelity::Degraded
    } else {
        RecordFidelity::Full
    }
}

pub(crate) fn consumed(kind: u8, block: u64, block_hash: &[u8], by: &[u8]) -> TentativeRecord
    requires { is_consumed kind block_hash.now by.now ≡ true }
    ensures { consumed_seen result ≡ given_consumed kind block block_hash.now by.now }
{
    TentativeRecord {
        kind: ConsumedKind::from(kind),
        block,
        block_hash: array(block_hash),
        by: optional(by),
    }
}

pub(crate) fn tentative(
    kind: u8,
    block: u64,
    block_hash: &[u8],
    by: &[u8],
) -> Option<TentativeRecord>
    requires { is_tentative kind block_hash.now by.now ≡ true }
    ensures { tentative_seen result ≡ given_tentative kind block block_hash.now by.now }
{
    if kind == 0 {
        return None;
    }
    Some(consumed(kind, block, block_hash, by))
}
