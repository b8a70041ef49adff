// One canonical text written and one hash read, as C functions: what is timed of the hashes as text.
#![tactic(auto)]

ghost use Rattle.std.specs.Prelude.{◌≡◌};
ghost use Rattle.std.specs.Option.{unwrap_or};
ghost use Rattle.wire.specs.HashText.{canonical, parses, parse_hash};

// Writes the canonical text of a hash.
#[unsafe(no_mangle)]
pub extern "C" fn bench_canonical_text(hash: &[u8; 32], text: &mut [u8; 66])
    ensures { text.new ≡ canonical hash.now }
{
    *text = wire::canonical_text(*hash);
}

// Whether a text of 66 bytes parses. If so, its hash is written, and otherwise nothing.
#[unsafe(no_mangle)]
pub extern "C" fn bench_parse_hash(text: &[u8; 66], hash: &mut [u8; 32]) -> bool
    ensures { (result ≡ parses text.now) × (hash.new ≡ unwrap_or (parse_hash text.now) hash.old) }
{
    let Some(parsed) = wire::parse_hash(text) else {
        return false;
    };
    *hash = parsed;
    true
}
