// The mark of a short row: 16 bits, lowest first, for the nonces from the expected one on, set where a nonce is listed.
#![tactic(auto)]

ghost use Rattle.std.specs.Prelude.{◌≡◌, ◌+◌, slice_get};
ghost use Rattle.short_rows.specs.Mark.{mark_of};
ghost use Rattle.short_rows.specs.Reading.{is_nonce, nonces_read, Lists};

// Nonces in ascending order, up to the count; after them zeros, which a row has too, so that they are an array with a count.
#[derive(Clone, Copy)]
pub struct Nonces {
    pub at: [u64; 16],
    pub count: usize,
}

// The mark of these nonces. Those outside the 16 from the expected one on have no bit.
pub fn mark_of(expected: u64, nonces: &[u64]) -> u16
    ensures { result ≡ mark_of expected nonces.now }
{
    let mut mark: u16 = 0;
    for nonce in nonces {
        if expected <= *nonce {
            let place = *nonce - expected;
            if place < 16 {
                mark |= 1u16 << place;
            }
        }
    }
    mark
}

// Whether the nonce `place` places after the expected one has 64 bits.
fn is_nonce(expected: u64, place: u64) -> bool
    ensures { result ≡ is_nonce (expected + place) }
{
    place <= u64::MAX - expected
}

// The first nonce that a short row lists, by the lowest set bit of its mark.
pub fn first_nonce(expected: u64, mark: u16) -> Option<u64>
    ensures { result ≡ slice_get (nonces_read expected mark) 0 }
{
    if mark == 0 {
        return None;
    }
    let place = u16::trailing_zeros(mark) as u64;
    if !is_nonce(expected, place) {
        return None;
    }
    Some(expected + place)
}

// The nonces that a short row lists.
pub fn nonces_of(expected: u64, mark: u16) -> Nonces
    ensures { Lists (nonces_read expected mark) result }
{
    let mut at = [0u64; 16];
    let mut count: usize = 0;
    let mut rest = mark;
    for place in 0..16 {
        let lowest = rest % 2;
        rest /= 2;
        if lowest == 1 {
            if is_nonce(expected, place) {
                at[count] = expected + place;
                count += 1;
            }
        }
    }
    Nonces { at, count }
}
