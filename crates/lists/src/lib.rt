// Lists of bytes and of numbers: equality, byte order and membership, and numbers written to a slice.
#![tactic(auto)]

ghost use Rattle.std.specs.Prelude.{◌≡◌, ◌+◌, ◌≤◌, length};
ghost use Rattle.lists.specs.Bytes.{eq_bytes, le_bytes};
ghost use Rattle.lists.specs.Lists.{is_in, written_at};

// Whether two slices hold the same bytes. The loop has no early way out, so that many bytes can be compared at once:
// where two hashes are equal, `a == b` was tried, and takes more than twice the time.
pub fn same_bytes(a: &[u8], b: &[u8]) -> bool
    ensures { result ≡ eq_bytes a.now b.now }
{
    if a.len() != b.len() {
        return false;
    }
    let mut same = true;
    for i in 0..a.len() {
        if a[i] != b[i] {
            same = false;
        }
    }
    same
}

// Whether `a` does not come after `b` in byte order, where a prefix comes first.
pub fn not_after(a: &[u8], b: &[u8]) -> bool
    ensures { result ≡ le_bytes a.now b.now }
{
    a.cmp(&b).is_le()
}

// Whether the number is among those of the slice.
pub fn is_in(n: u64, list: &[u64]) -> bool
    ensures { result ≡ is_in n list.now }
{
    list.contains(&n)
}

// Numbers, to their place in the slice.
pub fn put_numbers(out: &mut [u64], at: usize, numbers: &[u64])
    requires { at + length numbers.now ≤ length out.old }
    ensures { out.new ≡ written_at at numbers.now out.old }
{
    out[at..at + numbers.len()].copy_from_slice(numbers);
}
