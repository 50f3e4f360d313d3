//! Whether two texts are equal. Most are short, and differ in length or in their first bytes.

ghost use Rattle.std.specs.Prelude.{◌≡◌, bytes_eq};

/// Whether these are the same bytes.
pub fn are_equal(one: &[u8], other: &[u8]) -> bool
    ensures { result ≡ bytes_eq one.now other.now }
{
    if one.len() != other.len() {
        return false;
    }
    let mut k = 0;
    while k < one.len() {
        if one[k] != other[k] {
            return false;
        }
        k += 1;
    }
    true
}
