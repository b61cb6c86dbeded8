//! The order of keys, eight bytes at a time.

ghost use Rattle.std.specs.Prelude.{◌≡◌, ◌+◌, ◌≤◌, length, take, drop};
ghost use Rattle.std.specs.Int.{w64, from_be_bytes};
ghost use Rattle.im_base_types.specs.Keys.{key_order};

use std::cmp::Ordering;

/// The order of two keys: by unsigned bytes, a front before what it begins.
pub fn compare(a: &[u8], b: &[u8]) -> Ordering
    ensures { result ≡ key_order a.now b.now }
{
    let both = a.len().min(b.len());
    let mut at = 0;
    while both - at >= 8 {
        let (x, y) = (word(a, at), word(b, at));
        if x != y {
            return x.cmp(&y);
        }
        at += 8;
    }
    a[at..].cmp(&b[at..])
}

// The eight bytes from a place on, as a number.
fn word(bytes: &[u8], at: usize) -> u64
    requires { at + 8 ≤ length bytes.now }
    ensures { result ≡ from_be_bytes w64 (take 8 (drop at bytes.now)) }
{
    u64::from_be_bytes([
        bytes[at],
        bytes[at + 1],
        bytes[at + 2],
        bytes[at + 3],
        bytes[at + 4],
        bytes[at + 5],
        bytes[at + 6],
        bytes[at + 7],
    ])
}
