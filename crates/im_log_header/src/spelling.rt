//! Headers as bytes.

ghost use Rattle.std.specs.Prelude.{◌≡◌, ◌≢◌, ◌+◌, ◌≤◌, ◌<◌, ◌^◌, ◌↔◌, ◌++◌, true, false, max, length, take, drop, IfSome};
ghost use Rattle.std.specs.Int.{w64, from_be_bytes, to_be_bytes};
ghost use Rattle.im_log_header.specs.Header.{second_header, IsSecond};
ghost use Rattle.im_log_header.specs.Start.{IsSpelled};

use crate::header::Header;
use byteorder::{BigEndian, ByteOrder};

/// Bytes 1 to 30 of the first format: the name, the page size and zeros.
pub(crate) const FIRST_FORMAT: [u8; 30] =
    *b"ARIESIM1\0\0\x10\0\0\0\0\0\0\0\0\0\0\0\0\0\0\0\0\0\0\0";

// Bytes 1 to 46 of the second format, with three numbers that are 0.
const SECOND_FORMAT: [u8; 46] =
    *b"ARIESIM2\0\0\x10\0\0\0\0\0\0\0\0\0\0\0\0\0\0\0\0\0\0\0\0\0\0\0\0\0\0\0\0\0\0\0\0\0\0\0";

// The greatest base, and the first generation that no log has.
const LIMIT: u64 = 1 << 62;

// Writes a number of 8 bytes at this place.
fn put_number(bytes: &mut [u8], at: usize, value: u64)
    requires room { at + 8 ≤ length bytes.old }
    ensures { bytes.new ≡ take at bytes.old ++ to_be_bytes w64 value ++ drop (at + 8) bytes.old }
{
    BigEndian::write_u64(&mut bytes[at..at + 8], value);
}

// The number of 8 bytes at this place.
pub(crate) fn number(bytes: &[u8], at: usize) -> u64
    requires room { at + 8 ≤ length bytes.now }
    ensures { result ≡ from_be_bytes w64 (take 8 (drop at bytes.now)) }
{
    BigEndian::read_u64(&bytes[at..at + 8])
}

// Bytes 1 to 46 of the second format, with these numbers.
pub(crate) fn spell(generation: u64, base: u64, next: u64) -> [u8; 46]
    ensures { result ≡ second_header generation base next }
{
    let mut bytes = SECOND_FORMAT;
    put_number(&mut bytes, 15, generation);
    put_number(&mut bytes, 23, base);
    put_number(&mut bytes, 31, next);
    bytes
}

// The bytes are a header with these numbers.
fn says(bytes: [u8; 46], generation: u64, base: u64, next: u64) -> bool
    ensures yes { result ≡ true → bytes ≡ second_header generation base next }
    ensures no { result ≡ false → bytes ≢ second_header generation base next }
{
    bytes == spell(generation, base, next)
}

// A generation and a base that a log may have.
fn is_ranged(generation: u64, base: u64) -> bool
    ensures { (result ≡ true) ↔ ((1 ≤ generation) × (generation < 2 ^ 62) × (base ≤ 2 ^ 62)) }
{
    generation >= 1 && generation < LIMIT && base <= LIMIT
}

// The least number that a header with this number allows.
pub(crate) fn from_one(next: u64) -> u64
    ensures { result ≡ max 1 next }
{
    if next == 0 { 1 } else { next }
}

// What bytes 1 to 46 of the second format say; none where they are no header.
pub(crate) fn parse(bytes: [u8; 46]) -> Option<Header>
    ensures spelled { IfSome result (λ h. IsSpelled h bytes) }
    ensures none { result ≡ None → IsSecond bytes → ⊥ }
{
    let generation = number(&bytes, 15);
    let base = number(&bytes, 23);
    let next = number(&bytes, 31);
    let same = says(bytes, generation, base, next);
    if !same {
        return None;
    }
    let ranged = is_ranged(generation, base);
    if !ranged {
        return None;
    }
    Some(Header {
        generation,
        base,
        next: from_one(next),
    })
}
