//! Headers of the third format as bytes.

ghost use Rattle.std.specs.Prelude.{◌≡◌, ◌≢◌, ◌+◌, ◌≤◌, ◌↔◌, ◌++◌, true, false, length, take, drop, replicate, IfSome};
ghost use Rattle.std.specs.Int.{w32, w64, from_be_bytes, to_be_bytes};
ghost use Rattle.im_log_third_header.specs.declared.header.ThirdHeader.{ThirdHeader};
ghost use Rattle.im_log_third_header.specs.Header.{IsRanged, MayStart, bit, front, header_sum, numbers, said, third_header};

use crate::header::ThirdHeader;
use byteorder::{BigEndian, ByteOrder};
use im_log_header::Header;
use std::hash::{DefaultHasher, Hasher};

// Bytes 1 to 46, with numbers, a salt and a sum that are 0.
const THIRD_FORMAT: [u8; 46] =
    *b"ARIESIM3\0\0\x10\0\0\0\0\0\0\0\0\0\0\0\0\0\0\0\0\0\0\0\0\0\0\0\0\0\0\0\0\0\0\0\0\0\0\0";

// The first generation that no log has.
const LIMIT: u64 = 1 << 62;

// The greatest base: the first gate has an LSN of 2^62 at most.
const LAST_BASE: u64 = LIMIT - 47;

// Writes a number of 8 bytes at this place.
fn put_number(bytes: &mut [u8], at: usize, value: u64)
    requires room { at + 8 ≤ length bytes.old }
    ensures { bytes.new ≡ take at bytes.old ++ to_be_bytes w64 value ++ drop (at + 8) bytes.old }
{
    BigEndian::write_u64(&mut bytes[at..at + 8], value);
}

// The number of 8 bytes at this place.
fn number(bytes: &[u8], at: usize) -> u64
    requires room { at + 8 ≤ length bytes.now }
    ensures { result ≡ from_be_bytes w64 (take 8 (drop at bytes.now)) }
{
    BigEndian::read_u64(&bytes[at..at + 8])
}

// 1 for yes, 0 for no.
fn bit(yes: bool) -> u8
    ensures { result ≡ bit yes }
{
    if yes { 1 } else { 0 }
}

// The sum of a header, of which these are bytes 1 to 42.
#[tactic(auto, unfolding(crate::specs::Header::header_sum))]
fn sum_of(front: &[u8]) -> u32
    ensures { result ≡ header_sum front.now }
{
    let mut hasher = DefaultHasher::new();
    hasher.write(front);
    (hasher.finish() % (1 << 32)) as u32
}

// Bytes 1 to 39, and zeros for the salt and the sum.
fn spell_numbers(header: &ThirdHeader) -> [u8; 46]
    ensures { result ≡ numbers header.now ++ replicate 7 0 }
{
    let mut bytes = THIRD_FORMAT;
    bytes[12] = bit(header.two_syncs);
    put_number(&mut bytes, 15, header.start.generation);
    put_number(&mut bytes, 23, header.start.base);
    put_number(&mut bytes, 31, header.start.next);
    bytes
}

// Writes a salt at this place.
fn put_salt(bytes: &mut [u8], at: usize, salt: &[u8; 3])
    requires room { at + 3 ≤ length bytes.old }
    ensures put { bytes.new ≡ take at bytes.old ++ salt.now ++ drop (at + 3) bytes.old }
    ensures salted { length salt.now ≡ 3 }
{
    bytes[at..at + 3].copy_from_slice(salt);
}

// Writes a sum at this place.
fn put_sum(bytes: &mut [u8], at: usize, sum: u32)
    requires room { at + 4 ≤ length bytes.old }
    ensures { bytes.new ≡ take at bytes.old ++ to_be_bytes w32 sum ++ drop (at + 4) bytes.old }
{
    bytes[at..at + 4].copy_from_slice(&sum.to_be_bytes());
}

// Bytes 1 to 42, and zeros for their sum.
fn spell_front(header: &ThirdHeader) -> [u8; 46]
    ensures front { result ≡ front header.now ++ replicate 4 0 }
    ensures salted { length header.now.salt ≡ 3 }
{
    let mut bytes = spell_numbers(header);
    put_salt(&mut bytes, 39, &header.salt);
    bytes
}

// Bytes 1 to 46 of this header.
pub(crate) fn spell(header: &ThirdHeader) -> [u8; 46]
    ensures third { result ≡ third_header header.now }
    ensures salted { length header.now.salt ≡ 3 }
{
    let mut bytes = spell_front(header);
    let sum = sum_of(&bytes[..42]);
    put_sum(&mut bytes, 42, sum);
    bytes
}

// What stands where a header has its numbers, its salt and its byte of two syncs.
fn said_in(bytes: &[u8]) -> ThirdHeader
    requires length { length bytes.now ≡ 46 }
    ensures { result ≡ said bytes.now }
{
    ThirdHeader {
        start: Header {
            generation: number(bytes, 15),
            base: number(bytes, 23),
            next: number(bytes, 31),
        },
        salt: [bytes[39], bytes[40], bytes[41]],
        two_syncs: bytes[12] == 1,
    }
}

// The bytes are this header.
fn is_spelled(bytes: [u8; 46], header: &ThirdHeader) -> bool
    ensures yes { result ≡ true → bytes ≡ third_header header.now }
    ensures no { result ≡ false → bytes ≢ third_header header.now }
    ensures salted { length header.now.salt ≡ 3 }
{
    bytes == spell(header)
}

// Numbers that a log may have.
fn is_ranged(start: &Header) -> bool
    ensures { (result ≡ true) ↔ IsRanged start.now }
{
    start.generation >= 1 && start.generation < LIMIT && start.base <= LAST_BASE && start.next >= 1
}

// What bytes 1 to 46 say; none where they are no header.
pub(crate) fn parse(bytes: [u8; 46]) -> Option<ThirdHeader>
    ensures spelled { IfSome result (λ h. bytes ≡ third_header h) }
    ensures may { IfSome result (λ h. MayStart h) }
    ensures none { result ≡ None → (h : ThirdHeader) → MayStart h → bytes ≢ third_header h }
{
    let said = said_in(&bytes);
    let same = is_spelled(bytes, &said);
    if !same {
        return None;
    }
    let ranged = is_ranged(&said.start);
    if !ranged {
        return None;
    }
    Some(said)
}
