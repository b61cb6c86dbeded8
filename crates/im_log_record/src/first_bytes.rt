//! What the first bytes of a record say of it, for who reads no payload.
ghost use Rattle.std.specs.Prelude.{◌≡◌, ◌≤◌, length};
ghost use Rattle.im_log_record.specs.FirstBytes.{kind_in, page_in, size_in, transaction_in};

use crate::kind::Kind;
use byteorder::{BigEndian, ByteOrder};

/// A record has this many bytes in front of its payload, and at least.
pub const HEAD: usize = 33;

/// How many bytes the record has that begins with these, as it says itself.
pub fn size_of(bytes: &[u8]) -> u32
    requires room { 4 ≤ length bytes.now }
    ensures { result ≡ size_in bytes.now }
{
    BigEndian::read_u32(&bytes[..4])
}

/// The kind of the record that begins with these bytes; none where they are too few, or its byte stands for none.
pub fn kind_of(bytes: &[u8]) -> Option<Kind>
    ensures { result ≡ kind_in bytes.now }
{
    if bytes.len() < 5 {
        return None;
    }
    Kind::from_number(bytes[4])
}

/// The transaction that wrote the record that begins with these bytes, 0 where none did.
pub fn transaction_of(bytes: &[u8]) -> u64
    requires room { 13 ≤ length bytes.now }
    ensures { result ≡ transaction_in bytes.now }
{
    BigEndian::read_u64(&bytes[5..13])
}

/// The page of the record that begins with these bytes, 0 where it has none.
pub fn page_of(bytes: &[u8]) -> u32
    requires room { 33 ≤ length bytes.now }
    ensures { result ≡ page_in bytes.now }
{
    BigEndian::read_u32(&bytes[29..33])
}
