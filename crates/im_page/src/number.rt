//! Big-endian numbers in a page.

ghost use Rattle.std.specs.Prelude.{slice_index, ◌≡◌, ◌+◌, ◌^◌, ◌<◌, ◌≤◌, length};
ghost use Rattle.im_theory_page.specs.Number.{u16_at, u32_at, u64_at, SameOutside};

use byteorder::{BigEndian, ByteOrder};

pub fn get_u16(bytes: &[u8], at: usize) -> usize
    requires { at + 2 ≤ length bytes.now }
    ensures value { result ≡ u16_at bytes.now at }
    ensures fits { result < 2 ^ 16 }
{
    BigEndian::read_u16(&bytes[at..]) as usize
}

pub fn get_u32(bytes: &[u8], at: usize) -> u32
    requires { at + 4 ≤ length bytes.now }
    ensures { result ≡ u32_at bytes.now at }
{
    BigEndian::read_u32(&bytes[at..])
}

pub fn get_u64(bytes: &[u8], at: usize) -> u64
    requires { at + 8 ≤ length bytes.now }
    ensures { result ≡ u64_at bytes.now at }
{
    BigEndian::read_u64(&bytes[at..])
}

pub fn put_u16(bytes: &mut [u8], at: usize, value: usize)
    requires room { at + 2 ≤ length bytes.old }
    requires fits { value < 2 ^ 16 }
    ensures value { u16_at bytes.new at ≡ value }
    ensures rest { SameOutside bytes.old bytes.new at (at + 2) }
{
    BigEndian::write_u16(&mut bytes[at..at + 2], value as u16);
}

pub fn put_u32(bytes: &mut [u8], at: usize, value: u32)
    requires { at + 4 ≤ length bytes.old }
    ensures value { u32_at bytes.new at ≡ value }
    ensures rest { SameOutside bytes.old bytes.new at (at + 4) }
{
    BigEndian::write_u32(&mut bytes[at..at + 4], value);
}

pub fn put_u64(bytes: &mut [u8], at: usize, value: u64)
    requires { at + 8 ≤ length bytes.old }
    ensures value { u64_at bytes.new at ≡ value }
    ensures rest { SameOutside bytes.old bytes.new at (at + 8) }
{
    BigEndian::write_u64(&mut bytes[at..at + 8], value);
}

pub fn put_u8(bytes: &mut [u8], at: usize, value: u8)
    requires { at < length bytes.old }
    ensures value { slice_index bytes.new at ≡ value }
    ensures rest { SameOutside bytes.old bytes.new at (at + 1) }
{
    bytes[at] = value;
}
