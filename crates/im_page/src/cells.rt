//! Cells and slots of a page's bytes, as they are read.

ghost use Rattle.std.specs.Prelude.{◌≡◌, ℕ, ◌+◌, ◌*◌, ◌^◌, ◌<◌, ◌≤◌, length, slice_index, false};
ghost use Rattle.im_theory_page.specs.Entry.{entry_at, width};
ghost use Rattle.im_theory_page.specs.Form.{count_of, start_of, slot_at, key_from, entry_from, entries_of, IsPacked};
ghost use Rattle.im_theory_page.specs.Found.{IsPlace};
ghost use Rattle.im_base_types.specs.Keys.{key_order};
ghost use Rattle.im_page.specs.Sound.{IsFootOf};

use crate::number::{get_u16, get_u32, get_u64};
use byteorder::{BigEndian, ByteOrder};
use im_base_types::compare;
use std::cmp::Ordering;

/// The key of the cell that begins at `at`.
pub fn key_at(bytes: &[u8], at: usize) -> &[u8]
    requires begins { at < length bytes.now }
    requires ends { at + 1 + slice_index bytes.now at ≤ length bytes.now }
    ensures key { result.now ≡ key_from bytes.now at }
    ensures len { length result.now ≡ slice_index bytes.now at }
    ensures short { length result.now ≤ 255 }
{
    &bytes[at + 1..at + 1 + bytes[at] as usize]
}

/// The key of slot i.
pub fn key(leaf: bool, bytes: &[u8], i: usize) -> &[u8]
    requires packed { IsPacked leaf bytes.now }
    requires place { i < count_of bytes.now }
    ensures key { result.now ≡ key_from bytes.now (slot_at bytes.now i) }
    ensures some { 1 ≤ length result.now }
    ensures short { length result.now ≤ 255 }
{
    key_at(bytes, get_u16(bytes, 32 + 2 * i))
}

/// The value of slot i.
pub fn value(leaf: bool, bytes: &[u8], i: usize) -> u64
    requires packed { IsPacked leaf bytes.now }
    requires place { i < count_of bytes.now }
    ensures value { result ≡ (entry_from leaf bytes.now (slot_at bytes.now i)).1 }
    ensures fits { leaf ≡ false → result < 2 ^ 32 }
{
    let at = get_u16(bytes, 32 + 2 * i);
    let behind = at + 1 + bytes[at] as usize;
    if leaf {
        get_u64(bytes, behind)
    } else {
        get_u32(bytes, behind) as u64
    }
}

/// The first eight bytes of a key as a number, 0 where it has fewer.
pub fn foot_of(key: &[u8]) -> u64
    ensures { IsFootOf key.now result }
{
    if key.len() < 8 {
        return 0;
    }
    BigEndian::read_u64(key)
}

// The order of a cell's key and this one, whose first eight bytes are `first`. Where those of the cell's key are others, no other byte is read.
fn order(other: &[u8], key: &[u8], first: u64) -> Ordering
    requires { IsFootOf key.now first }
    ensures { result ≡ key_order other.now key.now }
{
    if key.len() >= 8 && other.len() >= 8 {
        let word = foot_of(other);
        if word != first {
            return word.cmp(&first);
        }
    }
    compare(other, key)
}

/// The place of a key among the slots: `Ok` where it stands, `Err` where it would.
pub fn find(leaf: bool, bytes: &[u8], key: &[u8]) -> Result<usize, usize>
    requires { IsPacked leaf bytes.now }
    ensures { IsPlace bytes.now key.now result }
{
    let mut low = 0;
    let mut high = get_u16(bytes, 12);
    let first = foot_of(key);
    while low < high {
        let middle = low + (high - low) / 2;
        let at = get_u16(bytes, 32 + 2 * middle);
        match order(key_at(bytes, at), key, first) {
            Ordering::Less => low = middle + 1,
            Ordering::Equal => return Ok(middle),
            Ordering::Greater => high = middle,
        }
    }
    Err(low)
}

/// The bytes of a cell with a key of this length.
pub fn cell_len(leaf: bool, key: usize) -> usize
    requires { key ≤ 255 }
    ensures { result ≡ 1 + key + width leaf }
{
    if leaf { key + 9 } else { key + 5 }
}

/// The bytes between the slots and the cells.
pub fn room(leaf: bool, bytes: &[u8]) -> usize
    requires { IsPacked leaf bytes.now }
    ensures { result + 32 + 2 * count_of bytes.now ≡ start_of bytes.now }
{
    get_u16(bytes, 14) - 32 - 2 * get_u16(bytes, 12)
}

/// A key has at most 255 bytes, as its length is one byte.
pub fn law_keys_are_short(leaf: bool, bytes: &[u8])
    requires { IsPacked leaf bytes.now }
    ensures { (i : ℕ) → i < length (entries_of leaf bytes.now) → length (entry_at (entries_of leaf bytes.now) i).0 ≤ 255 }
{
    let _bytes = bytes;
}
