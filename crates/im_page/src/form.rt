//! The test of a page's form.

ghost use Rattle.std.specs.Prelude.{◌≡◌, ◌↔◌, IsTrue, ℕ, ◌+◌, ◌*◌, ◌/◌, ◌<◌, ◌≤◌, false, true, length, slice_index, replicate};
ghost use Rattle.im_base_types.specs.Keys.{IsBelow};
ghost use Rattle.im_theory_page.specs.Form.{count_of, start_of, slot_at, key_from, IsPacked};
ghost use Rattle.im_theory_page.specs.Entry.{width};
ghost use Rattle.im_theory_page.specs.Page.{IsPageHeader, IsForm};
ghost use Rattle.im_page.specs.Sound.{HasSlots, IsTopOf, IsPlace, ArePlaces, AreUniform, SlotsSound};

use crate::cells::{cell_len, foot_of, key_at};
use crate::number::{get_u16, get_u32};
use byteorder::{BigEndian, ByteOrder};
use im_base_types::{PAGE_SIZE, compare};
use std::cmp::Ordering;

/// The first eight bytes of a key as a number, the greatest one where it has fewer: a key whose first word is above it is above the key.
fn top_of(key: &[u8]) -> u64
    ensures { IsTopOf key.now result }
{
    if key.len() < 8 {
        return u64::MAX;
    }
    BigEndian::read_u64(key)
}

/// Whether the key of slot i has a byte, and is above the key before it, by all bytes. Few slots need it: most keys have a first word
/// above the one before.
#[inline(never)]
fn is_next(bytes: &[u8], i: usize, before: usize, at: usize) -> bool
    requires fits { at + 1 + slice_index bytes.now at ≤ length bytes.now }
    requires before { 0 < i → before + 1 + slice_index bytes.now before ≤ length bytes.now }
    ensures { IsTrue result ↔ (1 ≤ slice_index bytes.now at) × (0 < i → IsBelow (key_from bytes.now before) (key_from bytes.now at)) }
{
    let key = key_at(bytes, at);
    if key.is_empty() {
        return false;
    }
    if i == 0 {
        return true;
    }
    matches!(compare(key_at(bytes, before), key), Ordering::Less)
}

/// Whether the first byte of each slot's cell is flagged.
fn has_slots(bytes: &[u8], flags: &[bool]) -> bool
    requires len { length bytes.now ≡ 4096 }
    requires slots { 32 + 2 * count_of bytes.now ≤ 4096 }
    requires flags { length flags.now ≡ 4097 }
    requires inside { (i : ℕ) → i < count_of bytes.now → slot_at bytes.now i < 4096 }
    ensures { IsTrue result ↔ HasSlots bytes.now flags.now }
{
    let mut missing = false;
    for i in 0..get_u16(bytes, 12) {
        missing = missing | !flags[get_u16(bytes, 32 + 2 * i)];
    }
    !missing
}

/// Whether the slots are those of a packed page: each at a cell of its own, their keys rising, and all cells have a slot. Where two
/// keys rise, they are not one cell's. Flagged are the byte where the cells begin and the one after each slot's cell: the cells stand
/// one after the other, up to the page's end, where each of them begins at a flag and the end is flagged too.
fn are_slots_sound(leaf: bool, bytes: &[u8], flags: &mut [bool]) -> bool
    requires len { length bytes.now ≡ 4096 }
    requires slots { 32 + 2 * count_of bytes.now ≤ start_of bytes.now }
    requires start { start_of bytes.now ≤ 4096 }
    requires flags { flags.old ≡ replicate 4097 false }
    ensures { IsTrue result ↔ SlotsSound leaf bytes.now }
{
    flags[get_u16(bytes, 14)] = true;
    let mut before = 0usize;
    let mut top = 0u64;
    for i in 0..get_u16(bytes, 12) {
        let at = get_u16(bytes, 32 + 2 * i);
        if PAGE_SIZE <= at {
            return false;
        }
        let end = at + cell_len(leaf, bytes[at] as usize);
        if PAGE_SIZE < end {
            return false;
        }
        flags[end] = true;
        let key = key_at(bytes, at);
        if foot_of(key) <= top && !is_next(bytes, i, before, at) {
            return false;
        }
        top = top_of(key);
        before = at;
    }
    flags[PAGE_SIZE] && has_slots(bytes, flags)
}

/// Whether the cells lie as where a page is filled in order: the first slot's at the page's end, each other one right in front of that of
/// the slot before, the last one where the cells begin. Then nothing has to be flagged: no two share a byte, and none is left over. The
/// last slot is looked at first: a key that came after others in another place has its cell in front of theirs.
#[inline(never)]
fn is_run(leaf: bool, bytes: &[u8]) -> bool
    requires len { length bytes.now ≡ 4096 }
    requires slots { 32 + 2 * count_of bytes.now ≤ start_of bytes.now }
    requires start { start_of bytes.now ≤ 4096 }
    ensures { IsTrue result → SlotsSound leaf bytes.now }
{
    let count = get_u16(bytes, 12);
    let start = get_u16(bytes, 14);
    if 1 <= count && get_u16(bytes, 30 + 2 * count) != start {
        return false;
    }
    let mut before = PAGE_SIZE;
    let mut top = 0u64;
    for i in 0..count {
        let at = get_u16(bytes, 32 + 2 * i);
        if before <= at {
            return false;
        }
        let behind = at + cell_len(leaf, bytes[at] as usize);
        if behind != before {
            return false;
        }
        let key = key_at(bytes, at);
        if foot_of(key) <= top && !is_next(bytes, i, before, at) {
            return false;
        }
        top = top_of(key);
        before = at;
    }
    if before != start {
        return false;
    }
    true
}

/// Whether a cell of this size is in the page and a whole number of such cells after where the cells begin. `inverse` is 2^32 by the size,
/// rounded up. What the cell is behind by times it is in 32 bits below it where that is a multiple of the size, and only there, as long as
/// both are small: a product in the place of a division.
fn is_place(at: u32, start: u32, size: u32, inverse: u32) -> bool
    requires start { start + size ≤ 4096 }
    requires size { 2 ≤ size }
    requires short { size ≤ 264 }
    requires inverse { inverse ≡ 4294967295 / size + 1 }
    ensures { IsTrue result → IsPlace start size at }
{
    let behind = at.wrapping_sub(start);
    (behind <= PAGE_SIZE as u32 - size - start) & (behind.wrapping_mul(inverse) < inverse)
}

/// Whether each slot is the place of a cell of this size. It has no branches, so that it goes by some slots at a time.
fn are_places(bytes: &[u8], size: u32) -> bool
    requires len { length bytes.now ≡ 4096 }
    requires slots { 32 + 2 * count_of bytes.now ≤ 4096 }
    requires start { start_of bytes.now + size ≤ 4096 }
    requires size { 2 ≤ size }
    requires short { size ≤ 264 }
    ensures { IsTrue result → ArePlaces bytes.now size (count_of bytes.now) }
{
    let start = get_u16(bytes, 14) as u32;
    let inverse = u32::MAX / size + 1;
    let mut all = true;
    for i in 0..get_u16(bytes, 12) {
        all = all & is_place(get_u16(bytes, 32 + 2 * i) as u32, start, size, inverse);
    }
    all
}

/// Whether the cells of the slots have keys of this length, and their keys rise.
fn do_keys_rise(leaf: bool, bytes: &[u8], key_len: u8) -> bool
    requires len { length bytes.now ≡ 4096 }
    requires slots { 32 + 2 * count_of bytes.now ≤ 4096 }
    requires places { ArePlaces bytes.now (1 + key_len + width leaf) (count_of bytes.now) }
    ensures { IsTrue result → AreUniform leaf bytes.now (1 + key_len + width leaf) (count_of bytes.now) }
{
    let mut before = 0usize;
    let mut top = 0u64;
    for i in 0..get_u16(bytes, 12) {
        let at = get_u16(bytes, 32 + 2 * i);
        if bytes[at] != key_len {
            return false;
        }
        let key = key_at(bytes, at);
        if foot_of(key) <= top && !is_next(bytes, i, before, at) {
            return false;
        }
        top = top_of(key);
        before = at;
    }
    true
}

/// Whether all cells have one size, as where all keys have one length, each of them whole sizes after where the cells begin, and all of them
/// take all of their place. Then nothing has to be flagged: keys that rise are in cells of their own, and such cells share no byte.
#[inline(never)]
fn is_uniform(leaf: bool, bytes: &[u8]) -> bool
    requires len { length bytes.now ≡ 4096 }
    requires slots { 32 + 2 * count_of bytes.now ≤ start_of bytes.now }
    requires start { start_of bytes.now ≤ 4096 }
    ensures { IsTrue result → SlotsSound leaf bytes.now }
{
    let count = get_u16(bytes, 12);
    let first = get_u16(bytes, 32);
    if count == 0 || PAGE_SIZE <= first {
        return false;
    }
    let key_len = bytes[first];
    let size = cell_len(leaf, key_len as usize);
    if get_u16(bytes, 14) + count * size != PAGE_SIZE {
        return false;
    }
    are_places(bytes, size as u32) && do_keys_rise(leaf, bytes, key_len)
}

/// Whether the slots are those of a packed page, whose cells lie in any order.
#[inline(never)]
fn are_any_sound(leaf: bool, bytes: &[u8]) -> bool
    requires len { length bytes.now ≡ 4096 }
    requires slots { 32 + 2 * count_of bytes.now ≤ start_of bytes.now }
    requires start { start_of bytes.now ≤ 4096 }
    ensures { IsTrue result ↔ SlotsSound leaf bytes.now }
{
    let mut flags = [false; PAGE_SIZE + 1];
    are_slots_sound(leaf, bytes, &mut flags)
}

/// Whether all bytes of a range are zero.
fn is_zero(bytes: &[u8], from: usize, to: usize) -> bool
    requires order { from ≤ to }
    requires inside { to ≤ length bytes.now }
    ensures { IsTrue result ↔ ((k : ℕ) → from ≤ k → k < to → slice_index bytes.now k ≡ 0) }
{
    let mut any = false;
    for k in from..to {
        any = any | (bytes[k] != 0);
    }
    !any
}

/// Whether bytes are packed.
pub fn is_packed(leaf: bool, bytes: &[u8]) -> bool
    requires { length bytes.now ≡ 4096 }
    ensures { IsTrue result ↔ IsPacked leaf bytes.now }
{
    let front = 32 + 2 * get_u16(bytes, 12);
    let start = get_u16(bytes, 14);
    if start < front || PAGE_SIZE < start || !is_zero(bytes, front, start) {
        return false;
    }
    is_run(leaf, bytes) || is_uniform(leaf, bytes) || are_any_sound(leaf, bytes)
}

/// Whether the header's fields are those of its kind.
fn is_header(bytes: &[u8]) -> bool
    requires { length bytes.now ≡ 4096 }
    ensures { IsTrue result ↔ IsPageHeader bytes.now }
{
    match bytes[8] {
        0 => {
            bytes[9] == 0
                && get_u16(bytes, 12) == 0
                && get_u32(bytes, 16) == 0
                && get_u32(bytes, 24) == 0
        }
        1 => bytes[9] == 0 && get_u16(bytes, 12) == 0,
        2 => bytes[9] == 0 && get_u32(bytes, 24) == 0,
        _ => 1 <= bytes[9] && get_u32(bytes, 16) == 0 && get_u32(bytes, 20) == 0,
    }
}

/// Whether bytes are a page.
pub fn is_form(bytes: &[u8]) -> bool
    requires { length bytes.now ≡ 4096 }
    ensures { IsTrue result ↔ IsForm bytes.now }
{
    bytes[8] <= 3
        && bytes[10] <= 1
        && bytes[11] == 0
        && get_u32(bytes, 28) == 0
        && is_header(bytes)
        && is_packed(bytes[8] == 2, bytes)
}
