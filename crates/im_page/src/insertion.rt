//! An entry put among the cells and slots of a page's bytes.

ghost use Rattle.std.specs.Prelude.{◌≡◌, ℕ, ◌+◌, ◌*◌, ◌^◌, ◌<◌, ◌≤◌, length, slice_index, insert, false};
ghost use Rattle.im_theory_page.specs.Number.{SameOutside};
ghost use Rattle.im_theory_page.specs.Entry.{width};
ghost use Rattle.im_theory_page.specs.Form.{count_of, start_of, key_from, value_at, entry_from, entries_of, IsPacked};
ghost use Rattle.im_theory_page.specs.Found.{Parts};
ghost use Rattle.im_page.specs.Edit.{AddsSlot};

use crate::cells::cell_len;
use crate::number::{get_u16, put_u16, put_u32, put_u64};

/// Writes a key, with its length before it, at `at`.
fn put_key(bytes: &mut [u8], at: usize, key: &[u8])
    requires room { at + 1 + length key.now ≤ length bytes.old }
    requires short { length key.now ≤ 255 }
    ensures size { slice_index bytes.new at ≡ length key.now }
    ensures key { key_from bytes.new at ≡ key.now }
    ensures rest { SameOutside bytes.old bytes.new at (at + 1 + length key.now) }
{
    bytes[at] = key.len() as u8;
    bytes[at + 1..at + 1 + key.len()].copy_from_slice(key);
}

/// Writes a value at `at`, in eight bytes in a leaf and in four in an inner page.
fn put_value(bytes: &mut [u8], leaf: bool, at: usize, value: u64)
    requires room { at + width leaf ≤ length bytes.old }
    requires fits { leaf ≡ false → value < 2 ^ 32 }
    ensures value { value_at leaf bytes.new at ≡ value }
    ensures rest { SameOutside bytes.old bytes.new at (at + width leaf) }
{
    if leaf {
        put_u64(bytes, at, value);
    } else {
        put_u32(bytes, at, value as u32);
    }
}

/// Writes the cell of an entry at `at`.
fn put_cell(bytes: &mut [u8], leaf: bool, at: usize, key: &[u8], value: u64)
    requires room { at + 1 + length key.now + width leaf ≤ length bytes.old }
    requires short { length key.now ≤ 255 }
    requires fits { leaf ≡ false → value < 2 ^ 32 }
    ensures size { slice_index bytes.new at ≡ length key.now }
    ensures entry { entry_from leaf bytes.new at ≡ (key.now, value) }
    ensures rest { SameOutside bytes.old bytes.new at (at + 1 + length key.now + width leaf) }
{
    put_key(bytes, at, key);
    put_value(bytes, leaf, at + 1 + key.len(), value);
}

/// Makes room among the slots for one more at place `i`, which points to `start`.
fn open_slot(bytes: &mut [u8], count: usize, i: usize, start: usize)
    requires place { i ≤ count }
    requires room { 32 + 2 * count + 2 ≤ length bytes.old }
    requires small { count < 2 ^ 15 }
    requires fits { start < 2 ^ 16 }
    ensures { AddsSlot bytes.old bytes.new count i start }
{
    let at = 32 + 2 * i;
    bytes[at..32 + 2 * count + 2].rotate_right(2);
    put_u16(bytes, at, start);
    put_u16(bytes, 12, count + 1);
    put_u16(bytes, 14, start);
}

/// Puts an entry at place `i`. Its cell goes just below the others.
pub fn insert_cell(bytes: &mut [u8], leaf: bool, i: usize, key: &[u8], value: u64)
    requires packed { IsPacked leaf bytes.old }
    requires place { Parts bytes.old key.now i i }
    requires keyed { 1 ≤ length key.now }
    requires short { length key.now ≤ 255 }
    requires fits { leaf ≡ false → value < 2 ^ 32 }
    requires room { 32 + 2 * count_of bytes.old + 2 + (1 + length key.now + width leaf) ≤ start_of bytes.old }
    ensures packed { IsPacked leaf bytes.new }
    ensures entries { entries_of leaf bytes.new ≡ insert (entries_of leaf bytes.old) i ((key.now, value)) }
    ensures head { (k : ℕ) → k < 12 → slice_index bytes.new k ≡ slice_index bytes.old k }
    ensures links { (k : ℕ) → 16 ≤ k → k < 32 → slice_index bytes.new k ≡ slice_index bytes.old k }
{
    let count = get_u16(bytes, 12);
    let start = get_u16(bytes, 14) - cell_len(leaf, key.len());
    put_cell(bytes, leaf, start, key, value);
    open_slot(bytes, count, i, start);
}
