//! An entry taken from among the cells and slots of a page's bytes.

ghost use Rattle.std.specs.Prelude.{◌≡◌, ℕ, ◌+◌, ◌*◌, ◌^◌, ◌<◌, ◌≤◌, length, slice_index, remove};
ghost use Rattle.im_theory_page.specs.Number.{u16_at, SameOutside};
ghost use Rattle.im_theory_page.specs.Form.{count_of, entries_of, IsPacked};
ghost use Rattle.im_page.specs.Edit.{moved_up, MovesCells, MovesSlots, DropsSlot};

use crate::cells::cell_len;
use crate::number::{get_u16, put_u16};

/// Moves the cells from `start` up to `at` up by `size`, over the cell at `at`.
fn move_cells(bytes: &mut [u8], start: usize, at: usize, size: usize)
    requires order { start ≤ at }
    requires inside { at + size ≤ length bytes.old }
    requires fits { length bytes.old < 2 ^ 16 }
    ensures { MovesCells bytes.old bytes.new start at size }
{
    bytes[start..at + size].rotate_right(size);
    clear(bytes, start, start + size);
}

/// Writes zeros.
pub fn clear(bytes: &mut [u8], from: usize, to: usize)
    requires order { from ≤ to }
    requires inside { to ≤ length bytes.old }
    ensures zeros { (k : ℕ) → from ≤ k → k < to → slice_index bytes.new k ≡ 0 }
    ensures rest { SameOutside bytes.old bytes.new from to }
{
    for k in from..to {
        bytes[k] = 0;
    }
}

/// Writes at `to` the slot that stands at `from`, as it is once the cell at `at` is gone.
fn move_slot(bytes: &mut [u8], from: usize, to: usize, at: usize, size: usize)
    requires from { from + 2 ≤ length bytes.old }
    requires to { to + 2 ≤ length bytes.old }
    requires fits { at + size ≤ 2 ^ 16 }
    ensures value { u16_at bytes.new to ≡ moved_up at size (u16_at bytes.old from) }
    ensures rest { SameOutside bytes.old bytes.new to (to + 2) }
{
    let slot = get_u16(bytes, from);
    put_u16(bytes, to, if slot < at { slot + size } else { slot });
}

/// Takes slot i out, and moves each slot with its cell.
fn move_slots(bytes: &mut [u8], count: usize, i: usize, at: usize, size: usize)
    requires place { i < count }
    requires room { 32 + 2 * count ≤ length bytes.old }
    requires small { length bytes.old < 2 ^ 16 }
    requires fits { at + size ≤ 2 ^ 16 }
    ensures { MovesSlots bytes.old bytes.new count i at size }
{
    for j in 0..i {
        move_slot(bytes, 32 + 2 * j, 32 + 2 * j, at, size);
    }
    for j in i..count - 1 {
        move_slot(bytes, 32 + 2 * (j + 1), 32 + 2 * j, at, size);
    }
}

/// Takes slot i out of a page whose cells then begin at `start`.
fn drop_slot(bytes: &mut [u8], count: usize, i: usize, start: usize, at: usize, size: usize)
    requires place { i < count }
    requires room { 32 + 2 * count ≤ length bytes.old }
    requires small { length bytes.old < 2 ^ 16 }
    requires start { start < 2 ^ 16 }
    requires fits { at + size ≤ 2 ^ 16 }
    ensures { DropsSlot bytes.old bytes.new count i start at size }
{
    move_slots(bytes, count, i, at, size);
    clear(bytes, 32 + 2 * count - 2, 32 + 2 * count);
    put_u16(bytes, 12, count - 1);
    put_u16(bytes, 14, start);
}

/// Takes the entry at place i out, and packs the cells.
pub fn remove_cell(bytes: &mut [u8], leaf: bool, i: usize)
    requires packed { IsPacked leaf bytes.old }
    requires place { i < count_of bytes.old }
    ensures packed { IsPacked leaf bytes.new }
    ensures entries { entries_of leaf bytes.new ≡ remove (entries_of leaf bytes.old) i }
    ensures head { (k : ℕ) → k < 12 → slice_index bytes.new k ≡ slice_index bytes.old k }
    ensures links { (k : ℕ) → 16 ≤ k → k < 32 → slice_index bytes.new k ≡ slice_index bytes.old k }
{
    let count = get_u16(bytes, 12);
    let start = get_u16(bytes, 14);
    let at = get_u16(bytes, 32 + 2 * i);
    let size = cell_len(leaf, bytes[at] as usize);
    move_cells(bytes, start, at, size);
    drop_slot(bytes, count, i, start + size, at, size);
}
