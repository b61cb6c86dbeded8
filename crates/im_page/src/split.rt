//! Where a page's entries are split, and a range of them copied.

ghost use Rattle.std.specs.Prelude.{◌≡◌, ℕ, ◌<◌, ◌≤◌, [], length, slice_index, slice_range};
ghost use Rattle.im_theory_page.specs.Form.{count_of, entries_of, IsPacked};
ghost use Rattle.im_theory_page.specs.Split.{IsSplitBound, IsSplitPoint};

use crate::cells::{cell_len, key, value};
use crate::insertion::insert_cell;
use crate::number::{get_u16, put_u16};
use crate::removal::clear;
use im_base_types::PAGE_SIZE;

/// Half of the bytes that a page has for cells and slots.
pub const HALF_PAGE: usize = 2_032;

/// How many entries the longest front has that takes at most so many bytes, cells and slots, and leaves two entries.
pub fn split_point(leaf: bool, bytes: &[u8], bound: usize) -> usize
    requires packed { IsPacked leaf bytes.now }
    requires bound { IsSplitBound bound }
    ensures { IsSplitPoint bound leaf (entries_of leaf bytes.now) result }
{
    let most = get_u16(bytes, 12).saturating_sub(2);
    let mut used = 0usize;
    for i in 0..most {
        let at = get_u16(bytes, 32 + 2 * i);
        used += cell_len(leaf, bytes[at] as usize) + 2;
        if bound < used {
            return i;
        }
    }
    most
}

/// Takes all entries out.
pub fn empty_cells(bytes: &mut [u8], leaf: bool)
    requires { length bytes.old ≡ 4096 }
    ensures packed { IsPacked leaf bytes.new }
    ensures entries { entries_of leaf bytes.new ≡ [] }
    ensures head { (k : ℕ) → k < 12 → slice_index bytes.new k ≡ slice_index bytes.old k }
    ensures links { (k : ℕ) → 16 ≤ k → k < 32 → slice_index bytes.new k ≡ slice_index bytes.old k }
{
    clear(bytes, 32, PAGE_SIZE);
    put_u16(bytes, 12, 0);
    put_u16(bytes, 14, PAGE_SIZE);
}

/// Leaves the entries that another page has from place `low` up to `high`.
pub fn copy_cells(bytes: &mut [u8], leaf: bool, from: &[u8], low: usize, high: usize)
    requires len { length bytes.old ≡ 4096 }
    requires packed { IsPacked leaf from.now }
    requires order { low ≤ high }
    requires within { high ≤ count_of from.now }
    ensures packed { IsPacked leaf bytes.new }
    ensures entries { entries_of leaf bytes.new ≡ slice_range (entries_of leaf from.now) low high }
    ensures head { (k : ℕ) → k < 12 → slice_index bytes.new k ≡ slice_index bytes.old k }
    ensures links { (k : ℕ) → 16 ≤ k → k < 32 → slice_index bytes.new k ≡ slice_index bytes.old k }
{
    empty_cells(bytes, leaf);
    for j in low..high {
        insert_cell(
            bytes,
            leaf,
            j - low,
            key(leaf, from, j),
            value(leaf, from, j),
        );
    }
}
