//! The entries of a range of keys.

ghost use Rattle.std.specs.Prelude.{◌≡◌, ◌≤◌, ◌<◌, ◌++◌, [], ◌∷◌, ℕ, Bool, length, true, false, IfErr, IfOk, IfSome, OnOk};
ghost use Rattle.im_base_types.specs.declared.fault.Fault.TheVariants.{Memory};
ghost use Rattle.im_base_types.specs.Maps.{is_below};
ghost use Rattle.im_theory_page.specs.Entry.{entry_at};
ghost use Rattle.im_page_writer.specs.PageWriter.{IsReadyWriter};
ghost use Rattle.im_page_writer.specs.Outcome.{fault_of, AllPages, IsSound, Lists};
ghost use Rattle.im_tree_search.specs.HeldPages.{HoldsOn, IsQuiet};
ghost use Rattle.im_tree_search.specs.Levels.{bodies_of};
ghost use Rattle.im_tree_search.specs.NextKeys.{IsFar};
ghost use Rattle.im_tree_search.specs.Ranges.{IsAlong, IsPart, Ranged, RangesAlong};
ghost use Rattle.im_tree_search.specs.RangesBeside.{ScanMeetsDone};
ghost use Rattle.im_tree_search.specs.Sights.{HasTreeBut, IfSeen};

use crate::change_beside::Beside;
use crate::descent::leaf_beside;
use crate::leaf_chain::{count_beside, place_past};
use crate::levels::page_beside;
use crate::next_key::{NextKey, copied};
use crate::sight::Sight;
use im_base_disk::Disk;
use im_base_types::{Fault, Key, MOST_ENTRIES, PageNo, Rid, compare, push_entry};
use im_page::Page;
use im_page_writer::PageWriter;
use std::alloc::Global;

// Whether the one key is strictly below the other.
fn lies_below(a: &[u8], b: &[u8]) -> bool
    ensures { result ≡ is_below a.now b.now }
{
    compare(a, b).is_lt()
}

// An empty list with room for so many entries, at most 256.
fn list_for(alloc: Global, limit: usize) -> Result<Vec<(Key, Rid)>, Fault>
    ensures none { IfOk result (λ list. list.items ≡ []) }
    ensures memory { IfErr result (λ e. e ≡ Memory) }
{
    Vec::with_capacity(alloc, limit.min(MOST_ENTRIES)).map_err(|_| Fault::Memory)
}

// Adds an entry of a page to a list.
fn add_entry(list: &mut Vec<(Key, Rid)>, page: &Page, i: usize) -> Result<(), Fault>
    requires { i < length page.now.body.entries }
    ensures added { OnOk result (list.new.items ≡ list.old.items ++ entry_at page.now.body.entries i ∷ []) }
    ensures memory { IfErr result (λ e. e ≡ Memory) }
{
    push_entry(list, page.key(i), page.value(i))
}

// Adds the entries of a leaf that lie in a range, until there are `limit`. Answers what stands after the range, where the leaf ends
// it: nothing at the limit, else the first key above `hi`.
fn add_part(
    list: &mut Vec<(Key, Rid)>,
    page: &Page,
    lo: &[u8],
    hi: &[u8],
    limit: usize,
) -> Result<Option<Option<NextKey>>, Fault>
    requires { length list.old.items < limit }
    ensures part { IfOk result (IsPart lo.now hi.now limit page.now.body.entries list.old.items list.new.items) }
    ensures memory { IfErr result (λ e. e ≡ Memory) }
{
    let from = place_past(page, lo, true);
    let to = place_past(page, hi, false);
    let len = page.len();
    for i in from..to {
        add_entry(list, page, i)?;
        if list.len() == limit {
            return Ok(Some(None));
        }
    }
    if to < len {
        return Ok(Some(Some(copied(page, to))));
    }
    Ok(None)
}

// The rest of a range along the leaf chain, from a leaf after that of `lo` on; hidden where it comes to a leaf that is made.
#[tactic(auto, using(im_page_writer::proofs::Outcomes::then, im_page_writer::proofs::Outcomes::refused))]
fn range_along<D: Disk>(
    writer: &mut PageWriter,
    disk: &mut D,
    list: &mut Vec<(Key, Rid)>,
    from: PageNo,
    lo: &[u8],
    hi: &[u8],
    limit: usize,
    beside: Beside<'_>,
) -> Result<Sight<Option<NextKey>>, Fault>
    requires ready { IsReadyWriter D.Disk writer.old disk.old }
    requires working { writer.old.failed ≡ false }
    requires room { length list.old.items < limit }
    requires order { is_below hi.now lo.now ≡ false }
    ensures outcome { Lists D.Disk writer.old disk.old writer.new disk.new (fault_of result) }
    ensures kept { (pages : AllPages) (n : ℕ) → HasTreeBut D.Disk pages beside.entry writer.old disk.old → IsAlong (bodies_of pages) lo.now hi.now list.old.items n from → 1 ≤ n
        → IsSound result (IfSeen (λ behind. RangesAlong (bodies_of pages) lo.now hi.now limit n list.new.items behind writer.old.pool.gets writer.new.pool.gets) (ScanMeetsDone (bodies_of pages) beside.entry lo.now hi.now limit)) }
    ensures far { IfOk result (IfSeen (λ behind. IfSome behind IsFar) (1 ≤ beside.entry.done)) }
    ensures most { OnOk result (length list.new.items ≤ limit) }
    ensures quiet { (set : ℕ → Bool) → HoldsOn lo.now writer.old.pool set → (1 ≤ from → set from ≡ true) → IsQuiet writer.old disk.old writer.new disk.new }
{
    let mut left = count_beside(writer, disk, beside)?;
    let mut number = from;
    while number != 0 {
        if left == 0 {
            return Err(Fault::NotAStore);
        }
        left -= 1;
        let Sight::Seen(frame) = page_beside(writer, disk, number, 0, beside)? else {
            return Ok(Sight::Hidden);
        };
        let leaf = writer.page(frame);
        if let Some(behind) = add_part(list, leaf, lo, hi, limit)? {
            return Ok(Sight::Seen(behind));
        }
        number = leaf.next();
    }
    Ok(Sight::Seen(Some(NextKey::End)))
}

/// Copies of the entries from `lo` to `hi`, in rising key order, the first `limit` of them, and the key after them: where they are
/// fewer than `limit`, and `hi` is not below `lo`, the first key above `hi`, copied, or the end; else nothing is said of it. Beside a
/// structure change they are hidden where a page on the way to `lo` is made, or a leaf that the walk along the chain comes to before it has
/// `limit` entries.
///
/// It goes down once, to the leaf of `lo`, by one get for each level, and then along the leaf chain, by one get for each leaf, until
/// a leaf has a key above `hi`. Refused `Memory` where there is no room for the list too; otherwise as `next_entry` is. After
/// `NotAStore` and `Memory` the writer goes on. Where page 0 and the pages of the way and the walk are held, nothing is asked of the disk
/// (`quiet`).
#[tactic(auto, using(im_page_writer::proofs::Outcomes::then, im_page_writer::proofs::Outcomes::refused))]
pub fn entries_between<D: Disk>(
    alloc: Global,
    writer: &mut PageWriter,
    disk: &mut D,
    lo: &[u8],
    hi: &[u8],
    limit: usize,
    beside: Beside<'_>,
) -> Result<Sight<(Vec<(Key, Rid)>, Option<NextKey>)>, Fault>
    requires ready { IsReadyWriter D.Disk writer.old disk.old }
    ensures outcome { Lists D.Disk writer.old disk.old writer.new disk.new (fault_of result) }
    ensures kept { (pages : AllPages) → HasTreeBut D.Disk pages beside.entry writer.old disk.old
        → IsSound result (IfSeen (λ x. Ranged (bodies_of pages) lo.now hi.now limit x.0.items x.1 writer.old.pool.gets writer.new.pool.gets) (ScanMeetsDone (bodies_of pages) beside.entry lo.now hi.now limit)) }
    ensures far { IfOk result (IfSeen (λ x. IfSome x.1 IsFar) (1 ≤ beside.entry.done)) }
    ensures most { IfOk result (IfSeen (λ x. length x.0.items ≤ limit) Unit) }
    ensures quiet { (set : ℕ → Bool) → writer.old.failed ≡ false → HoldsOn lo.now writer.old.pool set → IsQuiet writer.old disk.old writer.new disk.new }
{
    let Sight::Seen(frame) = leaf_beside(writer, disk, lo, beside)? else {
        return Ok(Sight::Hidden);
    };
    let mut list = list_for(alloc, limit)?;
    if limit == 0 {
        return Ok(Sight::Seen((list, None)));
    }
    if lies_below(hi, lo) {
        return Ok(Sight::Seen((list, None)));
    }
    let leaf = writer.page(frame);
    let next = leaf.next();
    if let Some(behind) = add_part(&mut list, leaf, lo, hi, limit)? {
        return Ok(Sight::Seen((list, behind)));
    }
    let Sight::Seen(behind) = range_along(writer, disk, &mut list, next, lo, hi, limit, beside)?
    else {
        return Ok(Sight::Hidden);
    };
    Ok(Sight::Seen((list, behind)))
}
