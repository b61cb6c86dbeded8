//! The first entry past a key.

ghost use Rattle.std.specs.Prelude.{◌≡◌, ◌≤◌, ◌<◌, ℕ, Bool, false, true, length, Some, None, option_map, IfOk, IfSome, OnOk, ◌+◌};
ghost use Rattle.im_base_types.specs.Maps.{first_in};
ghost use Rattle.im_theory_page.specs.Entry.{entry_at};
ghost use Rattle.im_page_writer.specs.PageWriter.{IsReadyWriter};
ghost use Rattle.im_base_types.specs.declared.page_kind.PageKind.TheVariants.{Meta};
ghost use Rattle.im_page_writer.specs.Outcome.{fault_of, AllPages, AreLoaded, HasPages, IsSound, Reads};
ghost use Rattle.im_theory_tree.specs.Levels.{walk};
ghost use Rattle.im_theory_tree.specs.Lookups.{IsAhead, IsFirstAt};
ghost use Rattle.im_tree_search.specs.Levels.{bodies_of, start_at};
ghost use Rattle.im_page_pool.specs.Pool.{Holds};
ghost use Rattle.im_tree_search.specs.Found.{IsFirstOf, entry_of};
ghost use Rattle.im_tree_search.specs.HeldPages.{HoldsOn, IsQuiet};
ghost use Rattle.im_tree_search.specs.Ranges.{IsParted};
ghost use Rattle.im_tree_search.specs.Beside.{Comes, MeetsDone};
ghost use Rattle.im_tree_search.specs.Sights.{HasTreeBut, IfSeen, is_done};

use crate::change_beside::Beside;
use crate::descent::leaf_beside;
use crate::entry_place::EntryPlace;
use crate::levels::page_beside;
use crate::sight::Sight;
use im_base_disk::Disk;
use im_base_types::{Fault, PageKind, PageNo};
use im_page::Page;
use im_page_writer::PageWriter;

// The place of the first entry at or above a key, or above it: the number of entries where there is none.
pub(crate) fn place_past(page: &Page, key: &[u8], inclusive: bool) -> usize
    ensures first { IsFirstAt (start_at inclusive key.now) page.now.body.entries result }
    ensures parted { IsParted (start_at inclusive key.now) page.now.body.entries result }
{
    page.law_content();
    let _len = page.len();
    match page.find(key) {
        Ok(i) if inclusive => i,
        Ok(i) => i + 1,
        Err(i) => i,
    }
}

// The place of that entry, where the page has it.
pub(crate) fn first_past(page: &Page, key: &[u8], inclusive: bool) -> Option<usize>
    ensures some { IfSome result (λ i. (i < length page.now.body.entries) × (first_in (start_at inclusive key.now) page.now.body.entries ≡ Some (entry_at page.now.body.entries i))) }
    ensures none { result ≡ None → first_in (start_at inclusive key.now) page.now.body.entries ≡ None }
{
    let place = place_past(page, key, inclusive);
    if place < page.len() {
        return Some(place);
    }
    None
}

// How many pages there are, by the meta page: one get.
pub(crate) fn page_count<D: Disk>(writer: &mut PageWriter, disk: &mut D) -> Result<PageNo, Fault>
    requires ready { IsReadyWriter D.Disk writer.old disk.old }
    ensures outcome { Reads D.Disk writer.old disk.old writer.new disk.new (fault_of result) }
    ensures kept { (pages : AllPages) → HasPages D.Disk AreLoaded pages writer.old disk.old → (pages 0).body.kind ≡ Meta
        → IsSound result (λ count. count ≡ (pages 0).body.leftmost) }
    ensures gets { OnOk result (writer.new.pool.gets ≡ writer.old.pool.gets + 1) }
    ensures quiet { writer.old.failed ≡ false → Holds writer.old.pool 0 → IsQuiet writer.old disk.old writer.new disk.new }
{
    let frame = writer.get(disk, 0)?;
    let page = writer.page(frame);
    if page.kind() != PageKind::Meta {
        return Err(Fault::NotAStore);
    }
    Ok(page.leftmost())
}

// The same beside a structure change: where the meta page is made, the page count of before is known, and nothing is read.
pub(crate) fn count_beside<D: Disk>(
    writer: &mut PageWriter,
    disk: &mut D,
    beside: Beside<'_>,
) -> Result<PageNo, Fault>
    requires ready { IsReadyWriter D.Disk writer.old disk.old }
    requires working { writer.old.failed ≡ false }
    ensures outcome { Reads D.Disk writer.old disk.old writer.new disk.new (fault_of result) }
    ensures kept { (pages : AllPages) → HasTreeBut D.Disk pages beside.entry writer.old disk.old
        → IsSound result (λ count. count ≡ (pages 0).body.leftmost) }
    ensures gets { OnOk result (writer.new.pool.gets ≤ writer.old.pool.gets + 1) }
    ensures quiet { Holds writer.old.pool 0 → IsQuiet writer.old disk.old writer.new disk.new }
{
    if beside.is_done(0) {
        return Ok(beside.count);
    }
    page_count(writer, disk)
}

// The first entry past a key along the leaf chain, from a leaf after that of the key on; hidden where the walk comes to a leaf that is
// made. There are fewer leaves than pages, so that a chain which goes on longer leads round in a ring.
#[tactic(auto, using(im_page_writer::proofs::Outcomes::then, im_page_writer::proofs::Outcomes::refused))]
pub(crate) fn first_along<D: Disk>(
    writer: &mut PageWriter,
    disk: &mut D,
    from: PageNo,
    key: &[u8],
    inclusive: bool,
    beside: Beside<'_>,
) -> Result<Sight<Option<EntryPlace>>, Fault>
    requires ready { IsReadyWriter D.Disk writer.old disk.old }
    requires working { writer.old.failed ≡ false }
    ensures outcome { Reads D.Disk writer.old disk.old writer.new disk.new (fault_of result) }
    ensures kept { (pages : AllPages) → HasTreeBut D.Disk pages beside.entry writer.old disk.old → IsAhead (bodies_of pages) (start_at inclusive key.now) 0 from → Comes (bodies_of pages) (start_at inclusive key.now) from
        → IsSound result (IfSeen (λ found. option_map (entry_of writer.new.pool) found ≡ first_in (start_at inclusive key.now) (walk (bodies_of pages))) (MeetsDone (bodies_of pages) (is_done beside.entry) (start_at inclusive key.now))) }
    ensures first { IfOk result (IfSeen (λ found. IfSome found (IsFirstOf (start_at inclusive key.now) writer.new.pool)) (1 ≤ beside.entry.done)) }
    ensures quiet { (set : ℕ → Bool) → HoldsOn key.now writer.old.pool set → (1 ≤ from → set from ≡ true) → IsQuiet writer.old disk.old writer.new disk.new }
{
    let mut left = count_beside(writer, disk, beside)?;
    let mut number = from;
    while number != 0 {
        if left == 0 {
            return Err(Fault::NotAStore);
        }
        left -= 1;
        let Sight::Seen(frame) = page_beside(writer, disk, number, 0, beside)? else {
            return Ok(Sight::Hidden);
        };
        let leaf = writer.page(frame);
        if let Some(at) = first_past(leaf, key, inclusive) {
            return Ok(Sight::Seen(Some(EntryPlace { frame, at })));
        }
        number = leaf.next();
    }
    Ok(Sight::Seen(None))
}

/// Where the first entry at or above a key stands (`inclusive`), or the first above it; `None` where the index has none. Nothing is
/// copied: the entry's leaf lends the key as long as it is held. Beside a structure change it is hidden where a page on the key's way is
/// made, or a leaf that the walk along the chain comes to.
///
/// The search goes down to the key's leaf, and from there along the leaf chain past leaves that have no such entry; it gets page 0
/// only then, for the page count alone, which hides nothing. Refused `NotAStore` as `leaf_for` is, where a page of the chain is no leaf or
/// page 0 no meta page, and where the chain has as many leaves as there are pages; otherwise as `PageWriter::get` is. After `NotAStore` the
/// writer goes on.
#[tactic(auto, using(im_page_writer::proofs::Outcomes::then, im_page_writer::proofs::Outcomes::refused))]
pub fn next_entry<D: Disk>(
    writer: &mut PageWriter,
    disk: &mut D,
    key: &[u8],
    inclusive: bool,
    beside: Beside<'_>,
) -> Result<Sight<Option<EntryPlace>>, Fault>
    requires ready { IsReadyWriter D.Disk writer.old disk.old }
    ensures outcome { Reads D.Disk writer.old disk.old writer.new disk.new (fault_of result) }
    ensures kept { (pages : AllPages) → HasTreeBut D.Disk pages beside.entry writer.old disk.old
        → IsSound result (IfSeen (λ found. option_map (entry_of writer.new.pool) found ≡ first_in (start_at inclusive key.now) (walk (bodies_of pages))) (MeetsDone (bodies_of pages) (is_done beside.entry) (start_at inclusive key.now))) }
    ensures first { IfOk result (IfSeen (λ found. IfSome found (IsFirstOf (start_at inclusive key.now) writer.new.pool)) (1 ≤ beside.entry.done)) }
    ensures quiet { (set : ℕ → Bool) → writer.old.failed ≡ false → HoldsOn key.now writer.old.pool set → IsQuiet writer.old disk.old writer.new disk.new }
{
    let Sight::Seen(frame) = leaf_beside(writer, disk, key, beside)? else {
        return Ok(Sight::Hidden);
    };
    let leaf = writer.page(frame);
    if let Some(at) = first_past(leaf, key, inclusive) {
        return Ok(Sight::Seen(Some(EntryPlace { frame, at })));
    }
    let next = leaf.next();
    first_along(writer, disk, next, key, inclusive, beside)
}
