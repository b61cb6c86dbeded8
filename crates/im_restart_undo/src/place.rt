//! Where the leaf is that a key record is taken back in.

ghost use Rattle.std.specs.Prelude.{◌≡◌, ◌<◌, ◌≤◌, ◌↔◌, ◌+◌, true, false, Ok, IfOk, IfSome, IsTrue};
ghost use Rattle.im_page_pool.specs.Pool.{page_at, IsAt};
ghost use Rattle.im_page_writer.specs.PageWriter.{IsReadyWriter};
ghost use Rattle.im_page_writer.specs.Outcome.{fault_of, AllPages, IsSound, Reads};
ghost use Rattle.im_theory_tree.specs.Search.{IsOnWay};
ghost use Rattle.im_tree_search.specs.Levels.{HasLevel, bodies_of};
ghost use Rattle.im_tree_search.specs.declared.sight.Sight.TheVariants.{Hidden};
ghost use Rattle.im_tree_search.specs.Found.{IsReached};
ghost use Rattle.im_tree_search.specs.Sights.{is_done, IfSeen};
ghost use Rattle.im_smo_actions.specs.GoingBeside.{HasWholeTreeBut};
ghost use Rattle.im_restart_undo.specs.Place.{CountsPage, HasKey, HasGap, IsKnownLeaf, IsPlaceMade, FindsPage};

use im_base_disk::Disk;
use im_base_types::{Fault, LONGEST_KEY, PageKind, PageNo};
use im_page::Page;
use im_page_pool::Frame;
use im_page_writer::PageWriter;
use im_tree_search::{Beside, Sight, has_level, leaf_beside};

// Whether the page is below the page count, by the meta page.
fn counts(meta: &Page, page: PageNo) -> bool
    ensures { IsTrue result ↔ CountsPage meta.now.body page }
{
    if meta.kind() != PageKind::Meta {
        return false;
    }
    page < meta.leftmost()
}

// Whether a page has a key.
fn has_key(page: &Page, key: &[u8]) -> bool
    ensures { IsTrue result ↔ HasKey page.now.body.entries key.now }
{
    match page.find(key) {
        Ok(_) => true,
        Err(_) => false,
    }
}

// Whether a page lacks a key, has room for it, and has a smaller one and a greater.
fn has_gap(page: &Page, key: &[u8]) -> bool
    ensures { IsTrue result ↔ HasGap page.now.body key.now }
{
    if LONGEST_KEY < key.len() || !page.has_room(key.len()) {
        return false;
    }
    match page.find(key) {
        Ok(_) => false,
        Err(i) => 0 < i && i < page.len(),
    }
}

// Whether a page is below the page count: by the meta page, or where the structure change beside has made that, by the count of before.
fn is_counted<D: Disk>(
    writer: &mut PageWriter,
    disk: &mut D,
    page: PageNo,
    beside: Beside<'_>,
) -> Result<bool, Fault>
    requires ready { IsReadyWriter D.Disk writer.old disk.old }
    requires working { writer.old.failed ≡ false }
    ensures outcome { Reads D.Disk writer.old disk.old writer.new disk.new (fault_of result) }
    ensures kept { (pages : AllPages) → HasWholeTreeBut D.Disk pages beside.entry writer.old disk.old
        → IsSound result (λ counted. IsTrue counted ↔ (page < (bodies_of pages 0).leftmost)) }
    ensures gets { IfOk result (λ _. writer.new.pool.gets ≤ writer.old.pool.gets + 1) }
{
    if beside.is_done(0) {
        return Ok(page < beside.count());
    }
    let meta = writer.get(disk, 0)?;
    Ok(counts(writer.page(meta), page))
}

// The page is held from now on, and answered, where it is a leaf below the page count. The structure change beside has not made it.
fn known_leaf<D: Disk>(
    writer: &mut PageWriter,
    disk: &mut D,
    page: PageNo,
    beside: Beside<'_>,
) -> Result<Option<Frame>, Fault>
    requires ready { IsReadyWriter D.Disk writer.old disk.old }
    requires working { writer.old.failed ≡ false }
    requires clear { is_done beside page ≡ false }
    ensures outcome { Reads D.Disk writer.old disk.old writer.new disk.new (fault_of result) }
    ensures kept { (pages : AllPages) → HasWholeTreeBut D.Disk pages beside.entry writer.old disk.old
        → IsSound result (FindsPage pages (IsKnownLeaf (bodies_of pages)) (IsKnownLeaf (bodies_of pages) page) writer.new.pool) }
    ensures frame { IfOk result (λ found. IfSome found (λ frame. frame.number ≡ page)) }
    ensures gets { IfOk result (λ found. IfSome found (λ _. writer.new.pool.gets ≤ writer.old.pool.gets + 2)) }
    ensures at { IfOk result (λ found. IfSome found (IsAt writer.new.pool)) }
    ensures leaf { IfOk result (λ found. IfSome found (λ frame. HasLevel 0 (page_at writer.new.pool frame.number).body)) }
{
    let counted = is_counted(writer, disk, page, beside)?;
    if !counted {
        return Ok(None);
    }
    let frame = writer.get(disk, page)?;
    if !has_level(writer.page(frame), 0) {
        return Ok(None);
    }
    Ok(Some(frame))
}

// The same, where it has the key.
fn page_with<D: Disk>(
    writer: &mut PageWriter,
    disk: &mut D,
    page: PageNo,
    key: &[u8],
    beside: Beside<'_>,
) -> Result<Option<Frame>, Fault>
    requires ready { IsReadyWriter D.Disk writer.old disk.old }
    requires working { writer.old.failed ≡ false }
    requires clear { is_done beside page ≡ false }
    ensures outcome { Reads D.Disk writer.old disk.old writer.new disk.new (fault_of result) }
    ensures kept { (pages : AllPages) → HasWholeTreeBut D.Disk pages beside.entry writer.old disk.old
        → IsSound result (FindsPage pages (IsOnWay (bodies_of pages) 0 key.now) (IsKnownLeaf (bodies_of pages) page × HasKey (bodies_of pages page).entries key.now) writer.new.pool) }
    ensures frame { IfOk result (λ found. IfSome found (λ frame. frame.number ≡ page)) }
    ensures gets { IfOk result (λ found. IfSome found (λ _. writer.new.pool.gets ≤ writer.old.pool.gets + 2)) }
    ensures at { IfOk result (λ found. IfSome found (IsAt writer.new.pool)) }
    ensures leaf { IfOk result (λ found. IfSome found (λ frame. HasLevel 0 (page_at writer.new.pool frame.number).body)) }
{
    let Some(frame) = known_leaf(writer, disk, page, beside)? else {
        return Ok(None);
    };
    if !has_key(writer.page(frame), key) {
        return Ok(None);
    }
    Ok(Some(frame))
}

// The same, where it has room for the key, a smaller key and a greater.
fn page_around<D: Disk>(
    writer: &mut PageWriter,
    disk: &mut D,
    page: PageNo,
    key: &[u8],
    beside: Beside<'_>,
) -> Result<Option<Frame>, Fault>
    requires ready { IsReadyWriter D.Disk writer.old disk.old }
    requires working { writer.old.failed ≡ false }
    requires clear { is_done beside page ≡ false }
    ensures outcome { Reads D.Disk writer.old disk.old writer.new disk.new (fault_of result) }
    ensures kept { (pages : AllPages) → HasWholeTreeBut D.Disk pages beside.entry writer.old disk.old
        → IsSound result (FindsPage pages (IsOnWay (bodies_of pages) 0 key.now) (IsKnownLeaf (bodies_of pages) page × HasGap (bodies_of pages page) key.now) writer.new.pool) }
    ensures frame { IfOk result (λ found. IfSome found (λ frame. frame.number ≡ page)) }
    ensures gets { IfOk result (λ found. IfSome found (λ _. writer.new.pool.gets ≤ writer.old.pool.gets + 2)) }
    ensures at { IfOk result (λ found. IfSome found (IsAt writer.new.pool)) }
    ensures leaf { IfOk result (λ found. IfSome found (λ frame. HasLevel 0 (page_at writer.new.pool frame.number).body)) }
{
    let Some(frame) = known_leaf(writer, disk, page, beside)? else {
        return Ok(None);
    };
    if !has_gap(writer.page(frame), key) {
        return Ok(None);
    }
    Ok(Some(frame))
}

/// Where the leaf of a key is held from now on that is in the tree: this page, where it is a leaf of the tree that has the key, by two
/// gets at most, and otherwise by a search from the root. It is hidden where the structure change beside has made the page, and where that
/// search is.
#[tactic(auto, using(im_page_writer::proofs::Outcomes::then, im_page_writer::proofs::Outcomes::refused))]
pub(crate) fn leaf_with<D: Disk>(
    writer: &mut PageWriter,
    disk: &mut D,
    page: PageNo,
    key: &[u8],
    beside: Beside<'_>,
) -> Result<Sight<Frame>, Fault>
    requires ready { IsReadyWriter D.Disk writer.old disk.old }
    requires working { writer.old.failed ≡ false }
    ensures outcome { Reads D.Disk writer.old disk.old writer.new disk.new (fault_of result) }
    ensures kept { (pages : AllPages) → HasWholeTreeBut D.Disk pages beside.entry writer.old disk.old
        → IsSound result (IfSeen (λ frame. IsReached pages key.now 0 frame.number writer.new.pool)
        (IsPlaceMade (bodies_of pages) beside.entry page key.now (IsKnownLeaf (bodies_of pages) page × HasKey (bodies_of pages page).entries key.now))) }
    ensures first { is_done beside.entry page ≡ true → result ≡ Ok Hidden }
    ensures quick { (pages : AllPages) → HasWholeTreeBut D.Disk pages beside.entry writer.old disk.old → IsKnownLeaf (bodies_of pages) page → HasKey (bodies_of pages page).entries key.now
        → IfOk result (IfSeen (λ _. writer.new.pool.gets ≤ writer.old.pool.gets + 2) Unit) }
    ensures at { IfOk result (IfSeen (IsAt writer.new.pool) Unit) }
    ensures leaf { IfOk result (IfSeen (λ frame. HasLevel 0 (page_at writer.new.pool frame.number).body) (1 ≤ beside.entry.done)) }
{
    if beside.is_done(page) {
        return Ok(Sight::Hidden);
    }
    if let Some(frame) = page_with(writer, disk, page, key, beside)? {
        return Ok(Sight::Seen(frame));
    }
    leaf_beside(writer, disk, key, beside)
}

/// The same of a key that is not there: this page, where it is a leaf of the tree with a smaller key, a greater one and room for the key,
/// and otherwise by a search from the root.
#[tactic(auto, using(im_page_writer::proofs::Outcomes::then, im_page_writer::proofs::Outcomes::refused))]
pub(crate) fn leaf_around<D: Disk>(
    writer: &mut PageWriter,
    disk: &mut D,
    page: PageNo,
    key: &[u8],
    beside: Beside<'_>,
) -> Result<Sight<Frame>, Fault>
    requires ready { IsReadyWriter D.Disk writer.old disk.old }
    requires working { writer.old.failed ≡ false }
    ensures outcome { Reads D.Disk writer.old disk.old writer.new disk.new (fault_of result) }
    ensures kept { (pages : AllPages) → HasWholeTreeBut D.Disk pages beside.entry writer.old disk.old
        → IsSound result (IfSeen (λ frame. IsReached pages key.now 0 frame.number writer.new.pool)
        (IsPlaceMade (bodies_of pages) beside.entry page key.now (IsKnownLeaf (bodies_of pages) page × HasGap (bodies_of pages page) key.now))) }
    ensures first { is_done beside.entry page ≡ true → result ≡ Ok Hidden }
    ensures quick { (pages : AllPages) → HasWholeTreeBut D.Disk pages beside.entry writer.old disk.old → IsKnownLeaf (bodies_of pages) page → HasGap (bodies_of pages page) key.now
        → IfOk result (IfSeen (λ _. writer.new.pool.gets ≤ writer.old.pool.gets + 2) Unit) }
    ensures at { IfOk result (IfSeen (IsAt writer.new.pool) Unit) }
    ensures leaf { IfOk result (IfSeen (λ frame. HasLevel 0 (page_at writer.new.pool frame.number).body) (1 ≤ beside.entry.done)) }
{
    if beside.is_done(page) {
        return Ok(Sight::Hidden);
    }
    if let Some(frame) = page_around(writer, disk, page, key, beside)? {
        return Ok(Sight::Seen(frame));
    }
    leaf_beside(writer, disk, key, beside)
}
