//! What the pages on a key's way say of a split.

ghost use Rattle.std.specs.Prelude.{◌≡◌, ◌≤◌, ◌+◌, Bool, false, Ok, Err, IfErr, IfOk};
ghost use Rattle.im_base_types.specs.Pages.{Body};
ghost use Rattle.im_base_types.specs.declared.fault.Fault.TheVariants.{NotAStore};
ghost use Rattle.im_base_types.specs.declared.page_kind.PageKind.TheVariants.{Meta};
ghost use Rattle.im_theory_page.specs.Child.{IsChild};
ghost use Rattle.im_theory_page.specs.Page.{is_leaf_kind};
ghost use Rattle.im_page_writer.specs.PageWriter.{IsReadyWriter};
ghost use Rattle.im_page_writer.specs.Outcome.{fault_of, AllPages, AreLoaded, HasPages, IsSound, Reads};
ghost use Rattle.im_tree_search.specs.Levels.{HasLevel, kind_at};
ghost use Rattle.im_smo_pages.specs.Seen.{bodies};
ghost use Rattle.im_smo_split.specs.Readings.{HasUp, IsRoom, IsKeyRoom, IsFull};

use im_base_disk::Disk;
use im_base_types::{Fault, PageKind, PageNo};
use im_page::Page;
use im_page_writer::PageWriter;
use im_smo_pages::point_of;

/// The child of a page above the leaves on a key's way.
pub(crate) fn child_at(page: &Page, level: u8, key: &[u8]) -> PageNo
    requires level { HasLevel level page.now.body }
    requires inner { 1 ≤ level }
    ensures { IsChild page.now.body key.now result }
{
    page.child(key) as u32
}

/// How many bytes the key has that moves up where a page of this level is split, dense or not.
pub(crate) fn up_in(page: &Page, level: u8, dense: bool) -> usize
    requires { HasLevel level page.now.body }
    ensures up { HasUp dense (is_leaf_kind (kind_at level)) page.now.body result }
    ensures short { result ≤ 255 }
{
    let point = point_of(page, dense);
    if point == page.len() {
        return 0;
    }
    page.key(point).len()
}

/// Whether a page of this level has room for an entry whose key has so many bytes.
pub(crate) fn room_in(page: &Page, level: u8, key: usize) -> bool
    requires level { HasLevel level page.now.body }
    requires short { key ≤ 255 }
    ensures { IsRoom (is_leaf_kind (kind_at level)) page.now.body key result }
{
    page.law_content();
    page.has_room(key)
}

/// From how many bytes on a key's entry has no room in a page of this level: 0 to 256.
pub(crate) fn key_room(page: &Page, level: u8) -> usize
    requires { HasLevel level page.now.body }
    ensures { IsKeyRoom (is_leaf_kind (kind_at level)) page.now.body result }
{
    page.law_content();
    let mut low = 0;
    let mut high = 256;
    while low < high {
        let mid = (low + high) / 2;
        if page.has_room(mid) {
            low = mid + 1;
        } else {
            high = mid;
        }
    }
    low
}

/// Whether a key of so many bytes is shorter than those that have no room.
pub(crate) fn fits_in(room: usize, bytes: usize) -> bool
    requires { bytes ≤ 255 }
    ensures { (leaf : Bool) (page : Body) → IsKeyRoom leaf page room → IsRoom leaf page bytes result }
{
    if bytes < room {
        return true;
    }
    false
}

// Whether so many pages more would be more than the store may have, by the meta page.
fn full_in(meta: &Page, pages: u32, max: PageNo) -> Result<bool, Fault>
    ensures full { IfOk result (IsFull meta.now.body pages max) }
    ensures refused { IfErr result (λ e. e ≡ NotAStore) }
    ensures sound { meta.now.body.kind ≡ Meta → IfErr result (λ _. ⊥) }
{
    if meta.kind() != PageKind::Meta {
        return Err(Fault::NotAStore);
    }
    let used = meta.leftmost() as u64 + pages as u64;
    let most = max as u64 + meta.prev() as u64;
    Ok(most < used)
}

/// Whether so many pages more would be more than the store may have. Refused `NotAStore` where page 0 is no meta page, otherwise
/// as `PageWriter::get` is.
pub(crate) fn is_full<D: Disk>(
    writer: &mut PageWriter,
    disk: &mut D,
    pages: u32,
    max: PageNo,
) -> Result<bool, Fault>
    requires ready { IsReadyWriter D.Disk writer.old disk.old }
    requires working { writer.old.failed ≡ false }
    ensures outcome { Reads D.Disk writer.old disk.old writer.new disk.new (fault_of result) }
    ensures kept { (store : AllPages) → HasPages D.Disk AreLoaded store writer.old disk.old → (bodies store 0).kind ≡ Meta → IsSound result (IsFull (bodies store 0) pages max) }
{
    let frame = writer.get(disk, 0)?;
    full_in(writer.page(frame), pages, max)
}
