//! The highest page that a split splits.

ghost use Rattle.std.specs.Prelude.{◌≡◌, ◌≤◌, ◌+◌, ◌-◌, [], true, false, Ok, IfOk, IfSome, OnOk, length};
ghost use Rattle.im_page_pool.specs.Pool.{page_at, IsAt};
ghost use Rattle.im_page_writer.specs.PageWriter.{IsReadyWriter};
ghost use Rattle.im_page_writer.specs.Outcome.{fault_of, AllPages, AreLoaded, HasPages, IsSound, Reads};
ghost use Rattle.im_theory_tree.specs.Good.{IsGoodTree};
ghost use Rattle.im_theory_tree.specs.Levels.{height};
ghost use Rattle.im_tree_search.specs.Levels.{HasLevel};
ghost use Rattle.im_smo_pages.specs.Seen.{bodies};
ghost use Rattle.im_smo_split.specs.Tops.{IsCounted, IsPlaced, IsFound, StandsAt};

use crate::split_room::{child_at, fits_in, key_room, room_in, up_in};
use im_base_disk::Disk;
use im_base_types::{Fault, PageNo};
use im_page_pool::Frame;
use im_page_writer::PageWriter;
use im_tree_search::{root, tree_page};

/// The highest page that splits, where a page on a key's way does, with its level and its parent; and how many pages have to be
/// taken. The root has no parent.
#[derive(Clone, Copy)]
pub(crate) struct Top {
    pub(crate) level: u8,
    pub(crate) page: PageNo,
    pub(crate) parent: PageNo,
    pub(crate) root: bool,
    pub(crate) pages: u32,
}

// A page on a key's way, and where it is held.
#[derive(Clone, Copy)]
pub(crate) struct Place {
    pub(crate) level: u8,
    pub(crate) frame: Frame,
    pub(crate) top: Top,
}

// From a page above the leaves to its child on a key's way: one get.
#[tactic(auto, using(im_page_writer::proofs::Outcomes::then, im_page_writer::proofs::Outcomes::refused))]
fn step_down<D: Disk>(
    writer: &mut PageWriter,
    disk: &mut D,
    place: Place,
    key: &[u8],
    dense: bool,
) -> Result<Place, Fault>
    requires ready { IsReadyWriter D.Disk writer.old disk.old }
    requires at { IsAt writer.old.pool place.frame }
    requires page { HasLevel place.level (page_at writer.old.pool place.frame.number).body }
    requires inner { 1 ≤ place.level }
    requires counted { IsCounted place.level place.top }
    ensures outcome { Reads D.Disk writer.old disk.old writer.new disk.new (fault_of result) }
    ensures kept { (store : AllPages) → HasPages D.Disk AreLoaded store writer.old disk.old → IsGoodTree (bodies store) [] → IsPlaced dense (bodies store) key.now place.level place.frame.number place.top
        → IsSound result (λ next. IsPlaced dense (bodies store) key.now next.level next.frame.number next.top) }
    ensures stands { IfOk result (StandsAt writer.new.pool) }
    ensures level { IfOk result (λ next. next.level + 1 ≡ place.level) }
    ensures gets { OnOk result (writer.new.pool.gets ≡ writer.old.pool.gets + 1) }
{
    let level = place.level - 1;
    let page = writer.page(place.frame);
    let child = child_at(page, place.level, key);
    let room = key_room(page, place.level);
    let frame = tree_page(writer, disk, child, level)?;
    let bytes = up_in(writer.page(frame), level, dense);
    let fits = fits_in(room, bytes);
    Ok(next_place(place, frame, fits))
}

// The child's place, whose separator fits into its parent or not.
fn next_place(place: Place, child: Frame, fits: bool) -> Place
    requires inner { 1 ≤ place.level }
    requires counted { IsCounted place.level place.top }
    ensures level { result.level + 1 ≡ place.level }
    ensures frame { result.frame ≡ child }
    ensures counted { IsCounted result.level result.top }
    ensures fits { fits ≡ true → result.top ≡ record { level = result.level; page = child.number; parent = place.frame.number; root = false; pages = 1 } }
    ensures splits { fits ≡ false → result.top ≡ record place.top { pages = place.top.pages + 1 } }
{
    let level = place.level - 1;
    let mut top = place.top;
    if fits {
        top = Top {
            level,
            page: child.number,
            parent: place.frame.number,
            root: false,
            pages: 1,
        };
    } else {
        top.pages += 1;
    }
    Place {
        level,
        frame: child,
        top,
    }
}

/// The highest page that splits before a key's entry goes into its leaf, where splits are dense or not; none where the leaf has room for it.
/// It takes one get for each level.
///
/// Refused `NotAStore` where a page on the way is none of its level; otherwise as `PageWriter::get` is.
#[tactic(auto, using(im_page_writer::proofs::Outcomes::then, im_page_writer::proofs::Outcomes::refused))]
pub(crate) fn find_top<D: Disk>(
    writer: &mut PageWriter,
    disk: &mut D,
    key: &[u8],
    dense: bool,
) -> Result<Option<Top>, Fault>
    requires ready { IsReadyWriter D.Disk writer.old disk.old }
    requires short { length key.now ≤ 255 }
    ensures outcome { Reads D.Disk writer.old disk.old writer.new disk.new (fault_of result) }
    ensures kept { (store : AllPages) → HasPages D.Disk AreLoaded store writer.old disk.old → IsGoodTree (bodies store) [] → IsSound result (IsFound dense (bodies store) key.now) }
    ensures counted { IfOk result (λ found. IfSome found (IsCounted 0)) }
    ensures gets { (store : AllPages) → HasPages D.Disk AreLoaded store writer.old disk.old → IsGoodTree (bodies store) [] → OnOk result (writer.new.pool.gets ≡ writer.old.pool.gets + (height (bodies store) + 1)) }
{
    let frame = root(writer, disk)?;
    let level = writer.page(frame).level();
    let mut place = Place {
        level,
        frame,
        top: Top {
            level,
            page: 1,
            parent: 0,
            root: true,
            pages: 2,
        },
    };
    while 0 < place.level {
        place = step_down(writer, disk, place, key, dense)?;
    }
    if room_in(writer.page(place.frame), place.level, key.len()) {
        return Ok(None);
    }
    Ok(Some(place.top))
}
