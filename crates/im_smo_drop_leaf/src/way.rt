//! The way down to the leaf that goes, and the chain of pages that goes with it.

ghost use Rattle.std.specs.Prelude.{◌≡◌, ◌↔◌, [], ◌∷◌, ◌++◌, false, IfErr, IfOk, OnOk, IsTrue};
ghost use Rattle.im_base_types.specs.declared.fault.Fault.TheVariants.{Memory};
ghost use Rattle.im_page_writer.specs.PageWriter.{IsReadyWriter};
ghost use Rattle.im_page_writer.specs.Outcome.{fault_of, AllPages, AreLoaded, HasPages, IsSound};
ghost use Rattle.im_theory_tree.specs.Good.{IsGoodTree};
ghost use Rattle.im_theory_tree.specs.Levels.{Pages};
ghost use Rattle.im_smo_pages.specs.Seen.{bodies};
ghost use Rattle.im_smo_pages.specs.Kept.{Plans};
ghost use Rattle.im_tree_search.specs.declared.child_place.ChildPlace.TheVariants.{Only};
ghost use Rattle.im_smo_drop_leaf.specs.Emptied.{SameAbove};
ghost use Rattle.im_smo_drop_leaf.specs.Ways.{IsNext, IsPlaced};

use im_base_disk::Disk;
use im_base_types::{Fault, PageNo};
use im_page_writer::PageWriter;
use im_tree_search::{Child, ChildPlace, child_of, level_of};
use std::alloc::Global;

/// A page on a key's way, and where the chain of pages with one child begins that it ends: under page `parent`, at that place.
#[derive(Clone, Copy)]
pub(crate) struct Place {
    pub(crate) number: PageNo,
    pub(crate) parent: PageNo,
    pub(crate) place: ChildPlace,
}

/// Whether a child has no other beside it.
pub(crate) fn is_only(place: ChildPlace) -> bool
    ensures { IsTrue result ↔ (place ≡ Only) }
{
    match place {
        ChildPlace::Only => true,
        ChildPlace::Leftmost => false,
        ChildPlace::Entry(_) => false,
    }
}

// Notes a number.
fn push_number(numbers: &mut Vec<PageNo>, number: PageNo) -> Result<(), Fault>
    ensures new { OnOk result (numbers.new.items ≡ numbers.old.items ++ number ∷ []) }
    ensures refused { IfErr result (λ e. e ≡ Memory) }
{
    numbers.push(number).map_err(|_| Fault::Memory)?;
    Ok(())
}

// From a page to its child: a page with no other child joins the chain, and another one begins a new chain, as the root does.
fn next_place(above: &mut Vec<PageNo>, place: Place, child: Child) -> Result<Place, Fault>
    ensures next { IfOk result (λ next. IsNext place child next above.old.items above.new.items) }
    ensures refused { IfErr result (λ e. e ≡ Memory) }
{
    if is_only(child.place) && place.number != 1 {
        push_number(above, place.number)?;
        return Ok(Place {
            number: child.number,
            parent: place.parent,
            place: place.place,
        });
    }
    above.clear();
    Ok(Place {
        number: child.number,
        parent: place.number,
        place: child.place,
    })
}

/// The leaf of a key, and the chain of pages with one child each that it ends; `above` are the pages of the chain in front of
/// the leaf, from the top down. It reads no leaf but for its kind and level, so what it finds is so of each tree with the same pages above its leaves.
///
/// Refused `NotAStore` where a page on the way is none of its level, `Memory` also where there is none for the numbers; otherwise
/// as `PageWriter::get` is.
pub(crate) fn find_chain<D: Disk>(
    above: &mut Vec<PageNo>,
    writer: &mut PageWriter,
    disk: &mut D,
    key: &[u8],
) -> Result<Place, Fault>
    requires ready { IsReadyWriter D.Disk writer.old disk.old }
    requires working { writer.old.failed ≡ false }
    ensures outcome { Plans D.Disk writer.old disk.old writer.new disk.new (fault_of result) }
    ensures kept { (pages : AllPages) (tree : Pages) → HasPages D.Disk AreLoaded pages writer.old disk.old → SameAbove (bodies pages) tree → IsGoodTree tree []
        → IsSound result (λ leaf. IsPlaced tree key.now leaf.parent leaf.place 0 leaf.number above.new.items) }
{
    let mut level = level_of(writer, disk, 1)?;
    let mut place = Place {
        number: 1,
        parent: 1,
        place: ChildPlace::Only,
    };
    while 0 < level {
        let child = child_of(writer, disk, place.number, level, key)?;
        place = next_place(above, place, child)?;
        level -= 1;
    }
    Ok(place)
}
