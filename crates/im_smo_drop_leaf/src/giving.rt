//! The pages of the chain are given back.

ghost use Rattle.std.specs.Prelude.{◌≡◌, [], ◌∷◌, ◌++◌, false};
ghost use Rattle.im_page_writer.specs.PageWriter.{IsReadyWriter};
ghost use Rattle.im_page_writer.specs.Outcome.{fault_of, AllPages, IsSound};
ghost use Rattle.im_smo_pages.specs.Kept.{HasImages, Plans};
ghost use Rattle.im_smo_drop_leaf.specs.Given.{IsGiven};

use im_base_disk::Disk;
use im_base_types::{Fault, PageNo};
use im_page_writer::PageWriter;
use im_smo_pages::{Images, free};
use std::alloc::Global;

/// Gives the pages of a chain back, the leaf at its end first and then the others, from the last to the first.
///
/// Refused as `free` is. After a refusal the images are of no use.
pub(crate) fn give_back<D: Disk>(
    alloc: Global,
    images: &mut Images,
    writer: &mut PageWriter,
    disk: &mut D,
    above: &mut Vec<PageNo>,
    leaf: PageNo,
) -> Result<(), Fault>
    requires ready { IsReadyWriter D.Disk writer.old disk.old }
    requires working { writer.old.failed ≡ false }
    ensures outcome { Plans D.Disk writer.old disk.old writer.new disk.new (fault_of result) }
    ensures kept { (pages : AllPages) → HasImages D.Disk pages images.old (above.old.items ++ leaf ∷ []) writer.old disk.old
        → IsSound result (λ _. IsGiven pages images.old images.new leaf above.old.items []) }
{
    free(alloc, images, writer, disk, leaf)?;
    while let Some(number) = above.pop() {
        free(alloc, images, writer, disk, number)?;
    }
    Ok(())
}
