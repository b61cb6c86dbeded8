//! The page of a number, in memory of its own.

ghost use Rattle.std.specs.Prelude.{◌≡◌, false, IfErr, IfOk, OnErr};
ghost use Rattle.im_base_types.specs.declared.fault.Fault.TheVariants.{Memory};
ghost use Rattle.im_page_writer.specs.PageWriter.{IsReadyWriter};
ghost use Rattle.im_page_writer.specs.Outcome.{fault_of, AllPages, AreLoaded, HasPages, IsSound};
ghost use Rattle.im_smo_pages.specs.Images.{without_image};
ghost use Rattle.im_smo_pages.specs.Seen.{page_in};
ghost use Rattle.im_smo_pages.specs.Kept.{Plans};

use crate::images::Images;
use im_base_disk::Disk;
use im_base_types::{Fault, PageNo};
use im_page::Page;
use im_page_writer::PageWriter;
use std::alloc::Global;

// A copy of a page.
fn copied(alloc: Global, page: &Page) -> Result<Box<Page>, Fault>
    ensures same { IfOk result (λ p. p.value ≡ page.now) }
    ensures refused { IfErr result (λ e. e ≡ Memory) }
{
    let mut copy = Box::new(alloc, Page::initial(0)).map_err(|_| Fault::Memory)?;
    match copy.load(page.bytes()) {
        Ok(()) => Ok(copy),
        Err(fault) => Err(fault),
    }
}

// A copy of the pool's page, which is held from now on as the most recently used.
fn pool_copy<D: Disk>(
    alloc: Global,
    writer: &mut PageWriter,
    disk: &mut D,
    number: PageNo,
) -> Result<Box<Page>, Fault>
    requires ready { IsReadyWriter D.Disk writer.old disk.old }
    requires working { writer.old.failed ≡ false }
    ensures outcome { Plans D.Disk writer.old disk.old writer.new disk.new (fault_of result) }
    ensures kept { (pages : AllPages) → HasPages D.Disk AreLoaded pages writer.old disk.old → IsSound result (λ p. p.value ≡ pages number) }
{
    let frame = writer.get(disk, number)?;
    copied(alloc, writer.page(frame))
}

/// The page of a number as the structure change has it, in memory of its own: taken out of the images, where it is among
/// them, and otherwise a copy of the pool's page, which is held from now on as the most recently used. Whoever changes it
/// puts it back.
///
/// Refused, with the images as they were, `Memory`, `LogFull`, `Device`, or `NotAStore` where the page's bytes are none.
pub fn image<D: Disk>(
    alloc: Global,
    images: &mut Images,
    writer: &mut PageWriter,
    disk: &mut D,
    number: PageNo,
) -> Result<Box<Page>, Fault>
    requires ready { IsReadyWriter D.Disk writer.old disk.old }
    requires working { writer.old.failed ≡ false }
    ensures outcome { Plans D.Disk writer.old disk.old writer.new disk.new (fault_of result) }
    ensures kept { (pages : AllPages) → HasPages D.Disk AreLoaded pages writer.old disk.old → IsSound result (λ p. p.value ≡ page_in pages images.old number) }
    ensures images { images.new ≡ without_image number images.old }
    ensures same { OnErr result (images.new ≡ images.old) }
{
    match images.take(number) {
        Some(page) => Ok(page),
        None => pool_copy(alloc, writer, disk, number),
    }
}
