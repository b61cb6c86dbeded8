//! Pages taken and given back on a new store.
ghost use Rattle.std.specs.Prelude.{◌≡◌, false, OnOk};
ghost use Rattle.im_page_writer.specs.PageWriter.{IsReadyWriter};

use crate::shared::{end, opened};
use im_base_disk::Disk;
use im_base_model_disk::ModelDisk;
use im_base_types::{Fault, PageNo};
use im_page_writer::PageWriter;
use im_smo_pages::{Images, allocate, free};
use std::alloc::Global;
use std::process::Abort;
use std::test::Fail;

// The first free page, and how many are free, by page 0 among the images.
fn free_list(images: &Images) -> Option<(PageNo, PageNo)> {
    match images.find(0) {
        Ok(i) => {
            let meta = images.page(i);
            Some((meta.next(), meta.prev()))
        }
        Err(_) => None,
    }
}

// Takes so many pages, and answers the last one's number.
fn take_many<D: Disk>(
    alloc: Global,
    images: &mut Images,
    writer: &mut PageWriter,
    disk: &mut D,
    count: u32,
) -> Result<PageNo, Fault>
    requires ready { IsReadyWriter D.Disk writer.old disk.old }
    requires working { writer.old.failed ≡ false }
    ensures ready { IsReadyWriter D.Disk writer.new disk.new }
    ensures works { OnOk result (writer.new.failed ≡ false) }
{
    let mut last = 0;
    for _taken in 0..count {
        last = allocate(alloc, images, writer, disk)?;
    }
    Ok(last)
}

// Gives the pages from this one on back, so many.
fn give_many<D: Disk>(
    alloc: Global,
    images: &mut Images,
    writer: &mut PageWriter,
    disk: &mut D,
    first: PageNo,
    count: u32,
) -> Result<(), Fault>
    requires ready { IsReadyWriter D.Disk writer.old disk.old }
    requires working { writer.old.failed ≡ false }
{
    for n in 0..count {
        free(alloc, images, writer, disk, first.wrapping_add(n))?;
    }
    Ok(())
}

// No run of a store comes to a structure change of so many pages: its tree would have some thirty levels.
#[test]
fn a_change_takes_and_gives_back_as_many_pages_as_it_wants(rt: HostRuntime) -> Result<(), Fail> {
    let alloc = rt.alloc();
    let (mut writer, mut disk) = opened(alloc, Vec::new(alloc))?;
    let mut images = Images::new(alloc);
    let told = take_and_give(&rt, alloc, &mut images, &mut writer, &mut disk);
    end(writer, disk);
    told
}

// Takes 30 pages, and gives them back.
fn take_and_give(
    rt: &impl Abort,
    alloc: Global,
    images: &mut Images,
    writer: &mut PageWriter,
    disk: &mut ModelDisk,
) -> Result<(), Fail>
    requires ready { IsReadyWriter ⟦<ModelDisk as Disk>⟧ writer.old disk.old }
    requires working { writer.old.failed ≡ false }
{
    let last = take_many(alloc, images, writer, disk, 30)?;
    assert!(rt; (last, images.len()) == (31, 31));
    give_many(alloc, images, writer, disk, 2, 30)?;
    assert!(rt; free_list(images) == Some((31, 30)));
    Ok(())
}
