//! A model disk with a new log and some pages, and a writer over it. What owns them has few exits: each drops them, which takes a proof each.
ghost use Rattle.std.specs.Prelude.{◌≡◌, false, IfOk};
ghost use Rattle.im_base_disk.specs.Runs.{IsSynced};
ghost use Rattle.im_page_writer.specs.PageWriter.{IsReadyWriter};

use im_base_disk::{Disk, read_vec};
use im_base_model_disk::ModelDisk;
use im_base_types::{Fault, FileId};
use im_log::open_or_create;
use im_page_writer::PageWriter;
use std::alloc::Global;
use std::test::Fail;

// The bytes of a new log.
fn new_log<D: Disk>(alloc: Global, disk: &mut D) -> Result<Vec<u8>, Fault>
    requires working { D.failed disk.old ≡ false }
    requires synced { IsSynced D.Disk disk.old }
{
    open_or_create(alloc, disk, 1)?;
    let size = disk.len(FileId::Log)?;
    read_vec(alloc, disk, FileId::Log, 0, size as usize)
}

// A disk with a new log and these pages.
fn disk_of(alloc: Global, pages: Vec<u8>) -> Result<ModelDisk, Fail>
    ensures working { IfOk result (λ disk. ⟦<ModelDisk as Disk>⟧.failed disk ≡ false) }
    ensures synced { IfOk result (λ disk. IsSynced ⟦<ModelDisk as Disk>⟧ disk) }
{
    let mut first = ModelDisk::new(Vec::new(alloc), Vec::new(alloc));
    let log = new_log(alloc, &mut first)?;
    Ok(ModelDisk::new(log, pages))
}

// A writer with 8 frames.
fn open<D: Disk>(alloc: Global, disk: &mut D) -> Result<PageWriter, Fault>
    requires working { D.failed disk.old ≡ false }
    requires synced { IsSynced D.Disk disk.old }
    ensures ready { IfOk result (λ w. IsReadyWriter D.Disk w disk.new) }
    ensures works { IfOk result (λ w. w.failed ≡ false) }
{
    let log = open_or_create(alloc, disk, 1)?;
    PageWriter::new(alloc, log, 8)
}

/// A disk with a new log and these pages, and a writer with 8 frames over it.
pub fn opened(alloc: Global, pages: Vec<u8>) -> Result<(PageWriter, ModelDisk), Fail>
    ensures ready { IfOk result (λ both. IsReadyWriter ⟦<ModelDisk as Disk>⟧ both.0 both.1) }
    ensures works { IfOk result (λ both. both.0.failed ≡ false) }
{
    let mut disk = disk_of(alloc, pages)?;
    let writer = open(alloc, &mut disk)?;
    Ok((writer, disk))
}

/// Ends both.
pub fn end(_writer: PageWriter, _disk: ModelDisk) {}
