//! Copies of the files of a store, which are changed and looked at.
ghost use Rattle.std.specs.Prelude.{◌≡◌, false};

use im_base_disk::{Disk, read_vec};
use im_base_types::{Fault, FileId};
use im_files_disk::FileDisk;
use im_files_scratch_disk::ScratchDisk;
use im_tool::check_text;
use im_tool_files::Untold;
use std::alloc::Global;
use std::fs;
use std::test::Fail;
use std::thread::Threads;

/// Where a store's first log has its first gate.
pub(crate) const FIRST_GATE: usize = 47;

// A disk in memory.
pub(crate) type Scratch = ScratchDisk<FileDisk>;

// The bytes of the three files.
#[derive(Drop)]
pub(crate) struct Copies {
    pub(crate) log: Vec<u8>,
    pub(crate) pages: Vec<u8>,
    pub(crate) log2: Vec<u8>,
}

// The bytes of a file in a folder.
pub(crate) fn file_in(rt: &HostRuntime, folder: &str, name: &str) -> Result<Vec<u8>, Fail> {
    let path = format!(in rt.alloc(); "{folder}/{name}")?;
    Ok(fs::read(rt, path.as_str())?)
}

// The files of the store that a folder has.
pub(crate) fn copies_in(rt: &HostRuntime, folder: &str) -> Result<Copies, Fail> {
    Ok(Copies {
        log: file_in(rt, folder, "log")?,
        pages: file_in(rt, folder, "pages")?,
        log2: file_in(rt, folder, "log2")?,
    })
}

// The same, and the folder goes.
pub(crate) fn taken_from(rt: &HostRuntime, folder: &str) -> Result<Copies, Fail> {
    let copies = copies_in(rt, folder)?;
    fs::remove_dir_all(rt, folder)?;
    Ok(copies)
}

// The bytes of a file of a disk.
fn file_of(alloc: Global, disk: &mut Scratch, file: FileId) -> Result<Vec<u8>, Fault> {
    if disk.has_failed() {
        return Err(Fault::Device);
    }
    let length = disk.len(file)?;
    read_vec(alloc, disk, file, 0, length as usize)
}

// The files of a disk.
pub(crate) fn copies_of(alloc: Global, disk: &mut Scratch) -> Result<Copies, Fault> {
    Ok(Copies {
        log: file_of(alloc, disk, FileId::Log)?,
        pages: file_of(alloc, disk, FileId::Pages)?,
        log2: file_of(alloc, disk, FileId::Log2)?,
    })
}

// Writes these files.
fn write_files<D: Disk>(disk: &mut D, copies: &Copies) -> Result<(), Fault>
    requires working { D.failed disk.old ≡ false }
{
    disk.write_at(FileId::Log, 0, &copies.log)?;
    disk.write_at(FileId::Pages, 0, &copies.pages)?;
    disk.write_at(FileId::Log2, 0, &copies.log2)
}

// A disk with these files.
pub(crate) fn scratch(alloc: Global, copies: &Copies) -> Result<Scratch, Fault> {
    let mut disk = ScratchDisk::new(alloc, None);
    match write_files(&mut disk, copies) {
        Ok(()) => Ok(disk),
        Err(fault) => Err(fault),
    }
}

// The same bytes once more.
pub(crate) fn copied(alloc: Global, copies: &Copies) -> Result<Copies, Fail> {
    Ok(Copies {
        log: Vec::from_slice(alloc, &copies.log)?,
        pages: Vec::from_slice(alloc, &copies.pages)?,
        log2: Vec::from_slice(alloc, &copies.log2)?,
    })
}

// Lays bytes over others from a place on, as far as both go.
pub(crate) fn lay(over: &mut [u8], at: usize, bytes: &[u8]) {
    if let Some(room) = over.get_mut(at..) {
        let size = room.len().min(bytes.len());
        room[..size].copy_from_slice(&bytes[..size]);
    }
}

// What the check says of files, with its status, which is 255 where that could not be written.
pub(crate) fn said_of<R: Threads + Sync>(
    rt: &R,
    alloc: Global,
    copies: &Copies,
) -> Result<(u8, Vec<u8>), Fault> {
    let disk = scratch(alloc, copies)?;
    let mut printed = Vec::new(alloc);
    let (status, _disk) = check_text(rt, alloc, &mut printed, disk, &mut Untold);
    Ok((status.unwrap_or(u8::MAX), printed))
}

// Whether the check of a store finds no damage.
pub(crate) fn is_whole<R: Threads + Sync>(
    rt: &R,
    alloc: Global,
    copies: &Copies,
) -> Result<bool, Fault> {
    let (status, printed) = said_of(rt, alloc, copies)?;
    Ok(status == 0 && printed.as_slice() == b"ok\n".as_slice())
}
