//! The folder into which a store is copied.
ghost use Rattle.std.specs.Prelude.{◌≡◌, false, IfOk, IfSome, OnOk};

use crate::copy_disk::CopyDisk;
use im_base_disk::Disk;
use im_base_types::{Fault, FileId};
use im_files_disk::{FileDisk, OpenError};
use std::path::Path;
use std::{fs, io};
use thiserror::Error;

/// The number that is printed where the folder of a copy may not be one.
const NOT_EMPTY: u8 = 111;

/// The number that is printed where a call on the files of a copy failed, of the system or of the copy's disk. The store goes on.
const NOT_COPIED: u8 = 112;

/// Why a copy was not made, in words for a user. `number` is what programs print.
#[derive(Debug, Drop, Error)]
pub enum NoCopy {
    /// The folder is that of the store, or lies in it.
    #[error("it is the folder of the store, or lies in it")]
    Inside,
    /// The files of the copy were not made, or did not get their names.
    #[error("{0}")]
    Target(OpenError),
    /// A call of the copy's disk failed, which was told when it did. The store goes on.
    #[error("the copy was given up: a call of its disk failed")]
    GivenUp,
    /// The store refused it.
    #[error("{0}")]
    Store(Fault),
}

impl NoCopy {
    /// The number of the refusal: where the store refused it, that of the fault; else one that no engine has, as in the library for C.
    pub fn number(&self) -> u8 {
        match self {
            NoCopy::Inside | NoCopy::Target(OpenError::NotEmpty) => NOT_EMPTY,
            NoCopy::Target(OpenError::Memory) => Fault::Memory.number(),
            NoCopy::Target(_) | NoCopy::GivenUp => NOT_COPIED,
            NoCopy::Store(fault) => fault.number(),
        }
    }
}

/// Makes the files of a copy in a folder, which is made where it is missing, and may not be that of the store, where the store has one, nor lie in it.
pub fn begun_copy<'a>(
    rt: &'a HostRuntime,
    store: Option<&str>,
    folder: &str,
) -> Result<CopyDisk<'a>, NoCopy>
    ensures { IfOk result (λ disk. ⟦<CopyDisk<'a> as Disk>⟧.failed disk ≡ false) }
{
    if let Some(store) = store {
        match lies_in(rt, store, folder) {
            Ok(false) => {}
            Ok(true) => return Err(NoCopy::Inside),
            Err(error) => return Err(NoCopy::Target(OpenError::from(error))),
        }
    }
    let name = format!(in rt.alloc(); "{folder}").map_err(|_| NoCopy::Store(Fault::Memory))?;
    match FileDisk::create_copy(rt, folder) {
        Ok(files) => Ok(CopyDisk::new(files, name, rt)),
        Err(error) => Err(NoCopy::Target(error)),
    }
}

/// Gives the files of a copy in a folder the names of a store, once all of it is written. Answers how many bytes it has, and its files.
pub fn named_copy<'a>(
    rt: &HostRuntime,
    disk: CopyDisk<'a>,
    folder: &str,
) -> Result<(u64, FileDisk), NoCopy>
    requires { ⟦<CopyDisk<'a> as Disk>⟧.failed disk ≡ false }
    ensures { IfOk result (λ made. ⟦<FileDisk as Disk>⟧.failed made.1 ≡ false) }
{
    let mut disk = disk;
    let Ok(bytes) = bytes_of(&mut disk) else {
        return Err(NoCopy::GivenUp);
    };
    match disk.into_files().name_copy(rt, folder) {
        Ok(files) => Ok((bytes, files)),
        Err(error) => Err(NoCopy::Target(error)),
    }
}

/// Makes the files of a load in a folder that is empty, or that is made with those above it. `None` for any other folder, and where they are not to be had.
pub fn begun_load<'a>(rt: &'a HostRuntime, dir: &str) -> Option<CopyDisk<'a>>
    ensures { IfSome result (λ disk. ⟦<CopyDisk<'a> as Disk>⟧.failed disk ≡ false) }
{
    let Ok(name) = format!(in rt.alloc(); "{dir}") else {
        return None;
    };
    match FileDisk::create_copy(rt, dir) {
        Ok(files) => Some(CopyDisk::new(files, name, rt)),
        Err(_) => None,
    }
}

/// Gives the files of a load in a folder the names of a store, once all of it is written, and hands them back.
///
/// Refused with an error of the system: then the load may or may not have been finished.
pub fn named_load<'a>(
    rt: &HostRuntime,
    disk: CopyDisk<'a>,
    dir: &str,
) -> Result<FileDisk, OpenError>
    requires { ⟦<CopyDisk<'a> as Disk>⟧.failed disk ≡ false }
    ensures { IfOk result (λ files. ⟦<FileDisk as Disk>⟧.failed files ≡ false) }
{
    disk.into_files().name_copy(rt, dir)
}

/// Takes the files of a copy away that was given up, or of a load. Where that fails they stay, and the folder is refused as half a copy.
pub fn clear_copy(rt: &HostRuntime, folder: &str) {
    for name in ["pages.part", "log2.part", "log.part"] {
        if let Ok(path) = format!(in rt.alloc(); "{folder}/{name}") {
            let _ = fs::remove_file(rt, path.as_str());
        }
    }
}

// How many bytes the files have together.
fn bytes_of<'a>(disk: &mut CopyDisk<'a>) -> Result<u64, Fault>
    requires { ⟦<CopyDisk<'a> as Disk>⟧.failed disk.old ≡ false }
    ensures { OnOk result (⟦<CopyDisk<'a> as Disk>⟧.failed disk.new ≡ false) }
{
    let log = disk.len(FileId::Log)?;
    let pages = disk.len(FileId::Pages)?;
    let log2 = disk.len(FileId::Log2)?;
    Ok(log.saturating_add(pages).saturating_add(log2))
}

// Whether a folder, which may not be there yet, is that of the store, or lies in it.
fn lies_in(rt: &HostRuntime, store: &str, folder: &str) -> io::Result<bool> {
    let store = fs::canonicalize(rt, store)?;
    for above in Path::new(folder).ancestors() {
        let name = above.as_os_str();
        let name = if name.is_empty() { "." } else { name };
        if !fs::exists(rt, name)? {
            continue;
        }
        let found = fs::canonicalize(rt, name)?;
        return Ok(found.starts_with(store.as_str()));
    }
    Ok(false)
}
