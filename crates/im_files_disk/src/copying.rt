//! The files of a copy: `log.part`, `pages.part` and `log2.part` until all of it is written, and then those of a store.
//!
//! An opening of the folder is refused as long as there is a `log.part`, whatever else is there, so that half a copy never passes for a store. Therefore that
//! one is made first, and gets its name last.
ghost use Rattle.std.specs.Prelude.{◌≡◌, false, IfOk};
ghost use Rattle.im_files_disk.specs.RealFiles.{IsNoStandardFile, HasOwnDescriptors};

use crate::file_disk::{Sharing, lock, open_file, open_folder, path_of_file, sync_all};
use crate::folders::{make_folders, sync_folders};
use crate::{FileDisk, OpenError};
use im_base_disk::Disk;
use std::fs::{self, File, OpenOptions};

impl FileDisk {
    /// Makes the files of a copy in a folder that is empty, or that it makes with those above it. They have no byte. As long as the disk is not dropped it holds the
    /// lock on `log.part`, and so on the `log` of the copy once that has its name. The descriptors are as `open` has them.
    ///
    /// Refused `NotEmpty` where anything is in the folder. The other errors are the system's: then what it made of these files is taken away.
    pub fn create_copy(rt: &HostRuntime, dir: &str) -> Result<FileDisk, OpenError>
        ensures working { IfOk result (λ disk. ⟦<FileDisk as Disk>⟧.failed disk ≡ false) }
        ensures descriptors { IfOk result HasOwnDescriptors }
    {
        make_folders(rt, dir)?;
        // As long as these three stand, no file that is opened gets the descriptor of a standard stream.
        let _first = open_folder(rt, dir)?;
        let _second = open_folder(rt, dir)?;
        let _third = open_folder(rt, dir)?;
        if !is_empty(rt, dir)? {
            return Err(OpenError::NotEmpty);
        }
        let log = made_part(rt, dir, "log.part")?;
        match rest_of_copy(rt, dir, log) {
            Ok(disk) => Ok(disk),
            Err(error) => {
                let _ = remove_parts(rt, dir);
                Err(error)
            }
        }
    }

    /// Ends a copy that `create_copy` began in this folder: brings its files to the disk, gives them the names of a store, `log` last, and brings the folder to the disk and each
    /// above it. A stop on the way leaves a folder that is refused, or the whole copy. The disk is handed back, and has the lock still.
    ///
    /// Refused with an error of the system: then the copy may or may not have been finished.
    pub fn name_copy(self, rt: &HostRuntime, dir: &str) -> Result<FileDisk, OpenError>
        ensures same { IfOk result (λ disk. disk ≡ self) }
    {
        self.sync_files()?;
        let folder = open_folder(rt, dir)?;
        rename(rt, dir, "pages.part", "pages")?;
        rename(rt, dir, "log2.part", "log2")?;
        // A `log` must not come to the disk before the others have.
        sync_all(&[&folder])?;
        rename(rt, dir, "log.part", "log")?;
        sync_folders(rt, dir)?;
        Ok(self)
    }
}

// Takes the files of a copy away that was not begun to its end, `log.part` last.
fn remove_parts(rt: &HostRuntime, dir: &str) -> Result<(), OpenError> {
    for name in ["pages.part", "log2.part", "log.part"] {
        let path = path_of_file(rt, dir, name)?;
        if fs::exists(rt, path.as_str())? {
            fs::remove_file(rt, path.as_str())?;
        }
    }
    Ok(())
}

// The disk of a copy whose `log.part` was made.
fn rest_of_copy(rt: &HostRuntime, dir: &str, log: File) -> Result<FileDisk, OpenError>
    requires { IsNoStandardFile log }
    ensures working { IfOk result (λ disk. ⟦<FileDisk as Disk>⟧.failed disk ≡ false) }
    ensures descriptors { IfOk result HasOwnDescriptors }
{
    lock(&log, Sharing::Nobody)?;
    // An opening that looked for `log.part` before it was there has made `log` by now.
    let other = path_of_file(rt, dir, "log")?;
    if fs::exists(rt, other.as_str())? {
        return Err(OpenError::NotEmpty);
    }
    let pages = made_part(rt, dir, "pages.part")?;
    let log2 = made_part(rt, dir, "log2.part")?;
    Ok(FileDisk::of(log, pages, Some(log2)))
}

// A file of a copy, which must not have been there.
fn made_part(rt: &HostRuntime, dir: &str, name: &'static str) -> Result<File, OpenError>
    ensures { IfOk result IsNoStandardFile }
{
    let mut options = OpenOptions::new();
    options.read(true).write(true).create_new(true);
    let path = path_of_file(rt, dir, name)?;
    if fs::exists(rt, path.as_str())? {
        return Err(OpenError::NotEmpty);
    }
    open_file(rt, path.as_str(), &options)
}

fn is_empty(rt: &HostRuntime, dir: &str) -> Result<bool, OpenError> {
    let mut entries = fs::read_dir(rt, dir)?;
    match entries.next() {
        None => Ok(true),
        Some(Ok(_)) => Ok(false),
        Some(Err(error)) => Err(OpenError::from(error)),
    }
}

fn rename(
    rt: &HostRuntime,
    dir: &str,
    from: &'static str,
    to: &'static str,
) -> Result<(), OpenError> {
    let from = path_of_file(rt, dir, from)?;
    let to = path_of_file(rt, dir, to)?;
    fs::rename(rt, from.as_str(), to.as_str())?;
    Ok(())
}
