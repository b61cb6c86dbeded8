//! The folders above real files: made where they are missing, and brought to the disk.

use crate::OpenError;
use std::fs::{self, File};
use std::io;
use std::io::ErrorKind;
use std::path::Path;

/// Makes the folder where there is none, and those above it.
pub(crate) fn make_folders(rt: &HostRuntime, dir: &str) -> Result<(), OpenError> {
    match fs::create_dir_all(rt, dir) {
        Ok(()) => Ok(()),
        Err(error) => Err(OpenError::from(error)),
    }
}

/// Brings the folder and each above it to the disk, so that a power cut takes none of them. This life may have made
/// them, or one that ended before it synced them. Those that the program may not read it has not made.
pub(crate) fn sync_folders(rt: &HostRuntime, dir: &str) -> io::Result<()> {
    for folder in Path::new(dir).ancestors() {
        let name = folder.as_os_str();
        sync_folder(rt, if name.is_empty() { "." } else { name })?;
    }
    Ok(())
}

fn sync_folder(rt: &HostRuntime, dir: &str) -> io::Result<()> {
    match File::open(rt, dir) {
        Ok(folder) => folder.sync_all(),
        Err(error) if error.kind() == ErrorKind::PermissionDenied => Ok(()),
        Err(error) => Err(error),
    }
}
