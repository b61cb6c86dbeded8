//! What a disk says of a call that failed.

use im_base_disk::Disk;
use im_base_mirror_disk::Mirrored;
use im_base_model_disk::ModelDisk;
use im_base_two_logs::Renamed;
use im_files_disk::{DiskError, FileDisk};
use im_files_scratch_disk::ScratchDisk;
use std::io::Write;

/// A disk that may say why its last call failed.
pub trait Cause {
    /// The last call that failed, with what the system said. None where the disk knows none.
    fn cause(&self) -> Option<&DiskError>;
}

impl Cause for FileDisk {
    fn cause(&self) -> Option<&DiskError> {
        self.last_error()
    }
}

impl<D: Disk + Cause> Cause for Renamed<D> {
    fn cause(&self) -> Option<&DiskError> {
        self.disk().cause()
    }
}

impl<D: Disk + Cause + Drop> Cause for ScratchDisk<D> {
    fn cause(&self) -> Option<&DiskError> {
        match self.base() {
            Some(base) => base.cause(),
            None => None,
        }
    }
}

// Of the copy its own disk tells.
impl<D: Disk + Cause, T: Disk + Drop> Cause for Mirrored<D, T> {
    fn cause(&self) -> Option<&DiskError> {
        self.disk().cause()
    }
}

impl Cause for ModelDisk {
    fn cause(&self) -> Option<&DiskError> {
        None
    }
}

/// Where causes are told, each once.
#[derive(Drop)]
pub struct Causes<'a, W> {
    pub writer: W,
    /// What stands in front: the name of the folder.
    pub dir: &'a str,
    pub is_told: bool,
}

impl<'a, W: Write> Causes<'a, W> {
    /// Tells the disk's last error, unless one was told. Where that cannot be written nobody reads it, and the run goes on.
    pub fn tell<D: Disk + Cause>(&mut self, disk: &D) {
        if self.is_told {
            return;
        }
        if let Some(error) = disk.cause() {
            self.is_told = true;
            let _ = writeln!(self.writer, "imstore: {}: {error}", self.dir);
        }
    }

    /// Tells, unless a cause was told, who names what is broken in a store that is open.
    pub fn tell_broken(&mut self) {
        if self.is_told {
            return;
        }
        self.is_told = true;
        let _ = writeln!(
            self.writer,
            "imstore: {}: what was read is no page of this store: close it, and `imstore --check` names what is broken",
            self.dir
        );
    }
}
