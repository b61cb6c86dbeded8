//! What is done with a disk once its store was closed in order.

use crate::causes::Causes;
use im_base_disk::Disk;
use im_base_mirror_disk::Mirrored;
use im_base_model_disk::ModelDisk;
use im_base_two_logs::Renamed;
use im_base_types::Fault;
use im_files_disk::FileDisk;
use im_files_scratch_disk::ScratchDisk;
use std::io::Write;

/// A disk that may have the files of a folder below it.
pub trait Ending {
    /// Gives back the room of the logs of a store that was closed in order, the one that it has left and the current one where that has no record, and lets the disk go. Nothing is done
    /// over a disk without files, or with such as are only read.
    ///
    /// Refused `Device`, and told: nothing is lost then, and each log is as long as it was, or cut.
    fn give_back<E: Write>(self, causes: &mut Causes<E>) -> Result<(), Fault>;
}

impl Ending for FileDisk {
    fn give_back<E: Write>(self, causes: &mut Causes<E>) -> Result<(), Fault> {
        let mut files = self;
        cut_logs(&mut files, causes)
    }
}

impl<D: Disk + Ending> Ending for Renamed<D> {
    fn give_back<E: Write>(self, causes: &mut Causes<E>) -> Result<(), Fault> {
        self.into_disk().give_back(causes)
    }
}

// A copy that was under way is let go.
impl<D: Disk + Ending, T: Disk + Drop> Ending for Mirrored<D, T> {
    fn give_back<E: Write>(self, causes: &mut Causes<E>) -> Result<(), Fault> {
        self.into_disk().give_back(causes)
    }
}

impl<D: Disk + Drop> Ending for ScratchDisk<D> {
    fn give_back<E: Write>(self, _causes: &mut Causes<E>) -> Result<(), Fault> {
        Ok(())
    }
}

impl Ending for ModelDisk {
    fn give_back<E: Write>(self, _causes: &mut Causes<E>) -> Result<(), Fault> {
        Ok(())
    }
}

/// Cuts the logs of the store of these files, and tells why, where one is not cut.
pub(crate) fn cut_logs<E: Write>(
    files: &mut FileDisk,
    causes: &mut Causes<E>,
) -> Result<(), Fault> {
    match files.cut_logs() {
        Ok(_bytes) => Ok(()),
        Err(fault) => {
            causes.tell(files);
            Err(fault)
        }
    }
}
