//! Why a folder's files were not opened.
ghost use Rattle.std.specs.Prelude.{◌≡◌};
ghost use Rattle.im_files_disk.specs.RealFiles.{fault_of_opening, SaysApart};

use crate::disk_error::file_name;
use im_base_types::{Fault, FileId};
use im_files_belonging::Apart;
use std::io;
use std::io::ErrorKind;
use thiserror::Error;

/// What kept `FileDisk` from the files of a folder, in words for a user. `fault` is the refusal that
/// programs print.
#[derive(Debug, Drop, Error)]
pub enum OpenError {
    /// The folder is not there, and it or a folder above it cannot be made.
    #[error("there is no such folder, and it cannot be made: {0}")]
    NoFolder(io::Error),
    /// The name, or one above it, is that of something else.
    #[error("it is no folder, or lies under something that is none")]
    NotAFolder,
    /// The system does not let the program read or write there.
    #[error("the system does not allow it: {0}")]
    Denied(io::Error),
    /// The name stands in the folder for something else than a plain file.
    #[error("`{0}` in it is no plain file")]
    NotAFile(&'static str),
    /// The folder has no file of that name, and none was to be made.
    #[error("there is no `{0}` in it")]
    NoFile(&'static str),
    /// There is no `log2` beside a `log` of the second format, which was made together with it. Some tools leave out empty files in a copy.
    #[error("there is no `log2` in it: bring it back; if it was empty, as in a store that never switched, an empty file will do")]
    NoOtherLog,
    /// A log says that it was made, so that there was a file of pages beside it: it is missing.
    #[error("there is no `pages` in it beside a log that was made: the pages of the store are missing")]
    NoPages,
    /// The file of pages is shorter than it was when the current log began: it was cut, or emptied.
    #[error("`pages` in it lacks pages that the store had when its log began")]
    ShortPages,
    /// The file of pages lacks the newest change of the log that was left for the current one, which had every change in it.
    #[error("`pages` in it is older than its logs: it lacks the newest change from before the last switch")]
    OlderPages,
    /// Neither log says that it was made, and this one is longer than a stop leaves one of which that is true: its first
    /// byte is damaged, or it is a file of another program. It is left as it is.
    #[error("`{0}` in it does not begin as the log of a store")]
    NotALog(&'static str),
    /// The folder has a `log.part`: a copy into it goes on, or was not finished. It is left as it is.
    #[error("a copy or a load into it was not finished")]
    Unfinished,
    /// The folder of a copy that is to be made has something in it.
    #[error("it is not empty")]
    NotEmpty,
    /// Another opening, of this program or of another, holds the files.
    #[error("the store is open elsewhere")]
    Locked,
    /// There was no memory.
    #[error("out of memory")]
    Memory,
    /// The files got the descriptors of standard input, output or error.
    #[error("no descriptor is left but those of the standard streams")]
    NoDescriptor,
    /// Any other error of the system.
    #[error("{0}")]
    System(io::Error),
}

impl OpenError {
    /// The refusal: `NotAStore` where the folder has other files or none, `Locked`, `Memory`, and `Device` for all else.
    pub fn fault(&self) -> Fault
        ensures { result ≡ fault_of_opening self.now }
    {
        match self {
            OpenError::NotAFile(_) => Fault::NotAStore,
            OpenError::NoFile(_) => Fault::NotAStore,
            OpenError::NoOtherLog => Fault::NotAStore,
            OpenError::NoPages => Fault::NotAStore,
            OpenError::ShortPages => Fault::NotAStore,
            OpenError::OlderPages => Fault::NotAStore,
            OpenError::NotALog(_) => Fault::NotAStore,
            OpenError::Unfinished => Fault::NotAStore,
            OpenError::NotEmpty => Fault::Device,
            OpenError::Locked => Fault::Locked,
            OpenError::Memory => Fault::Memory,
            OpenError::NoFolder(_) => Fault::Device,
            OpenError::NotAFolder => Fault::Device,
            OpenError::Denied(_) => Fault::Device,
            OpenError::NoDescriptor => Fault::Device,
            OpenError::System(_) => Fault::Device,
        }
    }
}

impl From<Apart> for OpenError {
    ghost from_gives = { λ why error. SaysApart error why };

    fn from(why: Apart) -> OpenError {
        match why {
            Apart::NoFile(FileId::Log) => OpenError::NoFile("log"),
            Apart::NoFile(FileId::Log2) => OpenError::NoOtherLog,
            Apart::NoFile(FileId::Pages) => OpenError::NoFile("pages"),
            Apart::Unfinished => OpenError::Unfinished,
            Apart::NoPages => OpenError::NoPages,
            Apart::ShortPages => OpenError::ShortPages,
            Apart::NotALog(file) => OpenError::NotALog(file_name(file)),
        }
    }
}

impl From<io::Error> for OpenError {
    fn from(error: io::Error) -> OpenError {
        match error.kind() {
            ErrorKind::NotFound => OpenError::NoFolder(error),
            ErrorKind::NotADirectory => OpenError::NotAFolder,
            ErrorKind::AlreadyExists => OpenError::NotAFolder,
            ErrorKind::PermissionDenied => OpenError::Denied(error),
            ErrorKind::OutOfMemory => OpenError::Memory,
            _ => OpenError::System(error),
        }
    }
}
