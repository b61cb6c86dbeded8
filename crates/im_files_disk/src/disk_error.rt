//! The calls of the system that failed.

use im_base_types::FileId;
use std::fmt::{Display, Formatter, Write};
use std::{fmt, io};

/// A call of the disk. A read and a write have the place of their first byte, a cut the place of the first byte that goes.
#[derive(Clone, Copy, Debug, PartialEq, Eq)]
pub enum DiskCall {
    Len,
    Read(u64),
    Write(u64),
    Sync,
    Cut(u64),
}

/// A call of the disk that failed: which it was, on which file of the folder, and what the system said. Its words are one line.
#[derive(Debug, Drop)]
pub struct DiskError {
    pub call: DiskCall,
    pub file: FileId,
    pub error: io::Error,
}

/// The name of a file of a store in its folder.
pub(crate) fn file_name(file: FileId) -> &'static str {
    match file {
        FileId::Log => "log",
        FileId::Pages => "pages",
        FileId::Log2 => "log2",
    }
}

impl Display for DiskError {
    fn fmt<W: Write>(&self, f: &mut Formatter<W>) -> fmt::Result {
        let name = file_name(self.file);
        match self.call {
            DiskCall::Len => write!(f, "the length of `{name}` was not answered: {}", self.error),
            DiskCall::Read(at) => write!(
                f,
                "a read of `{name}` at byte {at} failed: {}",
                self.error
            ),
            DiskCall::Write(at) => {
                write!(f, "a write to `{name}` at byte {at} failed: {}", self.error)
            }
            DiskCall::Sync => write!(f, "a sync of `{name}` failed: {}", self.error),
            DiskCall::Cut(end) => {
                write!(f, "`{name}` was not cut to {end} bytes: {}", self.error)
            }
        }
    }
}
