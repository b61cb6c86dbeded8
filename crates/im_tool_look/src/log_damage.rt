//! What is broken in a log.

use im_base_types::{Fault, Lsn, PageNo};
use thiserror::Error;

/// What of a log is not as a store leaves it. A text is the name of its file, and a place is counted in bytes from the front of that file.
#[derive(Clone, Copy, Debug, PartialEq, Eq, Error)]
pub enum LogDamage {
    #[error("{0}: its header is none of a store")]
    NoHeader(&'static str),
    #[error("log, log2: both are of generation {0}, so that none is the newer one")]
    SameGeneration(u64),
    #[error("{0}: no whole batch behind the open gate at {1}")]
    BrokenBatch(&'static str, Lsn),
    #[error("{0}: no record at {1}")]
    NoRecord(&'static str, Lsn),
    /// A record names a page that is past all that the records before it can have made.
    #[error("{0}: a record names page {1}, which no record has made")]
    NoPage(&'static str, PageNo),
    /// A record that analysis does not take where it stands.
    #[error("{0}: the record at {1} names a page or an earlier record that is not there, or opens a structure change within another transaction's")]
    Misplaced(&'static str, Lsn),
    /// Not what is broken: what kept it from being read.
    #[error("{0}")]
    Unread(Fault),
}
