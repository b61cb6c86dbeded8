//! What is wrong between a file of pages and its log.

use im_base_types::{Lsn, PageNo};
use thiserror::Error;

/// A page, or a length, that no store leaves beside this log: the two files do not belong together, or one of them was damaged.
#[derive(Clone, Copy, Debug, PartialEq, Eq, Error)]
pub enum PageDamage {
    #[error("pages: the file has {0} whole pages, and it was synced with page {1}: pages are missing")]
    Short(u64, u64),
    #[error("pages: the file has {0} whole pages, and the log names none from {1} on: the log was cut, or is older than the pages")]
    Long(u64, u64),
    #[error("page {0}: its LSN is {1}, and the log ends at {2}: the log was cut, or is older than the page")]
    PastTheLog(PageNo, Lsn, u64),
    #[error("page {0}: its LSN is {1}, and its file was synced with its record at {2}: the page is older than the log")]
    Older(PageNo, Lsn, Lsn),
    #[error("page 0: it says {0} pages, and the record that wrote it says {1}")]
    Count(PageNo, PageNo),
    #[error("page 0: it says {0} pages, and the log names page {1}: a record of the log is damaged, or the page is older than the log")]
    Names(PageNo, u64),
}
