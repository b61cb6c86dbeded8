//! An entry of the dirty table.
use im_base_types::{Lsn, PageNo};

/// A page that may lack changes in its file.
#[derive(Clone, Copy, Debug, PartialEq, Eq)]
pub struct TableEntry {
    pub page: PageNo,
    /// The LSN from which on the page may lack changes in its file.
    pub rec_lsn: Lsn,
    /// The LSN of the first change after the page's last write, none where it has not changed since.
    pub since: Option<Lsn>,
    /// Known: the log has a full copy of the page, at or after its redo point. Where it is not known, it may have one all the same.
    pub copied: bool,
}
