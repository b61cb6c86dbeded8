//! What analysis hands out: the rows of its tables.

use im_base_types::{Lsn, PageNo, TxnId};

/// A transaction with a record and neither Commit nor End.
#[derive(Clone, Copy, Debug, PartialEq, Eq)]
pub struct Loser {
    /// The LSN of its last record.
    pub last: Lsn,
    /// The LSN of its next record to undo, 0 for none.
    pub undo_next: Lsn,
}

/// A record of the structure change that is open: what stood in its page before is to be put back.
#[derive(Clone, Copy, Debug, PartialEq, Eq)]
pub struct OpenRecord {
    /// The transaction whose structure change it is.
    pub transaction: TxnId,
    pub lsn: Lsn,
    pub page: PageNo,
}
