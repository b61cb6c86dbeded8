//! Where the undo of each loser goes on.

use im_base_types::{Lsn, TxnId};

/// A transaction that is being undone.
#[derive(Clone, Copy, Debug, PartialEq, Eq)]
pub(crate) struct Chain {
    pub transaction: TxnId,
    /// The LSN of its last record.
    pub last: Lsn,
    /// Where its undo goes on, as the log says it: it stays while compensations and ends of structure changes are passed over.
    pub undo_next: Lsn,
}
