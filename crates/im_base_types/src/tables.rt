//! The rows of the two tables that a checkpoint writes.

/// A transaction that was active when a checkpoint was taken.
#[derive(Clone, Copy, Debug, PartialEq, Eq)]
pub struct ActiveTransaction {
    pub transaction: u64,
    /// The LSN of its last record.
    pub last: u64,
    /// The LSN of its next record to undo, 0 for none.
    pub undo_next: u64,
}

/// A page that was dirty when a checkpoint was taken.
#[derive(Clone, Copy, Debug, PartialEq, Eq)]
pub struct DirtyPage {
    pub page: u32,
    /// The LSN from which on the page may lack changes in its file.
    pub rec_lsn: u64,
}
