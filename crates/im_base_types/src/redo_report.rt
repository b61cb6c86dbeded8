//! What redo did in an opening.

use crate::Lsn;

/// Where redo began, and how much of the log it applied.
#[derive(Clone, Copy, Debug, PartialEq, Eq)]
pub struct RedoReport {
    /// The redo point of the log that the opening found.
    pub point: Lsn,
    /// How many records from there on changed a page: those whose page had a lower LSN as redo first had it, by its noted copy or by the
    /// file of pages.
    pub applied: u64,
}
