//! A key record that was planned back, and logged so far as it can be at once.

use im_base_types::Lsn;
use im_smo_actions::PlannedChange;

/// What of a plan was logged.
#[derive(Drop)]
pub(crate) enum LoggedBack {
    /// The compensation, which is all: the LSN of the transaction's last record, and where its undo goes on.
    Taken {
        last: Lsn,
        undo_next: Lsn,
    },
    /// Nothing: this split comes first.
    Splits(PlannedChange),
    /// The compensation, after which this change takes the leaf out of the tree.
    Drops {
        change: PlannedChange,
        last: Lsn,
        undo_next: Lsn,
    },
}
