//! What a turn of a rollback came to beside a structure change.

use crate::undone::Undone;
use im_base_types::Lsn;
use im_smo_actions::PlannedChange;

/// What came of the newest change that a transaction has left to undo, beside a structure change of another that may be under way.
#[derive(Drop)]
pub enum UndoneBeside {
    /// It is taken back.
    Made(Undone),
    /// Nothing is logged: the leaf of its key, which comes back, is split first, by this change. After that the same call takes it back.
    Splits(PlannedChange),
    /// It is taken back, so that the transaction's records end at `last`, and its undo goes on at `undo_next`; the key's leaf was left empty, and
    /// leaves the tree by this change. After that `end_if_undone` says whether the transaction has more to undo.
    Drops {
        change: PlannedChange,
        last: Lsn,
        undo_next: Lsn,
    },
}
