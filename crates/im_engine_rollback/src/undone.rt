//! What a turn of a rollback came to.

use im_base_types::Lsn;

/// What is left of a transaction after one change that was taken back.
#[derive(Clone, Copy, Debug, PartialEq, Eq)]
pub enum Undone {
    /// Other changes, or it does not end with its last one: its records end at `last`, and its undo goes on at `undo_next`.
    More { last: Lsn, undo_next: Lsn },
    /// Nothing: its End is logged.
    Ended,
}
