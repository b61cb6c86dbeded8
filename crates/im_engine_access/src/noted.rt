//! What a transaction's row notes of a change.

use im_base_types::Lsn;

/// Where the records of a transaction end after a change, and where its undo goes on.
#[derive(Clone, Copy, Debug, PartialEq, Eq)]
pub struct Noted {
    pub last: Lsn,
    pub undo_next: Lsn,
}
