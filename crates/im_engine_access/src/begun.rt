//! What an Insert or a Delete answers that may begin a structure change which goes on over several steps.

use im_base_types::{Lsn, PageNo};
use im_smo_actions::BegunChange;

/// What became of a key that was to come.
#[derive(Drop)]
pub enum Inserting {
    /// It is there.
    There,
    /// It is put; its record is the transaction's newest, from which its undo goes on.
    Put(Lsn),
    /// Its leaf is split first: the first page of that change is logged, and after the change the key goes into this page.
    Split(BegunChange, PageNo),
}

/// What became of a key that was to go.
#[derive(Drop)]
pub enum Deleting {
    /// It is not there.
    Gone,
    /// It is taken; its record is the transaction's newest, from which its undo goes on.
    Taken(Lsn),
    /// The same, and its leaf, which is left empty, leaves the tree by this change, no page of which is logged.
    Dropping(BegunChange),
}
