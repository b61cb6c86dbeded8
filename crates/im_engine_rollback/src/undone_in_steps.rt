//! What one step of a rollback came to, in a store whose structure changes are made page by page.

use crate::undone::Undone;
use im_smo_actions::BegunChange;

/// What came of the newest change that a transaction has left to undo, in one step.
#[derive(Drop)]
pub enum UndoneInSteps {
    /// It is taken back.
    Made(Undone),
    /// It waits for the split of its key's leaf, whose first page is logged. After the last one `close_back` takes it back.
    Splitting(BegunChange),
    /// It is taken back, and its key's leaf was left empty: this change, of which no page is logged, takes it out of the tree. After its last page
    /// `close_back` says whether the transaction has more to undo.
    Dropping(BegunChange),
}
