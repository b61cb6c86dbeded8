//! How is one change of a rollback taken back?
//!
//! One transaction rolled back, a change at a time, while others go on.
//!
//! `undo_next` takes back the newest change that a transaction has left to undo, and logs its End where that was the last one and the
//! transaction `ends` with it; one that returns to a part of its changes does not, and goes on. It reads
//! the transaction's records from where its undo goes on, and passes over compensations and the ends of structure changes, each of which
//! names an earlier record; at an insert or a delete it stops, and `im_restart_undo` takes that back, wherever splits have moved its key.
//!
//! The contract: in a lawful log with no structure change open, one compensation joins the log, and the tree's map lacks that change
//! alone; where the transaction's net is empty then, and it ends so, its End joins the log too, and it is unfinished no more. It is not refused
//! `NotAStore`. A stop at any moment leaves the older log with some of these records (`LeavesUndo`), lawful again.
//!
//! `undo_beside` does so in a store whose structure changes are made page by page, beside one of another transaction: it makes none itself, but
//! hands out the one that is needed, in front of the compensation or after it. What it did or planned is what im_restart_undo planned over the
//! settled tree (`IsBack`), and where that is hidden it says why. A change that is handed out may begin at once (`IsUnderWay`), with all that wants
//! memory had before the first record. After its last page `close_back` goes on with the turn that it interrupts: a split is then known
//! to have made room (`IsSplitBack`), so that none is needed twice. `undo_in_steps` is `undo_beside` so far as one step goes: a change that it hands
//! out has begun, a split with its first page.
//!
//! It stands on `im_restart_undo` for the one change, and on `im_restart_analysis` for what reading from record to record comes to.
#![tactic(auto)]

mod behind_changes;
mod first_step;
mod logged_back;
mod next_record;
mod split_laws;
mod step_beside;
mod undo_step;
mod undone;
mod undone_beside;
mod undone_in_steps;

pub use behind_changes::close_back;
pub use first_step::undo_in_steps;
pub use split_laws::splits_go_on_back;
pub use step_beside::undo_beside;
pub use undo_step::{end_if_undone, undo_next};
pub use undone::Undone;
pub use undone_beside::UndoneBeside;
pub use undone_in_steps::UndoneInSteps;
