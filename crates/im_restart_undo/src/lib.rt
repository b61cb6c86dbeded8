//! How is one key record taken back, where its key is now?
//!
//! Undo of one key record: what an unfinished transaction did to one key is taken back, in the tree as it is now.
//!
//! Undo is logical. Since a key was put or dropped its leaf may have been split, and other transactions may have put keys into the
//! leaf or dropped keys from it. So the key is taken out of the leaf in whose range it lies now, or put back there, wherever that is.
//!
//! - `place`: that leaf. The page that the record names is looked at first, and taken where it says itself that it is the key's leaf;
//!   otherwise the leaf is searched from the root.
//! - `plan`: what is to be logged for it, `plan_back`. A leaf without room for a key that comes back is split first, and a leaf other than
//!   the root that is left empty leaves the tree. Each of these is a nested top action of the transaction that is undone: it is closed, and
//!   stays.
//! - `compensation`: the record with which the key is put back or taken out. It leads on to what the transaction did before.
//! - `logging`: these by the plan, `log_back`.
//! - `undo`: the two in a row, `undo_one`, where no structure change is open.
//!
//! A rollback goes on beside a structure change of another transaction that is made page by page. Then the plan is made over the tree from
//! before that change (`HasWholeTreeBut`), and is hidden where it would read a page that is made, change one of its pages, or begin a
//! second change (`HiddenBack`); what is logged leaves the change open as it was (`IsGoingBeside`, `TakenBeside`). `told_beside` of `im_smo_actions`
//! says how the log and what a search is told of the change hang together, and `plans_go_on` that what is planned so may be logged.
//!
//! The contract, for a transaction with no Commit and no End, in a lawful log whose structure changes are all closed: once the newest of
//! its changes that are left to undo is given, the log has one compensation more, beside structure changes and Images; the
//! transaction has that change less to undo, and its undo goes on at the record before it; the tree's map lacks that change alone. It is
//! not refused `NotAStore`. A stop at any moment leaves the older log with some of these records (`LeavesUndo`), lawful again, in which
//! the committed effects and all other transactions are as they were (`undo_keeps`).
//!
//! No lock is asked and no limit of pages counts, so undo is refused only where the store can't go on: by its device, a full log, page
//! numbers that are used up, or memory. For want of memory in front of the first record all is as it was.
//!
//! The invariant, from call to call, is `IsGoing`: redo is over, the log is lawful with no structure change open, and the transaction's
//! last record and the LSN where its undo goes on are those that the caller hands in. So `GoesTo` puts calls in a row.
//!
//! It stands on `im_tree_search` for the way to a leaf, on `im_smo_split`, `im_smo_drop_leaf` and `im_smo_log` for structure changes, on `im_page_writer` for records that change a
//! page, and on `im_restart_analysis` for what a compensation does to what is left to undo.
#![tactic(auto)]

mod back;
mod compensation;
mod kept_by_undo;
mod logging;
mod memory_fault;
mod place;
mod plan;
mod undo;

pub use back::Back;
pub use kept_by_undo::{plans_go_on, undo_keeps};
pub use logging::log_back;
pub use plan::plan_back;
pub use undo::undo_one;
