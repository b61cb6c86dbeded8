//! How is a planned change logged, whole or never?
//!
//! Structure changes in the log: each page that one changes, and the record that closes it.
//!
//! A structure change is a nested top action of the transaction that needs it: one Smo record for each page that it
//! changes, in rising page number, and then one DummyClr, whose next record to undo is the one from before. Until that
//! record the change is open, and undo takes its pages back one by one; after it the change stands, whatever becomes of
//! the transaction. A stop at any moment leaves a front of a lawful log, and pages from which redo comes to it.
//!
//! `run` logs a whole one. `Change` is one that is made page by page, so that other transactions may log between its pages: it begins,
//! each step logs a page, and it is closed after its last one. The contract of `changes_go_on` says what keeps it under way
//! (`IsUnderWay`): whatever others log, as long as they change no page of it, its next page may come, and its end; each page that is
//! not made yet is the settled one; and a key whose leaf it leaves alone keeps that leaf. That of `changes_outlast_steps` says the same of
//! whole steps. `page_numbers` gives the numbers of a plan in front of its first record.
#![tactic(auto)]

mod change;
mod change_steps;
mod kept_by_changes;
mod late_fault;
mod page_bytes;
mod page_record;
mod plan_numbers;
mod structure_change;

pub use change::Change;
pub use kept_by_changes::{changes_go_on, changes_keep, changes_outlast_steps};
pub use late_fault::late;
pub use plan_numbers::page_numbers;
pub use structure_change::{are_counted, run};
