//! How is a checkpoint taken?
//!
//! Checkpoints: both tables written into the log, and what redo needs of a log from then on.
//!
//! `take` syncs the file of pages, adds one record with both tables, and forces. Where more pages were changed than a record has room for, 1,024,
//! it writes pages first, for which Images may join the log. The one list is `rows_of`: the transactions that have
//! logged a record, in rising number, as the format asks (`listed`). The other is the dirty table's own after the sync (`dirty_pages` of
//! `im_page_writer`). A stop within leaves the log as it was, or with such Images, or with that one record after them, and files that it covers; after it all of the log is
//! durable and no page was written since the last sync.
//!
//! `laws` says why a restart may begin at the redo point: for every log whose LSNs rise and every file that it covers, redo from the redo
//! point makes of each page what redo of every record makes of the page that the log began with. So redo needs nothing before it. After a
//! Checkpoint the redo point is the least of its LSN and the rec_lsns that it lists.
//!
//! It stands on `im_page_writer` for the writer of pages, on `im_base_txn` for the table, on `im_log_record` for what a list of rows has to be, and on the
//! theory of redo in `im_theory_log`.
#![tactic(auto)]

mod checkpoint;
pub mod redo_point;
mod rows;

pub use checkpoint::take;
pub use rows::rows_of;
