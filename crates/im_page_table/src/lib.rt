//! Since when does each page lack something in its file?
//!
//! What a writer of pages keeps of its pages, over plain data: the dirty table, which full copies are known beside it, and what stays
//! while Images join the log.
//!
//! # The dirty table
//!
//! `DirtyTable` has each page that may lack changes in the file of pages: with its `rec_lsn`, the LSN from which on it may lack
//! them, with `since`, the LSN of its first change after its last write, and with `copied`, whether the log is known to have a full
//! copy of it at or after its redo point. There are as many entries at most as the pool has frames, but no fewer than 1,024 and no more than
//! 65,536 (`entries_for`). Room for them is made once: no call after `new` takes memory, and none is refused.
//!
//! The entries stand in the order in which they came in, and a map has the place of each: so no list is moved where one comes in, and a
//! look-up goes to one place, however many there are. A sync goes over them all: what stays moves up, and the map is made anew.
//!
//! Contracts see a table as the list of its entries. Each call says what it makes of the list (`table`), and of each page's entry
//! (`entry`): that is what a step of im_theory_log's `Writer` makes of it, as `changed_entry`, `written_entry`, `synced_entry`,
//! `at_point` and `forgotten_entry`. `copy_rows` gives the list that a Checkpoint has, in rising page order (`lists`), and `oldest_change` the page whose
//! first change since its last write is the oldest.
//!
//! # Beside it
//!
//! A page may come in by a change once more: it had an entry in this life before, was written, and left by a sync. Its write found a
//! full copy, and while the redo point stays that serves. Its own LSN says so, which is at or after that of the first record of this
//! life, after its last Checkpoint, that changed a leaf (`KnowsCopies`, `IsKnownFrom`): no copy is remembered beside the table.
//!
//! `Keeps` says that each page is as it was, and that the log has Images more.
//!
//! It knows no file, no disk and no pool.
#![tactic(auto)]

mod dirty_table;
mod rows;
mod table_entry;

pub use dirty_table::{DirtyTable, entries_for};
pub use table_entry::TableEntry;
