//! How is a page written beside a log?
//!
//! Page writes beside a log: the file of pages, the full copies of pages in the log, and what a stop leaves of both.
//!
//! # The file of pages
//!
//! Page p stands at byte p * 4,096. From the page count on, the length divided by 4,096 and rounded down, each page is as it was
//! before anything was put (`file_page`, in im_theory_page's specs). `write_page` enters the page into the dirty table and writes it, one
//! device call; `sync_pages` syncs the file, one device call, and then the table. A write goes to a page that the file has or by
//! which it grows. So a stop leaves each other page as it would have been left before, however long it leaves the file.
//!
//! # Full copies
//!
//! `append_image` adds a page's Image to the log. `read_copy` makes a page the full copy that a record holds, an Image or a structure
//! change, and `read_after` the page after a structure change or its undo.
//!
//! # What is kept
//!
//! What a writer of pages keeps (`Writer`, in im_theory_log's specs) is the log with its durable front, and for each page what memory
//! has of it, its entry, what the file has as of its last sync and what a read gives. `Stands` says that what a writer keeps is kept,
//! and that a log file, a table and a disk are as it says. Each call has a clause `kept`: where the writer stands, and may do the step,
//! it stands as the step leaves it, and a stop at any moment within leaves what redo can start from, a front of the log between the
//! durable one and the whole that covers the file of pages (`LeavesCovered`). `Run` says so of calls in a row.
//!
//! `written_pages_have_copies` is the law of full copies: a page that was written since the last sync has an entry, and the durable
//! log a full copy of it at or after the redo point of every log that a stop can leave. So redo never reads bytes that a stop may have
//! torn.
//!
//! It stands on the log, on pages, on the dirty table and on the disk. It knows no pool.
#![tactic(auto)]

mod full_copies;
mod images;
mod page_copy;
mod page_file;

pub use full_copies::written_pages_have_copies;
pub use images::append_image;
pub use page_copy::{read_after, read_copy};
pub use page_file::{count_pages, sync_pages, write_page};
