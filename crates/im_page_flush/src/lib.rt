//! How is a page brought to its file, so that each stop before, within and after the write can be recovered from?
//!
//! Over a log, a pool, a dirty table and a disk, of which it owns none: `PageWriter` of im_page_writer, which has the first three, calls it.
//!
//! - `flush_page` writes a page that was changed: it alone, where the file has it, and past the file's end every page from the page count up to
//!   it, so that no range of the file is left without a page. First the Images of those pages join the log of which no full copy is known, in
//!   rising page number; then the log is forced; then each page is entered and written, one device call each, in rising number. Where the table
//!   has no room for the entry of a page that is written along, the file is synced after them. A page that the file has, and whose last change
//!   and full copy are durable, is written with no force.
//! - `note_changed` has the Image of a changed page join the log ahead of its flush, so that one force serves several.
//!
//! # What is kept
//!
//! `IsWriting` is what a writer of pages keeps between two calls, but for what it knows of copies: 1 to 7 in the head of im_page_writer, over log,
//! table and pool as they are. Of a call that succeeded `Goes` says how they stand then: each page is as it was, and the log has Images more;
//! whatever came of it, a stop since it began leaves what redo can start from (`LeavesGrown`, `LeavesCovered`).
//!
//! It stands on the log, on the file of pages and its table, on the pool and on the disk.
#![tactic(auto)]

mod flush;
mod image_range;
mod page_range;

pub use flush::flush_page;
pub use image_range::{NOTED, note_changed};
