//! How is a store made of entries that come in rising order, without a log?
//!
//! A load: entries in rising key order become the pages of a store, each page written once, and then the log of no record.
//!
//! # The contract
//!
//! - `load` is a load of entries that are at hand. `Loader` is one entry by entry: `begin` takes files without bytes, and no others; `put` takes an entry whose
//!   key, of 1 to 255 bytes, is above all that were taken, and answers `false`, with nothing changed, where it is not; `finish` ends the load.
//! - What has been taken is a good tree at each moment: of its pages those at the right edge are held, one a level, and the file has each
//!   other one (`HasTaken`, and `IsLoading` since the disk that the load began on). So where `finish` answers, the files are those of a load of just the entries
//!   that were taken (`AreOfLoad`): pages that are a good tree of them, all with LSN 0, and a log of the first generation that begins at LSN 48, with no record, all
//!   of it on the disk.
//! - To an engine these files stand for one effect, which puts each entry (`loads_stand`); a look at them hands out exactly the entries (`found`).
//! - Nothing of this leaves room: a page that is left out, or torn, or written after the sync, or keys that fall, make other pages or none.
//! - Each leaf but the last takes more than 3,798 of the 4,064 bytes that a page has (`AreDense`): it is closed only when it lacks room for an entry
//!   with the longest key.
//! - A stop within, at whatever moment, leaves files whose logs are not made, with whatever bytes of pages (`AreHalf`), or the loaded ones: only the file of pages
//!   is written up to its sync (`WritesPages`), and the log is made after that, its byte 0 last. Files without a log that have bytes
//!   of pages are no store, and an opening says so (`loads_stand`). The order in which pages are written before the sync is free: that page 0 comes last is a
//!   custom, of which no fact speaks.
//! - Refused: `KeyLength`, with nothing changed; `Capacity`, only where 2^32 - 1 pages or 255 levels are used up; `Memory`; `Device`, just where the disk failed. After one
//!   of the last three the load is of no use, and its files are as after a stop. A loader that has taken what it says answers no other refusal (`LoaderRefuses`).
//!
//! # How it goes
//!
//! Entries come from left to right. Of the pages those at the right edge are held, one a level; each other one is final. Nothing is moved from page to page: where
//! an entry has no room in the last leaf, the leaf is closed as it is, and the entry begins a new one; its key is the separator, which goes up to the page above,
//! and where that has no room either, that page is closed, and the separator's child is the first of a new page there. A root that is closed gets a number of its own, and
//! page 1 stands over it. To the tree each of these is a step that it knows: an entry put into a leaf, and splits of pages that may have an entry more than they
//! have room for, which the tree does not ask (`laws`).
//!
//! Pages get their numbers as they are begun, so that a leaf names the one after it before it is written. An inner page is begun before the
//! leaves after it and written when it is closed: its place has zeros until then, and the file never becomes shorter.
//!
//! It stands on `im_theory_tree` for the steps of a tree, on `im_page` for pages, on `im_log_header` for the log, and on `im_engine` for what a store is.
#![tactic(auto)]

mod finding;
mod held;
pub mod laws;
mod loader;
pub mod standing;
mod whole;
mod writing;

pub use finding::found;
pub use loader::Loader;
pub use whole::{Ending, load};
