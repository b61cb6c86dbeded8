//! How is a store opened?
//!
//! Restart: a store's files are opened, its pages redone, and what was unfinished undone.
//!
//! `open_or_create` goes through the log once and then back from the ends of the losers:
//!
//! 1. **Analysis** (`reading`): the log is opened, or made where there is none yet and no page, and each record read once. That
//!    gives the number of the next transaction, the redo point, the losers, the last full copies of pages, the structure change
//!    that is open, and the changes of pages from the redo point on. Those below it are dropped wherever a Checkpoint moves it, but for the
//!    last one of each page: what is kept goes by the pages and by what is to be redone, however long the log is. A log whose Checkpoints
//!    move it back, which no store writes, is read once more.
//! 2. **Redo**, by `im_restart_redo`: the pages are brought to what all of the log made of them, by workers in threads that a runtime starts
//!    (`ByThreads`), or by the opening call alone where a caller can start none (`Alone`): in either way the same (`Redoes`). How many records
//!    that took is told with the redo point (`RedoReport`).
//! 3. **Undo of the open structure change** (`structure_change`): its pages are put back, the newest first, each by an UndoSmo with
//!    the page before.
//! 4. **Undo of the losers** (`undo`), all together, the record with the greatest LSN first. Each loser's chain stands in a map at
//!    the LSN where its undo goes on, and the greatest is taken out again and again: a key record is taken back by `im_restart_undo`, wherever
//!    splits have moved its key, by a compensation that leads to the record before it, beside structure changes where a leaf is full
//!    or left empty; a compensation or the end of a structure change leads on to its next one to undo. Where nothing is left the
//!    loser's End is appended before others go on.
//! 5. One **force**. Where nothing was appended it makes no device call, so an opening of a store with nothing to undo makes none;
//!    a creation takes six, or four on a half-made log. No Checkpoint is taken.
//!
//! Each chain must lead to earlier records of its own transaction. That it leads to earlier ones is tested as the records are read, before
//! anything is written, and that it is its own transaction's record by record in undo: so restart ends on any bytes, and is refused
//! `NotAStore` where it is not so. Memory is taken for the frames, a room for the log of 64 KiB to 1 MiB, redo's spare
//! pages, and the tables.
//!
//! # What is kept
//!
//! `MayRestart` is what files have to be: a lawful log (`IsLawful`, over the tree of pages) that covers the pages (`Covers`), or none
//! and no page, whether its tree was split or not. `RestartKept` is what the clause `kept` says of such files:
//!
//! - after an opening (`IsRestarted`) the log is the one that was found with Images and records of undo more (`GrowsByRestart`), it
//!   is lawful and durable, no loser is left, and each page is what the whole log made of it; each compensation took back the latest
//!   of all records that losers had left to undo (`IsInOrder`);
//! - a stop at any moment leaves such files again (`IsLeftUndoing`): the log that was found, or it with some of these records, in that
//!   order but for those with which one record was being taken back, the latest of all (`IsNearlyInOrder`). Nothing
//!   is undone twice: a compensation takes its record off what is left, and a lawful log has no second one;
//! - it is never refused as no store.
//!
//! `MayRedo` asks less of a log that leaves nothing to undo: analysis takes its records, it covers the pages, and each record can be
//! applied to its page, whatever tree that makes. Such files too are never refused as no store (`redoes`).
//!
//! How an opening ends is one fact over any files, its clause `outcome` (`Opens`, over the fault that it was refused for, if it was):
//! `Device` just where the disk has failed, `LogFull` only with a log that is full, else `Memory`, `NotAStore` or `Capacity`. The calls
//! within it over the writer of pages end as redo does (`Recovers` of `im_restart_redo`), and each says over such files, in one word
//! (`RestartSound`), what it answers and that a stop leaves such files again.
//!
//! It stands on the undo of one record, analysis, redo, the writer of pages, the log and its gates.
#![tactic(auto)]

mod chains;
mod found;
mod open_store;
mod read_log;
mod redoes;
mod restarted;
mod structure_change;
mod synced;
mod undo;

pub use open_store::open_or_create;
pub use redoes::{Alone, ByThreads, Redoes};
pub use restarted::Restarted;
