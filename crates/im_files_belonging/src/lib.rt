//! Do the files of a folder belong together?
//!
//! Whether the two logs and the file of pages of a folder can be those of one store, by the beginnings of the logs, the length of the file of pages
//! and the beginning of its page 0.
//!
//! `belong` decides it before a file is made or a byte is written: which log is the current one, or why the files do not belong together. It is asked by
//! whoever opens a folder, in Rattle and in C (`decide` answers a number). What the beginning of a log says it asks of `im_log_header`, of
//! `im_log_gate` what stands in front of a batch, and of `im_log_record` what the first bytes of a record say.
//!
//! After a switch the log that was left tells an older file of pages: `LeftLog` walks over it, a piece at a time, to its newest change, and over the current log for the
//! copies that this has of pages; `is_older` asks whether the file has that change. `LogCuts` says what of the logs may go once the store was closed in order: of the one that
//! was left all but its first batch, of the current one, where it has no record, all but its closed gate. No cut makes another verdict (`cuts_are_sound`).
//!
//! A refusal here is for ever, so what a stop may leave is never refused: `im_engine_belonging` has that as a law. `may_lack_first_byte` is therefore
//! no part of the decision: it tells a look at the files what they may have been.
#![tactic(auto)]

mod belonging;
mod deciding;
mod folder;
mod fronts;
mod left_log;
mod log_cuts;
mod pages;

pub use belonging::{Apart, Logs, belong};
pub use deciding::decide;
pub use folder::{FIRST_BYTES, FRONT, Folder, Front, PagesFront};
pub use fronts::may_lack_first_byte;
pub use left_log::{LeftLog, is_older};
pub use log_cuts::{LogCuts, cuts_are_sound};
