//! How does a program keep a store open, so that the next opening has little to do? When is a Checkpoint due, and when a Switch? What comes before them?
//!
//! A store that is open: an engine, and with it the upkeep that its next opening wants, so that no program puts the two together by hand.
//!
//! `OpenStore::open` opens the store of a disk with bounds of what its next opening redoes and reads, and notes a log of the first format that is to be left, and
//! how long the logs' files are. `step` makes a step, and after a reply by which the log may have grown, or a transaction has ended, what is due: a Checkpoint, a Switch, or the write of a
//! page. Where that is refused, the reply is the step's all the same, and `unkept` says what was refused. `close` leaves little for the next opening, ends the
//! engine, and hands the disk back, so that no step comes after it.
//!
//! The contract: a step is a step of the engine and then upkeep, whose steps are of no transaction (`IsStepKept`); what is due after it was made by the rule,
//! with the bounds of the opening, or was refused. So what `im_engine` promises holds through it. Bounds never change.
//!
//! # Upkeep
//!
//! `Bounds` are two: a `RedoBound` says how much log an opening may have to redo, when a Checkpoint is due, and which pages are written before it; a
//! `LogBound` how long the log may get that it reads, and when that goes on in the other file. `Upkeep` makes the steps of an open engine, and
//! after the opening, after a step, and after the last one what its bounds want. It needs no thread and no runtime.
//!
//! After an opening and after each reply the first of these is made that holds:
//!
//! 1. A Switch, where nothing is active, and the log has seven eighths of its bound; or a Checkpoint is due and it has half of the bound; or
//!    the other log is one of the first format.
//! 2. A Checkpoint, where one is due: seven eighths of what may be redone are reached.
//! 3. Where that is so but for an eighth, one page is written whose oldest change is from before: so few are left for the Switch, which holds up
//!    whoever waits for its reply.
//!
//! At the end, where nothing is active, a log of 48 KiB or more is left for an empty one, and one that has a record also where its file may be longer than it is;
//! else all pages are written and a Checkpoint is taken. So whoever cuts what no opening reads leaves no log of more than 64 KiB.
//!
//! While some transaction is active nothing can be switched: the log then grows past its bound, until for one moment none is.
//!
//! # Copies, and threads
//!
//! Over a disk that copies itself a copy of the store is made while it is in use: `begin_copy`, `copy_piece` between any steps, `end_copy`. They are the engine's, and the
//! upkeep is as it was.
//!
//! Threads share the engine alone, by a front: `into_engine` hands it out, and `OpenStore::over` takes it back. They have a thread, or a moment of one, that
//! asks for `Step::Switch` and `Step::Checkpoint` by `call`: a Switch that comes while somebody is active is refused `Busy`, and asked for again later.
//! `store_example` shows both.
//!
//! It stands on `im_engine`, on the headers of logs, and for copies on `im_base_mirror_disk`.
#![tactic(auto)]

mod ahead;
mod bounds;
mod copying;
mod due;
mod log_bound;
mod log_files;
mod open_store;
mod redo_bound;
mod unkept;
mod upkeep;

pub use bounds::Bounds;
pub use due::Due;
pub use log_bound::LogBound;
pub use log_files::{LogFiles, look_at_logs};
pub use open_store::OpenStore;
pub use redo_bound::RedoBound;
pub use unkept::Unkept;
pub use upkeep::Upkeep;
