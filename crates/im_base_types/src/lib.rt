//! What are keys, numbers, sizes, faults, steps, replies, records and lives, as data?
//!
//! The words that every layer speaks: keys, numbers, sizes, files, kinds of pages, faults.
//!
//! A key is 1 to 255 bytes, and keys are ordered by their unsigned bytes, a front before what it begins
//! (`IsBelow`). Contracts see a `Key` as the list of its bytes. `compare` is that order over slices, eight
//! bytes at a time.
//!
//! The definitions in `specs/` are the vocabulary of all contracts above: keys, maps and what transactions
//! change in them, pages as a header and a sorted list, records of the log as data, steps and replies, lives.
//! What follows from a log is in `im_theory_log`. This crate stands on no other of the store.
#![tactic(auto)]

mod fault;
mod file_id;
mod key;
mod order;
mod page_kind;
mod redo_report;
mod sizes;
mod tables;
mod worker_start;

pub use fault::Fault;
pub use file_id::FileId;
pub use key::{Key, push_entry};
pub use order::compare;
pub use page_kind::PageKind;
pub use redo_report::RedoReport;
pub use sizes::{
    BATCH_ROOM, IMAGE_SIZE, LAST_LSN, LAST_TRANSACTION, LEAST_FRAMES, LONGEST_BATCH, LONGEST_KEY,
    MOST_ACTIVE, MOST_DIRTY, MOST_ENTRIES, MOST_FRAMES, PAGE_BODY, PAGE_ROOM, PAGE_SIZE,
};
pub use tables::{ActiveTransaction, DirtyPage};
pub use worker_start::{StartAtOnce, WorkerStart};

/// The number that an index keeps with a key, to name a record of the store's own.
pub type Rid = u64;

/// A transaction's number, from 1 on.
pub type TxnId = u64;

/// A record's place in the log: the base of the log plus the position of its first byte. 0 means none.
pub type Lsn = u64;

/// A page's number: page p stands at byte p * 4,096 of the file of pages.
pub type PageNo = u32;
