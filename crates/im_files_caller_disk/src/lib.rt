//! How does an engine read and write files that its caller in C holds?
//!
//! A disk whose files the caller of the library has open: each device call is a question to the caller, over a pair of descriptors, and
//! waits for its answer. So the caller alone opens, locks and closes the files, on a thread of its own.
//!
//! `CallerDisk` has the files of a store, or those of a copy of it; `CallerFiles` those of a store, and where it is only read, what is written stays in memory.
//!
//! A question is 24 bytes, `kind`, `file`, `place` and `length` in 4, 4, 8 and 8 bytes, the lowest first, and the bytes of a write come after it. Files are 0 `log`,
//! 1 `pages` and 2 `log2`, and 3 to 5 the same of a copy.
//! Each question is noted in a list that only proofs read (`Line`), so the contract of each call says what was asked (`IsAsked`), and of files whether they ask the
//! caller or only read (`Goes`). What is noted and what is sent are the same by the code of one function alone: no clause speaks of a descriptor's bytes.
//! An answer is 8 bytes: a length, or 0 for what was done, or all ones for what failed; the bytes of a read come after a 0.
#![tactic(auto)]

mod caller_disk;
mod caller_files;
mod line;

pub use caller_disk::CallerDisk;
pub use caller_files::CallerFiles;
pub use line::Line;
