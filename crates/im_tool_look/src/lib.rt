//! What is broken in these files, and what do they hold?
//!
//! What the bytes of a store's files say, to whoever looks at a store that is not open: the current log as its batches and records, with what is
//! broken in it; the tree and the free list of a file of pages, rule by rule; and keys as users type them.
//!
//! The files are read by pieces (`Files`), the log 256 KiB at a time, so that a look takes no more memory over a longer log but for what its records
//! say. `current_log` finds the log that the store has, as an opening chooses it. `read_log` counts what that has and analyses it as an opening does,
//! `kept_of_left` says how much of the log that was left a trim keeps, `batches_behind` looks for whole batches of it after its end, `doubted_log` for a newer log whose first byte is damaged,
//! `log_text` prints a line for each record. `compare_pages` tells where the file of pages is not one of this log. `check_pages` goes over the pages and lists each rule that does not hold. `write_key` and
//! `noted_key` are the notation of keys, `x'6100'` and `"a b"` among them. No store is opened here, and nothing is written but text. What
//! is found and printed is tested, and stands in no clause: every call is safe and ends, on any bytes.
#![tactic(auto)]

mod current;
mod doubt;
mod files;
mod kept;
mod key_notation;
mod log_bytes;
mod log_damage;
mod page_compare;
mod page_damage;
mod record_lines;
mod tree_check;
mod tree_damage;

pub use current::{CurrentLog, current_log, file_name};
pub use doubt::doubted_log;
pub use files::Files;
pub use kept::kept_of_left;
pub use key_notation::{noted_key, write_key};
pub use log_bytes::{BatchesBehind, Survey, batches_behind, read_log};
pub use log_damage::LogDamage;
pub use page_compare::{Compared, compare_pages};
pub use page_damage::PageDamage;
pub use record_lines::log_text;
pub use tree_check::{TreeSurvey, check_pages};
pub use tree_damage::TreeDamage;
