//! What does one pass over the log say?
//!
//! Analysis: what a restart has to know of the log before redo and undo, from one pass over its records.
//!
//! `Analysis::take` is handed each record with its LSN, the oldest first, and reads no page and no disk. After the
//! last one `Analysis::finish` hands out the next transaction number, the redo point, the losers, for each page the
//! last full copy at or after the redo point, and the records of the structure change that is open.
//!
//! The contract: each of these is exactly what the definitions over logs say of the records that were taken
//! (`IsAnalysed`, `IsAnalysis`), as long as each record may stand there (`Continues`), as it may in every lawful
//! log. `take` is refused `NotAStore` just where a structure change opens while another transaction's is open, a
//! record names its own LSN or a later one as its transaction's, or a page at or above the greatest page count that the
//! records before it said or the log began with (`FitsBehind`), also in a log that is not lawful, and `Memory`; then it changes nothing.
//!
//! `laws` has what undo lives by, for every tree of pages: what the losers' chains lead to, which records may come
//! next and what they leave, and that the tree holds the committed map alone once no loser is left. `undo_next_after` is where undo goes on
//! after one record, at a restart and in a rollback.
//!
//! It stands on `im_log_record` for records and on the definitions of `im_log` and `im_theory_log`.
#![tactic(auto)]

mod analysis;
mod chains;
mod changes;
pub mod lawful_logs;
mod notes;
mod numbers;
mod open_change;
mod page_counts;
mod rows;
mod undo_steps;

pub use analysis::{Analysed, Analysis};
pub use changes::{Change, Changes, LastChanges};
pub use page_counts::pages_at_first;
pub use rows::{Loser, OpenRecord};
pub use undo_steps::{is_key_record, undo_next_after};
