//! What may an engine of many transactions answer?
//!
//! Transactions over one map with locks on its keys, decided by wait-die, as data, and the theorem that they are isolated.
//!
//! **Locks.** A lock is on a key, or on the name past the last key. Two locks conflict where their names are equal,
//! their owners differ and one is exclusive (`ConflictsWith`). `asked` says what each access asks, by what its search finds on the
//! map; a table of locks is a list of owners, each with its locks (`Table`), and `Decides` says its verdict on what is asked at once:
//! granted where nobody holds a lock against it; else the requester waits for the smallest holder in conflict, if it is below that
//! one, and must die if it is not.
//!
//! **The machine.** `Moves` is the relation of a step of many transactions over one map with locks, `Run` that of its
//! runs. The contract of `law_isolation` says, of every run: each transaction's replies are those that it would
//! get alone, on the map committed now while it is going, on the map before its place in commit order once it has
//! committed, and on the map committed just before its rollback; and the committed map is the committed
//! transactions applied one after another (`Isolates`). A transaction may take its newest changes back until so many
//! are left, and go on (`RollTo`): of what it was told only what came before these stands, and the contract of
//! `returns_stand` says what is left. The contract of `table_serves` says that a table's three verdicts are the
//! machine's three answers, and its releases the machine's.
//! The contract of `free_reads_are_committed` says that what a reader who has changed nothing finds free is as it was committed.
//!
//! **Views of readers.** A reader may have one committed map for as long as it likes, beside whatever steps the machine makes: what a
//! key was is noted before its first change since the view began, and the notes, laid over the walk, are that map (`IsOverlay`). The
//! contract of `views_are_committed` says so of every step and of every run. No step of an engine makes use of it so far.
//!
//! There are no pages here, no log and no table that runs: that is `im_engine_locks`. What runs are the words of a request and of its
//! verdict. The crate stands on `im_base_types` alone.
#![tactic(auto)]

mod isolated;
mod lock_kind;
mod returned;
mod verdict;
mod views;
mod worked;

pub use isolated::{
    free_reads_are_committed, granted_changes_are_free, law_isolation, table_serves,
};
pub use lock_kind::{Duration, Mode};
pub use returned::returns_stand;
pub use verdict::Verdict;
pub use views::views_are_committed;
pub use worked::{a_gap_opens_at_a_return, a_gap_that_was_read_stays, a_return_is_told};
