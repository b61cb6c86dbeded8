//! How do threads share a store?
//!
//! An engine that threads share: one lock, and beside the engine a trace of its steps that is a run.
//!
//! **What lies under the lock** (`Held`): an engine, the entries from which the trace begins, the steps with their replies, and
//! three counts. What holds each time that the lock is free is the invariant of the type, and `law_holds_always` says what follows.
//! Over any engine (`IsTallied`) each reply of the trace suits its step, the counts are those of the trace, and what was started
//! has ended or is active. Over an engine that tells what it holds (`Stands`) the trace is a run of the machine of `im_theory_machine`, from
//! the map of the base entries to a view of the engine: a stop then leaves the base entries with a front of what the trace asked,
//! each acknowledged commit in it. `Held::step` adds to the trace exactly the step and the reply that it answers.
//!
//! **What each caller holds** (`Share`): a part of a ledger that counts the steps which it made, and the counts that it read
//! last. The shares' sum is the number of all steps, where every share comes back to `close`. `Front::stats` reads the counts
//! through the share's pass of the cell of `im_front_stats`: with no lock, whole, and no count ever falls.
//!
//! **The lock** (`Front`): `call` takes it, makes the step, and while the reply is `Blocked` waits until a transaction has
//! ended, and makes it again. Nothing is claimed of who comes first, nor that a waiting call returns.
//!
//! **What an answer says**: an Ok of `commit` that the Commit was made and acknowledged, at once or by a force that came after it (`IsAcknowledged`); an Ok of
//! `Open::write` that its work was done last between a Begin and such a Commit of one transaction, and that each time before was rolled back (`IsWritten`). Who
//! may begin again, and when, is a decision over plain numbers (`may_begin` of `im_base_admission`).
//!
//! **The engine** is any `Store` of `im_theory_store_trait`: its replies suit their steps, and it counts its transactions; where it tells
//! what it holds its steps are the machine's, a stop keeps what it acknowledged, and where nothing is active a new life begins with
//! what was committed. A store over real files tells nothing, and threads share it all the same.
#![tactic(auto)]

mod callers;
mod front;
mod held;
mod line;
mod load_args;
mod open;
mod outcome;
mod recorded;
mod seat;
mod share;
mod stats;
mod stop;
mod told;
mod trace;
mod writing;

pub use front::Front;
pub use held::{Closed, Held};
pub use load_args::LoadArgs;
pub use open::{Kept, Left, Open};
pub use recorded::Recorded;
pub use seat::{Rested, Seat};
pub use share::Share;
pub use stats::Stats;
pub use stop::Stop;
pub use told::Told;
pub use trace::Trace;
