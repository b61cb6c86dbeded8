//! Who may begin a transaction now?
//!
//! Transactions that are told to give way roll back and begin again. If they began at once they would meet the same older ones, and be told so again, without
//! end. So who gave way waits until each older one has ended; and who has done so four times is first: nobody begins before it. Who is left alone is not waited
//! for.
//!
//! These are decisions over plain numbers: the table of the transactions that are active (`Going`), one that asks (`Asker`), and the ticket of who is first.
//! Contracts say of whole tables who is waited for (`IsAwaited`) and who may begin (`MayBegin`), with no word of how a table is kept: threads of `im_front` ask, and
//! the library for C does, through `im_capi`. The crate stands on nothing.
#![tactic(auto)]

mod asker;
mod going;
mod precedence;
mod table;
mod who_begins;

pub use asker::Asker;
pub use going::Going;
pub use precedence::{FEW, Precedence};
pub use table::{earliest, has_own, may_begin, oldest};
pub use who_begins::{becomes_first, is_left_alone, may_go_on, whose};
