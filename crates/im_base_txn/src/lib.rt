//! Which transactions are active?
//!
//! The table of active transactions: at most 64 rows, in rising number.
//!
//! Contracts see the table as the list of its rows. Each call says exactly which list it leaves; that numbers rise, so that each
//! stands once, is the type's invariant (`AreRising`, which `rows` hands out). `look_ups_follow` is the law of what is found in the
//! list after each call. No call takes memory: the rows stand in the table itself.
#![tactic(auto)]

mod look_ups;
mod table;
mod transaction;

pub use look_ups::{law_numbers_stay_below, look_ups_follow};
pub use table::Table;
pub use transaction::{Mark, Transaction};
