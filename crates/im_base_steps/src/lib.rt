//! What can be asked of a store, and what can it answer?
//!
//! What is asked of a store of many transactions, and what it answers.
//!
//! `Step` and `Reply` are the words of every program and every layer that makes steps. By `asked_by` and `told_by` contracts see
//! them as the steps and replies of `im_base_types`, by `Suits` which reply each step may have.
//!
//! The crate stands on `im_base_types` alone.
#![tactic(auto)]

mod reply;
mod step;

pub use reply::{Blocker, Reply};
pub use step::Step;
