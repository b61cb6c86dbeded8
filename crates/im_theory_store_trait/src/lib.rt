//! What is a store?
//!
//! What a front, a load and a program may ask of any store of many transactions.
//!
//! A `Store` is whatever takes steps: its replies suit them, and it counts its transactions; where it tells what it holds its steps
//! are those of the machine of `im_theory_machine`, a stop keeps what it acknowledged, and where nothing is active a new life begins with
//! what was committed. A store over real files tells nothing. It lists its entries, and says how many transactions are active and
//! whether an earlier call broke it.
//!
//! The crate stands on `im_base_steps` for the words of steps and replies, and on `im_theory_machine` for the machine.
#![tactic(auto)]

mod store;

pub use store::Store;
