//! What do the lives of a script answer, and what does the last opening find, where engines run them on the model disk?
//!
//! `drill_store` runs a script's lives (`StoreScript` of `im_tool_lines`), one after the other, each on what the stop of the one before has
//! left, and opens once more after the last. Every answer is an engine's, on that disk (`IsRun`).
//!
//! It promises, in the words of the engine and of lives, of every store and of the steps of up to 64
//! transactions in any order, rollbacks that a stop cuts off among them: of a script whose files stand for some effects at first, as two empty files do for none, there are effects that
//! the lives allow of what each asked, read off its own steps and replies (`asked_in_each`, by `shows`), and the last opening, where
//! it succeeds, hands out exactly their entries. No opening says that there is no store (`AreStores`); each may be refused for
//! want of memory, of room in the log or of page numbers, or by the disk. Each life has its answers and each line its reply, up to a line
//! into which the stop fell (`EachStoreAnswered`).
//!
//! This crate stands on the engine's contracts over any disk, and on the model disk. Within a life it keeps the engine's fact (`IsLife`), at
//! what the lines and replies so far have shown (`shown_by_lines`), with some view of the machine of transactions (`GoesOn`). It is kept small, since
//! its proof cannot begin before the engine's has ended: what needs no engine stands in `im_tool_lines`.
#![tactic(auto)]

mod store_drilled;
mod store_drilling;
mod store_lives;

pub use store_drilled::StoreDrilled;
pub use store_drilling::drill_store;
pub use store_lives::{config_of, open_store, run_store_life};
