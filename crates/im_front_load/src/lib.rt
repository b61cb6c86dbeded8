//! How do threads load a store?
//!
//! Loads: threads that make transactions on one store through a front, and a flusher beside them.
//!
//! Each worker makes its transactions one after another: it begins one, inserts a key of its own, and commits it, or rolls it back
//! where it must die. The flusher writes pages and makes checkpoints. `load` is generic over the store, and over what each worker
//! does before its first step (`Turn`). It answers the trace, which is a run that ends in the store where that tells what it holds, and
//! where the shares' sum is there, each transaction has its three steps in it and each round of the flusher its nine: a worker that
//! gives up early, or leaves steps out, is no load. Where a load is refused it was for want of memory or of shares, or as a step of it was
//! (`IsUnloaded`). `load_text` prints what came of it.
#![tactic(auto)]

mod flusher;
mod job;
mod loading;
mod program;
mod stepping;
mod worker;

pub use loading::{Loaded, load};
pub use program::{load_text, print_refused};
pub use worker::key_of;
