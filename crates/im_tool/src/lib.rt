//! What is `imstore`, as a function of its words and of the runtime?
//!
//! `store_program` is all of `imstore` but its `main`: it opens the folder that its words name, or an
//! empty model disk, and hands the disk on to `store_text`, which opens the store of any disk, makes the steps that a
//! reader's lines ask for, and has written and flushed all replies before it waits for a line. After the steps
//! Checkpoints are taken, and the log goes on in the other file, as the `Bounds` of `im_store` want it, and after the last line, so that the next opening has little to read and little to redo, or nothing; then its logs are cut. A load of rising keys into a new folder goes without a log (`load_rising`, over `im_load`). What goes to which
//! stream is tested, by stored outputs word for word among other tests, and stands in no clause.
//!
//! It stands on `im_store` for a store that is open, on `im_tool_user` for what its users write and are answered, and on `im_tool_files` for the disks, and for what is told of files.
//! Scripts are none of its work, so it is proved beside their crates.
#![tactic(auto)]

mod compacting;
mod copying;
mod dump;
mod entry_walk;
mod imstore;
mod limits;
mod look;
mod recovered;
mod rising;
mod savepoints;
mod store;
mod tasks;
mod transfer;
mod trimming;
mod whole;

pub use copying::{Copier, NoCopies};
pub use dump::dump_text;
pub use imstore::store_program;
pub use look::{check_text, stat_text};
pub use rising::{Entry, NotLoaded, Risen, load_rising};
pub use store::{StoreEnd, store_text};
pub use transfer::{LoadCount, Loaded, load_text};
