//! How does a program come to a store at rest in a folder?
//!
//! A store over the files of a folder, as a program opens it that embeds one: with its upkeep, for one thread, or an engine at rest, ready for the fronts of
//! `im_front`. Who opens it here proves nothing of the engine. And a copy of a store that is open for one thread, in a folder of its own (`copy`). `close` ends a store, and cuts its
//! logs.
//!
//! What is done to a folder, in which order and with which files, is said over any `Folder`. The files of the system are one that tells nothing.
#![tactic(auto)]

mod closing;
mod copies;
mod folder;
mod not_opened;
mod open_folder;

pub use closing::close;
pub use copies::{NotCopied, begin_copy, copy, copy_pieces, end_copy};
pub use folder::Folder;
pub use not_opened::NotOpened;
pub use open_folder::{Files, FilesOf, kept_in, open, open_store, store_in};
