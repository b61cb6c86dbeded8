//! How are real files opened, locked, written and synced?
//!
//! The disk of real files: a folder with two logs and pages.
//!
//! `FileDisk` is a disk in the words of `im_base_disk`. It tells no bytes: code over it is safe and total, and nothing
//! is said of what it reads. `FileDisk::open` makes what is missing, and `OpenError` says why it refused: whether the files of a folder belong
//! together it asks `im_files_belonging`, before it makes one. `FileDisk::cut_logs` gives the room of its logs back once the store was closed in order.
//! `FileDisk::create_copy` makes the files of a copy by names that no opening takes for a store, and `name_copy` gives them theirs.
#![tactic(auto)]

mod copying;
mod cutting;
mod disk_error;
mod file_disk;
mod folders;
mod open_error;

pub use disk_error::{DiskCall, DiskError};
pub use file_disk::FileDisk;
pub use open_error::OpenError;
