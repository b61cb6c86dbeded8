//! How does a disk in memory tear and cut?
//!
//! A disk in memory that tells its bytes, for proofs of whole stores, tests and scripts.
//!
//! - `ModelDisk` is the disk, in the words of `im_base_disk`. A stop can be armed within a call of it (`Stop`), a call
//!   can be told to fail, and `after_stop` is the disk that the stop leaves, byte for byte. A write is applied and
//!   noted whether it fails or not, so a byte below the synced length that no noted range has touched reads as
//!   it was synced, and the greatest written end is the length that is read.
//! - `ModelFile` is one file of it.
//! - `History` has, for proofs alone, what a stop might have left at each moment of a life.
#![tactic(auto)]

mod either;
mod history;
mod left;
mod model_disk;
mod model_file;
mod plan;
mod stop;

pub use history::History;
pub use model_disk::ModelDisk;
pub use model_file::ModelFile;
pub use stop::{Fill, Length, Stop};
