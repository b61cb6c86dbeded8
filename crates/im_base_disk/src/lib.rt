//! What does a disk give, and what may a stop leave?
//!
//! The two files of a store as the store sees them: what a read gives, and what a stop may leave of both.
//!
//! The disk model. A stop leaves, for each file, a length between the synced length and the greatest written
//! end. Below the synced length, bytes outside the ranges written since that file's last successful sync are
//! as synced. All other bytes are any bytes. A failed write or sync counts as written and not synced. A stop
//! within a call counts that call in the same way.
//!
//! A disk may keep a second premise: no stop forges a sum. What a log file then shows where a write was cut short,
//! it showed before, or would show by the whole write. `specs/Sums.antt` says what such a file shows at a place: a
//! batch whose sum of 64 bits fits. `keeps_sums` asks for the premise, and no clause but one of a write has it.
//!
//! - `Disk` is the trait. Its facts speak of both files jointly: what a read gives, what a stop now may leave,
//!   and what a stop at some moment since an earlier one might have left. They are claimed of a disk that tells
//!   its bytes. Each disk also knows whether its last call failed, and no call follows one that failed: so a
//!   life has at most one failed call. Each call has one refusal, `Fault::Device`. Of any disk it is claimed how
//!   often it was called to write and to sync: from layer to layer the contracts say how many device calls a call
//!   makes (`Costs`, `CostsAtMost`, `Forces`; lemmas in `proofs/Costs.antt`).
//! - `Count` is a number that only proofs read, as those of writes and syncs.
//! - `write_synced`, `write`, `sync`, `read_vec` and `read_into` are the steps of which the layers above are
//!   made. `specs/Runs.antt` has the words for runs of them, and `proofs/Runs.antt` how runs are put together.
//!
//! The disks stand beside the layers over the trait: one in memory in `im_base_model_disk`, one of real files in
//! `im_files_disk`. The crate stands on `im_base_types` for the files' names and the faults.
#![tactic(auto)]

mod count;
mod disk;
mod steps;

pub use count::Count;
pub use disk::Disk;
pub use im_base_types::FileId;
pub use steps::{read_into, read_vec, sync, write, write_synced};
