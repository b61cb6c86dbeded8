//! How does a disk in memory stop that forges no sum?
//!
//! `SummingDisk` is the model disk of im_base_model_disk with the second premise of a disk: what a log shows after a stop, it showed before the
//! write that was cut short, or shows by the whole of it.
//!
//! It has the calls, the stops and the fills of a `ModelDisk`. Of a log with one write since its sync a stop leaves what the fill makes of it,
//! unless the fill then shows a batch whose sum fits and which the file as it reads has not: then it leaves the file as it reads. So does a stop of a
//! log that was written twice without a sync, which no layer does. The file of pages has no sums: there it stops as the model disk does.
#![tactic(auto)]

mod shown;
mod summing_disk;

pub use summing_disk::SummingDisk;
