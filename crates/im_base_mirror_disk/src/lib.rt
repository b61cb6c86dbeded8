//! How is a store copied while it is in use?
//!
//! A disk that makes a copy of itself. While a copy is under way each write to a place that is copied already goes to the copy too, and what is
//! not is copied piece by piece between the calls.
//!
//! The one contract: to who calls it as a disk it is the disk below, whatever becomes of the copy; and a copy that `finish` hands out reads as the
//! disk does then, so that a stop of the disk now might have left just these files (`copied`, `left`).
//!
//! The invariant: of each file as many bytes are copied as its mark says, and they are the front of that file (`long`, `front`). It holds after every
//! call of the disk, so it does not matter what the layers above do between two pieces.
//!
//! - `Mirrored` is the disk, over one disk that it copies from and another that it copies to.
//! - `Piece` is what is left to be copied of a file, `Marks` how far each file is copied.
//! - A failure of the copy's disk lets the copy go, and no call of the disk fails for it.
//!
//! The crate stands on `im_base_disk` for the disks, `im_base_two_logs` for two logs that change names, and `im_base_types`.
#![tactic(auto)]

mod follow;
mod marks;
mod mirrored;
mod piece;

pub use marks::Marks;
pub use mirrored::Mirrored;
pub use piece::Piece;
