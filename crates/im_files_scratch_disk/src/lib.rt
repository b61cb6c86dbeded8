//! How does a store work over files of which nothing may be changed?
//!
//! A disk over another, which is only read: what is written stays in memory, and is gone with the disk. So an opening over it redoes and undoes as any opening
//! does, and shows what one would show.
//!
//! The one contract: each call of the disk does nothing to the disk below but to ask for lengths and to read (`only`), a sync nothing at all, and a call that only
//! reads keeps what was written (`kept`). No clause tells of the bytes that a read gives, so that nothing of them is told above, whatever the disk below tells.
#![tactic(auto)]

mod base;
mod block;
mod overlaid;
mod scratch_disk;

pub use scratch_disk::ScratchDisk;
