//! What upkeep was refused.

use crate::due::Due;
use im_base_types::Fault;

/// Upkeep that was refused: what was due, and why it was not made. Where nothing was due it is the write of a page ahead of what is to come.
#[derive(Clone, Copy, Debug, PartialEq, Eq)]
pub struct Unkept {
    /// What was due.
    pub due: Due,
    /// Why it was not made.
    pub fault: Fault,
}
