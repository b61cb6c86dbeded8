//! What is known behind the lock of a call that waits for a force.

use im_base_types::Fault;

/// What a call came to, whose end may be a force.
#[derive(Clone, Copy)]
pub(crate) enum Outcome {
    /// It has ended.
    Done,
    /// It ends with the next force, before which so many were made.
    Waits(u64),
    /// It is refused.
    Refused(Fault),
}
