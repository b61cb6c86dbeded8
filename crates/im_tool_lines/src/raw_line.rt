//! A line within a life over the gate alone.

use crate::Batch;

/// A line within a life over the gate alone.
#[derive(Debug, Drop)]
pub enum RawLine {
    /// Puts one batch.
    Put(Batch),
    /// Prints the device calls so far.
    Calls,
}
