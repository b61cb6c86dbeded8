//! A life over the gate alone.

use crate::RawLine;
use im_base_model_disk::Stop;

/// A life over the gate alone.
#[derive(Debug, Drop)]
pub struct RawLife {
    /// The lines between the first and the stop.
    pub lines: Vec<RawLine>,
    /// The stop that ends it; none where the whole life is made and all that was written is left.
    pub stop: Option<Stop>,
}
