//! What the lives of a store answer, run.

use im_base_model_disk::ModelDisk;
use im_base_types::{Fault, Key, Rid};
use im_tool_lines::StoreAnswers;

/// What the lives of a store answer, and what stands after the last.
#[derive(Drop)]
pub struct StoreDrilled {
    /// The answers of each life.
    pub lives: Vec<StoreAnswers>,
    /// The entries that the last opening finds.
    pub last: Result<Vec<(Key, Rid)>, Fault>,
    /// The disk as the last opening has left it.
    pub disk: ModelDisk,
}
