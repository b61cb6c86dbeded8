//! What a script answers.

use crate::LifeAnswers;
use im_base_types::Fault;

/// What a script's lives answer.
#[derive(Debug, Drop)]
pub struct Drilled {
    /// The answers of each life.
    pub lives: Vec<LifeAnswers>,
    /// The batches that the last opening finds.
    pub last: Result<Vec<Vec<u8>>, Fault>,
}
