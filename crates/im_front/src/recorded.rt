//! A step of the trace.

use crate::told::Told;
use im_base_steps::Step;

/// A step that was made, and the reply that it was answered.
#[derive(Drop)]
pub struct Recorded {
    pub step: Step,
    pub reply: Told,
}
