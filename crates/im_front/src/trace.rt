//! A trace that only proofs read.

ghost use Rattle.std.specs.Prelude.{◌≡◌, List, [], ◌∷◌, ◌++◌};
ghost use Rattle.std.specs.Borrow.{ftrue};
ghost use Rattle.im_base_steps.specs.declared.step.Step.{Step as Steps};
ghost use Rattle.im_base_steps.specs.declared.reply.Reply.{Reply as Replies};

use im_base_steps::{Reply, Step};
use std::marker::Model;

/// Steps with their replies, since a store was at rest. It has no bytes, and its methods do nothing at run time.
#[derive(Drop)]
pub struct Trace {
    pub ghost steps: { List (Steps × Replies) },
}

impl Model for Trace {
    ghost also_owns = { λ _. ftrue };
}

// It owns nothing.
unsafe impl Send for Trace {}

impl Trace {
    /// No step.
    pub(crate) fn new() -> Trace
        ensures { result.steps ≡ [] }
    {
        Trace {}
    }

    /// One step more.
    pub(crate) fn with(&self, _step: &Step, _reply: &Reply) -> Trace
        ensures { result.steps ≡ self.now.steps ++ (_step.now, _reply.now) ∷ [] }
    {
        Trace {}
    }
}
