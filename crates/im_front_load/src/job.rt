//! What one thread of a load does.

use im_base_types::Fault;
use im_front::Share;
use std::sync::ledger::Ledger;

/// Which of the threads of a load it is.
#[derive(Clone, Copy, Debug)]
pub(crate) enum Task {
    /// A worker, of this number.
    Work(u32),
    /// The flusher.
    Flush,
}

/// A task, and the share that counts its steps.
#[derive(Drop)]
pub(crate) struct Job<L: Ledger> {
    pub(crate) task: Task,
    pub(crate) share: Share<L>,
}

/// What came of a task: the share, and why it stopped where it did not come to its end.
#[derive(Drop)]
pub(crate) struct Ended<L: Ledger> {
    pub(crate) task: Task,
    pub(crate) share: Share<L>,
    pub(crate) fault: Option<Fault>,
}
