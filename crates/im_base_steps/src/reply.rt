//! What a store that many transactions use at once answers.

ghost use Rattle.std.specs.Prelude.{◌≡◌};
ghost use Rattle.im_base_steps.specs.Calls.{told_by, is_blocked};

use im_base_types::{Fault, Key, Rid, TxnId};

/// Who or what stands in the way of a step.
#[derive(Clone, Copy, Debug, PartialEq, Eq)]
pub enum Blocker {
    /// A lock that this transaction holds, the smallest number of those that do.
    Lock(TxnId),
    /// A structure change that is under way.
    Tree,
}

/// The answer to a step. The key of an entry lies on the heap, so that a reply takes little room: it is handed on from layer to layer.
#[derive(Drop)]
pub enum Reply {
    /// A transaction was begun; its number.
    Started(TxnId),
    /// The key is there, with this row id.
    Found(Rid),
    /// The key is not there.
    Absent,
    /// The least key that was asked for is there, or the greatest, with its row id.
    Entry(Box<Key>, Rid),
    /// No key is there after the one that was named, or before it.
    End,
    /// The entries of a range, in rising order.
    Entries(Vec<(Key, Rid)>),
    Inserted,
    /// The key is there already; nothing was changed.
    Duplicate,
    Deleted,
    /// All that the transaction did is durable.
    Committed,
    /// Nothing of what the transaction did is left.
    RolledBack,
    /// Something is left to be done: make a Continue. After a Commit: it is logged, and the next force that is made commits the transaction.
    More,
    /// Nothing was changed: make the step again when what stands in the way has ended.
    Blocked(Blocker),
    /// The transaction must roll back.
    Die,
    /// What was asked for is done.
    Done,
    Refused(Fault),
}

impl Reply {
    /// Whether it is `Blocked`: the step is to be made again.
    pub fn is_blocked(&self) -> bool
        ensures { result ≡ is_blocked (told_by self.now) }
    {
        matches!(self, Reply::Blocked(_))
    }
}
