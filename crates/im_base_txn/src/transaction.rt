//! A row of the table.

ghost use Rattle.std.specs.Prelude.{◌≡◌};
ghost use Rattle.im_base_txn.specs.Rows.{is_committing};

use im_base_types::{Lsn, TxnId};

/// What a transaction may do next.
#[derive(Clone, Copy, Debug, Default, PartialEq, Eq)]
pub enum Mark {
    /// It takes every step.
    #[default]
    Going,
    /// It was told to die: only a rollback is taken.
    MustRollBack,
    /// It rolls back: only a step of that is taken.
    RollingBack,
    /// It takes its newest changes back until this many are left: only a step of that is taken.
    Returning(u64),
    /// Its Commit is logged and waits for a force: no step is taken.
    Committing,
}

impl Mark {
    /// Whether a Commit is logged and waits for a force.
    pub fn is_committing(&self) -> bool
        ensures { result ≡ is_committing self.now }
    {
        matches!(self, Mark::Committing)
    }
}

/// An active transaction.
#[derive(Clone, Copy, Debug, Default, PartialEq, Eq)]
pub struct Transaction {
    pub number: TxnId,
    /// The LSN of its last record, 0 for none.
    pub last: Lsn,
    /// The LSN of its next record to undo, 0 for none.
    pub undo_next: Lsn,
    pub mark: Mark,
    /// How many changes of keys it has made that are not taken back.
    pub changes: u64,
}
