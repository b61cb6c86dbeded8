//! The answers of the lock table.

use im_base_types::TxnId;

/// What the lock table answers to the requests of a step, all or none.
#[derive(Clone, Copy, Debug, PartialEq, Eq)]
pub enum Verdict {
    /// Nothing conflicts, and all but those for the instant are held now.
    Granted,
    /// The requester is older than every holder in conflict, of which this is the oldest.
    Wait(TxnId),
    /// Some holder in conflict is older than the requester.
    Die,
}
