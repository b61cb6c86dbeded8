//! What a step by a key answers.

use im_base_types::TxnId;

/// What becomes of a step that asks locks: all of them are granted, or nothing is done.
#[derive(Drop)]
pub enum LockAnswer<T> {
    /// The locks are held, and this is the answer.
    Granted(T),
    /// The transaction is older than every holder of a lock in its way, of which this is the oldest: it may ask again.
    Wait(TxnId),
    /// Some holder of a lock in its way is older: it has to be rolled back.
    Die,
}
