//! Effects as a judge keeps them.

use im_base_types::{Rid, TxnId};

/// A change of one key.
#[derive(Debug, Drop)]
pub enum Change {
    /// The key is put with this row id.
    Insertion(Vec<u8>, Rid),
    /// The key is dropped.
    Deletion(Vec<u8>),
}

/// The changes of a transaction whose Commit was asked, the oldest first, and whether it was acknowledged.
#[derive(Debug, Drop)]
pub struct AskedEffect {
    pub txn: TxnId,
    pub changes: Vec<Change>,
    pub acked: bool,
}
