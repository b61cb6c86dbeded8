//! A structure change that is made page by page.

ghost use Rattle.std.specs.Prelude.{◌≤◌, length};
ghost use Rattle.im_smo_log.specs.Changes.{AreCounted};

use im_base_types::{Lsn, TxnId};
use im_smo_pages::Images;

/// A structure change of a transaction under way: the pages that it leaves, and how many of them are logged. The next
/// record of the transaction is chained from the one at `last`, and after the change its undo goes on at `undo_next`.
#[derive(Drop)]
pub struct Change {
    pub(crate) images: Images,
    pub(crate) done: usize,
    pub(crate) transaction: TxnId,
    pub(crate) last: Lsn,
    pub(crate) undo_next: Lsn,
    ghost within: { done ≤ length images },
    ghost counted: { AreCounted images },
    ghost owned: { 1 ≤ transaction },
}
