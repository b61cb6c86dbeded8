//! What was written for a Switch that comes soon.

use im_base_types::Lsn;

/// What was written for the Switch that is to come, since the one before it. A change that is made later has no smaller LSN than one that is there.
#[derive(Clone, Copy, Debug)]
pub(crate) enum Ahead {
    /// None was seen to come soon.
    Unseen,
    /// The pages whose oldest change is below this LSN are written, one after a reply.
    Below(Lsn),
    /// Of those that were to be written none is left, and none comes: nobody needs to look for one.
    Written,
}
