//! What a header of the third format says.

use im_log_header::Header;

/// What the header of a log says whose batches have sums.
#[derive(Clone, Copy, Debug, PartialEq, Eq)]
pub struct ThirdHeader {
    /// The generation, the base and the least number, as a header of the second format has them.
    pub start: Header,
    /// Three bytes that go into each sum, beside the batch and its place. They are the same in all logs of a store.
    pub salt: [u8; 3],
    /// A force makes two syncs all the same: then no sum is trusted.
    pub two_syncs: bool,
}
