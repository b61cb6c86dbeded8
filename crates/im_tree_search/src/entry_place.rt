//! Where an entry stands.

use im_page_pool::Frame;

/// Where an entry of a leaf stands: the leaf's frame, and the entry's place in the leaf. `PageWriter::page` lends the leaf, and with
/// it the key, as long as the leaf is held.
#[derive(Clone, Copy, Debug, PartialEq, Eq)]
pub struct EntryPlace {
    pub frame: Frame,
    pub at: usize,
}
