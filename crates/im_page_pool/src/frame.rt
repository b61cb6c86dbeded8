//! Where a page is held.

use im_base_types::PageNo;

/// Where a page is held: its number, and the place of its frame. It is right until the page is evicted.
#[derive(Clone, Copy, Debug, PartialEq, Eq)]
pub struct Frame {
    pub number: PageNo,
    pub place: u32,
}
