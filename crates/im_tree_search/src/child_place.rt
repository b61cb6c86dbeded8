//! The child of an inner page on a key's way.

use im_base_types::PageNo;

/// Where a child stands in its parent: at the place of an entry, as the leftmost one in front of entries, or alone.
#[derive(Clone, Copy)]
pub enum ChildPlace {
    Entry(usize),
    Leftmost,
    Only,
}

/// The child of an inner page on a key's way, and where it stands.
#[derive(Clone, Copy)]
pub struct Child {
    pub number: PageNo,
    pub place: ChildPlace,
}
