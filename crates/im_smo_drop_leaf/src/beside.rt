//! The leaves beside one that leaves the tree.

use im_base_types::PageNo;

/// The leaves beside a leaf in the chain; 0 stands for none.
#[derive(Clone, Copy)]
pub(crate) struct Beside {
    pub(crate) prev: PageNo,
    pub(crate) next: PageNo,
}

/// A side of a leaf in the chain.
#[derive(Clone, Copy)]
pub(crate) enum Side {
    Prev,
    Next,
}
