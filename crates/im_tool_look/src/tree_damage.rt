//! What is broken in the pages of a store.

use im_base_types::PageNo;
use thiserror::Error;

/// A rule of the tree or of the free list that does not hold, and the page where it does not.
#[derive(Clone, Copy, Debug, PartialEq, Eq, Error)]
pub enum TreeDamage {
    #[error("page {0}: its bytes are no page")]
    NoPage(PageNo),
    #[error("page 0: it is no meta page")]
    NoMeta,
    #[error("page {0}: its number is past the number of pages")]
    PastCount(PageNo),
    #[error("page {0}: it hangs in the tree twice")]
    Twice(PageNo),
    #[error("page {0}: its kind or level is not that of its place in the tree")]
    WrongLevel(PageNo),
    #[error("page {0}: it is marked, as in a structure change that is under way")]
    Marked(PageNo),
    #[error("page {0}: a key is not between the separators above it, or the keys do not rise")]
    KeyOutOfPlace(PageNo),
    #[error("page {0}: its neighbours are not those in the chain of leaves")]
    WrongNeighbours(PageNo),
    #[error("page {0}: it is on the free list, and is not free")]
    NotFree(PageNo),
    #[error("page 0: the free list has another length than it says")]
    FreeCount,
    #[error("page {0}: it is neither in the tree nor on the free list")]
    Lost(PageNo),
}
