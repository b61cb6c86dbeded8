//! The kinds of pages.

/// What a page is for.
#[derive(Clone, Copy, Debug, PartialEq, Eq)]
pub enum PageKind {
    /// In the list of free pages.
    Free,
    /// Page 0: the number of pages and the head of the free list.
    Meta,
    /// Entries of the index.
    Leaf,
    /// Separators and children.
    Inner,
}
