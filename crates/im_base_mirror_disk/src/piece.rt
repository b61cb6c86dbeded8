//! What is left to be copied.

/// What is left to be copied of a file.
#[derive(Clone, Copy, Debug, PartialEq, Eq)]
pub enum Piece {
    /// Bytes were copied, and there may be more.
    More,
    /// All that there is now is copied.
    Last,
    /// There is no copy under way: none was begun, or a call of its disk failed.
    None,
}
