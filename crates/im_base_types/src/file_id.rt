//! The files of a store.

/// A file of a store.
#[derive(Clone, Copy, Debug, PartialEq, Eq)]
pub enum FileId {
    /// The records, in batches after gates.
    Log,
    /// The pages, in place.
    Pages,
    /// The other log: records too, of the generation before or of the one to come.
    Log2,
}
