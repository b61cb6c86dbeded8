//! What a search answers beside a structure change.

/// What a search beside a structure change answers: what it found, or that it would have to read a page that the change has made.
#[derive(Drop)]
pub enum Sight<T> {
    Seen(T),
    Hidden,
}
