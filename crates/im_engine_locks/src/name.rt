//! What a lock is on.

/// What a lock is on: a key, or the name past the last key.
#[derive(Clone, Copy, Debug)]
pub enum Name<'a> {
    Key(&'a [u8]),
    End,
}
