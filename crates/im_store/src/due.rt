//! What is due of an open store.

/// What is due of an open store: what is made of it next, where its bounds are to hold.
#[derive(Clone, Copy, Debug, PartialEq, Eq)]
pub enum Due {
    /// Nothing but, now and then, the write of a page.
    Nothing,
    /// Pages are written, and a Checkpoint is taken.
    Checkpoint,
    /// The log goes on in the other file.
    Switch,
}
