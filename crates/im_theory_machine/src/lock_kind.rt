//! How a name is locked, and for how long.

/// How a name is locked. Two locks of different owners on one name conflict where one is exclusive.
#[derive(Clone, Copy, Debug, PartialEq, Eq)]
pub enum Mode {
    Shared,
    Exclusive,
}

/// How long a lock stands: checked and not kept; kept until the structure change that its owner has under way ends, and it
/// falls back (`HasFallen`); or kept until the owner's locks are released.
#[derive(Clone, Copy, Debug, PartialEq, Eq)]
pub enum Duration {
    Instant,
    ToFinish,
    ToCommit,
}
