//! Counts of transactions.

/// How many transactions were started, committed and rolled back.
#[derive(Clone, Copy, Debug, PartialEq, Eq)]
pub struct Stats {
    pub started: u64,
    pub committed: u64,
    pub rolled_back: u64,
}
