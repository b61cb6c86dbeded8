//! One that asks.

/// One that asks whether its transaction may begin.
#[repr(C)]
#[derive(Clone, Copy, Debug, PartialEq, Eq)]
pub struct Asker {
    /// Who it is, as the ticket of who is first names it; 0 for one that cannot be first.
    pub ticket: u64,
    /// The number that its transaction had when it gave way, 0 where it begins for the first time.
    pub mine: u64,
    /// The tick at which it came to wait.
    pub came: u64,
    /// The number of its thread; 0 where that is not told.
    pub thread: u64,
    /// The tick that it is now.
    pub tick: u64,
    /// For how many ticks a transaction makes no step before it counts as left alone.
    pub patience: u64,
}
