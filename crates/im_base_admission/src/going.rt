//! A place of the table.

/// A transaction that is active, or waits to begin again, as those that wait to begin know it.
#[repr(C)]
#[derive(Clone, Copy, Debug, PartialEq, Eq)]
pub struct Going {
    /// Its number; 0 where none is active here.
    pub number: u64,
    /// The tick of its last step that was answered. `u64::MAX` while it is within a call that ends by itself: it is not left alone then.
    pub seen: u64,
    /// The number of the thread whose it is; 0 where that is not told.
    pub thread: u64,
    /// While it waits to begin again and may be first, the number that it had when it gave way; else 0.
    pub had: u64,
    /// How often it has given way since it was first.
    pub agains: u64,
}
