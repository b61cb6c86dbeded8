//! The sizes that the formats fix, and the bounds of what a store takes.

/// The bytes of a page.
pub const PAGE_SIZE: usize = 4_096;

/// The bytes of a page after its LSN, which the record of a structure change holds.
pub const PAGE_BODY: usize = 4_088;

/// The bytes of a page after its header, for slots and cells.
pub const PAGE_ROOM: usize = 4_064;

/// The bytes of an Image: a record that holds a page.
pub const IMAGE_SIZE: usize = 4_129;

/// The most bytes of a key. The fewest is one.
pub const LONGEST_KEY: usize = 255;

/// The most bytes of records in a batch. The fewest is one.
pub const LONGEST_BATCH: usize = 16_384;

/// The most that stands after a gate and is written with a batch: its length in 4 bytes, the records, the next gate.
pub const BATCH_ROOM: usize = 16_389;

/// No record ends past this LSN.
pub const LAST_LSN: u64 = 1 << 62;

/// The greatest number of a transaction. The least is 1.
pub const LAST_TRANSACTION: u64 = 1 << 62;

/// How many transactions are active at most.
pub const MOST_ACTIVE: usize = 64;

/// How many pages a Checkpoint lists at most, and for how many the dirty table has room at least.
pub const MOST_DIRTY: usize = 1_024;

/// How many frames a pool has at least.
pub const LEAST_FRAMES: usize = 8;

/// How many frames a pool has at most.
pub const MOST_FRAMES: usize = 1_024;

/// How many entries a scan lists at most. The fewest that its limit asks is one.
pub const MOST_ENTRIES: usize = 256;
