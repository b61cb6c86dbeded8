//! How much an opening may have to redo, and what follows from that: when a Checkpoint is due, and which pages are written before it.

ghost use Rattle.std.specs.Prelude.{false, ◌≡◌, ◌≤◌, ◌<◌, ◌*◌, ◌^◌, ◌↔◌, IsTrue};
ghost use Rattle.im_store.specs.RedoBound.{bytes_over, redo_length};

use im_base_types::{IMAGE_SIZE, Lsn, PAGE_SIZE, PageNo};

/// What a write of a page may add to the log: its full copy, in a batch of its own.
const COPY: u128 = IMAGE_SIZE as u128 + 5;

/// A log that goes on so far after a Checkpoint has little more in it than that Checkpoint.
const LITTLE: u128 = 4_096;

/// The bytes of a bound that nobody names.
const USUAL: u64 = 16_777_216;

/// How much longer than the file of pages the log is that an opening may have to redo, of a bound that grows with the file. Each page that is
/// written after a Checkpoint brings one full copy of itself: so these are a quarter of what is logged, however many pages there are.
const TIMES: u64 = 7;

/// Of a bound that has grown, twice as many bytes a page as a Checkpoint leaves to be redone: a sixteenth of the bound. In a store that is much larger
/// than its pool few pages have older changes than that, so little is written for it, and a Checkpoint comes after nearly the whole bound.
const LEFT: u64 = 3_584;

/// How much log an opening may have to redo, whenever the store stopped: a number of bytes, and with 0 any.
#[derive(Clone, Copy, Debug, PartialEq, Eq)]
pub struct RedoBound {
    bytes: u64,
    // It is more than these bytes where the file of pages is long.
    grows: bool,
}

impl RedoBound {
    /// So many bytes. With 0 no Checkpoint is ever taken.
    pub fn of_bytes(bytes: u64) -> RedoBound
        ensures bytes { result.bytes ≡ bytes }
        ensures grows { result.grows ≡ false }
    {
        RedoBound {
            bytes,
            grows: false,
        }
    }

    /// So many bytes, or seven times as many as the file of pages has, whichever is more. A number above 0.
    pub fn growing(bytes: u64) -> RedoBound
        ensures bytes { result.bytes ≡ bytes }
        ensures grows { IsTrue result.grows ↔ (1 ≤ bytes) }
    {
        RedoBound {
            bytes,
            grows: bytes > 0,
        }
    }

    /// What it is for a file of so many pages.
    pub(crate) fn over(&self, pages: PageNo) -> RedoBound
        ensures bytes { result.bytes ≡ bytes_over self.now.bytes self.now.grows pages }
        ensures grows { result.grows ≡ false }
    {
        if !self.grows {
            return RedoBound::of_bytes(self.bytes);
        }
        let grown = TIMES * PAGE_SIZE as u64 * pages as u64;
        RedoBound::of_bytes(self.bytes.max(grown))
    }

    /// The bound to half of which the redo is brought by writing pages before a Checkpoint, for a file of so many pages: what it is, or where it has grown
    /// with the file an eighth of that.
    pub(crate) fn left(&self, pages: PageNo) -> RedoBound
        ensures fixed { self.now.grows ≡ false → result.bytes ≡ self.now.bytes }
        ensures small { 28672 * pages ≤ self.now.bytes → result.bytes ≡ self.now.bytes }
        ensures grown { IsTrue self.now.grows → self.now.bytes < 28672 * pages → result.bytes ≡ 3584 * pages }
        ensures grows { result.grows ≡ false }
    {
        if self.grows && self.bytes < TIMES * PAGE_SIZE as u64 * pages as u64 {
            RedoBound::of_bytes(LEFT * pages as u64)
        } else {
            RedoBound::of_bytes(self.bytes)
        }
    }

    /// Whether there is a bound.
    pub(crate) fn is_set(&self) -> bool
        ensures { IsTrue result ↔ (1 ≤ self.now.bytes) }
    {
        self.bytes > 0
    }

    /// Whether so many eighths of the bound are reached, of a log that is durable up to an end and that an opening would redo from an LSN on,
    /// where each page that may lack changes in its file is counted with the full copy that the log may get of it before a Checkpoint. A Checkpoint is due
    /// at seven: the last eighth is left for what one step logs, and for the Checkpoint.
    pub(crate) fn is_reached(&self, eighths: u64, from: Lsn, end: Lsn, pages: usize) -> bool
        requires few { eighths ≤ 8 }
        ensures { IsTrue result ↔ ((1 ≤ self.now.bytes) × (eighths * self.now.bytes ≤ 8 * redo_length from end pages)) }
    {
        self.bytes > 0 && eighths as u128 * self.bytes as u128 <= 8 * redo_length(from, end, pages)
    }

    /// Whether the page with the oldest change is written before a Checkpoint: where from the LSN of that change on, with a full copy of
    /// each page that is left, the log is longer than half of the bound.
    pub(crate) fn wants_write(&self, change: Lsn, end: Lsn, pages: usize) -> bool
        ensures { IsTrue result ↔ (self.now.bytes < 2 * redo_length change end pages) }
    {
        (self.bytes as u128) < 2 * redo_length(change, end, pages)
    }
}

impl Default for RedoBound {
    /// 16 MiB, or seven times as many bytes as the file of pages has, whichever is more.
    fn default() -> Self
        ensures bytes { result.bytes ≡ 16777216 }
        ensures grows { IsTrue result.grows }
    {
        RedoBound::growing(USUAL)
    }
}

/// Whether an opening has nothing to redo: each page is written and synced, and hardly more than a Checkpoint is read of the log.
pub(crate) fn is_closed(from: Lsn, end: Lsn, pages: usize) -> bool
    ensures { IsTrue result ↔ ((pages ≡ 0) × (redo_length from end 0 ≤ 4096)) }
{
    pages == 0 && redo_length(from, end, 0) <= LITTLE
}

/// How much log an opening would read from an LSN on, once so many pages more have a full copy in it.
pub(crate) fn redo_length(from: Lsn, end: Lsn, pages: usize) -> u128
    ensures value { result ≡ redo_length from end pages }
    ensures fits { result < 2 ^ 80 }
{
    (end as u128 + COPY * pages as u128).saturating_sub(from as u128)
}
