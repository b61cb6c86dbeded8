//! How long a log may get, and what follows from that: when it goes on in the other file.

ghost use Rattle.std.specs.Prelude.{false, ◌≡◌, ◌≤◌, ◌*◌, ◌↔◌, IsTrue};
ghost use Rattle.im_store.specs.LogBound.{length_over, least_or_none};

use im_base_types::{PAGE_SIZE, PageNo};

/// A smaller bound is taken for this one: a log that has just been begun is never long.
const LEAST: u64 = 65_536;

/// The bytes of a bound that nobody names: an opening reads so many in some tenths of a second.
const USUAL: u64 = 67_108_864;

/// How much longer than the file of pages a log may get whose bound grows with the file. The first write of each page in a log brings one full copy of
/// it: so these are a seventh of what is logged before the log goes on in the other file, however many pages there are. It is more than the
/// bound of what is redone grows with, and less than twice that: so where nothing is active a Switch comes in the place of the Checkpoint.
const TIMES: u64 = 8;

/// How long the log may get that an opening reads: a number of bytes, and with 0 any.
#[derive(Clone, Copy, Debug, PartialEq, Eq)]
pub struct LogBound {
    bytes: u64,
    // It is more than these bytes where the file of pages is long.
    grows: bool,
}

impl LogBound {
    /// So many bytes, 65,536 at least. With 0 no Switch is ever made.
    pub fn of_bytes(bytes: u64) -> LogBound
        ensures bytes { result.bytes ≡ least_or_none bytes }
        ensures grows { result.grows ≡ false }
    {
        LogBound {
            bytes: least_or_none(bytes),
            grows: false,
        }
    }

    /// So many bytes, 65,536 at least, or eight times as many as the file of pages has, whichever is more. A number above 0.
    pub fn growing(bytes: u64) -> LogBound
        ensures bytes { result.bytes ≡ least_or_none bytes }
        ensures grows { IsTrue result.grows ↔ (1 ≤ bytes) }
    {
        LogBound {
            bytes: least_or_none(bytes),
            grows: bytes > 0,
        }
    }

    /// What it is for a file of so many pages.
    pub(crate) fn over(&self, pages: PageNo) -> LogBound
        ensures bytes { result.bytes ≡ length_over self.now.bytes self.now.grows pages }
        ensures grows { result.grows ≡ false }
    {
        let mut bytes = self.bytes;
        if self.grows {
            bytes = bytes.max(TIMES * PAGE_SIZE as u64 * pages as u64);
        }
        LogBound {
            bytes,
            grows: false,
        }
    }

    /// Whether there is a bound.
    pub(crate) fn is_set(&self) -> bool
        ensures { IsTrue result ↔ (1 ≤ self.now.bytes) }
    {
        self.bytes > 0
    }

    /// Whether a log of so many bytes has so many eighths of the bound.
    pub(crate) fn has(&self, eighths: u64, length: u64) -> bool
        requires few { eighths ≤ 8 }
        ensures { IsTrue result ↔ ((1 ≤ self.now.bytes) × (eighths * self.now.bytes ≤ 8 * length)) }
    {
        self.bytes > 0 && eighths as u128 * self.bytes as u128 <= 8 * length as u128
    }
}

impl Default for LogBound {
    /// 64 MiB, or eight times as many bytes as the file of pages has, whichever is more.
    fn default() -> Self
        ensures bytes { result.bytes ≡ 67108864 }
        ensures grows { IsTrue result.grows }
    {
        LogBound::growing(USUAL)
    }
}

// The least bound where it is a smaller one above 0.
fn least_or_none(bytes: u64) -> u64
    ensures { result ≡ least_or_none bytes }
{
    if bytes == 0 { 0 } else { bytes.max(LEAST) }
}
