//! What an opening may cost.

ghost use Rattle.std.specs.Prelude.{◌≡◌, false};
ghost use Rattle.im_store.specs.LogBound.{least_or_none};

use crate::log_bound::LogBound;
use crate::redo_bound::RedoBound;

/// How much log an opening may have to redo, and how long the log may get that it reads.
#[derive(Clone, Copy, Debug, Default, PartialEq, Eq)]
pub struct Bounds {
    /// What is redone of it: it says when a Checkpoint is taken.
    pub redo: RedoBound,
    /// What is read of it: it says when the log goes on in the other file.
    pub log: LogBound,
}

impl Bounds {
    /// Bounds of so many bytes. With 0 for the first no Checkpoint is ever taken, with 0 for the second no Switch.
    pub fn of_bytes(redo: u64, log: u64) -> Bounds
        ensures redo { (result.redo.bytes ≡ redo) × (result.redo.grows ≡ false) }
        ensures log { (result.log.bytes ≡ least_or_none log) × (result.log.grows ≡ false) }
    {
        Bounds {
            redo: RedoBound::of_bytes(redo),
            log: LogBound::of_bytes(log),
        }
    }
}
