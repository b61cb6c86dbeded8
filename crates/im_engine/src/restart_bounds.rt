//! How much of the log an opening would read and redo, were the store to stop now.

ghost use Rattle.std.specs.Prelude.{◌≡◌, ◌+◌, ◌-◌, ◌^◌, min, length};

use crate::engine::Engine;
use im_base_disk::Disk;
use im_base_types::{DirtyPage, Lsn};

impl<D: Disk> Engine<D> {
    ghost use Rattle.im_log_gate.specs.Gate.{place_of};
    ghost use Rattle.im_page_table.specs.DirtyTable.{oldest};

    /// The LSN below which each record of the log is durable: a stop that comes now leaves all of them, and an opening reads them. An engine
    /// that has failed answers any number.
    pub fn durable_end(&self) -> Lsn
        ensures { result ≡ min (self.now.writer.log.base + place_of self.now.writer.log.gate) (2 ^ 64 - 1) }
    {
        self.writer.durable_end()
    }

    /// How many bytes of the current log's file are durable records with their gates: an opening reads so many, and begins anew with them after a
    /// `Switch`.
    pub fn log_length(&self) -> u64
        ensures { result ≡ place_of self.now.writer.log.gate }
    {
        self.writer.log_place()
    }

    /// How many pages may lack changes in their file, or have a write that is not synced: as many at most as the pool has frames, but for 1,024 at
    /// least and 65,536 at most. An opening redoes none but these, where a Checkpoint has just been taken.
    pub fn dirty_count(&self) -> usize
        ensures { result ≡ length self.now.writer.table.entries }
    {
        self.writer.dirty_count()
    }

    /// The page whose first change since its last write is the oldest, with the LSN of that change; none where each page is written. A
    /// Checkpoint that comes now lets an opening redo from this LSN on, or from its own where there is none; once the page is written
    /// (`Step::FlushPage`), from the next one's.
    pub fn oldest_change(&self) -> Option<DirtyPage>
        ensures { result ≡ oldest self.now.writer.table }
    {
        self.writer.oldest_change()
    }
}
