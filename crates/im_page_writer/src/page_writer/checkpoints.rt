//! Checkpoints: the rows of both tables in a record of the log, after a sync of the file of pages.
ghost use Rattle.std.specs.Prelude.{◌≡◌, ◌≤◌, ◌<◌, ◌^◌, ◌↔◌, ℕ, List, None, Some, Ok, Err, false, true, length, OnOk};
ghost use Rattle.im_base_types.specs.declared.fault.Fault.TheVariants.{LogFull};
ghost use Rattle.im_theory_log.specs.Histories.{Base};
ghost use Rattle.im_base_types.specs.Records.{Logged};
ghost use Rattle.im_theory_log.specs.Writer.{Writer};
ghost use Rattle.im_base_disk.specs.Runs.{CostsAtMost};
ghost use Rattle.im_log_record.specs.Entry.{Checkpoint};
ghost use Rattle.im_log_record.specs.Spelling.{Rise, size_of};
ghost use Rattle.im_log.specs.LogFile.{end_with, IsOpen, IsLog};
ghost use Rattle.im_log.specs.Kept.{AppendKept};
ghost use Rattle.im_log.specs.Outcome.{LacksRoom, LogOutcome};
ghost use Rattle.im_page_writer.specs.Outcome.{fault_of};

use crate::PageWriter;
use im_base_disk::Disk;
use im_base_types::{ActiveTransaction, DirtyPage, Fault, Lsn, MOST_DIRTY, TxnId};
use im_log::LogFile;
use im_log_record::Record;

impl PageWriter {
    ghost use Rattle.im_page_table.specs.DirtyTable.{dirty_pages, forgotten_entries, synced_entries, FitsRecord};
    ghost use Rattle.im_page_writer.specs.Outcome.{none_mild, Flushes, Logs};
    ghost use Rattle.im_page_writer.specs.PageWriter.{IsReadyWriter, StandsAs};
    ghost use Rattle.im_page_flush.specs.Writing.{SameHeld};
    ghost use Rattle.im_page_writer.specs.Checkpoints.{TablesKept, CheckpointCosts, CheckpointKept, CheckpointFromKept, RowsFit};

    // Adds the record of a Checkpoint with the rows of the dirty table, of which no copy counts as known then.
    fn log_tables<D: Disk>(
        &mut self,
        disk: &mut D,
        next: TxnId,
        active: &[ActiveTransaction],
    ) -> Result<Lsn, Fault>
        requires few { length active.now ≤ 64 }
        requires rise { Rise (λ a. a.transaction) None active.now }
        requires ready { IsReadyWriter D.Disk self.old disk.old }
        requires working { self.old.failed ≡ false }
        ensures outcome { Logs D.Disk false none_mild self.old disk.old self.new disk.new (fault_of result) }
        ensures kept { length self.old.table.entries ≤ 1024 → (b : Base) (base : ℕ) (s : Writer) (e : ℕ) → StandsAs D.Disk b base s self.old disk.old → s.redo_end ≡ Some e → ((p : ℕ) → (s.pages p).unsynced ≡ false)
            → TablesKept D.Disk b base s next active.now (dirty_pages self.old.table) disk.old self.new disk.new result }
        ensures full { length self.old.table.entries ≤ 1024 → result ≡ Err LogFull ↔ (2 ^ 62 < end_with self.old.log (size_of (Checkpoint next active.now (dirty_pages self.old.table)))) }
        ensures table { OnOk result (self.new.table ≡ forgotten_entries self.old.table) }
        ensures pool { self.new.pool ≡ self.old.pool }
        ensures few { CostsAtMost D.Disk 2 2 disk.old disk.new }
    {
        self.table.copy_rows(&mut self.rows);
        self.table.forget();
        self.failed = true;
        let lsn = append_tables(disk, &mut self.log, next, active, self.rows.as_slice())?;
        self.known.from = None;
        self.failed = false;
        Ok(lsn)
    }

    // Whether a Checkpoint's record has room for the rows that a sync leaves.
    fn fits_record(&self) -> bool
        ensures { (result ≡ true) ↔ FitsRecord self.now.table }
    {
        self.table.len() - self.table.written_count() <= MOST_DIRTY
    }

    // Flushes the page that is written next, with others that go next, until a Checkpoint's record has room for the rows that a sync leaves, or
    // no page is left.
    fn flush_few<D: Disk>(&mut self, disk: &mut D) -> Result<(), Fault>
        requires ready { IsReadyWriter D.Disk self.old disk.old }
        requires working { self.old.failed ≡ false }
        ensures outcome { Flushes D.Disk self.old disk.old self.new disk.new (fault_of result) }
        ensures held { OnOk result (SameHeld self.old.pool self.new.pool) }
    {
        for _company in 0..self.table.most() {
            if self.fits_record() {
                break;
            }
            self.flush_next(disk)?;
        }
        Ok(())
    }

    // Writes pages, in the order in which `make_entry_room` does, where a Checkpoint's record has no room for the rows that a sync leaves: until it
    // has, and every page where that is not enough.
    fn fit_record<D: Disk>(&mut self, disk: &mut D) -> Result<(), Fault>
        requires ready { IsReadyWriter D.Disk self.old disk.old }
        ensures outcome { Flushes D.Disk self.old disk.old self.new disk.new (fault_of result) }
        ensures kept { (b : Base) (base : ℕ) (s : Writer) → StandsAs D.Disk b base s self.old disk.old → OnOk result (RowsFit D.Disk b base s disk.old self.new disk.new) }
        ensures held { OnOk result (SameHeld self.old.pool self.new.pool) }
        ensures unchanged { FitsRecord self.old.table → (self.new ≡ self.old) × (disk.new ≡ disk.old) }
        ensures done { self.old.failed ≡ false → FitsRecord self.old.table → result ≡ Ok tt }
    {
        if self.failed {
            return Err(Fault::Failed);
        }
        if self.fits_record() {
            return Ok(());
        }
        self.flush_few(disk)?;
        if self.fits_record() {
            return Ok(());
        }
        self.flush_every(disk)?;
        self.table.law_pages_differ();
        Ok(())
    }

    // The Checkpoint, where its record has room for the rows that the sync leaves.
    fn take_checkpoint<D: Disk>(
        &mut self,
        disk: &mut D,
        next: TxnId,
        active: &[ActiveTransaction],
    ) -> Result<Lsn, Fault>
        requires few { length active.now ≤ 64 }
        requires rise { Rise (λ a. a.transaction) None active.now }
        requires ready { IsReadyWriter D.Disk self.old disk.old }
        ensures outcome { Logs D.Disk false none_mild self.old disk.old self.new disk.new (fault_of result) }
        ensures kept { FitsRecord self.old.table → (b : Base) (base : ℕ) (s : Writer) (e : ℕ) → StandsAs D.Disk b base s self.old disk.old → s.redo_end ≡ Some e
            → CheckpointKept D.Disk b base s next active.now (dirty_pages (synced_entries self.old.table)) disk.old self.new disk.new result }
        ensures full { FitsRecord self.old.table → result ≡ Err LogFull → 2 ^ 62 < end_with self.old.log (size_of (Checkpoint next active.now (dirty_pages (synced_entries self.old.table)))) }
        ensures fits { FitsRecord self.old.table → OnOk result (end_with self.old.log (size_of (Checkpoint next active.now (dirty_pages (synced_entries self.old.table)))) ≤ 2 ^ 62) }
        ensures table { OnOk result (self.new.table ≡ forgotten_entries (synced_entries self.old.table)) }
        ensures pool { self.new.pool ≡ self.old.pool }
        ensures few { CostsAtMost D.Disk 4 5 disk.old disk.new }
    {
        self.sync_pages(disk)?;
        let lsn = self.log_tables(disk, next, active)?;
        self.force(disk)?;
        Ok(lsn)
    }

    /// Takes a Checkpoint, and answers its LSN: the file of pages is synced, then the record joins the log, with the next transaction
    /// number, these rows of active transactions and the rows of the dirty table as the sync has left it, and then the log is forced, as
    /// it is first where the record does not fit into its buffer. That is one sync and one force or two; no page is read, copied or
    /// written, and no memory is taken. The redo point of the log is then the least of the Checkpoint's LSN and the rec_lsns of its rows,
    /// and no page counts as having a full copy at or after it: the next write of each adds its Image.
    ///
    /// The record has room for 1,024 rows. Where the sync would leave more (`FitsRecord`), which only a pool of more than 1,024 frames can
    /// bring, pages are written first, in the order in which `make_entry_room` writes them, until it would not.
    ///
    /// Refused `LogFull`, after the sync, exactly where the record would end above LSN 2^62, or where an Image before it would, `Device`, or `Failed`
    /// after a call that failed.
    pub fn log_checkpoint<D: Disk>(
        &mut self,
        disk: &mut D,
        next: TxnId,
        active: &[ActiveTransaction],
    ) -> Result<Lsn, Fault>
        requires few { length active.now ≤ 64 }
        requires rise { Rise (λ a. a.transaction) None active.now }
        requires ready { IsReadyWriter D.Disk self.old disk.old }
        ensures outcome { Logs D.Disk false none_mild self.old disk.old self.new disk.new (fault_of result) }
        ensures kept { FitsRecord self.old.table → (b : Base) (base : ℕ) (s : Writer) (e : ℕ) → StandsAs D.Disk b base s self.old disk.old → s.redo_end ≡ Some e
            → CheckpointKept D.Disk b base s next active.now (dirty_pages (synced_entries self.old.table)) disk.old self.new disk.new result }
        ensures always { (b : Base) (base : ℕ) (s : Writer) (e : ℕ) → StandsAs D.Disk b base s self.old disk.old → s.redo_end ≡ Some e → CheckpointFromKept D.Disk b base s next active.now disk.old self.new disk.new result }
        ensures full { FitsRecord self.old.table → result ≡ Err LogFull → 2 ^ 62 < end_with self.old.log (size_of (Checkpoint next active.now (dirty_pages (synced_entries self.old.table)))) }
        ensures fits { FitsRecord self.old.table → OnOk result (end_with self.old.log (size_of (Checkpoint next active.now (dirty_pages (synced_entries self.old.table)))) ≤ 2 ^ 62) }
        ensures table { FitsRecord self.old.table → OnOk result (self.new.table ≡ forgotten_entries (synced_entries self.old.table)) }
        ensures pool { FitsRecord self.old.table → self.new.pool ≡ self.old.pool }
        ensures held { OnOk result (SameHeld self.old.pool self.new.pool) }
        ensures few { FitsRecord self.old.table → CostsAtMost D.Disk 4 5 disk.old disk.new }
        ensures costs { OnOk result (CheckpointCosts D.Disk self.old disk.old disk.new) }
    {
        self.fit_record(disk)?;
        self.take_checkpoint(disk, next, active)
    }
}

// Adds the record of a Checkpoint to the log.
fn append_tables<'a, D: Disk>(
    disk: &mut D,
    log: &mut LogFile,
    next: TxnId,
    active: &'a [ActiveTransaction],
    dirty: &'a [DirtyPage],
) -> Result<Lsn, Fault>
    requires active_most { length active.now ≤ 64 }
    requires active_rise { Rise (λ a. a.transaction) None active.now }
    requires dirty_most { length dirty.now ≤ 1024 }
    requires dirty_rise { Rise (λ r. r.page) None dirty.now }
    requires ready { IsOpen D.Disk log.old disk.old }
    ensures outcome { LogOutcome D.Disk (LacksRoom (size_of (Checkpoint next active.now dirty.now)) log.new) log.old disk.old log.new disk.new (fault_of result) }
    ensures kept { (base : ℕ) (all durable : List Logged) → IsLog D.Disk base all durable log.old disk.old
        → AppendKept D.Disk base all durable (Checkpoint next active.now dirty.now) disk.old log.new disk.new result }
    ensures full { result ≡ Err LogFull ↔ ((log.old.failed ≡ false) × (2 ^ 62 < end_with log.old (size_of (Checkpoint next active.now dirty.now)))) }
{
    let record = Record::checkpoint(next, active, dirty);
    log.append(disk, &record)
}
