//! A Checkpoint of both tables.

ghost use Rattle.std.specs.Prelude.{◌≡◌, ◌≤◌, ◌<◌, ◌^◌, ℕ, false, length, Err, Some, OnOk};
ghost use Rattle.im_base_types.specs.declared.fault.Fault.TheVariants.{LogFull};
ghost use Rattle.im_theory_log.specs.Histories.{Base};
ghost use Rattle.im_theory_log.specs.Writer.{Writer};
ghost use Rattle.im_base_disk.specs.Runs.{CostsAtMost};
ghost use Rattle.im_log_record.specs.Entry.{Checkpoint};
ghost use Rattle.im_log_record.specs.Spelling.{size_of};
ghost use Rattle.im_log.specs.LogFile.{end_with};
ghost use Rattle.im_page_writer.specs.Checkpoints.{CheckpointCosts, CheckpointFromKept, CheckpointKept};
ghost use Rattle.im_page_table.specs.DirtyTable.{dirty_pages, forgotten_entries, synced_entries, FitsRecord};
ghost use Rattle.im_page_writer.specs.Outcome.{fault_of, none_mild, Logs};
ghost use Rattle.im_page_writer.specs.PageWriter.{IsReadyWriter, StandsAs};
ghost use Rattle.im_engine_checkpoint.specs.Rows.{listed};

use crate::rows::rows_of;
use im_base_disk::Disk;
use im_base_txn::Table;
use im_base_types::{ActiveTransaction, Fault, Lsn, MOST_ACTIVE, TxnId};
use im_page_writer::PageWriter;

// A row of a buffer that nothing was written to.
const NO_TRANSACTION: ActiveTransaction = ActiveTransaction {
    transaction: 0,
    last: 0,
    undo_next: 0,
};

/// Takes a Checkpoint, and answers its LSN: the file of pages is synced, then one record joins the log with the next transaction number,
/// the transactions of the table that have logged a record, and the dirty table as the sync has left it, and then the log is forced. That
/// is one sync of the pages and one force, or two where the record does not fit into the log's buffer. It takes no memory.
///
/// A record has room for 1,024 pages. Where more than these were changed since their last write, pages are written first, for which Images
/// may join the log, until no more are left.
///
/// Refused `LogFull`: where no page is written first after the sync, and exactly where the record would end above LSN 2^62, and else where it
/// or an Image would. Refused `Device`, or `Failed` after a call of the writer that failed. After each of these the writer has failed.
pub fn take<D: Disk>(
    writer: &mut PageWriter,
    disk: &mut D,
    table: &Table,
    next: TxnId,
) -> Result<Lsn, Fault>
    requires few { length table.now ≤ 64 }
    requires ready { IsReadyWriter D.Disk writer.old disk.old }
    ensures outcome { Logs D.Disk false none_mild writer.old disk.old writer.new disk.new (fault_of result) }
    ensures kept { FitsRecord writer.old.table → (b : Base) (base : ℕ) (s : Writer) (e : ℕ) → StandsAs D.Disk b base s writer.old disk.old → s.redo_end ≡ Some e
        → CheckpointKept D.Disk b base s next (listed table.now) (dirty_pages (synced_entries writer.old.table)) disk.old writer.new disk.new result }
    ensures always { (b : Base) (base : ℕ) (s : Writer) (e : ℕ) → StandsAs D.Disk b base s writer.old disk.old → s.redo_end ≡ Some e
        → CheckpointFromKept D.Disk b base s next (listed table.now) disk.old writer.new disk.new result }
    ensures full { FitsRecord writer.old.table → result ≡ Err LogFull → 2 ^ 62 < end_with writer.old.log (size_of (Checkpoint next (listed table.now) (dirty_pages (synced_entries writer.old.table)))) }
    ensures fits { FitsRecord writer.old.table → OnOk result (end_with writer.old.log (size_of (Checkpoint next (listed table.now) (dirty_pages (synced_entries writer.old.table)))) ≤ 2 ^ 62) }
    ensures table { FitsRecord writer.old.table → OnOk result (writer.new.table ≡ forgotten_entries (synced_entries writer.old.table)) }
    ensures pool { FitsRecord writer.old.table → writer.new.pool ≡ writer.old.pool }
    ensures few { FitsRecord writer.old.table → CostsAtMost D.Disk 4 5 disk.old disk.new }
    ensures costs { OnOk result (CheckpointCosts D.Disk writer.old disk.old disk.new) }
{
    let mut rows = [NO_TRANSACTION; MOST_ACTIVE];
    let count = rows_of(table, &mut rows);
    writer.log_checkpoint(disk, next, &rows[..count])
}
