//! One key record of a transaction, taken back.

ghost use Rattle.std.specs.Prelude.{◌≡◌, ◌≤◌, ℕ, true, false};
ghost use Rattle.im_theory_log.specs.Histories.{Base};
ghost use Rattle.im_theory_log.specs.Transactions.{is_key};
ghost use Rattle.im_theory_log.specs.Writer.{Writer};
ghost use Rattle.im_log_record.specs.Entry.{view, transaction_of};
ghost use Rattle.im_log_record.specs.Spelling.{IsEntry};
ghost use Rattle.im_log.specs.Whats.{what_of};
ghost use Rattle.im_page_writer.specs.PageWriter.{IsReadyWriter};
ghost use Rattle.im_page_writer.specs.Outcome.{fault_of, Logs};
ghost use Rattle.im_smo_pages.specs.Kept.{mild_to_take};
ghost use Rattle.im_restart_undo.specs.Undoing.{IsGoing, IsToUndo, CompensateKept};

use crate::logging::log_back;
use crate::plan::plan_alone;
use im_base_disk::Disk;
use im_base_types::{Fault, Lsn};
use im_log_record::Record;
use im_page_writer::PageWriter;
use std::alloc::Global;

/// Takes back one key record of a transaction: the key is put back into the leaf in whose range it lies now, or taken out of it, wherever
/// splits have moved it since. It answers the LSN of the transaction's last record after that; undo goes on at the record's own prev.
///
/// A leaf that lacks room for a key that comes back is split first, whatever limit of pages there is, and a leaf other than the root that is
/// left empty is taken out of the tree, each in a structure change of the transaction. For want of memory an empty leaf stays.
///
/// No lock is asked. Refused `Capacity` only where a key that comes back finds its leaf without room, and page numbers or levels are used
/// up; `Memory` only where it finds no room either, with all as it was; and `Failed` only where memory is wanted after a record of the
/// transaction that joined the log; otherwise as `PageWriter::log_change` is.
pub fn undo_one<D: Disk>(
    alloc: Global,
    writer: &mut PageWriter,
    disk: &mut D,
    record: &Record,
    last: Lsn,
    undo_next: Lsn,
) -> Result<Lsn, Fault>
    requires entry { IsEntry (view record.now) }
    requires ready { IsReadyWriter D.Disk writer.old disk.old }
    requires working { writer.old.failed ≡ false }
    requires key { is_key (what_of (view record.now)) ≡ true }
    requires owner { 1 ≤ transaction_of (view record.now) }
    ensures outcome { Logs D.Disk true mild_to_take writer.old disk.old writer.new disk.new (fault_of result) }
    ensures kept { (b : Base) (base : ℕ) (s : Writer) (e : ℕ) → IsGoing D.Disk b base s e (transaction_of (view record.now)) last undo_next writer.old disk.old
        → IsToUndo D.Disk b base s (transaction_of (view record.now)) (view record.now)
        → CompensateKept D.Disk b base s e (transaction_of (view record.now)) (view record.now) disk.old writer.new disk.new result }
{
    let back = plan_alone(alloc, writer, disk, record)?;
    log_back(writer, disk, record, last, undo_next, &back)
}
