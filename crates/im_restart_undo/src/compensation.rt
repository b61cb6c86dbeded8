//! The compensation of a key record.

ghost use Rattle.std.specs.Prelude.{◌≡◌, ℕ, true, false};
ghost use Rattle.im_theory_log.specs.Histories.{Base};
ghost use Rattle.im_theory_log.specs.Lawful.{IsNotIn};
ghost use Rattle.im_theory_log.specs.Structure.{open_smo, settled};
ghost use Rattle.im_theory_log.specs.Transactions.{is_key};
ghost use Rattle.im_theory_log.specs.Writer.{Writer};
ghost use Rattle.im_log_record.specs.Entry.{view, transaction_of};
ghost use Rattle.im_log_record.specs.Spelling.{IsEntry};
ghost use Rattle.im_log.specs.Whats.{what_of};
ghost use Rattle.im_page_writer.specs.PageWriter.{IsReadyWriter};
ghost use Rattle.im_page_writer.specs.Outcome.{fault_of, no_page, Logs};
ghost use Rattle.im_restart_undo.specs.declared.back.Back.TheVariants.{Plain};
ghost use Rattle.im_restart_undo.specs.GoingBeside.{IsGoingBeside, BackKept};
ghost use Rattle.im_restart_undo.specs.Undoing.{IsToUndo, TakesIt};

use im_base_disk::Disk;
use im_base_types::{Fault, Lsn, PageNo};
use im_log_record::Record;
use im_page_writer::PageWriter;

/// Logs the compensation of an insert or a delete after its transaction's last record, and takes the key out of this page or puts it
/// back. It answers the compensation's LSN.
///
/// Refused `NotAStore` where the page does not take it; otherwise as `PageWriter::log_change` is.
pub(crate) fn compensate<D: Disk>(
    writer: &mut PageWriter,
    disk: &mut D,
    record: &Record,
    last: Lsn,
    page: PageNo,
) -> Result<Lsn, Fault>
    requires entry { IsEntry (view record.now) }
    requires ready { IsReadyWriter D.Disk writer.old disk.old }
    requires key { is_key (what_of (view record.now)) ≡ true }
    ensures outcome { Logs D.Disk false no_page writer.old disk.old writer.new disk.new (fault_of result) }
    ensures kept { (b : Base) (base : ℕ) (s : Writer) (e undo_next : ℕ) → IsGoingBeside D.Disk b base s e (transaction_of (view record.now)) last undo_next writer.old disk.old
        → IsToUndo D.Disk b base s (transaction_of (view record.now)) (view record.now) → TakesIt (settled b s.log) page (what_of (view record.now)) → IsNotIn page (open_smo s.log)
        → BackKept D.Disk b base s e (transaction_of (view record.now)) (view record.now) (Plain page) disk.old writer.new disk.new result }
{
    match record {
        Record::InsertKey {
            transaction,
            prev,
            key,
            rid,
            ..
        } => {
            let undo = Record::UndoInsert {
                transaction: *transaction,
                prev: last,
                undo_next: *prev,
                page,
                key,
                rid: *rid,
            };
            writer.log_change(disk, &undo)
        }
        Record::DeleteKey {
            transaction,
            prev,
            key,
            rid,
            ..
        } => {
            let undo = Record::UndoDelete {
                transaction: *transaction,
                prev: last,
                undo_next: *prev,
                page,
                key,
                rid: *rid,
            };
            writer.log_change(disk, &undo)
        }
        _ => Err(Fault::NotAStore),
    }
}
