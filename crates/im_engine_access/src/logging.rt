//! The record of a key that comes or goes.

ghost use Rattle.std.specs.Prelude.{◌≡◌, ◌≤◌, ℕ, length, false};
ghost use Rattle.im_theory_log.specs.Histories.{Base};
ghost use Rattle.im_base_types.specs.Records.{InsertKey, DeleteKey};
ghost use Rattle.im_theory_log.specs.Writer.{Writer};
ghost use Rattle.im_page_writer.specs.PageWriter.{IsReadyWriter};
ghost use Rattle.im_page_writer.specs.Outcome.{fault_of, no_page, Logs};
ghost use Rattle.im_engine_access.specs.KeyLogs.{MayPut, MayTake, KeyLogKept};

use im_base_disk::Disk;
use im_base_types::{Fault, Lsn, PageNo, Rid, TxnId};
use im_log_record::Record;
use im_page_writer::PageWriter;

/// Logs the record of a key that comes into its leaf, after the transaction's record at `last`, and puts it there. It answers the
/// record's LSN. Another transaction's structure change may be open, where it has not changed that leaf: then the key's leaf is that of the
/// tree with the change taken back.
///
/// Refused as `PageWriter::log_change` is.
pub fn log_insert<D: Disk>(
    writer: &mut PageWriter,
    disk: &mut D,
    transaction: TxnId,
    last: Lsn,
    page: PageNo,
    key: &[u8],
    rid: Rid,
) -> Result<Lsn, Fault>
    requires ready { IsReadyWriter D.Disk writer.old disk.old }
    requires owner { 1 ≤ transaction }
    requires keyed { 1 ≤ length key.now }
    requires short { length key.now ≤ 255 }
    ensures outcome { Logs D.Disk false no_page writer.old disk.old writer.new disk.new (fault_of result) }
    ensures kept { (b : Base) (base : ℕ) (s : Writer) (e undo_next : ℕ) → MayPut D.Disk b base s e transaction last undo_next page key.now writer.old disk.old
        → KeyLogKept D.Disk b base s e transaction last page (InsertKey key.now rid) disk.old writer.new disk.new result }
{
    let record = Record::InsertKey {
        transaction,
        prev: last,
        page,
        key,
        rid,
    };
    writer.log_change(disk, &record)
}

/// Logs the record of a key that goes from its leaf, after the transaction's record at `last`, and takes it out. It answers the
/// record's LSN. Another transaction's structure change may be open, as for `log_insert`.
///
/// Refused as `PageWriter::log_change` is.
pub fn log_delete<D: Disk>(
    writer: &mut PageWriter,
    disk: &mut D,
    transaction: TxnId,
    last: Lsn,
    page: PageNo,
    key: &[u8],
    rid: Rid,
) -> Result<Lsn, Fault>
    requires ready { IsReadyWriter D.Disk writer.old disk.old }
    requires owner { 1 ≤ transaction }
    requires keyed { 1 ≤ length key.now }
    requires short { length key.now ≤ 255 }
    ensures outcome { Logs D.Disk false no_page writer.old disk.old writer.new disk.new (fault_of result) }
    ensures kept { (b : Base) (base : ℕ) (s : Writer) (e undo_next : ℕ) → MayTake D.Disk b base s e transaction last undo_next page key.now rid writer.old disk.old
        → KeyLogKept D.Disk b base s e transaction last page (DeleteKey key.now rid) disk.old writer.new disk.new result }
{
    let record = Record::DeleteKey {
        transaction,
        prev: last,
        page,
        key,
        rid,
    };
    writer.log_change(disk, &record)
}
