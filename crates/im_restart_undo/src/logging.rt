//! A key record of a transaction, taken back as planned.

ghost use Rattle.std.specs.Prelude.{◌≡◌, ◌≤◌, ℕ, true, false, IfErr};
ghost use Rattle.im_base_types.specs.declared.fault.Fault.TheVariants.{Failed};
ghost use Rattle.im_theory_log.specs.Histories.{Base};
ghost use Rattle.im_theory_log.specs.Structure.{open_smo};
ghost use Rattle.im_theory_log.specs.Transactions.{is_key};
ghost use Rattle.im_theory_log.specs.Writer.{Writer};
ghost use Rattle.im_log_record.specs.Entry.{view, transaction_of};
ghost use Rattle.im_log_record.specs.Spelling.{IsEntry};
ghost use Rattle.im_log.specs.Whats.{what_of};
ghost use Rattle.im_page_writer.specs.PageWriter.{IsReadyWriter};
ghost use Rattle.im_page_writer.specs.Outcome.{fault_of, mild, no_page, Logs};
ghost use Rattle.im_smo_actions.specs.GoingBeside.{settled_pages};
ghost use Rattle.im_restart_undo.specs.GoingBeside.{IsGoingBeside, BackKept, HasChange};
ghost use Rattle.im_restart_undo.specs.Planning.{CanBack, DropsFor, IsOutOf, SplitsFor};
ghost use Rattle.im_restart_undo.specs.Undoing.{IsGoing, IsToUndo, CompensateKept};

use crate::back::Back;
use crate::compensation::compensate;
use crate::memory_fault::wants_memory;
use im_base_disk::Disk;
use im_base_types::{Fault, Lsn, PageNo};
use im_log_record::Record;
use im_page_writer::PageWriter;
use im_smo_log::{late, run};
use im_smo_pages::Images;
use im_smo_split::SplitPlan;

// Splits the leaf of a key that comes back, and puts the key into the leaf that the plan names.
fn log_behind_split<D: Disk>(
    writer: &mut PageWriter,
    disk: &mut D,
    record: &Record,
    last: Lsn,
    undo_next: Lsn,
    plan: &SplitPlan,
) -> Result<Lsn, Fault>
    requires entry { IsEntry (view record.now) }
    requires ready { IsReadyWriter D.Disk writer.old disk.old }
    requires working { writer.old.failed ≡ false }
    requires key { is_key (what_of (view record.now)) ≡ true }
    requires owner { 1 ≤ transaction_of (view record.now) }
    ensures outcome { Logs D.Disk true mild writer.old disk.old writer.new disk.new (fault_of result) }
    ensures kept { (b : Base) (base : ℕ) (s : Writer) (e : ℕ) → IsGoing D.Disk b base s e (transaction_of (view record.now)) last undo_next writer.old disk.old
        → IsToUndo D.Disk b base s (transaction_of (view record.now)) (view record.now) → SplitsFor (settled_pages b s) (what_of (view record.now)) plan.now
        → CompensateKept D.Disk b base s e (transaction_of (view record.now)) (view record.now) disk.old writer.new disk.new result }
{
    let lsn = run(
        writer,
        disk,
        &plan.images,
        record.transaction(),
        last,
        undo_next,
    )?;
    match compensate(writer, disk, record, lsn, plan.leaf) {
        Ok(lsn) => Ok(lsn),
        Err(fault) => Err(late(fault)),
    }
}

// Takes the last key of a leaf out of it, and then the leaf out of the tree, which stays for want of memory.
fn log_before_drop<D: Disk>(
    writer: &mut PageWriter,
    disk: &mut D,
    record: &Record,
    last: Lsn,
    page: PageNo,
    images: &Images,
) -> Result<Lsn, Fault>
    requires entry { IsEntry (view record.now) }
    requires ready { IsReadyWriter D.Disk writer.old disk.old }
    requires working { writer.old.failed ≡ false }
    requires key { is_key (what_of (view record.now)) ≡ true }
    requires owner { 1 ≤ transaction_of (view record.now) }
    ensures outcome { Logs D.Disk true no_page writer.old disk.old writer.new disk.new (fault_of result) }
    ensures kept { (b : Base) (base : ℕ) (s : Writer) (e undo_next : ℕ) → IsGoing D.Disk b base s e (transaction_of (view record.now)) last undo_next writer.old disk.old
        → IsToUndo D.Disk b base s (transaction_of (view record.now)) (view record.now) → DropsFor (settled_pages b s) (what_of (view record.now)) page images.now
        → CompensateKept D.Disk b base s e (transaction_of (view record.now)) (view record.now) disk.old writer.new disk.new result }
{
    let lsn = compensate(writer, disk, record, last, page)?;
    match run(
        writer,
        disk,
        images,
        record.transaction(),
        lsn,
        record.prev(),
    ) {
        Ok(last) => Ok(last),
        Err(fault) => {
            if wants_memory(fault) {
                return Ok(lsn);
            }
            Err(fault)
        }
    }
}

/// Takes back one key record of a transaction as `plan_back` has planned it, over pages that are as they were then but for changes of
/// others on other leaves. It answers the LSN of the transaction's last record after that; undo goes on at the record's own prev.
///
/// A structure change that is planned is made whole, as one of the transaction; a leaf that is left empty stays where memory is
/// wanted then. With `Back::Plain` the compensation is all that is logged beside Images, so that a change that is made in later steps is
/// begun after it, or closed before it, by the caller.
///
/// No lock is asked. Refused `Memory` only in front of a split, with all as it was, and `Failed` only where a structure change is planned and
/// memory is wanted after a record of the transaction that joined the log; otherwise as `PageWriter::log_change` is.
pub fn log_back<D: Disk>(
    writer: &mut PageWriter,
    disk: &mut D,
    record: &Record,
    last: Lsn,
    undo_next: Lsn,
    back: &Back,
) -> Result<Lsn, Fault>
    requires entry { IsEntry (view record.now) }
    requires ready { IsReadyWriter D.Disk writer.old disk.old }
    requires working { writer.old.failed ≡ false }
    requires key { is_key (what_of (view record.now)) ≡ true }
    requires owner { 1 ≤ transaction_of (view record.now) }
    ensures outcome { Logs D.Disk true mild writer.old disk.old writer.new disk.new (fault_of result) }
    ensures kept { (b : Base) (base : ℕ) (s : Writer) (e : ℕ) → IsGoingBeside D.Disk b base s e (transaction_of (view record.now)) last undo_next writer.old disk.old
        → IsToUndo D.Disk b base s (transaction_of (view record.now)) (view record.now) → CanBack (settled_pages b s) (what_of (view record.now)) back.now → IsOutOf (open_smo s.log) back.now
        → BackKept D.Disk b base s e (transaction_of (view record.now)) (view record.now) back.now disk.old writer.new disk.new result }
    ensures early { IfErr result (λ e. e ≡ Failed → HasChange back.now) }
{
    match back {
        Back::Plain(page) => compensate(writer, disk, record, last, *page),
        Back::Split(plan) => log_behind_split(writer, disk, record, last, undo_next, plan),
        Back::Drop(page, images) => log_before_drop(writer, disk, record, last, *page, images),
    }
}
