//! The structure change that was open is taken back, its newest page first.

ghost use Rattle.std.specs.Prelude.{◌≡◌, ◌≤◌, [], ◌∷◌, ℕ, true, false, length, Some, Ok, IfErr, OnOk};
ghost use Rattle.std.specs.Ordering.{nat_cmp};
ghost use Rattle.std.specs.BTreeMap.{Updates};
ghost use Rattle.im_base_types.specs.declared.fault.Fault.TheVariants.{Memory, NotAStore};
ghost use Rattle.im_theory_log.specs.Histories.{Base, History};
ghost use Rattle.im_theory_log.specs.Structure.{open_smo};
ghost use Rattle.im_theory_log.specs.Transactions.{last_of};
ghost use Rattle.im_theory_log.specs.Writer.{Writer};
ghost use Rattle.im_log_record.specs.Entry.{view, prev_of, transaction_of};
ghost use Rattle.im_log_record.specs.Spelling.{IsEntry};
ghost use Rattle.im_log.specs.Spelled.{logged_at};
ghost use Rattle.im_restart_analysis.specs.Losers.{AreLosers, is_loser};
ghost use Rattle.im_restart_analysis.specs.OpenChange.{IsOpenChange};
ghost use Rattle.im_page_writer.specs.Outcome.{fault_of, mild};
ghost use Rattle.im_page_writer.specs.PageWriter.{IsReadyWriter, StandsAs};
ghost use Rattle.im_restart_redo.specs.Recovery.{Recovers};
ghost use Rattle.im_restart.specs.StructureChange.{ChangeKept, IsNewestAt, IsTakingBack, PageKept, TakeBackKept};

use im_base_disk::Disk;
use im_base_types::{Fault, Lsn, TxnId};
use im_log_record::{Record, decode};
use im_page_writer::PageWriter;
use im_restart_analysis::{Loser, OpenRecord};
use std::collections::BTreeMap;

// Logs the undo of one page of a structure change after its transaction's last record, and makes the page what it was. It answers
// the LSN.
fn take_back<D: Disk>(
    writer: &mut PageWriter,
    disk: &mut D,
    last: Lsn,
    record: &Record,
) -> Result<Lsn, Fault>
    requires entry { IsEntry (view record.now) }
    requires ready { IsReadyWriter D.Disk writer.old disk.old }
    requires working { writer.old.failed ≡ false }
    ensures outcome { Recovers D.Disk mild writer.old writer.new disk.new (fault_of result) }
    ensures kept { (b : Base) (base : ℕ) (all : History) (s : Writer) (lsn : ℕ) (rest : History) → StandsAs D.Disk b base s writer.old disk.old → IsTakingBack b all s
        → open_smo s.log ≡ logged_at lsn (view record.now) ∷ rest → last ≡ last_of (transaction_of (view record.now)) s.log
        → TakeBackKept D.Disk b base all s (transaction_of (view record.now)) (prev_of (view record.now)) rest disk.old writer.new disk.new result }
{
    match record {
        Record::Smo {
            transaction,
            prev,
            page,
            before,
            ..
        } => {
            let undo = Record::UndoSmo {
                transaction: *transaction,
                prev: last,
                undo_next: *prev,
                page: *page,
                after: before,
            };
            writer.log_smo(disk, &undo)
        }
        _ => Err(Fault::NotAStore),
    }
}

// The LSN of a loser's last record.
fn last_of(losers: &BTreeMap<TxnId, Loser>, transaction: TxnId) -> Result<Lsn, Fault>
    ensures last { (log : History) → AreLosers losers.now log → is_loser transaction log ≡ true → result ≡ Ok (last_of transaction log) }
    ensures refused { IfErr result (λ e. e ≡ NotAStore) }
{
    match losers.get(&transaction) {
        None => Err(Fault::NotAStore),
        Some(row) => Ok(row.last),
    }
}

// Notes a loser's row.
fn note_row(
    losers: &mut BTreeMap<TxnId, Loser>,
    transaction: TxnId,
    row: Loser,
) -> Result<(), Fault>
    ensures updates { OnOk result (Updates nat_cmp losers.old losers.new transaction (Some row)) }
    ensures refused { IfErr result (λ e. e ≡ Memory) }
{
    match losers.insert(transaction, row) {
        Ok(_) => Ok(()),
        Err(_) => Err(Fault::Memory),
    }
}

// Takes back one page, whose record this is.
#[tactic(auto, using(im_restart_redo::proofs::Recoveries::recovers_then, im_restart_redo::proofs::Recoveries::recovery_refused))]
fn undo_page<D: Disk>(
    writer: &mut PageWriter,
    disk: &mut D,
    losers: &mut BTreeMap<TxnId, Loser>,
    record: &Record,
) -> Result<(), Fault>
    requires entry { IsEntry (view record.now) }
    requires ready { IsReadyWriter D.Disk writer.old disk.old }
    requires working { writer.old.failed ≡ false }
    ensures outcome { Recovers D.Disk mild writer.old writer.new disk.new (fault_of result) }
    ensures kept { (b : Base) (base : ℕ) (all : History) (s : Writer) (lsn : ℕ) (rest : History) → StandsAs D.Disk b base s writer.old disk.old → IsTakingBack b all s
        → open_smo s.log ≡ logged_at lsn (view record.now) ∷ rest → AreLosers losers.old s.log → PageKept D.Disk b base all s rest disk.old writer.new losers.new disk.new result }
{
    let last = last_of(losers, record.transaction())?;
    let lsn = take_back(writer, disk, last, record)?;
    let row = Loser {
        last: lsn,
        undo_next: record.prev(),
    };
    note_row(losers, record.transaction(), row)
}

// The same, with the record read into the room.
fn undo_page_at<D: Disk>(
    writer: &mut PageWriter,
    disk: &mut D,
    losers: &mut BTreeMap<TxnId, Loser>,
    lsn: Lsn,
    room: &mut [u8],
) -> Result<(), Fault>
    requires room { 16384 ≤ length room.old }
    requires ready { IsReadyWriter D.Disk writer.old disk.old }
    requires working { writer.old.failed ≡ false }
    ensures outcome { Recovers D.Disk mild writer.old writer.new disk.new (fault_of result) }
    ensures room { length room.new ≡ length room.old }
    ensures kept { (b : Base) (base : ℕ) (all : History) (s : Writer) (rest : History) → StandsAs D.Disk b base s writer.old disk.old → IsTakingBack b all s → IsNewestAt lsn s.log rest
        → AreLosers losers.old s.log → PageKept D.Disk b base all s rest disk.old writer.new losers.new disk.new result }
{
    let size = writer.read_at(disk, lsn, room)?;
    let record = decode(&room[..size])?;
    undo_page(writer, disk, losers, &record)
}

/// Takes back the structure change that was open, whose records these are, the newest page first, and leaves its transaction's row in
/// the table of the losers as that leaves it.
#[tactic(auto, using(im_restart_redo::proofs::Recoveries::recovers_then, im_restart_redo::proofs::Recoveries::recovery_refused))]
pub(crate) fn undo_change<D: Disk>(
    writer: &mut PageWriter,
    disk: &mut D,
    open_change: &mut Vec<OpenRecord>,
    losers: &mut BTreeMap<TxnId, Loser>,
    room: &mut [u8],
) -> Result<(), Fault>
    requires room { 16384 ≤ length room.old }
    requires ready { IsReadyWriter D.Disk writer.old disk.old }
    requires working { writer.old.failed ≡ false }
    ensures outcome { Recovers D.Disk mild writer.old writer.new disk.new (fault_of result) }
    ensures room { length room.new ≡ length room.old }
    ensures kept { (b : Base) (base : ℕ) (all : History) (s : Writer) → StandsAs D.Disk b base s writer.old disk.old → IsTakingBack b all s → IsOpenChange open_change.old.items s.log
        → AreLosers losers.old s.log → ChangeKept D.Disk b base all s disk.old writer.new losers.new disk.new result }
    ensures none { open_change.old.items ≡ [] → (result ≡ Ok tt) × (writer.new ≡ writer.old) × (losers.new ≡ losers.old) × (disk.new ≡ disk.old) }
{
    while let Some(newest) = open_change.pop() {
        undo_page_at(writer, disk, losers, newest.lsn, room)?;
    }
    Ok(())
}
