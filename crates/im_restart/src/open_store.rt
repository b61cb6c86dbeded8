//! A store is opened.

ghost use Rattle.std.specs.Prelude.{◌≡◌, ◌≢◌, ◌≤◌, ◌⊎◌, ℕ, [], false, length, Ok, IfErr, IfOk};
ghost use Rattle.im_base_types.specs.declared.fault.Fault.TheVariants.{Capacity, Device, Memory, NotAStore};
ghost use Rattle.im_base_types.specs.declared.file_id.FileId.TheVariants.{Log, Pages, Log2};
ghost use Rattle.im_theory_log.specs.Histories.{Base, History};
ghost use Rattle.im_theory_log.specs.RedoPoints.{redo_point};
ghost use Rattle.im_theory_log.specs.Writer.{Writer};
ghost use Rattle.im_theory_log.specs.WriterSteps.{opened};
ghost use Rattle.im_base_disk.specs.Disk.{Only};
ghost use Rattle.im_base_disk.specs.Runs.{IsSynced, Reads};
ghost use Rattle.im_log_gate.specs.Header.{IsMade, IsUnmade};
ghost use Rattle.im_theory_page.specs.PageFile.{file_page};
ghost use Rattle.im_log.specs.LogFile.{IsOpen};
ghost use Rattle.im_restart_analysis.specs.Analysis.{IsAnalysis};
ghost use Rattle.im_restart_analysis.specs.Changes.{changes_from};
ghost use Rattle.im_restart_analysis.specs.Losers.{AreLosers};
ghost use Rattle.im_restart_analysis.specs.OpenChange.{IsOpenChange};
ghost use Rattle.im_smo_pages.specs.Kept.{mild_to_take};
ghost use Rattle.im_restart_redo.specs.Recovery.{Recovers};
ghost use Rattle.im_restart_redo.specs.Redo.{AreApplicable};
ghost use Rattle.im_page_writer.specs.Outcome.{fault_of};
ghost use Rattle.im_page_writer.specs.PageWriter.{IsReadyWriter, StandsAs};
ghost use Rattle.im_restart.specs.Opening.{IsRestarted, Opens};
ghost use Rattle.im_restart.specs.Reading.{IsFound};
ghost use Rattle.im_restart.specs.StructureChange.{IsTakingBack};
ghost use Rattle.im_restart.specs.Undoing.{UndoKept};
ghost use Rattle.im_log.specs.Kept.{IsLogOf};
ghost use Rattle.im_restart_analysis.specs.Orderly.{pages_at_first};
ghost use Rattle.im_restart.specs.Restart.{AreTaken, IsFresh, SpellsLog, LeavesNoUndo, MayRedo, MayRestart, NamesWithin, RestartKept, RunsOut, SettleKept};

use crate::found::Found;
use crate::read_log::open_log;
use crate::redoes::Redoes;
use crate::restarted::Restarted;
use crate::structure_change::undo_change;
use crate::synced::{check_file, synced_of};
use crate::undo::undo;
use im_base_disk::Disk;
use im_base_types::{Fault, Lsn, RedoReport, TxnId};
use im_page_writer::PageWriter;
use im_restart_analysis::{Analysed, Change};
use std::alloc::Global;
use std::cmp::max;

// How much of the log redo reads at once, in bytes: no less, and no more. The more it reads, the fewer times it gets a page.
const LEAST_ROOM: u64 = 65_536;

const MOST_ROOM: u64 = 16_777_216;

// How much of the log from an LSN to its end redo reads at once: the least where it has no change to make.
fn room_size(is_done: bool, from: Lsn, end: Lsn) -> usize
    ensures least { 65536 ≤ result }
    ensures most { result ≤ 16777216 }
{
    if is_done || end <= from || end - from <= LEAST_ROOM {
        return LEAST_ROOM as usize;
    }
    (end - from).min(MOST_ROOM) as usize
}

// The room in which records are read again.
fn make_room(alloc: Global, size: usize) -> Result<Vec<u8>, Fault>
    ensures size { IfOk result (λ room. length room.items ≡ size) }
    ensures causes { IfErr result (λ e. e ≡ Memory) }
{
    vec![in alloc; 0; size].map_err(|_| Fault::Memory)
}

// The number of the next transaction, from 1 on.
fn first_number(next: TxnId) -> TxnId
    ensures least { 1 ≤ result }
    ensures same { 1 ≤ next → result ≡ next }
{
    max(next, 1)
}

// Undoes what was found unfinished: the structure change that was open first, and then the losers.
#[tactic(auto, using(im_restart_redo::proofs::Recoveries::recovers_then, im_restart_redo::proofs::Recoveries::recovery_refused))]
fn undo_found<D: Disk>(
    alloc: Global,
    writer: &mut PageWriter,
    disk: &mut D,
    analysed: &mut Analysed,
    room: &mut [u8],
) -> Result<(), Fault>
    requires room { 16384 ≤ length room.old }
    requires ready { IsReadyWriter D.Disk writer.old disk.old }
    requires working { writer.old.failed ≡ false }
    ensures outcome { Recovers D.Disk mild_to_take writer.old writer.new disk.new (fault_of result) }
    ensures kept { (b : Base) (base : ℕ) (all : History) (s : Writer) → StandsAs D.Disk b base s writer.old disk.old → IsTakingBack b all s
        → IsOpenChange analysed.old.open_change.items s.log → AreLosers analysed.old.losers s.log → UndoKept D.Disk b base all s disk.old writer.new disk.new result }
    ensures used_up { (b : Base) (base : ℕ) (all : History) (s : Writer) → StandsAs D.Disk b base s writer.old disk.old → IsTakingBack b all s
        → IsOpenChange analysed.old.open_change.items s.log → AreLosers analysed.old.losers s.log → IfErr result (λ e. e ≡ Capacity → RunsOut b all) }
    ensures none { analysed.old.open_change.items ≡ [] → analysed.old.losers.entries ≡ [] → (result ≡ Ok tt) × (writer.new ≡ writer.old) × (disk.new ≡ disk.old) }
    ensures next { analysed.new.next ≡ analysed.old.next }
{
    undo_change(
        writer,
        disk,
        &mut analysed.open_change,
        &mut analysed.losers,
        room,
    )?;
    undo(alloc, writer, disk, &mut analysed.losers, room)
}

// Redoes the records from the redo point on, undoes and ends the losers, and makes what was logged durable. It answers how many
// records were redone.
fn settle<D: Disk, H: Redoes>(
    how: &H,
    alloc: Global,
    writer: &mut PageWriter,
    disk: &mut D,
    analysed: &mut Analysed,
    changes: &[Change],
    room: &mut [u8],
    workers: usize,
) -> Result<u64, Fault>
    requires shared { H.shared }
    requires workers { 1 ≤ workers }
    requires room { 16384 ≤ length room.old }
    requires ready { IsReadyWriter D.Disk writer.old disk.old }
    requires working { writer.old.failed ≡ false }
    ensures outcome { Recovers D.Disk mild_to_take writer.old writer.new disk.new (fault_of result) }
    ensures kept { (b : Base) (base : ℕ) (all : History) → StandsAs D.Disk b base (opened b all (file_page (D.seen disk.old Pages))) writer.old disk.old → MayRestart b base all (D.seen disk.old)
        → (least : ℕ) → IsAnalysis least all analysed.old → changes.now ≡ changes_from (redo_point all) all → SettleKept D.Disk b base all disk.old writer.new disk.new result }
    ensures used_up { (b : Base) (base : ℕ) (all : History) → StandsAs D.Disk b base (opened b all (file_page (D.seen disk.old Pages))) writer.old disk.old → MayRestart b base all (D.seen disk.old)
        → (least : ℕ) → IsAnalysis least all analysed.old → changes.now ≡ changes_from (redo_point all) all → IfErr result (λ e. e ≡ Capacity → RunsOut b all) }
    ensures redoes { (b : Base) (base : ℕ) (all : History) → StandsAs D.Disk b base (opened b all (file_page (D.seen disk.old Pages))) writer.old disk.old → AreApplicable b all → LeavesNoUndo all
        → (least : ℕ) → IsAnalysis least all analysed.old → changes.now ≡ changes_from (redo_point all) all → IfErr result (λ e. e ≢ NotAStore) }
    ensures next { analysed.new.next ≡ analysed.old.next }
{
    let applied = how.redo(
        alloc,
        writer,
        disk,
        analysed.redo_point,
        &analysed.copies,
        changes,
        room,
        workers,
    )?;
    undo_found(alloc, writer, disk, analysed, room)?;
    writer.force(disk)?;
    Ok(applied)
}

// Restarts with the log that was found.
fn restart<D: Disk, H: Redoes>(
    how: &H,
    alloc: Global,
    disk: &mut D,
    found: Found,
    frames: usize,
    workers: usize,
) -> Result<Restarted, Fault>
    requires shared { H.shared }
    requires workers { 1 ≤ workers }
    requires least { 8 ≤ frames }
    requires most { frames ≤ 262144 }
    requires ready { IsOpen D.Disk found.log disk.old }
    requires usable { found.log.failed ≡ false }
    ensures outcome { Opens D.Disk disk.new (fault_of result) }
    ensures restarted { IfOk result (λ r. IsRestarted D.Disk frames r disk.new) }
    ensures kept { (b : Base) (base : ℕ) (all : History) → MayRestart b base all (D.seen disk.old) → Only Pages (D.seen disk.old) (D.may_leave disk.old) → Only Log2 (D.seen disk.old) (D.may_leave disk.old) → IsFound D.Disk base all found disk.old
        → RestartKept D.Disk b base all disk.old disk.new result }
    ensures used_up { (b : Base) (base : ℕ) (all : History) → MayRestart b base all (D.seen disk.old) → Only Pages (D.seen disk.old) (D.may_leave disk.old) → Only Log2 (D.seen disk.old) (D.may_leave disk.old) → IsFound D.Disk base all found disk.old
        → IfErr result (λ e. e ≡ Capacity → RunsOut b all) }
    ensures redoes { (b : Base) (base : ℕ) (all : History) → MayRedo b base all (D.seen disk.old) → Only Pages (D.seen disk.old) (D.may_leave disk.old) → Only Log2 (D.seen disk.old) (D.may_leave disk.old) → IsFound D.Disk base all found disk.old
        → IfErr result (λ e. e ≢ NotAStore) }
{
    let Found {
        log,
        analysed,
        changes,
        last,
    } = found;
    let mut analysed = analysed;
    let point = analysed.redo_point;
    let size = room_size(changes.is_empty(), point, log.durable_end());
    let mut writer = PageWriter::new(alloc, log, frames)?;
    writer.expect(synced_of(last));
    let mut room = make_room(alloc, size)?;
    let applied = settle(
        how,
        alloc,
        &mut writer,
        disk,
        &mut analysed,
        &changes,
        &mut room,
        workers,
    )?;
    Ok(Restarted {
        writer,
        next: first_number(analysed.next),
        report: RedoReport { point, applied },
    })
}

// The same, after a test of the file of pages.
fn restart_tested<D: Disk, H: Redoes>(
    how: &H,
    alloc: Global,
    disk: &mut D,
    found: Found,
    frames: usize,
    workers: usize,
) -> Result<Restarted, Fault>
    requires shared { H.shared }
    requires workers { 1 ≤ workers }
    requires least { 8 ≤ frames }
    requires most { frames ≤ 262144 }
    requires ready { IsOpen D.Disk found.log disk.old }
    requires usable { found.log.failed ≡ false }
    ensures outcome { Opens D.Disk disk.new (fault_of result) }
    ensures restarted { IfOk result (λ r. IsRestarted D.Disk frames r disk.new) }
    ensures kept { (b : Base) (base : ℕ) (all : History) → MayRestart b base all (D.seen disk.old) → Only Pages (D.seen disk.old) (D.may_leave disk.old) → Only Log2 (D.seen disk.old) (D.may_leave disk.old) → IsFound D.Disk base all found disk.old
        → RestartKept D.Disk b base all disk.old disk.new result }
    ensures used_up { (b : Base) (base : ℕ) (all : History) → MayRestart b base all (D.seen disk.old) → Only Pages (D.seen disk.old) (D.may_leave disk.old) → Only Log2 (D.seen disk.old) (D.may_leave disk.old) → IsFound D.Disk base all found disk.old
        → IfErr result (λ e. e ≡ Capacity → RunsOut b all) }
    ensures redoes { (b : Base) (base : ℕ) (all : History) → MayRedo b base all (D.seen disk.old) → Only Pages (D.seen disk.old) (D.may_leave disk.old) → Only Log2 (D.seen disk.old) (D.may_leave disk.old) → IsFound D.Disk base all found disk.old
        → IfErr result (λ e. e ≢ NotAStore) }
    ensures within { (base : ℕ) (all : History) → IsFound D.Disk base all found disk.old → IfOk result (λ _. NamesWithin all (D.seen disk.old)) }
{
    check_file(
        disk,
        &found.last,
        &found.analysed.copies,
        found.log.durable_end(),
    )?;
    restart(how, alloc, disk, found, frames, workers)
}

/// Opens a store's log and pages, or makes a log where there is none yet and no page: analysis reads the log once, redo brings the
/// pages to what all of it made of them, and the transactions with neither Commit nor End are undone and ended. Where that logs
/// anything, it is made durable. The log's buffer holds so many batches. Redo is made in the way given, by so many workers, one at least.
///
/// Refused `NotAStore` where the bytes are no store, or there are pages without a log; `Capacity` where the key of a delete is put back into
/// a full leaf, and page numbers or levels are used up, so that the leaf can't be split; `LogFull` only where the log's file then ends less
/// than 32,778 bytes below LSN 2^62; `Memory`; `Device`. Where the log's bytes are no log's, one of its records leads to a later one
/// or names a page that no page count before it has, or one opens a structure change beside another's, nothing is written. Where a log that goes on names a page that no image of
/// page 0 in it counts, and page 0 of the file does not, it is refused `NotAStore`. A log that leaves nothing to undo is refused `NotAStore` only where
/// analysis does not take one of its records, it names such a page, it does not cover the pages, or a page does not take its record.
pub fn open_or_create<D: Disk, H: Redoes>(
    how: &H,
    alloc: Global,
    disk: &mut D,
    frames: usize,
    batches: usize,
    workers: usize,
) -> Result<Restarted, Fault>
    requires shared { H.shared }
    requires workers { 1 ≤ workers }
    requires few { (1 ≤ batches) × (batches ≤ 64) }
    requires working { D.failed disk.old ≡ false }
    requires synced { IsSynced D.Disk disk.old }
    requires least { 8 ≤ frames }
    requires most { frames ≤ 262144 }
    ensures outcome { Opens D.Disk disk.new (fault_of result) }
    ensures ready { IfOk result (λ r. IsReadyWriter D.Disk r.writer disk.new × (r.writer.failed ≡ false)) }
    ensures pool { IfOk result (λ r. r.writer.pool.frames ≡ frames) }
    ensures least { IfOk result (λ r. 1 ≤ r.next) }
    ensures made { IfOk result (λ _. D.tells → IsFresh (D.seen disk.old) ⊎ IsMade (D.seen disk.old Log)) }
    ensures spelled { IfOk result (λ _. D.tells → SpellsLog (D.seen disk.old)) }
    ensures kept { (b : Base) (base : ℕ) (all : History) → D.tells → MayRestart b base all (D.seen disk.old) → RestartKept D.Disk b base all disk.old disk.new result }
    ensures used_up { (b : Base) (base : ℕ) (all : History) → D.tells → MayRestart b base all (D.seen disk.old) → IfErr result (λ e. e ≡ Capacity → RunsOut b all) }
    ensures redoes { (b : Base) (base : ℕ) (all : History) → D.tells → MayRedo b base all (D.seen disk.old) → IfErr result (λ e. e ≢ NotAStore) }
    ensures within { (base : ℕ) (all : History) → D.tells → IsLogOf base all (D.seen disk.old Log) → (IsUnmade (D.seen disk.old Log) → length (D.seen disk.old Pages) ≡ 0) → AreTaken (pages_at_first base) all
        → IfOk result (λ _. NamesWithin all (D.seen disk.old)) }
    ensures unspelled { D.tells → ¬ (SpellsLog (D.seen disk.old)) → Reads D.Disk disk.old disk.new × IfErr result (λ e. (e ≡ Memory) ⊎ (e ≡ Device) ⊎ (e ≡ NotAStore)) }
{
    let found = open_log(alloc, disk, batches)?;
    restart_tested(how, alloc, disk, found, frames, workers)
}
