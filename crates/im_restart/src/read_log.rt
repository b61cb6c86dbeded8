//! The log is opened, and each of its records read once.

ghost use Rattle.std.specs.Prelude.{◌≡◌, ◌≤◌, ◌⊎◌, ℕ, [], false, true, length, IfErr, IfOk, IfSome, OnOk, None};
ghost use Rattle.im_base_types.specs.declared.fault.Fault.TheVariants.{Memory, NotAStore};
ghost use Rattle.im_base_types.specs.declared.file_id.FileId.TheVariants.{Log, Pages};
ghost use Rattle.im_theory_log.specs.Histories.{History};
ghost use Rattle.im_base_disk.specs.Disk.{Only};
ghost use Rattle.im_base_disk.specs.Ends.{ReadsOr};
ghost use Rattle.im_log_gate.specs.Gate.{IsFirstGate, IsReading};
ghost use Rattle.im_log_gate.specs.Header.{least_number, IsUnmade};
ghost use Rattle.im_log.specs.Kept.{HasLog, IsLogOf};
ghost use Rattle.im_log.specs.Opening.{IsBegun, IsOpening, HasRead};
ghost use Rattle.im_restart_analysis.specs.Orderly.{IsOrderly, IsReadable, pages_at_first};
ghost use Rattle.im_restart_analysis.specs.Changes.{AreChanges};
ghost use Rattle.im_restart.specs.Restart.{AreTaken, SpellsLog};
ghost use Rattle.im_restart.specs.Reading.{GateKept, HadLog, IsReadLog, IsUsableLog, LogKept, OpenKept, OpensLog, ReadKept};

use crate::found::Found;
use im_base_disk::Disk;
use im_base_types::{Fault, FileId, Lsn, PageNo, TxnId};
use im_log::Opening;
use im_log_gate::Gate;
use im_restart_analysis::{Analysis, Changes, pages_at_first};
use std::alloc::Global;

// The first gate of the log, which is made where there is none yet and the file of pages is empty.
fn first_gate<D: Disk>(alloc: Global, disk: &mut D) -> Result<Gate, Fault>
    requires working { D.failed disk.old ≡ false }
    requires durable { Only Log (D.seen disk.old) (D.may_leave disk.old) }
    ensures outcome { OpensLog D.Disk disk.old disk.new result }
    ensures reading { IfOk result (λ gate. IsReading D.Disk gate disk.new) }
    ensures first { IfOk result (λ gate. IsFirstGate D.Disk Log gate disk.new) }
    ensures had { IfOk result (λ _. HadLog D.Disk disk.old disk.new) }
    ensures kept { (base : ℕ) (all : History) → D.tells → IsLogOf base all (D.seen disk.old Log) → (IsUnmade (D.seen disk.old Log) → length (D.seen disk.old Pages) ≡ 0)
        → GateKept D.Disk base all disk.old disk.new result }
{
    match Gate::open(alloc, disk, FileId::Log)? {
        Some(gate) => Ok(gate),
        None => Gate::create(alloc, disk, FileId::Log),
    }
}

// Keeps no more of the changes below the redo point than the last one of each page, where they are to be dropped.
fn drop_changes(changes: &mut Changes, point: Lsn, drops: bool) -> Result<(), Fault>
    ensures kept { OnOk result ((log : History) → AreChanges log changes.old → AreChanges log changes.new) }
    ensures whole { OnOk result (drops ≡ false → changes.new.start ≡ changes.old.start) }
    ensures causes { IfErr result (λ e. e ≡ Memory) }
{
    if drops {
        changes.drop_below(point)
    } else {
        Ok(())
    }
}

// Reads the records, and takes each in turn. The numbers of transactions begin at the least, the page counts at this one. Changes below
// the redo point are dropped on the way, where they are to be; none is answered where one of them is wanted in the end, since a later
// Checkpoint moved the redo point back.
fn read_all<D: Disk>(
    alloc: Global,
    disk: &mut D,
    opening: Opening,
    least: TxnId,
    pages: PageNo,
    drops: bool,
) -> Result<Option<Found>, Fault>
    requires begun { IsBegun D.Disk opening disk.old }
    requires usable { opening.failed ≡ false }
    ensures outcome { ReadsOr D.Disk (λ e. (e ≡ Memory) ⊎ (e ≡ NotAStore)) disk.old disk.new result }
    ensures log { IfOk result (λ found. IfSome found (λ f. IsUsableLog D.Disk f.log disk.new)) }
    ensures kept { (base : ℕ) (all : History) → IsOpening D.Disk base all [] opening disk.old → AreTaken pages all → least ≡ least_number (D.seen disk.old Log) → 1 ≤ least
        → ReadKept D.Disk base all disk.new result }
    ensures spelled { IfOk result (λ _. (base : ℕ) → HasRead D.Disk base [] opening disk.old → (found : History) × HasLog base found (D.seen disk.old Log) × (IsReadable found → IsOrderly pages found)) }
    ensures whole { result ≡ Ok None → drops ≡ true }
{
    let mut opening = opening;
    let mut analysis = Analysis::new(alloc, least, pages);
    let mut changes = Changes::new(alloc);
    loop {
        match opening.next(disk)? {
            None => break,
            Some(lsn) => {
                let record = opening.record()?;
                analysis.take(lsn, &record)?;
                changes.note(lsn, &record)?;
                drop_changes(&mut changes, analysis.redo_point(), drops)?;
            }
        }
    }
    let analysed = analysis.finish();
    if !changes.reaches(analysed.redo_point) {
        return Ok(None);
    }
    let (last, kept) = changes.parts(analysed.redo_point)?;
    Ok(Some(Found {
        log: opening.finish(disk),
        analysed,
        changes: kept,
        last,
    }))
}

// Opens a store's log, or makes one where there is none yet, and reads its records: none is answered as `read_all` does.
fn read_log<D: Disk>(
    alloc: Global,
    disk: &mut D,
    batches: usize,
    drops: bool,
) -> Result<Option<Found>, Fault>
    requires few { (1 ≤ batches) × (batches ≤ 64) }
    requires working { D.failed disk.old ≡ false }
    requires durable { Only Log (D.seen disk.old) (D.may_leave disk.old) }
    ensures outcome { OpensLog D.Disk disk.old disk.new result }
    ensures log { IfOk result (λ found. IfSome found (λ f. IsUsableLog D.Disk f.log disk.new)) }
    ensures kept { (base : ℕ) (all : History) → D.tells → IsLogOf base all (D.seen disk.old Log) → (IsUnmade (D.seen disk.old Log) → length (D.seen disk.old Pages) ≡ 0) → AreTaken (pages_at_first base) all
        → LogKept D.Disk base all disk.old disk.new result }
    ensures again { OnOk result (IsReadLog D.Disk disk.old disk.new) }
    ensures spelled { IfOk result (λ _. D.tells → SpellsLog (D.seen disk.old)) }
    ensures whole { result ≡ Ok None → drops ≡ true }
{
    let gate = first_gate(alloc, disk)?;
    let least = gate.least_number();
    let pages = pages_at_first(gate.base());
    let opening = Opening::start(alloc, gate, batches)?;
    read_all(alloc, disk, opening, least, pages, drops)
}

// The same with each change kept until all records were read.
fn read_whole<D: Disk>(alloc: Global, disk: &mut D, batches: usize) -> Result<Found, Fault>
    requires few { (1 ≤ batches) × (batches ≤ 64) }
    requires working { D.failed disk.old ≡ false }
    requires durable { Only Log (D.seen disk.old) (D.may_leave disk.old) }
    ensures outcome { OpensLog D.Disk disk.old disk.new result }
    ensures log { IfOk result (λ found. IsUsableLog D.Disk found.log disk.new) }
    ensures kept { (base : ℕ) (all : History) → D.tells → IsLogOf base all (D.seen disk.old Log) → (IsUnmade (D.seen disk.old Log) → length (D.seen disk.old Pages) ≡ 0) → AreTaken (pages_at_first base) all
        → OpenKept D.Disk base all disk.old disk.new result }
    ensures spelled { IfOk result (λ _. D.tells → SpellsLog (D.seen disk.old)) }
    ensures had { IfOk result (λ _. HadLog D.Disk disk.old disk.new) }
{
    match read_log(alloc, disk, batches, false)? {
        Some(found) => Ok(found),
        None => Err(Fault::NotAStore),
    }
}

/// Opens a store's log, or makes one where there is none yet, and reads its records once; where a Checkpoint moved the redo point back, which
/// none does that this store takes, once more. Its buffer holds so many batches.
///
/// Refused `NotAStore` where the bytes are no log, a structure change opens beside another's, a record leads to a later one or names a page
/// that no page count before it has, or there are pages without a log;
/// `Memory`; `Device`.
pub(crate) fn open_log<D: Disk>(alloc: Global, disk: &mut D, batches: usize) -> Result<Found, Fault>
    requires few { (1 ≤ batches) × (batches ≤ 64) }
    requires working { D.failed disk.old ≡ false }
    requires durable { Only Log (D.seen disk.old) (D.may_leave disk.old) }
    ensures outcome { OpensLog D.Disk disk.old disk.new result }
    ensures log { IfOk result (λ found. IsUsableLog D.Disk found.log disk.new) }
    ensures kept { (base : ℕ) (all : History) → D.tells → IsLogOf base all (D.seen disk.old Log) → (IsUnmade (D.seen disk.old Log) → length (D.seen disk.old Pages) ≡ 0) → AreTaken (pages_at_first base) all
        → OpenKept D.Disk base all disk.old disk.new result }
    ensures spelled { IfOk result (λ _. D.tells → SpellsLog (D.seen disk.old)) }
    ensures had { IfOk result (λ _. HadLog D.Disk disk.old disk.new) }
{
    match read_log(alloc, disk, batches, true)? {
        Some(found) => Ok(found),
        None => read_whole(alloc, disk, batches),
    }
}
