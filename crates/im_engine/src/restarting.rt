//! A restart with the current log of two.

ghost use Rattle.std.specs.Prelude.{◌≡◌, ◌≤◌, ◌⊎◌, ◌↔◌, List, false, IfOk, IfErr, IsTrue, OnOk};
ghost use Rattle.im_base_types.specs.declared.fault.Fault.TheVariants.{Device, Memory, NotAStore};
ghost use Rattle.im_base_types.specs.Changes.{Effect};
ghost use Rattle.im_base_disk.specs.Runs.{IsSynced};
ghost use Rattle.im_log_choice.specs.Found.{HasFirst};
ghost use Rattle.im_log_choice.specs.Switching.{ReadsNamed};
ghost use Rattle.im_page_writer.specs.Outcome.{fault_of};
ghost use Rattle.im_page_writer.specs.PageWriter.{IsReadyWriter};
ghost use Rattle.im_restart.specs.Opening.{Opens};
ghost use Rattle.im_engine.specs.Restarting.{CurrentKept, IsAtRest, UpgradeKept};
ghost use Rattle.im_engine.specs.Stands.{SpellsCurrent, StandsFor};

use im_base_two_logs::TwoLogs;
use im_base_types::{Fault, TxnId};
use im_log_choice::choose;
use im_page_writer::PageWriter;
use im_restart::{Redoes, Restarted, open_or_create};
use std::alloc::Global;

/// A restart with the current log of two.
#[derive(Drop)]
pub(crate) struct Current {
    pub(crate) restarted: Restarted,
    /// One of the two logs was of the first format.
    pub(crate) had_first: bool,
}

// A log of the first format goes on in the other file, as one of the second; one of the second stays.
fn upgrade<D: TwoLogs>(writer: &mut PageWriter, disk: &mut D, next: TxnId) -> Result<(), Fault>
    requires numbered { 1 ≤ next }
    requires ready { IsReadyWriter D.Disk writer.old disk.old }
    requires working { writer.old.failed ≡ false }
    ensures outcome { Opens D.Disk disk.new (fault_of result) }
    ensures ready { OnOk result (IsReadyWriter D.Disk writer.new disk.new × (writer.new.failed ≡ false)) }
    ensures pool { writer.new.pool.frames ≡ writer.old.pool.frames }
    ensures kept { (before : List Effect) → IsAtRest D.Disk before next writer.old disk.old → UpgradeKept D.Disk before next writer.old disk.old writer.new disk.new result }
{
    if !writer.is_first_format() {
        return Ok(());
    }
    writer.switch(disk, next)
}

/// Gives the two logs their names, and restarts with the current one, or with a new one where none is made and there is no page. Redo is made in the way
/// given, by so many workers. A log of the first format then goes on in the other file, as one of the second.
///
/// Refused as `im_restart::open_or_create` is, and `NotAStore` where nothing says which log is the current one; a log of the first format also as
/// `PageWriter::switch` is, but never for want of a generation.
pub(crate) fn restart_current<D: TwoLogs, H: Redoes>(
    how: &H,
    alloc: Global,
    disk: &mut D,
    frames: usize,
    batches: usize,
    workers: usize,
) -> Result<Current, Fault>
    requires shared { H.shared }
    requires workers { 1 ≤ workers }
    requires few { (1 ≤ batches) × (batches ≤ 64) }
    requires working { D.failed disk.old ≡ false }
    requires synced { IsSynced D.Disk disk.old }
    requires least { 8 ≤ frames }
    requires most { frames ≤ 262144 }
    ensures outcome { Opens D.Disk disk.new (fault_of result) }
    ensures ready { IfOk result (λ r. IsReadyWriter D.Disk r.restarted.writer disk.new × (r.restarted.writer.failed ≡ false)) }
    ensures pool { IfOk result (λ r. r.restarted.writer.pool.frames ≡ frames) }
    ensures least { IfOk result (λ r. 1 ≤ r.restarted.next) }
    ensures first { IfOk result (λ r. D.tells → IsTrue r.had_first ↔ HasFirst (D.seen disk.old)) }
    ensures spelled { IfOk result (λ _. D.tells → SpellsCurrent (D.seen disk.old)) }
    ensures kept { (before : List Effect) → D.tells → (stands : StandsFor before (D.seen disk.old)) → CurrentKept D.Disk before disk.old stands disk.new result }
    ensures unspelled { D.tells → ¬ (SpellsCurrent (D.seen disk.old)) → ReadsNamed D.Disk disk.old disk.new × IfErr result (λ e. (e ≡ Memory) ⊎ (e ≡ Device) ⊎ (e ≡ NotAStore)) }
{
    let logs = choose(disk)?;
    let had_first = logs.has_first_format();
    let mut restarted = open_or_create(how, alloc, disk, frames, batches, workers)?;
    upgrade(&mut restarted.writer, disk, restarted.next)?;
    Ok(Current {
        restarted,
        had_first,
    })
}
