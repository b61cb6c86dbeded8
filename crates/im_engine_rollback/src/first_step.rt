//! One step of a rollback in a store whose structure changes are made page by page.

ghost use Rattle.std.specs.Prelude.{◌≡◌, ◌≢◌, ◌≤◌, ℕ, [], length, false, Some};
ghost use Rattle.im_theory_log.specs.Histories.{Base};
ghost use Rattle.im_theory_log.specs.Structure.{settled};
ghost use Rattle.im_theory_log.specs.Transactions.{to_undo};
ghost use Rattle.im_theory_log.specs.Writer.{Writer};
ghost use Rattle.im_page_writer.specs.PageWriter.{IsReadyWriter, StandsAs};
ghost use Rattle.im_page_writer.specs.Outcome.{fault_of, mild, Logs};
ghost use Rattle.im_smo_log.specs.Under.{IsUnderWay};
ghost use Rattle.im_smo_actions.specs.GoingBeside.{IsToldOf};
ghost use Rattle.im_restart_undo.specs.GoingBeside.{IsGoingBeside};
ghost use Rattle.im_engine_rollback.specs.Ends.{may_turn, TurnOutcome};
ghost use Rattle.im_engine_rollback.specs.InSteps.{SplitBegunKept, InStepsKept};
ghost use Rattle.im_engine_rollback.specs.SplitsBack.{IsSplitBack};

use crate::step_beside::undo_beside;
use crate::undone_beside::UndoneBeside;
use crate::undone_in_steps::UndoneInSteps;
use im_base_disk::Disk;
use im_base_types::{Fault, Lsn, TxnId};
use im_page_writer::PageWriter;
use im_smo_actions::{BegunChange, PlannedChange};
use im_tree_search::{Beside, Sight};
use std::alloc::Global;

// Logs the first page of a split in front of a compensation.
fn begin_split<D: Disk>(
    writer: &mut PageWriter,
    disk: &mut D,
    plan: PlannedChange,
    transaction: TxnId,
    last: Lsn,
    undo_next: Lsn,
) -> Result<BegunChange, Fault>
    requires ready { IsReadyWriter D.Disk writer.old disk.old }
    requires working { writer.old.failed ≡ false }
    requires owner { 1 ≤ transaction }
    ensures outcome { Logs D.Disk false mild writer.old disk.old writer.new disk.new (fault_of result) }
    ensures kept { (b : Base) (base : ℕ) (s : Writer) (e : ℕ) → StandsAs D.Disk b base s writer.old disk.old → s.redo_end ≡ Some e → IsUnderWay b transaction undo_next plan.images 0 last s.log → IsSplitBack b undo_next plan.images s.log
        → plan.count ≡ (settled b s.log 0).leftmost → SplitBegunKept D.Disk b base s e transaction last undo_next disk.old writer.new disk.new result }
{
    let mut begun = plan.begin(transaction, last, undo_next);
    begun.step(writer, disk)?;
    Ok(begun)
}

/// Takes back the newest change that a transaction has left to undo so far as one step goes, beside a structure change of another that may be under
/// way. It is as `undo_beside` where that makes no structure change. A split that comes first begins, and its first page is logged; a deletion
/// after the compensation begins, with no page logged. Whether the transaction `ends` with its last change is as there.
///
/// It is hidden where `undo_beside` is. Refused `Memory` only where a structure change is needed, beside none, with all as it was; otherwise as
/// `undo_beside` is.
pub fn undo_in_steps<D: Disk>(
    alloc: Global,
    writer: &mut PageWriter,
    disk: &mut D,
    transaction: TxnId,
    last: Lsn,
    undo_next: Lsn,
    room: &mut [u8],
    beside: Beside<'_>,
    ends: bool,
) -> Result<Sight<UndoneInSteps>, Fault>
    requires room { 16384 ≤ length room.old }
    requires ready { IsReadyWriter D.Disk writer.old disk.old }
    requires working { writer.old.failed ≡ false }
    requires owner { 1 ≤ transaction }
    ensures outcome { TurnOutcome D.Disk may_turn writer.old writer.new disk.new (fault_of result) }
    ensures room { length room.new ≡ length room.old }
    ensures kept { (b : Base) (base : ℕ) (s : Writer) (e : ℕ) → IsGoingBeside D.Disk b base s e transaction last undo_next writer.old disk.old → to_undo transaction s.log ≢ [] → IsToldOf b beside.entry s.log
        → InStepsKept D.Disk b base ends s e transaction last undo_next beside.entry disk.old writer.new disk.new result }
{
    let Sight::Seen(undone) = undo_beside(
        alloc,
        writer,
        disk,
        transaction,
        last,
        undo_next,
        room,
        beside,
        ends,
    )?
    else {
        return Ok(Sight::Hidden);
    };
    match undone {
        UndoneBeside::Made(undone) => Ok(Sight::Seen(UndoneInSteps::Made(undone))),
        UndoneBeside::Splits(plan) => {
            let begun = begin_split(writer, disk, plan, transaction, last, undo_next)?;
            Ok(Sight::Seen(UndoneInSteps::Splitting(begun)))
        }
        UndoneBeside::Drops {
            change,
            last,
            undo_next,
        } => {
            let begun = change.begin(transaction, last, undo_next);
            Ok(Sight::Seen(UndoneInSteps::Dropping(begun)))
        }
    }
}
