//! What comes after a structure change of a rollback.

ghost use Rattle.std.specs.Prelude.{◌≡◌, ◌≤◌, ℕ, length, true, false, Some, IfErr, IfOk};
ghost use Rattle.im_base_types.specs.declared.fault.Fault.TheVariants.{Failed};
ghost use Rattle.im_theory_log.specs.Histories.{Base};
ghost use Rattle.im_theory_log.specs.Writer.{Writer};
ghost use Rattle.im_page_writer.specs.PageWriter.{IsReadyWriter, StandsAs};
ghost use Rattle.im_page_writer.specs.Outcome.{fault_of};
ghost use Rattle.im_tree_search.specs.declared.sight.Sight.TheVariants.{Seen};
ghost use Rattle.im_smo_log.specs.Stepping.{Goes};
ghost use Rattle.im_engine_rollback.specs.declared.undone_beside.UndoneBeside.TheVariants.{Made};
ghost use Rattle.im_engine_rollback.specs.Ends.{may_be_full, may_close, may_turn, TurnOutcome};
ghost use Rattle.im_engine_rollback.specs.SplitsBack.{IsSplitBack, CloseBackKept};

use crate::step_beside::undo_beside;
use crate::undo_step::end_or_go_on;
use crate::undone::Undone;
use crate::undone_beside::UndoneBeside;
use im_base_disk::Disk;
use im_base_types::Fault;
use im_page_writer::PageWriter;
use im_smo_log::{Change, late};
use im_tree_search::{Beside, Sight};
use std::alloc::Global;

// What was taken back at once.
fn made_of(sight: Sight<UndoneBeside>) -> Result<Undone, Fault>
    ensures made { IfOk result (λ undone. sight ≡ Seen (Made undone)) }
    ensures other { IfErr result (λ e. (e ≡ Failed) × ((undone : Undone) → sight ≡ Seen (Made undone) → ⊥)) }
{
    match sight {
        Sight::Seen(back) => match back {
            UndoneBeside::Made(undone) => Ok(undone),
            _ => Err(Fault::Failed),
        },
        Sight::Hidden => Err(Fault::Failed),
    }
}

// Closes the split of a leaf, and then takes back the record for which it was made.
fn close_split<D: Disk>(
    alloc: Global,
    writer: &mut PageWriter,
    disk: &mut D,
    change: &Change,
    room: &mut [u8],
    ends: bool,
) -> Result<Undone, Fault>
    requires room { 16384 ≤ length room.old }
    requires ready { IsReadyWriter D.Disk writer.old disk.old }
    requires working { writer.old.failed ≡ false }
    requires end { change.now.done ≡ length change.now.images }
    ensures outcome { TurnOutcome D.Disk may_turn writer.old writer.new disk.new (fault_of result) }
    ensures room { length room.new ≡ length room.old }
    ensures kept { (b : Base) (base : ℕ) (s : Writer) (e : ℕ) → StandsAs D.Disk b base s writer.old disk.old → s.redo_end ≡ Some e → Goes b change.now s.log → IsSplitBack b change.now.undo_next change.now.images s.log
        → CloseBackKept D.Disk b base true ends s e change.now.transaction change.now.last change.now.undo_next disk.old writer.new disk.new result }
{
    let lsn = change.close(writer, disk)?;
    match undo_beside(
        alloc,
        writer,
        disk,
        change.owner(),
        lsn,
        change.undo_next(),
        room,
        Beside::none(),
        ends,
    ) {
        Ok(sight) => made_of(sight),
        Err(fault) => Err(late(fault)),
    }
}

// Closes the deletion of a leaf, after the compensation that left it empty.
fn close_drop<D: Disk>(
    writer: &mut PageWriter,
    disk: &mut D,
    change: &Change,
    room: &mut [u8],
    ends: bool,
) -> Result<Undone, Fault>
    requires room { 16384 ≤ length room.old }
    requires ready { IsReadyWriter D.Disk writer.old disk.old }
    requires working { writer.old.failed ≡ false }
    requires end { change.now.done ≡ length change.now.images }
    ensures outcome { TurnOutcome D.Disk may_be_full writer.old writer.new disk.new (fault_of result) }
    ensures room { length room.new ≡ length room.old }
    ensures kept { (b : Base) (base : ℕ) (s : Writer) (e : ℕ) → StandsAs D.Disk b base s writer.old disk.old → s.redo_end ≡ Some e → Goes b change.now s.log
        → CloseBackKept D.Disk b base false ends s e change.now.transaction change.now.last change.now.undo_next disk.old writer.new disk.new result }
{
    let lsn = change.close(writer, disk)?;
    end_or_go_on(
        writer,
        disk,
        change.owner(),
        lsn,
        change.undo_next(),
        room,
        ends,
    )
}

/// Closes a structure change of a rollback whose pages are all logged, and goes on with the turn that it interrupts: the split in front of a
/// compensation, if it `splits`, and else the deletion of a leaf after one. After a split the record is taken back for which it was made: its key
/// comes back into the leaf. Where the last change of the transaction is taken back, and it `ends` so, its End is logged. Records are read into the room, of 16,384 bytes.
///
/// Of a split that `undo_beside` handed out this needs no second one, whatever others logged meanwhile, and is refused only `LogFull` or `Device`.
/// Of another it may be refused `Failed` or `Capacity`, too. A deletion wants no memory, and is refused only `LogFull`, `Device`, or `NotAStore` where
/// the records are not as a log of the store has them.
pub fn close_back<D: Disk>(
    alloc: Global,
    writer: &mut PageWriter,
    disk: &mut D,
    change: &Change,
    splits: bool,
    room: &mut [u8],
    ends: bool,
) -> Result<Undone, Fault>
    requires room { 16384 ≤ length room.old }
    requires ready { IsReadyWriter D.Disk writer.old disk.old }
    requires working { writer.old.failed ≡ false }
    requires end { change.now.done ≡ length change.now.images }
    ensures outcome { TurnOutcome D.Disk (may_close splits) writer.old writer.new disk.new (fault_of result) }
    ensures room { length room.new ≡ length room.old }
    ensures kept { (b : Base) (base : ℕ) (s : Writer) (e : ℕ) → StandsAs D.Disk b base s writer.old disk.old → s.redo_end ≡ Some e → Goes b change.now s.log
        → (splits ≡ true → IsSplitBack b change.now.undo_next change.now.images s.log)
        → CloseBackKept D.Disk b base splits ends s e change.now.transaction change.now.last change.now.undo_next disk.old writer.new disk.new result }
{
    if splits {
        return close_split(alloc, writer, disk, change, room, ends);
    }
    close_drop(writer, disk, change, room, ends)
}
