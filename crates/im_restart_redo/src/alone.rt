//! Redo without threads: noted copies are loaded, and then the records from the redo point on applied, each to its page.

ghost use Rattle.std.specs.Prelude.{◌≡◌, ◌≤◌, ◌<◌, ◌+◌, ◌-◌, ◌^◌, ℕ, false, if◌then◌else◌, length, Option};
ghost use Rattle.im_base_types.specs.Pages.{Page};
ghost use Rattle.im_theory_log.specs.Histories.{Base, History};
ghost use Rattle.im_theory_log.specs.RedoPoints.{redo_point};
ghost use Rattle.im_theory_log.specs.WriterSteps.{opened};
ghost use Rattle.im_restart_analysis.specs.Changes.{changes_from};
ghost use Rattle.im_restart_analysis.specs.CopyLsns.{AreCopies};
ghost use Rattle.im_page_writer.specs.Outcome.{fault_of, no_page};
ghost use Rattle.im_page_writer.specs.PageWriter.{IsReadyWriter, StandsAs};
ghost use Rattle.im_restart_redo.specs.Applying.{IsApplying, ApplyingKept};
ghost use Rattle.im_restart_redo.specs.Changes.{lsns_of};
ghost use Rattle.im_restart_redo.specs.Recovery.{Recovers};
ghost use Rattle.im_restart_redo.specs.Redo.{AreApplicable, RedoneKept};

use crate::copies::load_all;
use crate::records::redo_one;
use crate::window::Window;
use im_base_disk::Disk;
use im_base_types::{Fault, Lsn, PageNo};
use im_page_writer::PageWriter;
use im_restart_analysis::Change;
use std::collections::BTreeMap;

// One more, where a record was applied.
fn counted(count: u64, applied: bool) -> u64
    requires room { count < 2 ^ 64 - 1 }
    ensures { result ≡ count + (if applied then 1 else 0) }
{
    if applied { count + 1 } else { count }
}

// Applies the records that made these changes in turn, and answers how many pages took theirs.
fn redo_each<D: Disk>(
    writer: &mut PageWriter,
    disk: &mut D,
    point: Lsn,
    copies: &BTreeMap<PageNo, Lsn>,
    changes: &[Change],
    room: &mut [u8],
) -> Result<u64, Fault>
    requires room { 16384 ≤ length room.old }
    requires ready { IsReadyWriter D.Disk writer.old disk.old }
    requires working { writer.old.failed ≡ false }
    ensures outcome { Recovers D.Disk no_page writer.old writer.new disk.new (fault_of result) }
    ensures room { length room.new ≡ length room.old }
    ensures kept { (b : Base) (base : ℕ) (begun : History) (file : ℕ → Option Page) (from : D) → IsApplying D.Disk b base begun file (lsns_of changes.now) 0 from writer.old disk.old
        → AreApplicable b begun → point ≡ redo_point begun → AreCopies point copies.now begun → ApplyingKept D.Disk b base begun file from writer.new disk.new result }
{
    let mut count = 0;
    let mut window = Window::empty();
    for change in changes {
        let applied = redo_one(writer, disk, point, copies, change.lsn, &mut window, room)?;
        count = counted(count, applied);
    }
    Ok(count)
}

/// Redo for a caller who can start no threads. Brings the pages of a writer that was just opened to what the whole durable log made of
/// them: the noted copies are loaded in rising page number, and then the records that change a page, from the redo point on, are applied to
/// their pages in turn, by LSN. `copies` has the LSN of each noted copy, and `changes` those of the records, each with its page. Records are
/// read again into `room`, of 16,384 bytes at least. It answers how many records were applied: those that change a page whose LSN was lower
/// than theirs as redo first had it.
///
/// Refused `NotAStore` where a page does not take its record or no such record stands there, otherwise as the writer's `get` is.
/// After a refusal redo is not over: the store is to be opened again.
pub fn redo_alone<D: Disk>(
    writer: &mut PageWriter,
    disk: &mut D,
    point: Lsn,
    copies: &BTreeMap<PageNo, Lsn>,
    changes: &[Change],
    room: &mut [u8],
) -> Result<u64, Fault>
    requires room { 16384 ≤ length room.old }
    requires ready { IsReadyWriter D.Disk writer.old disk.old }
    ensures outcome { Recovers D.Disk no_page writer.old writer.new disk.new (fault_of result) }
    ensures room { length room.new ≡ length room.old }
    ensures kept { (b : Base) (base : ℕ) (begun : History) (file : ℕ → Option Page) → StandsAs D.Disk b base (opened b begun file) writer.old disk.old
        → AreApplicable b begun → point ≡ redo_point begun → AreCopies point copies.now begun → changes.now ≡ changes_from point begun
        → RedoneKept D.Disk b base begun file disk.old writer.new disk.new result }
{
    if writer.has_failed() {
        return Err(Fault::Failed);
    }
    load_all(writer, disk, point, copies, room)?;
    redo_each(writer, disk, point, copies, changes, room)
}
