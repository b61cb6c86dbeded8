//! Records, applied to their pages from the redo point on.

ghost use Rattle.std.specs.Prelude.{is_some, ◌≡◌, ◌≤◌, ◌<◌, ◌+◌, ◌-◌, ◌∷◌, ℕ, List, true, false, length, Option, OnOk};
ghost use Rattle.std.specs.Ordering.{nat_cmp};
ghost use Rattle.std.specs.BTreeMap.{get};
ghost use Rattle.im_base_types.specs.Pages.{Page};
ghost use Rattle.im_theory_log.specs.Histories.{Base, History};
ghost use Rattle.im_theory_log.specs.RedoPoints.{redo_point};
ghost use Rattle.im_restart_analysis.specs.CopyLsns.{AreCopies};
ghost use Rattle.im_page_writer.specs.Outcome.{fault_of, no_page};
ghost use Rattle.im_page_writer.specs.PageWriter.{IsReadyWriter};
ghost use Rattle.im_restart_redo.specs.Redo.{AreApplicable};
ghost use Rattle.im_restart_redo.specs.Recovery.{Recovers};
ghost use Rattle.im_restart_redo.specs.Applying.{IsApplying, AppliedKept, ApplyingKept};
ghost use Rattle.im_restart_redo.specs.Changes.{AreOwn, lsns_of};
ghost use Rattle.im_restart_redo.specs.Window.{Shows};

use crate::round_room::RoundRoom;
use crate::segment::{Segment, redo_segment};
use crate::window::Window;
use im_base_disk::Disk;
use im_base_types::{Fault, Lsn, PageNo, WorkerStart};
use im_log_record::decode;
use im_page_writer::PageWriter;
use im_restart_analysis::Change;
use std::collections::BTreeMap;
use std::thread::Threads;

// Whether a copy of a page is noted.
fn has_copy(copies: &BTreeMap<PageNo, Lsn>, page: PageNo) -> bool
    ensures { result ≡ true → is_some (get nat_cmp copies.now page) ≡ true }
{
    copies.get(&page).is_some()
}

/// Applies the record at an LSN to its page, unless the page has it, and says whether it did. A page that has a noted
/// copy needs no other.
pub(crate) fn redo_one<D: Disk>(
    writer: &mut PageWriter,
    disk: &mut D,
    point: Lsn,
    copies: &BTreeMap<PageNo, Lsn>,
    lsn: Lsn,
    window: &mut Window,
    room: &mut [u8],
) -> Result<bool, Fault>
    requires room { 16384 ≤ length room.old }
    requires used { window.old.used ≤ length room.old }
    requires ready { IsReadyWriter D.Disk writer.old disk.old }
    requires working { writer.old.failed ≡ false }
    ensures outcome { Recovers D.Disk no_page writer.old writer.new disk.new (fault_of result) }
    ensures room { length room.new ≡ length room.old }
    ensures used { window.new.used ≤ length room.new }
    ensures kept { (b : Base) (base : ℕ) (begun : History) (file : ℕ → Option Page) (from : D) (left : List ℕ) (count : ℕ) → IsApplying D.Disk b base begun file (lsn ∷ left) count from writer.old disk.old
        → Shows begun window.old room.old → AreApplicable b begun → point ≡ redo_point begun → AreCopies point copies.now begun → AppliedKept D.Disk b base begun file left count from writer.new disk.new result }
    ensures shows { (b : Base) (base : ℕ) (begun : History) (file : ℕ → Option Page) (from : D) (left : List ℕ) (count : ℕ) → IsApplying D.Disk b base begun file (lsn ∷ left) count from writer.old disk.old
        → Shows begun window.old room.old → OnOk result (Shows begun window.new room.new) }
{
    let place = window.bring(writer, disk, lsn, room)?;
    let record = decode(&room[place.at..place.end])?;
    let copied = has_copy(copies, record.page());
    let applied = writer.redo_change(disk, point, lsn, &record, copied)?;
    Ok(applied)
}

/// Makes these changes again, segment after segment, and answers how many pages took theirs.
pub(crate) fn redo_all<D: Disk, R: Threads + Sync, T: WorkerStart + Sync>(
    rt: &R,
    at_start: &T,
    writer: &mut PageWriter,
    disk: &mut D,
    point: Lsn,
    copies: &BTreeMap<PageNo, Lsn>,
    changes: &[Change],
    room: &mut [u8],
    segment: &mut Segment,
    rounds: &mut RoundRoom,
) -> Result<u64, Fault>
    requires room { 16384 ≤ length room.old }
    requires pages { 0 < rounds.old.most }
    requires ready { IsReadyWriter D.Disk writer.old disk.old }
    requires working { writer.old.failed ≡ false }
    ensures outcome { Recovers D.Disk no_page writer.old writer.new disk.new (fault_of result) }
    ensures room { length room.new ≡ length room.old }
    ensures kept { (b : Base) (base : ℕ) (begun : History) (file : ℕ → Option Page) (from : D) → IsApplying D.Disk b base begun file (lsns_of changes.now) 0 from writer.old disk.old
        → AreOwn begun changes.now → AreApplicable b begun → point ≡ redo_point begun → AreCopies point copies.now begun → ApplyingKept D.Disk b base begun file from writer.new disk.new result }
{
    let mut count = 0;
    let mut done = 0;
    let mut window = Window::empty();
    for _segment in 0..changes.len() {
        if done >= changes.len() {
            break;
        }
        let passed = redo_segment(
            rt,
            at_start,
            writer,
            disk,
            point,
            copies,
            &changes[done..],
            &mut window,
            room,
            segment,
            rounds,
        )?;
        done += passed.changes;
        count += passed.applied;
    }
    Ok(count)
}
