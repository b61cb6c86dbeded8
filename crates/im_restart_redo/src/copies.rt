//! Noted copies, loaded in rising page number.

ghost use Rattle.std.specs.Prelude.{◌≡◌, ◌≤◌, ◌∷◌, ℕ, List, [], false, length, Option};
ghost use Rattle.im_base_types.specs.Pages.{Page};
ghost use Rattle.im_theory_log.specs.Histories.{Base, History};
ghost use Rattle.im_theory_log.specs.RedoPoints.{redo_point};
ghost use Rattle.im_page_writer.specs.Outcome.{fault_of, no_page};
ghost use Rattle.im_page_writer.specs.PageWriter.{IsReadyWriter};
ghost use Rattle.im_theory_log.specs.Writer.{Writer};
ghost use Rattle.im_restart_redo.specs.Loading.{AreWaiting, HaveFirst, IsLoading, LoadingKept};
ghost use Rattle.im_restart_redo.specs.Recovery.{Recovers};
ghost use Rattle.im_restart_redo.specs.Within.{IsWithinRedo};

use im_base_disk::Disk;
use im_base_types::{Fault, Lsn, PageNo};
use im_log_record::decode;
use im_page_writer::PageWriter;
use std::collections::BTreeMap;

// Loads one copy: its record is read again at its LSN, and says which page it is of.
fn load_one<D: Disk>(
    writer: &mut PageWriter,
    disk: &mut D,
    point: Lsn,
    lsn: Lsn,
    room: &mut [u8],
) -> Result<(), Fault>
    requires room { 16384 ≤ length room.old }
    requires ready { IsReadyWriter D.Disk writer.old disk.old }
    requires working { writer.old.failed ≡ false }
    ensures outcome { Recovers D.Disk no_page writer.old writer.new disk.new (fault_of result) }
    ensures room { length room.new ≡ length room.old }
    ensures kept { (b : Base) (base : ℕ) (begun : History) (file : ℕ → Option Page) (from : D) (p : ℕ) (left : List (ℕ × ℕ)) → IsLoading D.Disk b base begun file ((p, lsn) ∷ left) from writer.old disk.old
        → point ≡ redo_point begun → LoadingKept D.Disk b base begun file left from writer.new disk.new result }
{
    let size = writer.read_at(disk, lsn, room)?;
    let record = decode(&room[..size])?;
    writer.load_copy(disk, point, lsn, &record)
}

/// Loads the noted copies in rising page number.
pub(crate) fn load_all<D: Disk>(
    writer: &mut PageWriter,
    disk: &mut D,
    point: Lsn,
    copies: &BTreeMap<PageNo, Lsn>,
    room: &mut [u8],
) -> Result<(), Fault>
    requires room { 16384 ≤ length room.old }
    requires ready { IsReadyWriter D.Disk writer.old disk.old }
    requires working { writer.old.failed ≡ false }
    ensures outcome { Recovers D.Disk no_page writer.old writer.new disk.new (fault_of result) }
    ensures room { length room.new ≡ length room.old }
    ensures kept { (b : Base) (base : ℕ) (begun : History) (file : ℕ → Option Page) (from : D) (s : Writer) → IsWithinRedo D.Disk b base begun from s writer.old disk.old
        → AreWaiting begun copies.now.entries s.pages → HaveFirst b begun file s.pages → point ≡ redo_point begun → LoadingKept D.Disk b base begun file [] from writer.new disk.new result }
{
    for (_, lsn) in copies {
        load_one(writer, disk, point, *lsn, room)?;
    }
    Ok(())
}
