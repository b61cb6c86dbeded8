//! Noted copies are loaded, and then the records from the redo point on applied.

ghost use Rattle.std.specs.Prelude.{◌≡◌, ◌<◌, ◌≤◌, ℕ, Err, length, Option};
ghost use Rattle.im_base_types.specs.declared.fault.Fault.TheVariants.{Memory};
ghost use Rattle.im_base_types.specs.Pages.{Page};
ghost use Rattle.im_theory_log.specs.Histories.{Base, History};
ghost use Rattle.im_theory_log.specs.RedoPoints.{redo_point};
ghost use Rattle.im_theory_log.specs.WriterSteps.{opened};
ghost use Rattle.im_restart_analysis.specs.Changes.{changes_from};
ghost use Rattle.im_restart_analysis.specs.CopyLsns.{AreCopies};
ghost use Rattle.im_page_writer.specs.Outcome.{fault_of, mild};
ghost use Rattle.im_page_writer.specs.PageWriter.{IsReadyWriter, StandsAs};
ghost use Rattle.im_restart_redo.specs.Recovery.{Recovers};
ghost use Rattle.im_restart_redo.specs.Redo.{AreApplicable, RedoneKept};

use crate::copies::load_all;
use crate::records::redo_all;
use crate::round_room::RoundRoom;
use crate::segment::Segment;
use im_base_disk::Disk;
use im_base_types::{Fault, Lsn, PageNo, WorkerStart};
use im_page_writer::PageWriter;
use im_restart_analysis::Change;
use std::alloc::Global;
use std::collections::BTreeMap;
use std::thread::Threads;

/// Brings the pages of a writer that was just opened to what the whole durable log made of them: the noted copies are loaded in
/// rising page number, and then the records that change a page, from the redo point on, are applied to their pages, segment of the log
/// after segment, and within one page after page, by so many workers, each of which calls `turn` with its number before its first record of a round: pages and count are the same
/// for any number. `copies` has the LSN of each noted copy, and `changes` those of the records, each with its page. Records are read again into `room`,
/// of 16,384 bytes at least. It answers how many records were applied: those that change a page whose LSN was lower than theirs as redo first had it.
///
/// Refused `NotAStore` where a page does not take its record, no such record stands there, or one is of another page than its change says;
/// `Memory` with nothing done, as all that grows is made first; otherwise as the writer's `get` is.
/// After a refusal redo is not over: the store is to be opened again.
pub fn redo<D: Disk, R: Threads + Sync, T: WorkerStart + Sync>(
    rt: &R,
    alloc: Global,
    writer: &mut PageWriter,
    disk: &mut D,
    point: Lsn,
    copies: &BTreeMap<PageNo, Lsn>,
    changes: &[Change],
    room: &mut [u8],
    workers: usize,
    at_start: &T,
) -> Result<u64, Fault>
    requires some { 0 < workers }
    requires room { 16384 ≤ length room.old }
    requires ready { IsReadyWriter D.Disk writer.old disk.old }
    ensures outcome { Recovers D.Disk mild writer.old writer.new disk.new (fault_of result) }
    ensures memory { result ≡ Err Memory → (writer.new ≡ writer.old) × (disk.new ≡ disk.old) }
    ensures room { length room.new ≡ length room.old }
    ensures kept { (b : Base) (base : ℕ) (begun : History) (file : ℕ → Option Page) → StandsAs D.Disk b base (opened b begun file) writer.old disk.old
        → AreApplicable b begun → point ≡ redo_point begun → AreCopies point copies.now begun → changes.now ≡ changes_from point begun
        → RedoneKept D.Disk b base begun file disk.old writer.new disk.new result }
{
    if writer.has_failed() {
        return Err(Fault::Failed);
    }
    let mut rounds = RoundRoom::new(alloc, writer.frames(), changes.len(), workers)?;
    let mut segment = Segment::new(alloc, rounds.longest)?;
    load_all(writer, disk, point, copies, room)?;
    redo_all(
        rt,
        at_start,
        writer,
        disk,
        point,
        copies,
        changes,
        room,
        &mut segment,
        &mut rounds,
    )
}
