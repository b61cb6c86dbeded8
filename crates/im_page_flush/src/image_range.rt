//! The full copies of a flush: Images of the pages of which the log is known to have none, in rising page number.
ghost use Rattle.std.specs.Prelude.{◌≡◌, ◌≤◌, ◌<◌, ◌+◌, ◌-◌, ℕ, false, true, vec_capacity, IsOk, OnOk};
ghost use Rattle.im_base_types.specs.declared.file_id.FileId.TheVariants.{Log};
ghost use Rattle.im_theory_log.specs.Histories.{Base};
ghost use Rattle.im_theory_log.specs.Writer.{Writer};
ghost use Rattle.im_base_disk.specs.Runs.{ChangesOnly, Forces, Reads};
ghost use Rattle.im_log.specs.LogFile.{IsOpen};
ghost use Rattle.im_theory_log.specs.WriterSteps.{is_copied};
ghost use Rattle.im_page_table.specs.DirtyTable.{TableView, entry_in};
ghost use Rattle.im_page_file.specs.Imaging.{Imaging};
ghost use Rattle.im_page_file.specs.Takes.{TakesImage};
ghost use Rattle.im_page_file.specs.LogEnds.{fault_of};
ghost use Rattle.im_page_flush.specs.Rooms.{KeepsRoom};
ghost use Rattle.im_page_flush.specs.Writing.{with_lsn, lsn_for, IsWriting, MayCopy, PageImageKept, CopyKept, GrownKept, ImagesKept, DurableKept};

use im_base_disk::Disk;
use im_base_types::{Fault, Lsn, PageNo};
use im_log::LogFile;
use im_page::Page;
use im_page_file::{append_image, count_pages};
use im_page_pool::Pool;
use im_page_table::DirtyTable;

/// How many LSNs are noted.
pub const NOTED: usize = 1_024;

// Notes the LSN of an Image, where there is room for it.
fn push_lsn(lsns: &mut Vec<Lsn>, lsn: Lsn)
    requires room { NOTED ≤ vec_capacity lsns.old }
    ensures items { lsns.new.items ≡ with_lsn lsn lsns.old.items }
    ensures room { NOTED ≤ vec_capacity lsns.new }
{
    if lsns.len() < NOTED {
        lsns.push(lsn).unwrap();
    }
}

/// The LSN of the Image of the page at a place of a flush; after the last one that is noted that one, which is no later.
pub(crate) fn lsn_of(lsns: &[Lsn], place: u64) -> Lsn
    ensures { result ≡ lsn_for lsns.now place }
{
    let at = if place < 1_023 { place as usize } else { 1_023 };
    if at < lsns.len() { lsns[at] } else { 0 }
}

// Adds the Image of a page to the log: as the pool has it, and of one that it doesn't hold, which stands past the file's end, the
// initial page.
fn append_page<D: Disk>(
    disk: &mut D,
    log: &mut LogFile,
    pool: &Pool,
    spare: &mut Page,
    number: PageNo,
) -> Result<Lsn, Fault>
    requires ready { IsOpen D.Disk log.old disk.old }
    requires working { log.old.failed ≡ false }
    ensures outcome { Imaging D.Disk log.old log.new disk.new (fault_of result) }
    ensures kept { (b : Base) (base : ℕ) (s : Writer) (table : TableView) → IsWriting D.Disk b base s log.old table pool.now disk.old
        → MayCopy s pool.now number → PageImageKept D.Disk b base s number disk.old log.new table pool.now disk.new result }
    ensures changes { ChangesOnly D.Disk Log disk.old disk.new }
    ensures forces { OnOk result (Forces D.Disk 1 disk.old disk.new) }
    ensures quiet { TakesImage log.old → disk.new ≡ disk.old }
{
    match pool.find(number) {
        Some(frame) => append_image(disk, log, pool.page(frame).bytes(), number),
        None => {
            spare.reset(number);
            append_image(disk, log, spare.bytes(), number)
        }
    }
}

// Sees to it that the log has a full copy of a page at or after its redo point: where none is known, the page's Image is added. It
// answers the LSN that the page's entry gets where it has none: that of the Image, otherwise its rec_lsn.
fn append_one<D: Disk>(
    disk: &mut D,
    log: &mut LogFile,
    table: &DirtyTable,
    pool: &Pool,
    spare: &mut Page,
    number: PageNo,
) -> Result<Lsn, Fault>
    requires ready { IsOpen D.Disk log.old disk.old }
    requires working { log.old.failed ≡ false }
    ensures outcome { Imaging D.Disk log.old log.new disk.new (fault_of result) }
    ensures kept { (b : Base) (base : ℕ) (s : Writer) → IsWriting D.Disk b base s log.old table.now pool.now disk.old
        → MayCopy s pool.now number → CopyKept D.Disk b base s number disk.old log.new table.now pool.now disk.new result }
    ensures known { is_copied (entry_in table.now number) ≡ true → IsOk result × (log.new ≡ log.old) × (disk.new ≡ disk.old) }
    ensures changes { ChangesOnly D.Disk Log disk.old disk.new }
    ensures forces { OnOk result (Forces D.Disk 1 disk.old disk.new) }
{
    match table.copied(number) {
        Some(lsn) => Ok(lsn),
        None => append_page(disk, log, pool, spare, number),
    }
}

// Adds the Image of a changed page to the log, by which a full copy of it is known. Nothing is done for a page that was not changed.
fn note_copy<D: Disk>(
    disk: &mut D,
    log: &mut LogFile,
    table: &mut DirtyTable,
    pool: &Pool,
    spare: &mut Page,
    number: PageNo,
) -> Result<(), Fault>
    requires ready { IsOpen D.Disk log.old disk.old }
    requires working { log.old.failed ≡ false }
    ensures outcome { Imaging D.Disk log.old log.new disk.new (fault_of result) }
    ensures kept { (b : Base) (base : ℕ) (s : Writer) → IsWriting D.Disk b base s log.old table.old pool.now disk.old → GrownKept D.Disk b base s disk.old log.new table.new pool.now disk.new result }
    ensures quiet { TakesImage log.old → disk.new ≡ disk.old }
    ensures room { KeepsRoom table.old table.new }
    ensures most { table.new.most ≡ table.old.most }
{
    let Some(entry) = table.get(number) else {
        return Ok(());
    };
    if entry.since.is_none() {
        return Ok(());
    }
    let lsn = append_page(disk, log, pool, spare, number)?;
    table.enter(number, lsn, true);
    Ok(())
}

/// Adds the Image of a changed page to the log, by which a full copy of it is known, where the file has the page, or it is one of so many that
/// come `next` after the file's end. Nothing is done for another page, or for one that was not changed.
///
/// Refused `LogFull` or `Device`.
pub fn note_changed<D: Disk>(
    disk: &mut D,
    log: &mut LogFile,
    table: &mut DirtyTable,
    pool: &Pool,
    spare: &mut Page,
    number: PageNo,
    next: u64,
) -> Result<(), Fault>
    requires ready { IsOpen D.Disk log.old disk.old }
    requires working { log.old.failed ≡ false }
    ensures outcome { Imaging D.Disk log.old log.new disk.new (fault_of result) }
    ensures kept { (b : Base) (base : ℕ) (s : Writer) → IsWriting D.Disk b base s log.old table.old pool.now disk.old → GrownKept D.Disk b base s disk.old log.new table.new pool.now disk.new result }
    ensures reads { TakesImage log.old → Reads D.Disk disk.old disk.new }
    ensures room { KeepsRoom table.old table.new }
    ensures most { table.new.most ≡ table.old.most }
{
    let count = count_pages(disk)?;
    if number as u64 >= count.saturating_add(next) {
        return Ok(());
    }
    note_copy(disk, log, table, pool, spare, number)
}

/// Sees to it that the log has a full copy of each page of a range at or after its redo point: the Images of those of which none is
/// known join it, in rising page number. The LSNs are noted, the first 1,024. The log is forced where an Image does not fit into its
/// buffer.
///
/// Refused `LogFull` or `Device`.
pub(crate) fn append_images<D: Disk>(
    disk: &mut D,
    log: &mut LogFile,
    table: &DirtyTable,
    pool: &Pool,
    spare: &mut Page,
    lsns: &mut Vec<Lsn>,
    first: PageNo,
    last: PageNo,
) -> Result<(), Fault>
    requires ready { IsOpen D.Disk log.old disk.old }
    requires working { log.old.failed ≡ false }
    requires room { NOTED ≤ vec_capacity lsns.old }
    requires order { first ≤ last }
    ensures outcome { Imaging D.Disk log.old log.new disk.new (fault_of result) }
    ensures kept { (b : Base) (base : ℕ) (s : Writer) → IsWriting D.Disk b base s log.old table.now pool.now disk.old
        → ((q : ℕ) → first ≤ q → q ≤ last → MayCopy s pool.now q) → ImagesKept D.Disk b base s first last lsns.new.items disk.old log.new table.now pool.now disk.new result }
    ensures changes { ChangesOnly D.Disk Log disk.old disk.new }
    ensures forces { OnOk result (Forces D.Disk (last + 1 - first) disk.old disk.new) }
    ensures room { NOTED ≤ vec_capacity lsns.new }
{
    lsns.clear();
    for number in first as u64..last as u64 + 1 {
        let lsn = append_one(disk, log, table, pool, spare, number as u32)?;
        push_lsn(lsns, lsn);
    }
    Ok(())
}

/// Sees to the full copies of a range of pages, and forces the log.
///
/// Refused `LogFull` or `Device`.
pub(crate) fn log_images<D: Disk>(
    disk: &mut D,
    log: &mut LogFile,
    table: &DirtyTable,
    pool: &Pool,
    spare: &mut Page,
    lsns: &mut Vec<Lsn>,
    first: PageNo,
    last: PageNo,
) -> Result<(), Fault>
    requires ready { IsOpen D.Disk log.old disk.old }
    requires working { log.old.failed ≡ false }
    requires room { NOTED ≤ vec_capacity lsns.old }
    requires order { first ≤ last }
    ensures outcome { Imaging D.Disk log.old log.new disk.new (fault_of result) }
    ensures kept { (b : Base) (base : ℕ) (s : Writer) → IsWriting D.Disk b base s log.old table.now pool.now disk.old
        → ((q : ℕ) → first ≤ q → q ≤ last → MayCopy s pool.now q) → DurableKept D.Disk b base s first last lsns.new.items disk.old log.new table.now pool.now disk.new result }
    ensures changes { ChangesOnly D.Disk Log disk.old disk.new }
    ensures forces { OnOk result (Forces D.Disk (last + 1 - first + 1) disk.old disk.new) }
    ensures room { NOTED ≤ vec_capacity lsns.new }
{
    append_images(disk, log, table, pool, spare, lsns, first, last)?;
    log.force(disk)?;
    Ok(())
}
