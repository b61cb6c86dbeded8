//! A flush that forces the log brings the full copies of other changed pages to the disk by the same force, so that their flushes want none.
ghost use Rattle.std.specs.Prelude.{◌≡◌, ◌≤◌, ℕ, false, true, length, OnOk};
ghost use Rattle.im_theory_log.specs.Histories.{Base};
ghost use Rattle.im_theory_log.specs.Writer.{Writer};

use crate::PageWriter;
use im_base_disk::Disk;
use im_base_types::{Fault, IMAGE_SIZE, Lsn, MOST_DIRTY, PageNo};
use im_page_table::TableEntry;

/// How many changes a walk over the dirty table finds.
const AT_ONCE: usize = 64;

/// And how many such walks come one after another, at most: 1,024 changes are found by them.
const WALKS: usize = MOST_DIRTY / AT_ONCE;

// A change of a page, the first one since its last write.
#[derive(Clone, Copy)]
struct FirstChange {
    lsn: Lsn,
    page: PageNo,
}

impl PageWriter {
    ghost use Rattle.im_base_types.specs.declared.file_id.FileId.TheVariants.{Pages};
    ghost use Rattle.im_theory_page.specs.PageFile.{page_count};
    ghost use Rattle.im_base_disk.specs.Runs.{Reads};
    ghost use Rattle.im_page_pool.specs.Pool.{is_changed};
    ghost use Rattle.im_page_table.specs.DirtyTable.{has_room};
    ghost use Rattle.im_page_flush.specs.Rooms.{KeepsRoom};
    ghost use Rattle.im_page_flush.specs.Costs.{PageCosts};
    ghost use Rattle.im_page_writer.specs.Outcome.{fault_of, Flushes};
    ghost use Rattle.im_page_writer.specs.PageWriter.{IsReadyWriter, StandsAs, FlushedOne};
    ghost use Rattle.im_page_flush.specs.Writing.{SameHeld};

    /// Flushes a page, as `flush_one` does. Where that forces the log, whose buffer holds several batches, the Images that other changed pages
    /// want join the log first, those of the oldest changes, as many as its buffer takes: one force serves them all. The flush of such a page
    /// wants no force then, unless the page is changed again.
    ///
    /// Refused `LogFull`, where an Image would end above LSN 2^62, `Device`, or `Failed` after a call that failed.
    pub fn flush_in_company<D: Disk>(&mut self, disk: &mut D, number: PageNo) -> Result<(), Fault>
        requires ready { IsReadyWriter D.Disk self.old disk.old }
        ensures outcome { Flushes D.Disk self.old disk.old self.new disk.new (fault_of result) }
        ensures kept { (b : Base) (base : ℕ) (s : Writer) → StandsAs D.Disk b base s self.old disk.old → OnOk result (FlushedOne D.Disk b base s number disk.old self.new disk.new) }
        ensures unchanged { self.old.failed ≡ false → is_changed self.old.pool number ≡ false → (result ≡ Ok tt) × (self.new ≡ self.old) × (disk.new ≡ disk.old) }
        ensures held { OnOk result (SameHeld self.old.pool self.new.pool) }
        ensures numbers { self.new.numbers ≡ self.old.numbers }
        ensures costs { is_changed self.old.pool number ≡ true → OnOk result (PageCosts D.Disk number (page_count (D.seen disk.old Pages)) (has_room number self.old.table) disk.old disk.new) }
    {
        if self.failed {
            return Err(Fault::Failed);
        }
        self.note_company(disk, number)?;
        self.flush_one(disk, number)
    }

    // The Images that this page and other changed ones want join the log, where the flush of this one forces it.
    fn note_company<D: Disk>(&mut self, disk: &mut D, number: PageNo) -> Result<(), Fault>
        requires ready { IsReadyWriter D.Disk self.old disk.old }
        requires working { self.old.failed ≡ false }
        ensures outcome { Flushes D.Disk self.old disk.old self.new disk.new (fault_of result) }
        ensures pool { self.new.pool ≡ self.old.pool }
        ensures reads { Reads D.Disk disk.old disk.new }
        ensures room { KeepsRoom self.old.table self.new.table }
        ensures numbers { self.new.numbers ≡ self.old.numbers }
        ensures unchanged { is_changed self.old.pool number ≡ false → (result ≡ Ok tt) × (self.new ≡ self.old) × (disk.new ≡ disk.old) }
    {
        if !self.wants_force(number) {
            return Ok(());
        }
        self.note_with_room(disk, number, 1)?;
        self.note_oldest(disk)
    }

    // The Images of the changed pages that want one join the log, by the age of their changes, as long as its buffer takes them: none where it
    // holds one batch.
    fn note_oldest<D: Disk>(&mut self, disk: &mut D) -> Result<(), Fault>
        requires ready { IsReadyWriter D.Disk self.old disk.old }
        requires working { self.old.failed ≡ false }
        ensures outcome { Flushes D.Disk self.old disk.old self.new disk.new (fault_of result) }
        ensures pool { self.new.pool ≡ self.old.pool }
        ensures reads { Reads D.Disk disk.old disk.new }
        ensures room { KeepsRoom self.old.table self.new.table }
        ensures numbers { self.new.numbers ≡ self.old.numbers }
    {
        if !self.takes_more() {
            return Ok(());
        }
        let mut last = FirstChange { lsn: 0, page: 0 };
        for _walk in 0..WALKS {
            let mut next = [last; AT_ONCE];
            let count = next_to_copy(self.table.entries(), last, &mut next);
            if count == 0 {
                break;
            }
            if !self.note_next(disk, &next[..count])? {
                break;
            }
            last = next[count - 1];
        }
        Ok(())
    }

    // The Images of these pages join the log, as long as its buffer takes them. Answers whether it took each.
    fn note_next<D: Disk>(&mut self, disk: &mut D, next: &[FirstChange]) -> Result<bool, Fault>
        requires ready { IsReadyWriter D.Disk self.old disk.old }
        requires working { self.old.failed ≡ false }
        ensures outcome { Flushes D.Disk self.old disk.old self.new disk.new (fault_of result) }
        ensures pool { self.new.pool ≡ self.old.pool }
        ensures reads { Reads D.Disk disk.old disk.new }
        ensures room { KeepsRoom self.old.table self.new.table }
        ensures numbers { self.new.numbers ≡ self.old.numbers }
    {
        for at in 0..next.len() {
            if !self.log.takes(IMAGE_SIZE) {
                return Ok(false);
            }
            self.note_with_room(disk, next[at].page, u64::MAX)?;
        }
        Ok(true)
    }
}

// The oldest changes later than this one of pages that want an Image, the oldest first, as many as there is room for. Answers how many those
// are. It goes over the entries once.
fn next_to_copy(entries: &[TableEntry], last: FirstChange, next: &mut [FirstChange]) -> usize
    ensures within { result ≤ length next.old }
    ensures room { length next.new ≡ length next.old }
{
    let mut count = 0;
    for at in 0..entries.len() {
        count = choose(entries[at], last, next, count);
    }
    count
}

// The same with an entry more: `next` rises, and has so many changes.
fn choose(entry: TableEntry, last: FirstChange, next: &mut [FirstChange], count: usize) -> usize
    requires within { count ≤ length next.old }
    ensures within { result ≤ length next.new }
    ensures room { length next.new ≡ length next.old }
{
    let Some(since) = entry.since else {
        return count;
    };
    let change = FirstChange {
        lsn: since,
        page: entry.page,
    };
    if entry.copied || !is_older(last, change) {
        return count;
    }
    if count == next.len() && !is_older_than_last(change, next) {
        return count;
    }
    put(change, next, count)
}

// Whether a change is older than the last one of them.
fn is_older_than_last(change: FirstChange, next: &[FirstChange]) -> bool {
    match next.last() {
        Some(last) => is_older(change, *last),
        None => false,
    }
}

// Puts a change at its place: the last one goes where there is no room.
fn put(change: FirstChange, next: &mut [FirstChange], count: usize) -> usize
    requires within { count ≤ length next.old }
    ensures within { result ≤ length next.new }
    ensures room { length next.new ≡ length next.old }
{
    let mut later = change;
    for at in 0..count {
        let other = next[at];
        if is_older(later, other) {
            next[at] = later;
            later = other;
        }
    }
    if count == next.len() {
        return count;
    }
    next[count] = later;
    count + 1
}

// One record may change several pages: they go by their numbers.
fn is_older(one: FirstChange, other: FirstChange) -> bool {
    one.lsn < other.lsn || one.lsn == other.lsn && one.page < other.page
}
