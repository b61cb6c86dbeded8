//! Pages that are written before their turn, so that those that go one after another from a full pool share a force of the log.
ghost use Rattle.std.specs.Prelude.{◌≡◌, ◌≤◌, ℕ, None, Some, false, length, nat_lt, option_map, IfSome, OnOk};
ghost use Rattle.im_theory_log.specs.Histories.{Base};
ghost use Rattle.im_theory_log.specs.Writer.{Writer};

use crate::PageWriter;
use crate::page_writer::by_age::oldest_changes;
use im_base_disk::Disk;
use im_base_types::{Fault, IMAGE_SIZE, LONGEST_BATCH, MOST_DIRTY, PageNo};
use im_page_flush::note_changed;
use im_page_pool::Frame;

/// How many pages are written at once at most, where the log's buffer holds one batch.
const AT_ONCE: usize = 8;

/// The same where it holds several.
const MOST_AT_ONCE: usize = 64;

impl PageWriter {
    ghost use Rattle.im_base_disk.specs.Runs.{Reads};
    ghost use Rattle.im_page_file.specs.Takes.{TakesImage};
    ghost use Rattle.im_page_pool.specs.Pool.{held_of, is_changed, IsAt};
    ghost use Rattle.im_page_table.specs.DirtyTable.{oldest};
    ghost use Rattle.im_page_flush.specs.Rooms.{KeepsRoom};
    ghost use Rattle.im_page_writer.specs.Outcome.{fault_of, Flushes};
    ghost use Rattle.im_page_writer.specs.PageWriter.{next_written, IsReadyWriter, StandsAs, FlushedOne};
    ghost use Rattle.im_page_flush.specs.Writing.{SameHeld};

    /// Flushes a held page, as `flush_one` does. Where that forces the log, other changed pages go with it, of the half of the frames that
    /// were used least recently: the first eight, or 64 where the log's buffer holds several batches, without those whose Image is wanted
    /// and does not fit into the buffer any more, or that the file does not have. So one force serves them all. The order of use stays. In a
    /// pool of more than 1,024 frames they are those of the oldest changes, also past the file's end.
    pub(crate) fn flush_with_others<D: Disk>(
        &mut self,
        disk: &mut D,
        frame: Frame,
    ) -> Result<(), Fault>
        requires ready { IsReadyWriter D.Disk self.old disk.old }
        requires working { self.old.failed ≡ false }
        requires at { IsAt self.old.pool frame }
        ensures outcome { Flushes D.Disk self.old disk.old self.new disk.new (fault_of result) }
        ensures kept { (b : Base) (base : ℕ) (s : Writer) → StandsAs D.Disk b base s self.old disk.old → OnOk result (FlushedOne D.Disk b base s frame.number disk.old self.new disk.new) }
        ensures held { OnOk result (SameHeld self.old.pool self.new.pool) }
    {
        self.flush_others(disk, frame)?;
        self.flush_one(disk, frame.number)
    }

    // Flushes changed pages that are written next, in rising number, where the flush of this page forces the log.
    fn flush_others<D: Disk>(&mut self, disk: &mut D, frame: Frame) -> Result<(), Fault>
        requires ready { IsReadyWriter D.Disk self.old disk.old }
        requires working { self.old.failed ≡ false }
        requires at { IsAt self.old.pool frame }
        ensures outcome { Flushes D.Disk self.old disk.old self.new disk.new (fault_of result) }
        ensures held { OnOk result (SameHeld self.old.pool self.new.pool) }
    {
        if !self.pool.is_changed(frame) {
            return Ok(());
        }
        if self.log.waiting() == 0 && self.table.copied(frame.number).is_some() {
            return Ok(());
        }
        if self.is_unforced(frame) {
            return Ok(());
        }
        let among = self.pool.frames() / 2;
        self.flush_company(disk, among, AT_ONCE)
    }

    // Flushes changed pages that are written next, in rising number, so many at most where no other batch finds room in the log's buffer: where their
    // use decides, among so many that were used least recently.
    fn flush_company<D: Disk>(
        &mut self,
        disk: &mut D,
        among: usize,
        at_once: usize,
    ) -> Result<(), Fault>
        requires ready { IsReadyWriter D.Disk self.old disk.old }
        requires working { self.old.failed ≡ false }
        requires within { at_once ≤ 64 }
        ensures outcome { Flushes D.Disk self.old disk.old self.new disk.new (fault_of result) }
        ensures held { OnOk result (SameHeld self.old.pool self.new.pool) }
    {
        let mut numbers = [0; MOST_AT_ONCE];
        let first = self.next_changes(among, &mut numbers[..at_once]);
        self.note_copies(disk, &numbers[..first])?;
        let count = self.more_of(among, first, &mut numbers);
        self.note_copies(disk, &numbers[..count])?;
        numbers[..count].sort_unstable();
        self.flush_copied(disk, &numbers[..count])
    }

    // Half of the dirty table's entries.
    pub(super) fn half(&self) -> usize {
        self.table.most() / 2
    }

    // Whether the pool has more than 1,024 frames. The changed pages are found by the dirty table then, as most frames may hold pages
    // without a change, over which a walk by their use would go each time.
    pub(super) fn is_large(&self) -> bool
        ensures { result ≡ nat_lt 1024 self.now.pool.frames }
    {
        self.pool.frames() > MOST_DIRTY
    }

    // Where the page is held that is written next, if it is held.
    pub(super) fn first_changed(&self) -> Option<Frame>
        ensures at { IfSome result (IsAt self.now.pool) }
        ensures next { IfSome result (λ frame. next_written self.now ≡ Some frame.number) }
        ensures none { (p : ℕ) → result ≡ None → next_written self.now ≡ Some p → held_of self.now.pool p ≡ None }
    {
        if self.is_large() {
            self.find_oldest_change()
        } else {
            self.pool.oldest_changed()
        }
    }

    // Where the page is held whose first change since its last write is the oldest, if it is held.
    fn find_oldest_change(&self) -> Option<Frame>
        ensures at { IfSome result (IsAt self.now.pool) }
        ensures next { IfSome result (λ frame. option_map (λ r. r.page) (oldest self.now.table) ≡ Some frame.number) }
        ensures none { (p : ℕ) → result ≡ None → option_map (λ r. r.page) (oldest self.now.table) ≡ Some p → held_of self.now.pool p ≡ None }
    {
        match self.table.oldest_change() {
            Some(row) => self.pool.find(row.page),
            None => None,
        }
    }

    // The numbers of changed pages that are written next, as many as there is room for: where their use decides, among so many that were used
    // least recently.
    fn next_changes(&self, among: usize, numbers: &mut [PageNo]) -> usize
        ensures within { result ≤ length numbers.old }
        ensures room { length numbers.new ≡ length numbers.old }
    {
        if self.is_large() {
            oldest_changes(self.table.entries(), numbers)
        } else {
            self.pool.oldest_changes(among, numbers)
        }
    }

    // The numbers of more such pages, where another batch finds room in the log's buffer, else of as many as there are.
    fn more_of(&self, among: usize, first: usize, numbers: &mut [PageNo]) -> usize
        requires first { first ≤ length numbers.old }
        ensures within { result ≤ length numbers.old }
        ensures room { length numbers.new ≡ length numbers.old }
    {
        if self.takes_more() {
            self.next_changes(among, numbers)
        } else {
            first
        }
    }

    // Whether something waits in the log's buffer, and another batch finds room there: never where the buffer holds one.
    pub(super) fn takes_more(&self) -> bool {
        self.log.waiting() > 0 && self.log.takes(LONGEST_BATCH)
    }

    // Whether the flush of a page forces the log.
    pub(super) fn wants_force(&self, number: PageNo) -> bool
        ensures { is_changed self.now.pool number ≡ false → result ≡ false }
    {
        match self.pool.find(number) {
            None => false,
            Some(frame) => self.pool.is_changed(frame) && !self.is_unforced(frame),
        }
    }

    // Flushes the page that is written next, if there is one, with others that go next. In a pool of more than 1,024 frames the pages of the 64
    // oldest changes go before it, whether its flush forces the log or not: each walk over the dirty table is long there.
    pub(super) fn flush_next<D: Disk>(&mut self, disk: &mut D) -> Result<(), Fault>
        requires ready { IsReadyWriter D.Disk self.old disk.old }
        requires working { self.old.failed ≡ false }
        ensures outcome { Flushes D.Disk self.old disk.old self.new disk.new (fault_of result) }
        ensures held { OnOk result (SameHeld self.old.pool self.new.pool) }
    {
        self.flush_far(disk)?;
        match self.first_changed() {
            None => Ok(()),
            Some(frame) => self.flush_with_others(disk, frame),
        }
    }

    // Flushes the pages of the 64 oldest changes, in a pool of more than 1,024 frames.
    fn flush_far<D: Disk>(&mut self, disk: &mut D) -> Result<(), Fault>
        requires ready { IsReadyWriter D.Disk self.old disk.old }
        requires working { self.old.failed ≡ false }
        ensures outcome { Flushes D.Disk self.old disk.old self.new disk.new (fault_of result) }
        ensures held { OnOk result (SameHeld self.old.pool self.new.pool) }
    {
        if !self.is_large() {
            return Ok(());
        }
        self.flush_company(disk, 0, MOST_AT_ONCE)
    }

    // The same until half of the dirty table's entries are of pages that are written.
    pub(super) fn flush_half<D: Disk>(&mut self, disk: &mut D) -> Result<(), Fault>
        requires ready { IsReadyWriter D.Disk self.old disk.old }
        requires working { self.old.failed ≡ false }
        ensures outcome { Flushes D.Disk self.old disk.old self.new disk.new (fault_of result) }
        ensures held { OnOk result (SameHeld self.old.pool self.new.pool) }
    {
        let half = self.half();
        for _company in 0..half {
            if self.table.written_count() >= half {
                break;
            }
            self.flush_next(disk)?;
        }
        Ok(())
    }

    // Sees to the full copies of changed pages, as long as their Images fit into the log's buffer.
    fn note_copies<D: Disk>(&mut self, disk: &mut D, numbers: &[PageNo]) -> Result<(), Fault>
        requires ready { IsReadyWriter D.Disk self.old disk.old }
        requires working { self.old.failed ≡ false }
        ensures outcome { Flushes D.Disk self.old disk.old self.new disk.new (fault_of result) }
        ensures pool { self.new.pool ≡ self.old.pool }
    {
        let next = if self.is_large() { u64::MAX } else { 0 };
        for i in 0..numbers.len() {
            self.note_with_room(disk, numbers[i], next)?;
        }
        Ok(())
    }

    // The same of one page, of which none may be known, where the file has it, or it is one of so many that come next.
    pub(super) fn note_with_room<D: Disk>(
        &mut self,
        disk: &mut D,
        number: PageNo,
        next: u64,
    ) -> Result<(), Fault>
        requires ready { IsReadyWriter D.Disk self.old disk.old }
        requires working { self.old.failed ≡ false }
        ensures outcome { Flushes D.Disk self.old disk.old self.new disk.new (fault_of result) }
        ensures pool { self.new.pool ≡ self.old.pool }
        ensures reads { Reads D.Disk disk.old disk.new }
        ensures room { KeepsRoom self.old.table self.new.table }
        ensures numbers { self.new.numbers ≡ self.old.numbers }
    {
        if !self.log.takes(IMAGE_SIZE) {
            return Ok(());
        }
        if self.table.copied(number).is_some() {
            return Ok(());
        }
        self.note_one(disk, number, next)
    }

    // The Image of a changed page joins the log, where the file has it, or it is one of so many that come next.
    fn note_one<D: Disk>(&mut self, disk: &mut D, number: PageNo, next: u64) -> Result<(), Fault>
        requires ready { IsReadyWriter D.Disk self.old disk.old }
        requires working { self.old.failed ≡ false }
        ensures outcome { Flushes D.Disk self.old disk.old self.new disk.new (fault_of result) }
        ensures pool { self.new.pool ≡ self.old.pool }
        ensures reads { TakesImage self.old.log → Reads D.Disk disk.old disk.new }
        ensures room { KeepsRoom self.old.table self.new.table }
        ensures numbers { self.new.numbers ≡ self.old.numbers }
    {
        self.failed = true;
        note_changed(
            disk,
            &mut self.log,
            &mut self.table,
            &self.pool,
            &mut self.spare,
            number,
            next,
        )?;
        self.known.ahead = true;
        self.failed = false;
        Ok(())
    }

    // Flushes those of these pages of which the log has full copies.
    fn flush_copied<D: Disk>(&mut self, disk: &mut D, numbers: &[PageNo]) -> Result<(), Fault>
        requires ready { IsReadyWriter D.Disk self.old disk.old }
        requires working { self.old.failed ≡ false }
        ensures outcome { Flushes D.Disk self.old disk.old self.new disk.new (fault_of result) }
        ensures held { OnOk result (SameHeld self.old.pool self.new.pool) }
    {
        for i in 0..numbers.len() {
            self.flush_where_copied(disk, numbers[i])?;
        }
        Ok(())
    }

    // The same of one page.
    fn flush_where_copied<D: Disk>(&mut self, disk: &mut D, number: PageNo) -> Result<(), Fault>
        requires ready { IsReadyWriter D.Disk self.old disk.old }
        requires working { self.old.failed ≡ false }
        ensures outcome { Flushes D.Disk self.old disk.old self.new disk.new (fault_of result) }
        ensures held { OnOk result (SameHeld self.old.pool self.new.pool) }
    {
        if self.table.copied(number).is_none() {
            return Ok(());
        }
        self.flush_one(disk, number)
    }
}
