//! Redo: noted copies loaded, records applied to their pages by LSN, and records read again.
ghost use Rattle.std.specs.Prelude.{◌≡◌, ◌≤◌, ◌<◌, ◌⊎◌, ◌↔◌, ◌++◌, ◌∷◌, ℕ, None, Some, Ok, Err, true, false, not, is_ok, length, IfErr, IfOk, OnOk};
ghost use Rattle.im_base_types.specs.declared.fault.Fault.TheVariants.{Device, Failed, NotAStore};
ghost use Rattle.im_theory_log.specs.Histories.{Base, History, changes_page};
ghost use Rattle.im_theory_log.specs.Writer.{Writer};
ghost use Rattle.im_log_record.specs.Entry.{view};
ghost use Rattle.im_log.specs.Whats.{what_of};

use crate::PageWriter;
use crate::redone_page::redo_record;
use im_base_disk::Disk;
use im_base_types::{Fault, Lsn, PageNo};
use im_log_record::Record;
use im_page_file::read_copy;

impl PageWriter {
    ghost use Rattle.im_base_types.specs.Pages.{Page};
    ghost use Rattle.im_base_types.specs.Records.{Logged};
    ghost use Rattle.im_theory_log.specs.Copies.{HasCopy, copy_in};
    ghost use Rattle.im_theory_log.specs.Histories.{IsRecordOf, end_of};
    ghost use Rattle.im_log_record.specs.Entry.{view, page_of};
    ghost use Rattle.im_log_record.specs.Spelling.{IsEntry};
    ghost use Rattle.im_log.specs.Spelled.{logged_at};
    ghost use Rattle.im_log.specs.Whats.{what_of};
    ghost use Rattle.im_log.specs.Reading.{FoundKept};
    ghost use Rattle.im_base_disk.specs.Runs.{Reads};
    ghost use Rattle.im_page_pool.specs.Pool.{Holds, held_of};
    ghost use Rattle.im_page_writer.specs.Outcome.{fault_of, no_page, Flushes, Redoes};
    ghost use Rattle.im_page_writer.specs.PageWriter.{IsReadyWriter, StandsAs};
    ghost use Rattle.im_page_writer.specs.Redoing.{HasRooms, LoadKept, RedoKept, LacksTaker, LoadedHere, RedoneHere};

    /// Reads the record at an LSN into the room, and answers its size, as the log's `read_at` does.
    ///
    /// Refused `NotAStore` where no record stands there; `Device`. After a refusal every later call is refused `Failed`.
    pub fn read_at<D: Disk>(
        &mut self,
        disk: &mut D,
        lsn: Lsn,
        room: &mut [u8],
    ) -> Result<usize, Fault>
        requires room { 16384 ≤ length room.old }
        requires ready { IsReadyWriter D.Disk self.old disk.old }
        ensures ready { IsReadyWriter D.Disk self.new disk.new }
        ensures kept { (b : Base) (base : ℕ) (s : Writer) → StandsAs D.Disk b base s self.old disk.old → OnOk result (StandsAs D.Disk b base s self.new disk.new) }
        ensures found { (b : Base) (base : ℕ) (s : Writer) (r : Logged) → StandsAs D.Disk b base s self.old disk.old → IsRecordOf r s.log → lsn ≡ r.lsn → FoundKept r room.new result }
        ensures reads { Reads D.Disk disk.old disk.new }
        ensures room { length room.new ≡ length room.old }
        ensures size { IfOk result (λ size. (4 ≤ size) × (size ≤ 16384)) }
        ensures works { OnOk result (self.new.failed ≡ false) }
        ensures failed { self.new.failed ≡ not (is_ok result) }
        ensures causes { IfErr result (λ e. (e ≡ Failed) ⊎ (e ≡ NotAStore) ⊎ (e ≡ Device)) }
        ensures already { result ≡ Err Failed ↔ (self.old.failed ≡ true) }
        ensures device { self.old.failed ≡ false → result ≡ Err Device ↔ (D.failed disk.new ≡ true) }
        ensures frames { self.new.pool.frames ≡ self.old.pool.frames }
    {
        if self.failed {
            return Err(Fault::Failed);
        }
        self.failed = true;
        let size = self.log.read_at(disk, lsn, room)?;
        self.failed = false;
        Ok(size)
    }

    // Makes a frame free for a page that is not held, and then room in the dirty table.
    fn make_rooms<D: Disk>(&mut self, disk: &mut D, number: PageNo) -> Result<(), Fault>
        requires ready { IsReadyWriter D.Disk self.old disk.old }
        ensures outcome { Flushes D.Disk self.old disk.old self.new disk.new (fault_of result) }
        ensures rooms { (b : Base) (base : ℕ) (s : Writer) → StandsAs D.Disk b base s self.old disk.old → OnOk result (HasRooms number self.new.pool self.new.table) }
    {
        if self.failed {
            return Err(Fault::Failed);
        }
        self.make_room(disk, number)?;
        self.make_entry_room(disk)
    }

    // A page that is not held is the copy that a record holds, from now on.
    fn put_copy(
        &mut self,
        point: Lsn,
        lsn: Lsn,
        record: &Record,
        number: PageNo,
    ) -> Result<(), Fault>
        requires entry { IsEntry (view record.now) }
        ensures ok { OnOk result (LoadedHere point lsn (what_of (view record.now)) number self.old self.new) }
        ensures log { self.new.log ≡ self.old.log }
        ensures known { self.new.known ≡ self.old.known }
        ensures frames { self.new.pool.frames ≡ self.old.pool.frames }
        ensures failed { self.new.failed ≡ self.old.failed }
        ensures refused { IfErr result (λ e. (e ≡ NotAStore) × (Holds self.old.pool number ⊎ (copy_in lsn (what_of (view record.now)) ≡ None) ⊎ (length self.old.pool.held ≡ self.old.pool.frames) ⊎ (length self.old.table.entries ≡ self.old.table.most))) }
    {
        if self.pool.holds(number) {
            return Err(Fault::NotAStore);
        }
        if self.pool.is_full() {
            return Err(Fault::NotAStore);
        }
        if self.lacks_room(number) {
            return Err(Fault::NotAStore);
        }
        if !read_copy(&mut self.spare, lsn, record) {
            return Err(Fault::NotAStore);
        }
        self.pool.hold_copy(number, self.spare.bytes())?;
        self.table.enter_at_point(number, point, true);
        Ok(())
    }

    /// Loads a page from its noted copy, which is the record's, in place of what the file has: it then counts as changed, from the
    /// redo point on. Copies are loaded in rising page number, before the first record is redone. A frame is made free and room in the
    /// dirty table made first.
    ///
    /// Refused `NotAStore` where the record holds no copy of the page, or the page is held; otherwise as `get` is.
    pub fn load_copy<D: Disk>(
        &mut self,
        disk: &mut D,
        point: Lsn,
        lsn: Lsn,
        record: &Record,
    ) -> Result<(), Fault>
        requires entry { IsEntry (view record.now) }
        requires ready { IsReadyWriter D.Disk self.old disk.old }
        ensures outcome { Redoes D.Disk no_page self.old self.new disk.new (fault_of result) }
        ensures kept { (b : Base) (base : ℕ) (s : Writer) (copy : Page) → StandsAs D.Disk b base s self.old disk.old → s.redo_end ≡ None → s.point ≡ point
            → copy_in lsn (what_of (view record.now)) ≡ Some copy → (s.pages (page_of (view record.now))).waits ≡ true → (s.pages (page_of (view record.now))).found ≡ Some (lsn, copy)
            → ((q : ℕ) → q < page_of (view record.now) → (s.pages q).waits ≡ false)
            → LoadKept D.Disk b base s (page_of (view record.now)) copy disk.old self.new disk.new result }
    {
        let number = record.page();
        self.make_rooms(disk, number)?;
        self.put_copy(point, lsn, record, number)
    }

    // A held page is changed by a record, and entered, where the record's kind changes a page.
    fn redo_held(
        &mut self,
        point: Lsn,
        lsn: Lsn,
        record: &Record,
        number: PageNo,
        copied: bool,
    ) -> Result<bool, Fault>
        requires entry { IsEntry (view record.now) }
        ensures ok { IfOk result (λ done. RedoneHere copied point lsn (what_of (view record.now)) number self.old done self.new) }
        ensures log { self.new.log ≡ self.old.log }
        ensures known { self.new.known ≡ self.old.known }
        ensures frames { self.new.pool.frames ≡ self.old.pool.frames }
        ensures failed { self.new.failed ≡ self.old.failed }
        ensures refused { IfErr result (λ e. (e ≡ NotAStore) × (LacksTaker (what_of (view record.now)) number self.old.pool ⊎ (length self.old.table.entries ≡ self.old.table.most) ⊎ (held_of self.old.pool number ≡ None))) }
    {
        let frame = self.find_with_room(number)?;
        if !redo_record(&mut self.pool, &mut self.spare, frame, lsn, record)? {
            return Ok(false);
        }
        self.table.enter_at_point(frame.number, point, copied);
        Ok(true)
    }

    // The same of a held page with an LSN below the record's, for whose entry room is made first.
    fn redo_with_room<D: Disk>(
        &mut self,
        disk: &mut D,
        point: Lsn,
        lsn: Lsn,
        record: &Record,
        number: PageNo,
        copied: bool,
    ) -> Result<bool, Fault>
        requires entry { IsEntry (view record.now) }
        requires page { page_of (view record.now) ≡ number }
        requires held { Holds self.old.pool number }
        requires ready { IsReadyWriter D.Disk self.old disk.old }
        ensures outcome { Redoes D.Disk no_page self.old self.new disk.new (fault_of result) }
        ensures kept { (b : Base) (base : ℕ) (s : Writer) (newer older : History) → StandsAs D.Disk b base s self.old disk.old → s.redo_end ≡ None → s.point ≡ point
            → newer ++ logged_at lsn (view record.now) ∷ older ≡ s.durable → point ≤ lsn → ((p : ℕ) → ((s.pages p).waits ≡ false) × (end_of b older < (s.pages p).upto))
            → (s.pages number).page.lsn < lsn → (copied ≡ true → HasCopy s.durable number s.point) → RedoKept D.Disk b base s (logged_at lsn (view record.now)) disk.old self.new disk.new result }
    {
        self.make_entry_room(disk)?;
        self.redo_held(point, lsn, record, number, copied)
    }

    // The same of any page, which is got first.
    fn redo_on<D: Disk>(
        &mut self,
        disk: &mut D,
        point: Lsn,
        lsn: Lsn,
        record: &Record,
        number: PageNo,
        copied: bool,
    ) -> Result<bool, Fault>
        requires entry { IsEntry (view record.now) }
        requires page { page_of (view record.now) ≡ number }
        requires ready { IsReadyWriter D.Disk self.old disk.old }
        ensures outcome { Redoes D.Disk no_page self.old self.new disk.new (fault_of result) }
        ensures kept { (b : Base) (base : ℕ) (s : Writer) (newer older : History) → StandsAs D.Disk b base s self.old disk.old → s.redo_end ≡ None → s.point ≡ point
            → newer ++ logged_at lsn (view record.now) ∷ older ≡ s.durable → point ≤ lsn → ((p : ℕ) → ((s.pages p).waits ≡ false) × (end_of b older < (s.pages p).upto))
            → (copied ≡ true → HasCopy s.durable number s.point) → RedoKept D.Disk b base s (logged_at lsn (view record.now)) disk.old self.new disk.new result }
    {
        let frame = self.get(disk, number)?;
        if self.pool.page(frame).lsn() >= lsn {
            return Ok(false);
        }
        self.redo_with_room(disk, point, lsn, record, number, copied)
    }

    /// Goes past a record of the durable log in redo: where it changes a page whose LSN is less than the record's, the page is changed by
    /// it, and counts as changed from the redo point on; every other record changes nothing. It answers whether a page was changed. The
    /// page is got first, and then room is made for its entry in the dirty table; a record that changes no page takes no call.
    ///
    /// `copied` says that the log has a full copy of the page at or after the redo point, as analysis noted it: then no Image of it is
    /// needed, whenever it is written.
    ///
    /// Refused `NotAStore` where the page does not take the record; otherwise as `get` is.
    pub fn redo_change<D: Disk>(
        &mut self,
        disk: &mut D,
        point: Lsn,
        lsn: Lsn,
        record: &Record,
        copied: bool,
    ) -> Result<bool, Fault>
        requires entry { IsEntry (view record.now) }
        requires ready { IsReadyWriter D.Disk self.old disk.old }
        ensures outcome { Redoes D.Disk no_page self.old self.new disk.new (fault_of result) }
        ensures kept { (b : Base) (base : ℕ) (s : Writer) (newer older : History) → StandsAs D.Disk b base s self.old disk.old → s.redo_end ≡ None → s.point ≡ point
            → newer ++ logged_at lsn (view record.now) ∷ older ≡ s.durable → point ≤ lsn → ((p : ℕ) → ((s.pages p).waits ≡ false) × (end_of b older < (s.pages p).upto))
            → (copied ≡ true → HasCopy s.durable (page_of (view record.now)) s.point) → RedoKept D.Disk b base s (logged_at lsn (view record.now)) disk.old self.new disk.new result }
    {
        if self.failed {
            return Err(Fault::Failed);
        }
        if !may_change(record) {
            return Ok(false);
        }
        self.redo_on(disk, point, lsn, record, record.page(), copied)
    }
}

// Whether a record's kind is one that changes a page.
fn may_change(record: &Record) -> bool
    ensures { result ≡ false → changes_page (what_of (view record.now)) ≡ false }
{
    match record {
        Record::Image { .. } => false,
        Record::DummyClr { .. } => false,
        Record::Commit { .. } => false,
        Record::End { .. } => false,
        Record::Checkpoint { .. } => false,
        _ => true,
    }
}
