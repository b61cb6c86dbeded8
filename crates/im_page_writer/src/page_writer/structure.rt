//! Records of structure changes: logged, and then the page made the one after.
ghost use Rattle.std.specs.Prelude.{◌≡◌, ◌≢◌, ◌<◌, ◌≤◌, ◌^◌, ◌⊎◌, ◌↔◌, ℕ, None, Some, Err, false, length, OnOk};
ghost use Rattle.im_base_types.specs.declared.fault.Fault.TheVariants.{LogFull, NotAStore};
ghost use Rattle.im_theory_log.specs.Histories.{Base};
ghost use Rattle.im_theory_log.specs.Writer.{Writer};

use crate::PageWriter;
use crate::redone_page::set_page;
use im_base_disk::Disk;
use im_base_types::{Fault, Lsn, PageNo};
use im_log_record::Record;
use im_page_file::read_after;
use im_page_pool::Frame;

impl PageWriter {
    ghost use Rattle.im_log_record.specs.Entry.{view, page_of};
    ghost use Rattle.im_log_record.specs.Spelling.{IsEntry, size_of};
    ghost use Rattle.im_log.specs.LogFile.{end_with};
    ghost use Rattle.im_log.specs.Whats.{what_of};
    ghost use Rattle.im_page_pool.specs.Pool.{IsAt};
    ghost use Rattle.im_page_table.specs.DirtyTable.{entry_in};
    ghost use Rattle.im_page_file.specs.PageCopy.{after_in};
    ghost use Rattle.im_page_writer.specs.Outcome.{fault_of, no_page, Logs};
    ghost use Rattle.im_page_writer.specs.PageWriter.{IsReadyWriter, StandsAs};
    ghost use Rattle.im_page_writer.specs.StructureChange.{LeftHere, LeftKept};

    // A record of a structure change joins the log, and its held page becomes the one after.
    fn after_logged<D: Disk>(
        &mut self,
        disk: &mut D,
        frame: Frame,
        record: &Record,
    ) -> Result<Lsn, Fault>
        requires entry { IsEntry (view record.now) }
        requires page { page_of (view record.now) ≡ frame.number }
        requires ready { IsReadyWriter D.Disk self.old disk.old }
        requires working { self.old.failed ≡ false }
        requires at { IsAt self.old.pool frame }
        requires room { entry_in self.old.table frame.number ≡ None → length self.old.table.entries < self.old.table.most }
        ensures outcome { Logs D.Disk false no_page self.old disk.old self.new disk.new (fault_of result) }
        ensures kept { (b : Base) (base : ℕ) (s : Writer) (e : ℕ) → StandsAs D.Disk b base s self.old disk.old → s.redo_end ≡ Some e
            → LeftHere D.Disk b base s (view record.now) disk.old self.new disk.new result }
        ensures refused { result ≡ Err NotAStore ↔ (after_in (what_of (view record.now)) ≡ None) }
        ensures images { OnOk result (after_in (what_of (view record.now)) ≢ None) }
        ensures full { result ≡ Err LogFull ↔ ((after_in (what_of (view record.now)) ≢ None) × (2 ^ 62 < end_with self.old.log (size_of (view record.now)))) }
        ensures left { result ≡ Err LogFull → 2 ^ 62 < end_with self.new.log (size_of (view record.now)) }
    {
        if !read_after(&mut self.spare, record) {
            return Err(Fault::NotAStore);
        }
        self.failed = true;
        let lsn = self.log.append(disk, record)?;
        set_page(&mut self.pool, frame, lsn, &self.spare);
        self.table.enter(frame.number, lsn, true);
        self.failed = false;
        Ok(lsn)
    }

    // The same of any page, which is got first.
    fn log_after<D: Disk>(
        &mut self,
        disk: &mut D,
        record: &Record,
        number: PageNo,
    ) -> Result<Lsn, Fault>
        requires entry { IsEntry (view record.now) }
        requires page { page_of (view record.now) ≡ number }
        requires ready { IsReadyWriter D.Disk self.old disk.old }
        ensures outcome { Logs D.Disk false no_page self.old disk.old self.new disk.new (fault_of result) }
        ensures kept { (b : Base) (base : ℕ) (s : Writer) (e : ℕ) → StandsAs D.Disk b base s self.old disk.old → s.redo_end ≡ Some e
            → LeftKept D.Disk b base s (view record.now) disk.old self.new disk.new result }
        ensures full { result ≡ Err LogFull → (2 ^ 62 < end_with self.new.log (size_of (view record.now))) ⊎ (2 ^ 62 < end_with self.new.log 4129) }
        ensures fits { OnOk result (end_with self.old.log (size_of (view record.now)) ≤ 2 ^ 62) }
        ensures images { OnOk result (after_in (what_of (view record.now)) ≢ None) }
    {
        let frame = self.hold_with_room(disk, number)?;
        self.after_logged(disk, frame, record)
    }

    /// Logs a record of a structure change or of its undo, and makes its page the one after: the page is got, room is made for its
    /// entry in the dirty table, the record is appended, the page made the record's with the record's LSN, and entered. It answers
    /// the LSN.
    ///
    /// Refused `NotAStore`, before the append, for a record of another kind, and where its images are no pages; `LogFull` as
    /// `log_change` is; otherwise as `get` is.
    pub fn log_smo<D: Disk>(&mut self, disk: &mut D, record: &Record) -> Result<Lsn, Fault>
        requires entry { IsEntry (view record.now) }
        requires ready { IsReadyWriter D.Disk self.old disk.old }
        ensures outcome { Logs D.Disk false no_page self.old disk.old self.new disk.new (fault_of result) }
        ensures kept { (b : Base) (base : ℕ) (s : Writer) (e : ℕ) → StandsAs D.Disk b base s self.old disk.old → s.redo_end ≡ Some e
            → LeftKept D.Disk b base s (view record.now) disk.old self.new disk.new result }
        ensures full { result ≡ Err LogFull → (2 ^ 62 < end_with self.new.log (size_of (view record.now))) ⊎ (2 ^ 62 < end_with self.new.log 4129) }
        ensures fits { OnOk result (end_with self.old.log (size_of (view record.now)) ≤ 2 ^ 62) }
        ensures images { OnOk result (after_in (what_of (view record.now)) ≢ None) }
    {
        match record {
            Record::Smo { page, .. } => self.log_after(disk, record, *page),
            Record::UndoSmo { page, .. } => self.log_after(disk, record, *page),
            _ => self.not_a_change(),
        }
    }
}
