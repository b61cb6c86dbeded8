//! Records that change a leaf: logged, and then the page changed by them.
ghost use Rattle.std.specs.Prelude.{◌≡◌, ◌≢◌, ◌≤◌, ◌<◌, ◌^◌, ◌⊎◌, ◌↔◌, ℕ, None, Some, Err, false, true, is_ok, length, IfErr, IfOk, OnOk};
ghost use Rattle.im_base_types.specs.declared.fault.Fault.TheVariants.{Device, Failed, LogFull, NotAStore};
ghost use Rattle.im_theory_log.specs.Histories.{Base};
ghost use Rattle.im_theory_log.specs.Writer.{Writer};
ghost use Rattle.im_page_table.specs.KnownCopies.{or_from};

use crate::PageWriter;
use crate::leaf_change::edit_key;
use im_base_disk::Disk;
use im_base_types::{Fault, Lsn, PageNo};
use im_log_record::Record;
use im_page::{LeafEdit, place_in};
use im_page_pool::Frame;

impl PageWriter {
    ghost use Rattle.im_log_record.specs.Entry.{view, page_of};
    ghost use Rattle.im_log_record.specs.Spelling.{IsEntry, size_of};
    ghost use Rattle.im_log.specs.LogFile.{end_with};
    ghost use Rattle.im_log.specs.Whats.{what_of};
    ghost use Rattle.im_page_pool.specs.Pool.{held_of, page_at, IsAt};
    ghost use Rattle.im_page_table.specs.DirtyTable.{entry_in};
    ghost use Rattle.im_page_table.specs.KnownCopies.{IsAtOrAfter};
    ghost use Rattle.im_page_writer.specs.PageWriter.{IsReadyWriter, StandsAs};
    ghost use Rattle.im_page.specs.LeafEdits.{edit_of, HasPlace};
    ghost use Rattle.im_page_writer.specs.Outcome.{fault_of, no_page, AreLoadedTo, Logs, Outcome};
    ghost use Rattle.im_page_writer.specs.LoggedChange.{IsLike, LoggedKept, ChangeKept};

    // Whether the dirty table can't take the page's entry.
    pub(super) fn lacks_room(&self, number: PageNo) -> bool
        ensures room { result ≡ false → entry_in self.now.table number ≡ None → length self.now.table.entries < self.now.table.most }
        ensures full { result ≡ true → length self.now.table.entries ≡ self.now.table.most }
    {
        self.table.is_full() && self.table.get(number).is_none()
    }

    // Where a page is held that has room for its entry.
    pub(super) fn find_with_room(&self, number: PageNo) -> Result<Frame, Fault>
        ensures at { IfOk result (IsAt self.now.pool) }
        ensures frame { IfOk result (λ f. f.number ≡ number) }
        ensures room { OnOk result (entry_in self.now.table number ≡ None → length self.now.table.entries < self.now.table.most) }
        ensures refused { IfErr result (λ e. (e ≡ NotAStore) × ((length self.now.table.entries ≡ self.now.table.most) ⊎ (held_of self.now.pool number ≡ None))) }
    {
        if self.lacks_room(number) {
            return Err(Fault::NotAStore);
        }
        match self.pool.find(number) {
            Some(frame) => Ok(frame),
            None => Err(Fault::NotAStore),
        }
    }

    // Gets a page, and then makes room for its entry in the dirty table.
    pub(super) fn hold_with_room<D: Disk>(
        &mut self,
        disk: &mut D,
        number: PageNo,
    ) -> Result<Frame, Fault>
        requires ready { IsReadyWriter D.Disk self.old disk.old }
        ensures outcome { Outcome D.Disk (AreLoadedTo number) no_page self.old disk.old self.new disk.new (fault_of result) }
        ensures sound { (b : Base) (base : ℕ) (s : Writer) → StandsAs D.Disk b base s self.old disk.old → AreLoadedTo number s → IfErr result (λ e. e ≢ NotAStore) }
        ensures at { IfOk result (IsAt self.new.pool) }
        ensures frame { IfOk result (λ f. f.number ≡ number) }
        ensures room { OnOk result (entry_in self.new.table number ≡ None → length self.new.table.entries < self.new.table.most) }
    {
        self.get(disk, number)?;
        self.make_entry_room(disk)?;
        self.find_with_room(number)
    }

    // Whether the log is known to have a full copy of a held page that has no entry: it was changed in this life, and written since.
    fn is_known(&self, frame: Frame) -> bool
        requires at { IsAt self.now.pool frame }
        ensures none { result ≡ true → entry_in self.now.table frame.number ≡ None }
        ensures late { result ≡ true → IsAtOrAfter self.now.known.from (page_at self.now.pool frame.number).lsn }
    {
        match self.known.from {
            Some(from) => {
                from <= self.pool.page(frame).lsn() && self.table.get(frame.number).is_none()
            }
            None => false,
        }
    }

    // A record puts a key into a held leaf at its place, or takes it out of there.
    fn edit_logged<D: Disk>(
        &mut self,
        disk: &mut D,
        frame: Frame,
        record: &Record,
        edit: LeafEdit,
        i: usize,
        key: &[u8],
        rid: u64,
    ) -> Result<Lsn, Fault>
        requires entry { IsEntry (view record.now) }
        requires what { IsLike (what_of (view record.now)) (edit_of edit key.now rid) }
        requires page { page_of (view record.now) ≡ frame.number }
        requires ready { IsReadyWriter D.Disk self.old disk.old }
        requires working { self.old.failed ≡ false }
        requires at { IsAt self.old.pool frame }
        requires place { HasPlace edit (page_at self.old.pool frame.number) key.now i }
        requires room { entry_in self.old.table frame.number ≡ None → length self.old.table.entries < self.old.table.most }
        ensures outcome { Logs D.Disk false no_page self.old disk.old self.new disk.new (fault_of result) }
        ensures kept { (b : Base) (base : ℕ) (s : Writer) (e : ℕ) → StandsAs D.Disk b base s self.old disk.old → s.redo_end ≡ Some e
            → LoggedKept D.Disk b base s (view record.now) disk.old self.new disk.new result }
        ensures causes { IfErr result (λ e. (e ≡ LogFull) ⊎ (e ≡ Device)) }
        ensures full { result ≡ Err LogFull ↔ (2 ^ 62 < end_with self.old.log (size_of (view record.now))) }
        ensures left { result ≡ Err LogFull → 2 ^ 62 < end_with self.new.log (size_of (view record.now)) }
    {
        let known = self.is_known(frame);
        self.failed = true;
        let lsn = self.log.append(disk, record)?;
        edit_key(&mut self.pool, frame, edit, i, key, rid, lsn);
        self.table.enter(frame.number, lsn, known);
        self.known.from = first_of(self.known.from, lsn);
        self.failed = false;
        Ok(lsn)
    }

    // Logs a record that puts a key into a leaf or takes it out, and changes the page by it. Refused `NotAStore`, before the append,
    // where the page does not take it.
    fn log_edit<D: Disk>(
        &mut self,
        disk: &mut D,
        record: &Record,
        number: PageNo,
        edit: LeafEdit,
        key: &[u8],
        rid: u64,
    ) -> Result<Lsn, Fault>
        requires entry { IsEntry (view record.now) }
        requires what { IsLike (what_of (view record.now)) (edit_of edit key.now rid) }
        requires page { page_of (view record.now) ≡ number }
        requires ready { IsReadyWriter D.Disk self.old disk.old }
        ensures outcome { Logs D.Disk false no_page self.old disk.old self.new disk.new (fault_of result) }
        ensures kept { (b : Base) (base : ℕ) (s : Writer) (e : ℕ) → StandsAs D.Disk b base s self.old disk.old → s.redo_end ≡ Some e
            → ChangeKept D.Disk b base s (view record.now) disk.old self.new disk.new result }
        ensures full { result ≡ Err LogFull → (2 ^ 62 < end_with self.new.log (size_of (view record.now))) ⊎ (2 ^ 62 < end_with self.new.log 4129) }
        ensures fits { OnOk result (end_with self.old.log (size_of (view record.now)) ≤ 2 ^ 62) }
    {
        let frame = self.hold_with_room(disk, number)?;
        let i = place_in(edit, self.pool.page(frame), key)?;
        self.edit_logged(disk, frame, record, edit, i, key, rid)
    }

    // Why a record of another kind is refused.
    pub(super) fn not_a_change(&self) -> Result<Lsn, Fault>
        ensures refused { IfErr result (λ e. (e ≡ Failed) ⊎ (e ≡ NotAStore)) }
        ensures already { result ≡ Err Failed ↔ (self.now.failed ≡ true) }
        ensures never { is_ok result ≡ false }
    {
        if self.failed {
            return Err(Fault::Failed);
        }
        Err(Fault::NotAStore)
    }

    /// Logs a record of an insert or a delete of a key, or of the compensation of one, and changes its leaf by it: the page is got,
    /// room is made for its entry in the dirty table, the record is appended, the page changed and given the record's LSN, and
    /// entered. It answers the LSN.
    ///
    /// Refused `NotAStore`, before the append, for a record of another kind, and where the page does not take it: it is no leaf,
    /// it has the key already or has no room, or it lacks the key; `LogFull` where the record, or an Image before it, would end above
    /// LSN 2^62 (a record that would is never logged); otherwise as `get` is.
    pub fn log_change<D: Disk>(&mut self, disk: &mut D, record: &Record) -> Result<Lsn, Fault>
        requires entry { IsEntry (view record.now) }
        requires ready { IsReadyWriter D.Disk self.old disk.old }
        ensures outcome { Logs D.Disk false no_page self.old disk.old self.new disk.new (fault_of result) }
        ensures kept { (b : Base) (base : ℕ) (s : Writer) (e : ℕ) → StandsAs D.Disk b base s self.old disk.old → s.redo_end ≡ Some e
            → ChangeKept D.Disk b base s (view record.now) disk.old self.new disk.new result }
        ensures full { result ≡ Err LogFull → (2 ^ 62 < end_with self.new.log (size_of (view record.now))) ⊎ (2 ^ 62 < end_with self.new.log 4129) }
        ensures fits { OnOk result (end_with self.old.log (size_of (view record.now)) ≤ 2 ^ 62) }
    {
        match record {
            Record::InsertKey { page, key, rid, .. } => self.log_edit(
                disk,
                record,
                *page,
                LeafEdit::Put,
                key,
                *rid,
            ),
            Record::UndoDelete { page, key, rid, .. } => self.log_edit(
                disk,
                record,
                *page,
                LeafEdit::Put,
                key,
                *rid,
            ),
            Record::DeleteKey { page, key, rid, .. } => self.log_edit(
                disk,
                record,
                *page,
                LeafEdit::Take,
                key,
                *rid,
            ),
            Record::UndoInsert { page, key, rid, .. } => self.log_edit(
                disk,
                record,
                *page,
                LeafEdit::Take,
                key,
                *rid,
            ),
            _ => self.not_a_change(),
        }
    }
}

// The first LSN, if there is none yet.
fn first_of(from: Option<Lsn>, lsn: Lsn) -> Option<Lsn>
    ensures { result ≡ or_from from lsn }
{
    match from {
        Some(first) => Some(first),
        None => Some(lsn),
    }
}
