//! A round of redo: its pages are got, lent, changed by its records, and taken back.
ghost use Rattle.std.specs.Prelude.{◌≡◌, ◌≢◌, ◌≤◌, ◌<◌, ◌+◌, ◌/◌, ◌%◌, ◌++◌, ◌||◌, ℕ, List, Bool, None, Some, Ok, true, false, get_or, is_some, length, slice_index_or, vec_len, IfErr, IfOk, IfSome, OnOk};
ghost use Rattle.std.specs.BTreeMap.{get};
ghost use Rattle.std.specs.Ordering.{nat_cmp};
ghost use Rattle.im_base_types.specs.declared.fault.Fault.TheVariants.{NotAStore};
ghost use Rattle.im_base_types.specs.Records.{Logged};
ghost use Rattle.im_theory_log.specs.Histories.{Base, History};
ghost use Rattle.im_theory_log.specs.Copies.{HasCopy, onto};
ghost use Rattle.im_theory_log.specs.Writer.{Writer};
ghost use Rattle.im_theory_log.specs.WriterSteps.{synced};

use crate::PageWriter;
use im_base_disk::Disk;
use im_base_types::{Fault, Lsn, PageNo, WorkerStart};
use im_page_rounds::{RoundPage, Worker, redo_records};
use std::collections::BTreeMap;
use std::thread::Threads;

// Whether a copy of a page is noted.
fn is_noted(copies: &BTreeMap<PageNo, Lsn>, number: PageNo) -> bool
    ensures { result ≡ is_some (get nat_cmp copies.now number) }
{
    copies.get(&number).is_some()
}

// Whether one of the two is so.
fn either(one: bool, other: bool) -> bool
    ensures { result ≡ (one || other) }
{
    one || other
}

impl PageWriter {
    ghost use Rattle.im_base_types.specs.Pages.{Page};
    ghost use Rattle.im_page_pool.specs.Pool.{Held, Holds, held_of};
    ghost use Rattle.im_page_table.specs.DirtyTable.{entry_in};
    ghost use Rattle.im_page_rounds.specs.declared.round_page.RoundPage.{RoundPage};
    ghost use Rattle.im_page_rounds.specs.declared.worker.Worker.{Worker};
    ghost use Rattle.im_page_rounds.specs.Hand.{AllTaken, AreAmong, AreRising, StandIn};
    ghost use Rattle.im_page_rounds.specs.Workers.{HaveRoom, SameRoom, page_in};
    ghost use Rattle.im_page_rounds.specs.Rounds.{AreFrom, HaveHad, applied_of_all};
    ghost use Rattle.im_page_writer.specs.Outcome.{fault_of, no_page, AllPages, AreLoaded, Flushes, HasPages, Reads, Redoes};
    ghost use Rattle.im_page_writer.specs.PageWriter.{IsReadyWriter, StandsAs, Evicted, GoesOn};
    ghost use Rattle.im_page_writer.specs.Rounds.{AreHeld, AreOfThose, AreShown, IsBack, Lends, LendsAll, RoundHere, RoundKept, TakesBack, entry_after};

    // Flushes the changed pages that are written next, with others that go next, until none is left.
    fn flush_all<D: Disk>(&mut self, disk: &mut D) -> Result<(), Fault>
        requires ready { IsReadyWriter D.Disk self.old disk.old }
        requires working { self.old.failed ≡ false }
        ensures outcome { Flushes D.Disk self.old disk.old self.new disk.new (fault_of result) }
    {
        for _company in 0..self.table.most() {
            if self.first_changed().is_none() {
                break;
            }
            self.flush_next(disk)?;
        }
        Ok(())
    }

    // Syncs the file of pages: pages that have not changed since their last write leave the dirty table.
    fn sync_written<D: Disk>(&mut self, disk: &mut D) -> Result<(), Fault>
        requires ready { IsReadyWriter D.Disk self.old disk.old }
        ensures outcome { Flushes D.Disk self.old disk.old self.new disk.new (fault_of result) }
        ensures kept { (b : Base) (base : ℕ) (s : Writer) → StandsAs D.Disk b base s self.old disk.old → OnOk result (GoesOn D.Disk b base s disk.old (synced s) self.new disk.new) }
    {
        self.sync_pages(disk)
    }

    // Whether the dirty table has room for so many entries more.
    fn has_entries_room(&self, count: usize) -> bool
        ensures room { length self.now.table.entries + count ≤ self.now.table.most → result ≡ true }
        ensures full { result ≡ true → length self.now.table.entries + count ≤ self.now.table.most }
    {
        if self.table.is_full() {
            return count == 0;
        }
        count <= self.table.most() - self.table.len()
    }

    // Flushes each page that was changed, and syncs the file of pages: the dirty table has no entry then. Pages that go next are flushed together first, so that they
    // share forces of the log.
    fn flush_and_sync<D: Disk>(&mut self, disk: &mut D) -> Result<(), Fault>
        requires ready { IsReadyWriter D.Disk self.old disk.old }
        requires working { self.old.failed ≡ false }
        ensures outcome { Flushes D.Disk self.old disk.old self.new disk.new (fault_of result) }
        ensures empty { (b : Base) (base : ℕ) (s : Writer) → StandsAs D.Disk b base s self.old disk.old → OnOk result (length self.new.table.entries ≡ 0) }
    {
        self.flush_all(disk)?;
        self.flush_every(disk)?;
        self.sync_written(disk)
    }

    // Flushes each page that was changed, where the dirty table lacks room for so many entries, and syncs the file of pages.
    fn flush_for_entries<D: Disk>(&mut self, disk: &mut D, count: usize) -> Result<(), Fault>
        requires ready { IsReadyWriter D.Disk self.old disk.old }
        requires working { self.old.failed ≡ false }
        ensures outcome { Flushes D.Disk self.old disk.old self.new disk.new (fault_of result) }
        ensures room { (b : Base) (base : ℕ) (s : Writer) → StandsAs D.Disk b base s self.old disk.old → count ≤ 1024 → OnOk result (length self.new.table.entries + count ≤ self.new.table.most) }
    {
        if self.has_entries_room(count) {
            return Ok(());
        }
        self.flush_and_sync(disk)
    }

    /// Makes room in the dirty table for so many entries, 1,024 at most: where it lacks that, the file of pages is synced, and where it
    /// still does, each page that was changed is flushed, and the file synced again.
    ///
    /// Refused `LogFull`, where an Image would end above LSN 2^62, `Device`, or `Failed` after a call that failed.
    pub fn make_entries_room<D: Disk>(&mut self, disk: &mut D, count: usize) -> Result<(), Fault>
        requires ready { IsReadyWriter D.Disk self.old disk.old }
        ensures outcome { Flushes D.Disk self.old disk.old self.new disk.new (fault_of result) }
        ensures unchanged { self.old.failed ≡ false → length self.old.table.entries + count ≤ self.old.table.most → (result ≡ Ok tt) × (self.new ≡ self.old) × (disk.new ≡ disk.old) }
        ensures room { (b : Base) (base : ℕ) (s : Writer) → StandsAs D.Disk b base s self.old disk.old → count ≤ 1024 → OnOk result (length self.new.table.entries + count ≤ self.new.table.most) }
    {
        if self.failed {
            return Err(Fault::Failed);
        }
        if self.has_entries_room(count) {
            return Ok(());
        }
        self.sync_written(disk)?;
        self.flush_for_entries(disk, count)
    }

    /// How many pages may be held.
    pub fn frames(&self) -> usize
        ensures frames { result ≡ self.now.pool.frames }
        ensures some { 1 ≤ result }
    {
        let _held = self.pool.len();
        self.pool.frames()
    }

    // Gets pages, one after another.
    fn get_all<D: Disk>(&mut self, disk: &mut D, numbers: &[PageNo]) -> Result<(), Fault>
        requires ready { IsReadyWriter D.Disk self.old disk.old }
        requires working { self.old.failed ≡ false }
        ensures outcome { Reads D.Disk self.old disk.old self.new disk.new (fault_of result) }
        ensures kept { (pages : AllPages) → HasPages D.Disk AreLoaded pages self.old disk.old → IfErr result (λ e. e ≢ NotAStore) }
        ensures last { (k : ℕ) → k + 1 ≡ length numbers.now → OnOk result (Holds self.new.pool (slice_index_or numbers.now k 0)) }
    {
        for i in 0..numbers.len() {
            self.get(disk, numbers[i])?;
        }
        Ok(())
    }

    // Lends a held page, in exchange for a spare one.
    fn lend(&mut self, number: PageNo, out: &mut RoundPage)
        requires held { Holds self.old.pool number }
        ensures lent { Lends number out.new self.old.pool self.new.pool }
        ensures others { (q : ℕ) → q ≢ number → held_of self.new.pool q ≡ held_of self.old.pool q }
        ensures frames { self.new.pool.frames ≡ self.old.pool.frames }
        ensures log { self.new.log ≡ self.old.log }
        ensures table { self.new.table ≡ self.old.table }
        ensures known { self.new.known ≡ self.old.known }
        ensures failed { self.new.failed ≡ self.old.failed }
    {
        match self.pool.find(number) {
            None => {}
            Some(frame) => {
                let changed = self.pool.is_changed(frame);
                self.pool.exchange(frame, &mut out.page, changed);
                out.changed = false;
            }
        }
    }

    // Enters a page as changed from the redo point on, where it was changed.
    fn enter_changed(&mut self, point: Lsn, number: PageNo, copied: bool, changed: bool)
        requires room { entry_in self.old.table number ≡ None → length self.old.table.entries < self.old.table.most }
        ensures entry { entry_in self.new.table number ≡ entry_after changed copied point (entry_in self.old.table number) }
        ensures other_entries { (q : ℕ) → q ≢ number → entry_in self.new.table q ≡ entry_in self.old.table q }
        ensures most { length self.new.table.entries ≤ length self.old.table.entries + 1 }
        ensures pool { self.new.pool ≡ self.old.pool }
        ensures log { self.new.log ≡ self.old.log }
        ensures known { self.new.known ≡ self.old.known }
        ensures failed { self.new.failed ≡ self.old.failed }
    {
        if !changed {
            return;
        }
        self.table.enter_at_point(number, point, copied);
    }

    // Takes a lent page back. Where a record was applied to it, it counts as changed, from the redo point on.
    fn take_back(&mut self, point: Lsn, number: PageNo, copied: bool, out: &mut RoundPage)
        requires held { Holds self.old.pool number }
        requires room { length self.old.table.entries < self.old.table.most }
        ensures back { (was : Held) → held_of self.old.pool number ≡ Some was → IsBack was out.old self.new.pool number }
        ensures others { (q : ℕ) → q ≢ number → held_of self.new.pool q ≡ held_of self.old.pool q }
        ensures entry { entry_in self.new.table number ≡ entry_after out.old.changed copied point (entry_in self.old.table number) }
        ensures other_entries { (q : ℕ) → q ≢ number → entry_in self.new.table q ≡ entry_in self.old.table q }
        ensures most { length self.new.table.entries ≤ length self.old.table.entries + 1 }
        ensures frames { self.new.pool.frames ≡ self.old.pool.frames }
        ensures log { self.new.log ≡ self.old.log }
        ensures known { self.new.known ≡ self.old.known }
        ensures failed { self.new.failed ≡ self.old.failed }
    {
        match self.pool.find(number) {
            None => {}
            Some(frame) => {
                let changed = either(self.pool.is_changed(frame), out.changed);
                self.pool.exchange(frame, &mut out.page, changed);
                self.enter_changed(point, number, copied, out.changed);
            }
        }
    }

    // Lends a held page to the worker that has the page at this place of the round.
    fn lend_to(&mut self, number: PageNo, workers: &mut [Worker], i: usize)
        requires held { Holds self.old.pool number }
        requires some { 0 < length workers.old }
        requires room { (w : Worker) → i / length workers.old < vec_len (get_or workers.old (i % length workers.old) w).pages }
        ensures lent { (w : Worker) (d : RoundPage) → Lends number (page_in workers.new i w d) self.old.pool self.new.pool }
        ensures kept { (j : ℕ) (w : Worker) (d : RoundPage) → j ≢ i → page_in workers.new j w d ≡ page_in workers.old j w d }
        ensures room { SameRoom workers.old workers.new }
        ensures others { (q : ℕ) → q ≢ number → held_of self.new.pool q ≡ held_of self.old.pool q }
        ensures frames { self.new.pool.frames ≡ self.old.pool.frames }
        ensures log { self.new.log ≡ self.old.log }
        ensures table { self.new.table ≡ self.old.table }
        ensures known { self.new.known ≡ self.old.known }
        ensures failed { self.new.failed ≡ self.old.failed }
    {
        let count = workers.len();
        self.lend(number, &mut workers[i % count].pages[i / count]);
    }

    // Takes a page back from the worker that has the page at this place of the round.
    fn take_from(
        &mut self,
        point: Lsn,
        number: PageNo,
        copied: bool,
        workers: &mut [Worker],
        i: usize,
    )
        requires held { Holds self.old.pool number }
        requires entry { length self.old.table.entries < self.old.table.most }
        requires some { 0 < length workers.old }
        requires room { (w : Worker) → i / length workers.old < vec_len (get_or workers.old (i % length workers.old) w).pages }
        ensures back { (was : Held) (w : Worker) (d : RoundPage) → held_of self.old.pool number ≡ Some was → IsBack was (page_in workers.old i w d) self.new.pool number }
        ensures kept { (j : ℕ) (w : Worker) (d : RoundPage) → j ≢ i → page_in workers.new j w d ≡ page_in workers.old j w d }
        ensures room { SameRoom workers.old workers.new }
        ensures others { (q : ℕ) → q ≢ number → held_of self.new.pool q ≡ held_of self.old.pool q }
        ensures entry { (w : Worker) (d : RoundPage) → entry_in self.new.table number ≡ entry_after (page_in workers.old i w d).changed copied point (entry_in self.old.table number) }
        ensures other_entries { (q : ℕ) → q ≢ number → entry_in self.new.table q ≡ entry_in self.old.table q }
        ensures most { length self.new.table.entries ≤ length self.old.table.entries + 1 }
        ensures frames { self.new.pool.frames ≡ self.old.pool.frames }
        ensures log { self.new.log ≡ self.old.log }
        ensures known { self.new.known ≡ self.old.known }
        ensures failed { self.new.failed ≡ self.old.failed }
    {
        let count = workers.len();
        self.take_back(
            point,
            number,
            copied,
            &mut workers[i % count].pages[i / count],
        );
    }

    // Lends held pages to the workers of the round, each in exchange for a spare one.
    fn lend_all(&mut self, numbers: &[PageNo], workers: &mut [Worker])
        requires held { AreHeld numbers.now self.old.pool }
        requires some { 0 < length workers.old }
        requires room { HaveRoom (length numbers.now) workers.old }
        requires rising { AreRising numbers.now }
        ensures lends { (w : Worker) (d : RoundPage) → LendsAll numbers.now (length numbers.now) (λ i. page_in workers.new i w d) self.old.pool self.new.pool }
        ensures room { SameRoom workers.old workers.new }
        ensures frames { self.new.pool.frames ≡ self.old.pool.frames }
        ensures log { self.new.log ≡ self.old.log }
        ensures table { self.new.table ≡ self.old.table }
        ensures known { self.new.known ≡ self.old.known }
        ensures failed { self.new.failed ≡ self.old.failed }
    {
        for i in 0..numbers.len() {
            self.lend_to(numbers[i], workers, i);
        }
    }

    // Takes lent pages back.
    fn take_all_back(
        &mut self,
        point: Lsn,
        copies: &BTreeMap<PageNo, Lsn>,
        numbers: &[PageNo],
        workers: &mut [Worker],
    )
        requires held { AreHeld numbers.now self.old.pool }
        requires entries { length self.old.table.entries + length numbers.now ≤ self.old.table.most }
        requires some { 0 < length workers.old }
        requires room { HaveRoom (length numbers.now) workers.old }
        requires rising { AreRising numbers.now }
        ensures takes { (w : Worker) (d : RoundPage) → TakesBack numbers.now (length numbers.now) point (λ q. is_some (get nat_cmp copies.now q)) (λ i. page_in workers.old i w d) self.old.pool self.new.pool self.old.table self.new.table }
        ensures room { SameRoom workers.old workers.new }
        ensures frames { self.new.pool.frames ≡ self.old.pool.frames }
        ensures log { self.new.log ≡ self.old.log }
        ensures known { self.new.known ≡ self.old.known }
        ensures failed { self.new.failed ≡ self.old.failed }
    {
        for i in 0..numbers.len() {
            let copied = is_noted(copies, numbers[i]);
            self.take_from(point, numbers[i], copied, workers, i);
        }
    }

    // Whether each of these pages is held, and the dirty table has room for an entry of each.
    fn holds_all(&self, numbers: &[PageNo]) -> bool
        ensures held { result ≡ true → AreHeld numbers.now self.now.pool }
        ensures entries { result ≡ true → length self.now.table.entries + length numbers.now ≤ self.now.table.most }
        ensures all { AreHeld numbers.now self.now.pool → length self.now.table.entries + length numbers.now ≤ self.now.table.most → result ≡ true }
    {
        for i in 0..numbers.len() {
            if !self.pool.holds(numbers[i]) {
                return false;
            }
        }
        self.has_entries_room(numbers.len())
    }

    // Makes room for the entries of pages, gets them, and answers whether all are held at once, with room for their entries. One page
    // alone always is: room for one entry is made once more after its get.
    fn hold_all<D: Disk>(&mut self, disk: &mut D, numbers: &[PageNo]) -> Result<bool, Fault>
        requires ready { IsReadyWriter D.Disk self.old disk.old }
        ensures outcome { Reads D.Disk self.old disk.old self.new disk.new (fault_of result) }
        ensures kept { (pages : AllPages) → HasPages D.Disk AreLoaded pages self.old disk.old → IfErr result (λ e. e ≢ NotAStore) }
        ensures held { IfOk result (λ held. held ≡ true → AreHeld numbers.now self.new.pool) }
        ensures entries { IfOk result (λ held. held ≡ true → length self.new.table.entries + length numbers.now ≤ self.new.table.most) }
        ensures one { (pages : AllPages) → HasPages D.Disk AreLoaded pages self.old disk.old → length numbers.now ≡ 1 → IfOk result (λ held. held ≡ true) }
    {
        self.make_entries_room(disk, numbers.len())?;
        self.get_all(disk, numbers)?;
        self.make_entry_room(disk)?;
        Ok(self.holds_all(numbers))
    }

    // Redoes the records of a round, whose pages are all held. No call of the disk comes between the loan of the pages and their return.
    fn redo_lent<R: Threads + Sync, T: WorkerStart + Sync>(
        &mut self,
        rt: &R,
        at_start: &T,
        point: Lsn,
        copies: &BTreeMap<PageNo, Lsn>,
        numbers: &[PageNo],
        workers: &mut [Worker],
        lsns: &[Lsn],
        from: Lsn,
        span: &[u8],
    ) -> Result<u64, Fault>
        requires some { 0 < length workers.old }
        requires room { HaveRoom (length numbers.now) workers.old }
        requires rising { AreRising numbers.now }
        requires held { AreHeld numbers.now self.old.pool }
        requires entries { length self.old.table.entries + length numbers.now ≤ self.old.table.most }
        ensures here { (rs : List Logged) → StandIn from span.now lsns.now rs → OnOk result (RoundHere numbers.now point (λ q. is_some (get nat_cmp copies.now q)) rs self.old self.new) }
        ensures count { (rs : List Logged) (g : ℕ → Page) → StandIn from span.now lsns.now rs → AreShown numbers.now self.old.pool g → IfOk result (λ n. n ≡ applied_of_all rs g) }
        ensures taken { (rs : List Logged) (g : ℕ → Page) → StandIn from span.now lsns.now rs → AreShown numbers.now self.old.pool g → AreAmong numbers.now rs → AllTaken rs g → IfErr result (λ e. ⊥) }
        ensures few { IfOk result (λ n. n ≤ length lsns.now) }
        ensures room { SameRoom workers.old workers.new }
        ensures frames { self.new.pool.frames ≡ self.old.pool.frames }
        ensures log { self.new.log ≡ self.old.log }
        ensures known { self.new.known ≡ self.old.known }
        ensures failed { self.new.failed ≡ self.old.failed }
        ensures refused { IfErr result (λ e. e ≡ NotAStore) }
    {
        self.lend_all(numbers, workers);
        let applied = redo_records(rt, at_start, numbers, workers, lsns, from, span);
        self.take_all_back(point, copies, numbers, workers);
        applied
    }

    /// Redoes a round: records of the durable log at these LSNs, those of each page in the order of the log, whose bytes stand in a part of
    /// the log that begins at `from`. `numbers` are those of their pages, in rising order, no more than there are frames. Room is made for
    /// their entries first, then each page is got; then they are lent to the workers, who have a spare page for each, changed by the
    /// records, and taken back: page i of the round is worker i's, mod how many workers there are. Each calls `turn` with its number before
    /// its first record. It answers how many records were applied, which is the same for any number of workers, as are the pages; or none,
    /// where the pages can't all be held at once with room for their entries: then no record was. One page alone can.
    ///
    /// A round may be of some pages of a longer run of records. Then it has all changes of each of those in that run, and these pages have
    /// gone past all of it, and no other page has.
    ///
    /// Refused `NotAStore` where a page does not take a record, or one is of another page; otherwise as `get` is. Nothing grows, so it is
    /// never refused for want of memory.
    pub fn redo_round<D: Disk, R: Threads + Sync, T: WorkerStart + Sync>(
        &mut self,
        rt: &R,
        at_start: &T,
        disk: &mut D,
        point: Lsn,
        copies: &BTreeMap<PageNo, Lsn>,
        numbers: &[PageNo],
        workers: &mut [Worker],
        lsns: &[Lsn],
        from: Lsn,
        span: &[u8],
    ) -> Result<Option<u64>, Fault>
        requires some { 0 < length workers.old }
        requires room { HaveRoom (length numbers.now) workers.old }
        requires rising { AreRising numbers.now }
        requires ready { IsReadyWriter D.Disk self.old disk.old }
        ensures outcome { Redoes D.Disk no_page self.old self.new disk.new (fault_of result) }
        ensures kept { (b : Base) (base : ℕ) (s : Writer) (newer front : History) (rs own : List Logged) (who : ℕ → Bool) → StandsAs D.Disk b base s self.old disk.old → s.redo_end ≡ None → s.point ≡ point
            → newer ++ onto rs front ≡ s.durable → AreFrom point rs → HaveHad b front s.pages → AreOfThose who rs own → StandIn from span.now lsns.now own
            → ((p : ℕ) → is_some (get nat_cmp copies.now p) ≡ true → HasCopy s.durable p s.point) → RoundKept D.Disk b base numbers.now who s rs own disk.old self.new disk.new result }
        ensures none { (b : Base) (base : ℕ) (s : Writer) → StandsAs D.Disk b base s self.old disk.old → AreLoaded s → result ≡ Ok None → Evicted D.Disk b base s disk.old self.new disk.new }
        ensures one { (b : Base) (base : ℕ) (s : Writer) → StandsAs D.Disk b base s self.old disk.old → AreLoaded s → length numbers.now ≡ 1 → result ≢ Ok None }
        ensures few { IfOk result (λ redone. IfSome redone (λ n. n ≤ length lsns.now)) }
        ensures room { SameRoom workers.old workers.new }
    {
        let held = self.hold_all(disk, numbers)?;
        if !held {
            return Ok(None);
        }
        let applied = self.redo_lent(
            rt, at_start, point, copies, numbers, workers, lsns, from, span,
        )?;
        Ok(Some(applied))
    }
}
