//! The log goes on in the other file, once every page is in its own.

ghost use Rattle.std.specs.Prelude.{◌≡◌, ◌≤◌, ◌+◌, ◌^◌, ◌⊎◌, ◌↔◌, ℕ, [], None, Some, Err, false, true, IfErr, OnOk};
ghost use Rattle.im_base_types.specs.declared.fault.Fault.{Fault};
ghost use Rattle.im_base_types.specs.declared.fault.Fault.TheVariants.{Capacity, Device, Failed, LogFull};
ghost use Rattle.im_base_types.specs.declared.file_id.FileId.TheVariants.{Pages};
ghost use Rattle.im_theory_log.specs.Histories.{Base};
ghost use Rattle.im_theory_switch.specs.Left.{AreReadable};
ghost use Rattle.im_theory_log.specs.Writer.{Writer};
ghost use Rattle.im_base_disk.specs.Disk.{Only};
ghost use Rattle.im_base_disk.specs.Runs.{CostsAtMost};

use crate::PageWriter;
use im_base_disk::Disk;
use im_base_two_logs::TwoLogs;
use im_base_types::{Fault, TxnId};

impl PageWriter {
    ghost use Rattle.im_log.specs.LogFile.{HasNoRoom};
    ghost use Rattle.im_log_gate.specs.Gate.{generation_at};
    ghost use Rattle.im_page_writer.specs.PageWriter.{IsReadyWriter, StandsAs};
    ghost use Rattle.im_page_writer.specs.Switching.{MayNotSwitch, RefusesSwitch, SwitchKept};

    // The log goes on in the other file, where nothing waits and nothing of any page is left to be written or synced.
    fn switch_log<D: TwoLogs>(&mut self, disk: &mut D, next: TxnId) -> Result<(), Fault>
        requires numbered { 1 ≤ next }
        requires ready { IsReadyWriter D.Disk self.old disk.old }
        requires working { self.old.failed ≡ false }
        requires empty { self.old.log.used ≡ 0 }
        ensures ready { IsReadyWriter D.Disk self.new disk.new }
        ensures kept { (b : Base) (base : ℕ) (s : Writer) (e : ℕ) → StandsAs D.Disk b base s self.old disk.old → s.redo_end ≡ Some e → s.durable ≡ s.log → ((p : ℕ) → (s.pages p).entry ≡ None) → AreReadable s.log
            → Only Pages (D.seen disk.old) (D.may_leave disk.old) → SwitchKept D.Disk b base s next disk.old self.new disk.new result }
        ensures causes { IfErr result (RefusesSwitch D.Disk self.old.failed self.new.log disk.new) }
        ensures full { result ≡ Err LogFull → HasNoRoom self.new.log }
        ensures last { result ≡ Err Capacity → 2 ^ 62 ≤ generation_at self.old.log.gate + 1 }
        ensures device { result ≡ Err Device ↔ (D.failed disk.new ≡ true) }
        ensures failed { IfErr result (λ e. self.new.failed ≡ true) }
        ensures works { OnOk result (self.new.failed ≡ false) }
        ensures pool { self.new.pool ≡ self.old.pool }
        ensures few { CostsAtMost D.Disk 3 3 disk.old disk.new }
    {
        self.failed = true;
        self.log.switch_log(disk, next)?;
        self.known.forget();
        self.failed = false;
        Ok(())
    }

    /// The log goes on in the other log file, with no record: every changed page is written, in rising number, each as `flush_in_company` does; the log is forced; the file of
    /// pages is synced; and the other file is made a log of the next generation, whose first byte has the LSN at which this log ends, and whose transactions have the
    /// number `next` or a greater one. So the pages as they are then are what the next log is over: nobody may be unfinished. No memory is taken. Where the dirty table is
    /// empty it makes eleven device calls at most: four of a force, one sync, and six by which the other file is made a log.
    ///
    /// Refused `Failed` after a call that failed; `LogFull` where the first gate of the new log would have an LSN above 2^62 even with no Image, and then `Capacity` where there
    /// is no next generation, both with nothing done; `LogFull` where an Image would end above LSN 2^62, or the first gate would with the Images, and `Device`, after which every later call answers `Failed`.
    pub fn switch<D: TwoLogs>(&mut self, disk: &mut D, next: TxnId) -> Result<(), Fault>
        requires numbered { 1 ≤ next }
        requires ready { IsReadyWriter D.Disk self.old disk.old }
        ensures ready { IsReadyWriter D.Disk self.new disk.new }
        ensures kept { (b : Base) (base : ℕ) (s : Writer) (e : ℕ) → StandsAs D.Disk b base s self.old disk.old → s.redo_end ≡ Some e → AreReadable s.log → SwitchKept D.Disk b base s next disk.old self.new disk.new result }
        ensures early { (e : Fault) → self.old.failed ≡ false → MayNotSwitch self.old.log e → (result ≡ Err e) × (self.new ≡ self.old) × (disk.new ≡ disk.old) }
        ensures causes { IfErr result (RefusesSwitch D.Disk self.old.failed self.new.log disk.new) }
        ensures full { result ≡ Err LogFull → HasNoRoom self.new.log }
        ensures last { result ≡ Err Capacity → MayNotSwitch self.old.log Capacity }
        ensures device { self.old.failed ≡ false → result ≡ Err Device ↔ (D.failed disk.new ≡ true) }
        ensures fails { IfErr result (λ e. MayNotSwitch self.old.log e ⊎ (self.new.failed ≡ true)) }
        ensures works { OnOk result (self.new.failed ≡ false) }
        ensures frames { self.new.pool.frames ≡ self.old.pool.frames }
        ensures few { self.old.table.entries ≡ [] → CostsAtMost D.Disk 5 6 disk.old disk.new }
        ensures already { self.old.failed ≡ true → result ≡ Err Failed }
    {
        if self.failed {
            return Err(Fault::Failed);
        }
        self.log.may_switch()?;
        self.flush_every(disk)?;
        self.force(disk)?;
        self.sync_pages(disk)?;
        self.switch_log(disk, next)
    }
}
