//! The log goes on in the other file.

ghost use Rattle.std.specs.Prelude.{◌≡◌, ◌+◌, ◌^◌, ◌<◌, ◌≤◌, ◌↔◌, ◌⊎◌, false, IfErr, IfOk, OnErr, OnOk};

use super::Gate;
use im_base_two_logs::TwoLogs;
use im_base_types::{Fault, LAST_LSN, TxnId};
use im_log_choice::{next_header, switch_log};
use im_log_header::Header;

// Where a log file of the second format has its first gate.
const SECOND_GATE: u64 = 47;

impl Gate {
    ghost use Rattle.im_base_types.specs.declared.fault.Fault.TheVariants.{Capacity, LogFull};
    ghost use Rattle.im_base_types.specs.declared.file_id.FileId.TheVariants.{Log};
    ghost use Rattle.im_base_disk.specs.Disk.{Answers};
    ghost use Rattle.im_base_disk.specs.Runs.{IsSynced, CostsAtMost};
    ghost use Rattle.im_base_two_logs.specs.Runs.{LeavesNamed};
    ghost use Rattle.im_log_header.specs.Start.{IsHeader};
    ghost use Rattle.im_log_choice.specs.Switching.{IsSwitching};
    ghost use Rattle.im_log_gate.specs.Gate.{file_of, base_at, generation_at, place_of, has_failed, IsReady};
    ghost use Rattle.im_log_gate.specs.Switching.{HasNotSwitched, HasSwitched, IsNextOf};

    /// The header of the log that goes on where this gate stands: its first byte has the LSN of the gate, and a transaction of it the number `next` or
    /// a greater one.
    ///
    /// Refused `LogFull` where its first gate would have an LSN above 2^62, and then `Capacity` where there is no next generation.
    pub fn next_header(&self, next: TxnId) -> Result<Header, Fault>
        requires numbered { 1 ≤ next }
        ensures header { IfOk result (λ header. IsNextOf self.now next header) }
        ensures full { result ≡ Err LogFull ↔ (2 ^ 62 < base_at self.now + place_of self.now + 47) }
        ensures capacity { result ≡ Err Capacity ↔ (base_at self.now + place_of self.now + 47 ≤ 2 ^ 62) × (2 ^ 62 ≤ generation_at self.now + 1) }
        ensures causes { IfErr result (λ e. (e ≡ LogFull) ⊎ (e ≡ Capacity)) }
    {
        let end = self.base.saturating_add(self.place);
        if end > LAST_LSN - SECOND_GATE {
            return Err(Fault::LogFull);
        }
        next_header(&self.header(), end, next)
    }

    /// Goes on in the other log file, which is made a log with this header and no batch; the names of the two change. By six device calls, or four where that
    /// file has two bytes or more and its byte 0 is not 1. It takes no memory. The log from before is the other one then, as it was.
    ///
    /// Refused `Device`, and the names stay; every later call answers `Failed` then.
    pub fn switch_log<D: TwoLogs>(&mut self, disk: &mut D, header: &Header) -> Result<(), Fault>
        requires usable { has_failed self.old ≡ false }
        requires of_log { file_of self.old ≡ Log }
        requires ranged { IsHeader header.now }
        requires low { header.now.base + 47 ≤ 2 ^ 62 }
        requires fits { header.now.next < 2 ^ 64 }
        requires later { base_at self.old ≤ header.now.base }
        requires working { D.failed disk.old ≡ false }
        ensures ready { IsReady D.Disk self.new disk.new × (file_of self.new ≡ Log) }
        ensures switched { OnOk result (HasSwitched D.Disk header.now self.new disk.old disk.new) }
        ensures stays { OnErr result (HasNotSwitched D.Disk self.old self.new disk.old disk.new) }
        ensures any_moment { IsSynced D.Disk disk.old → LeavesNamed D.Disk disk.old disk.new (IsSwitching (D.seen disk.old) header.now.generation header.now.base header.now.next) }
        ensures few { CostsAtMost D.Disk 3 3 disk.old disk.new }
        ensures answers { Answers (D.failed disk.new) result }
    {
        self.failed = true;
        switch_log(disk, header)?;
        self.first = SECOND_GATE;
        self.generation = header.generation;
        self.base = header.base;
        self.least = header.next;
        self.place = SECOND_GATE;
        // The length of this file is not known.
        self.long = 0;
        self.failed = false;
        Ok(())
    }
}
