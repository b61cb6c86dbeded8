//! The log goes on in the other file.

ghost use Rattle.std.specs.Prelude.{◌≡◌, ◌+◌, ◌^◌, ◌<◌, ◌≤◌, ◌↔◌, ◌⊎◌, false, true, length, IfErr, OnOk, List, ℕ};

use crate::LogFile;
use im_base_two_logs::TwoLogs;
use im_base_types::{Fault, LAST_LSN, TxnId};
use im_log_gate::Header;

// Where a log file of the second format has its first gate.
const SECOND_GATE: u64 = 47;

// The first generation that no log has.
const GENERATIONS: u64 = 1 << 62;

impl LogFile {
    ghost use Rattle.im_base_types.specs.declared.fault.Fault.TheVariants.{Capacity, Failed, LogFull};
    ghost use Rattle.im_base_types.specs.Records.{Logged};
    ghost use Rattle.im_base_types.specs.declared.file_id.FileId.TheVariants.{Log2, Pages};
    ghost use Rattle.im_base_disk.specs.Disk.{Only};
    ghost use Rattle.im_log_gate.specs.Gate.{generation_at, place_of};
    ghost use Rattle.im_log.specs.LogFile.{IsOpen, IsLog};
    ghost use Rattle.im_log.specs.Outcome.{SwitchOutcome};
    ghost use Rattle.im_log.specs.Switching.{next_gate, LogSwitchKept};

    /// What the header of the log says.
    pub fn header(&self) -> Header
        ensures generation { result.generation ≡ generation_at self.now.gate }
    {
        self.gate.header()
    }

    // How far the gate moves once what waits is durable.
    fn ahead(&self) -> usize
        ensures gate { self.now.base + place_of self.now.gate + result ≡ next_gate self.now }
        ensures within { result ≤ length self.now.buffer.items }
    {
        if self.used == 0 {
            0
        } else {
            self.start + self.used + 5
        }
    }

    /// Whether the log can go on in the other file once what waits is durable. No device call.
    ///
    /// Refused `LogFull` where the first gate of the new log would have an LSN above 2^62, and then `Capacity` where there is no next generation.
    pub fn may_switch(&self) -> Result<(), Fault>
        ensures full { result ≡ Err LogFull ↔ (2 ^ 62 < next_gate self.now + 47) }
        ensures capacity { result ≡ Err Capacity ↔ (next_gate self.now + 47 ≤ 2 ^ 62) × (2 ^ 62 ≤ generation_at self.now.gate + 1) }
        ensures causes { IfErr result (λ e. (e ≡ LogFull) ⊎ (e ≡ Capacity)) }
    {
        let ahead = self.ahead();
        let space = LAST_LSN - self.base;
        let place = self.gate.place();
        if place > space || ahead as u64 + SECOND_GATE > space - place {
            return Err(Fault::LogFull);
        }
        if self.gate.header().generation >= GENERATIONS - 1 {
            return Err(Fault::Capacity);
        }
        Ok(())
    }

    /// Goes on in the other log file, where nothing waits: that file is made a log of the next generation, with no record, whose first byte has the LSN of the next gate
    /// and whose transactions have the number `next` or a greater one; the names of the two files change. By six device calls, or four where the file has two
    /// bytes or more and its byte 0 is not 1. It takes no memory.
    ///
    /// Refused `LogFull` where the first gate of the new log would have an LSN above 2^62, and then `Capacity` where there is no next generation, both with nothing done;
    /// `Device`. After that every later call answers `Failed`.
    pub fn switch_log<D: TwoLogs>(&mut self, disk: &mut D, next: TxnId) -> Result<(), Fault>
        requires numbered { 1 ≤ next }
        requires empty { self.old.used ≡ 0 }
        requires ready { IsOpen D.Disk self.old disk.old }
        ensures outcome { SwitchOutcome D.Disk self.old disk.old self.new disk.new result }
        ensures kept { (base : ℕ) (all durable : List Logged) → IsLog D.Disk base all durable self.old disk.old → Only Pages (D.seen disk.old) (D.may_leave disk.old) → Only Log2 (D.seen disk.old) (D.may_leave disk.old)
            → LogSwitchKept D.Disk base all next self.old disk.old self.new disk.new result }
        ensures base { OnOk result (self.new.base ≡ self.old.base + place_of self.old.gate) }
        ensures full { result ≡ Err LogFull ↔ ((self.old.failed ≡ false) × (2 ^ 62 < self.old.base + place_of self.old.gate + 47)) }
        ensures capacity { result ≡ Err Capacity ↔ ((self.old.failed ≡ false) × (self.old.base + place_of self.old.gate + 47 ≤ 2 ^ 62) × (2 ^ 62 ≤ generation_at self.old.gate + 1)) }
        ensures nothing { IfErr result (λ e. (e ≡ LogFull) ⊎ (e ≡ Capacity) ⊎ (e ≡ Failed) → (disk.new ≡ disk.old) × (self.new ≡ self.old)) }
    {
        if self.failed {
            return Err(Fault::Failed);
        }
        let header = self.gate.next_header(next)?;
        self.failed = true;
        self.gate.switch_log(disk, &header)?;
        self.base = header.base;
        self.failed = false;
        Ok(())
    }
}
