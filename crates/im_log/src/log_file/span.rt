//! A part of the durable log is read at once.

ghost use Rattle.std.specs.Prelude.{◌≡◌, ◌+◌, ◌-◌, ◌≤◌, min, length, take, IfOk, List, ℕ};

use crate::LogFile;
use im_base_disk::Disk;
use im_base_types::{Fault, FileId, Lsn};

impl LogFile {
    ghost use Rattle.im_base_types.specs.Outcomes.{none_own};
    ghost use Rattle.im_base_types.specs.Records.{Logged};
    ghost use Rattle.im_log_gate.specs.Gate.{place_of};
    ghost use Rattle.im_log.specs.LogFile.{IsOpen, IsLog};
    ghost use Rattle.im_log.specs.Outcome.{LogRead};
    ghost use Rattle.im_log.specs.Span.{IsSpanOf};

    /// Brings the bytes of the durable log from an LSN on to the front of `room`, as many as it takes, and answers how many: by one read, and
    /// none, with no device call, where nothing durable stands there. No memory is taken.
    ///
    /// Refused `Failed` where the log has failed; `Device`, after which the log is not used again.
    pub fn read_span<D: Disk>(
        &self,
        disk: &mut D,
        from: Lsn,
        room: &mut [u8],
    ) -> Result<usize, Fault>
        requires ready { IsOpen D.Disk self.now disk.old }
        ensures outcome { LogRead D.Disk none_own self.now disk.old disk.new result }
        ensures span { (base : ℕ) (all durable : List Logged) → IsLog D.Disk base all durable self.now disk.old → IfOk result (λ size. IsSpanOf all from (take size room.new)) }
        ensures size { self.now.base ≤ from → IfOk result (λ size. size ≡ min (length room.old) (self.now.base + place_of self.now.gate - from)) }
        ensures within { IfOk result (λ size. size ≤ length room.new) }
        ensures none { self.now.base + place_of self.now.gate ≤ from → disk.new ≡ disk.old }
        ensures room { length room.new ≡ length room.old }
    {
        if self.failed {
            return Err(Fault::Failed);
        }
        if from < self.base {
            return Ok(0);
        }
        let at = from - self.base;
        let place = self.gate.place();
        if at >= place {
            return Ok(0);
        }
        let size = room.len().min((place - at) as usize);
        let part = &mut room[..size];
        disk.read(FileId::Log, at, part)?;
        Ok(size)
    }
}
