//! A part of the durable log, read again at once.
ghost use Rattle.std.specs.Prelude.{◌≡◌, ◌≤◌, ◌⊎◌, ◌↔◌, ℕ, true, false, not, is_ok, length, take, IfErr, IfOk, OnOk};
ghost use Rattle.im_base_types.specs.declared.fault.Fault.TheVariants.{Device, Failed};
ghost use Rattle.im_theory_log.specs.Histories.{Base};
ghost use Rattle.im_theory_log.specs.Writer.{Writer};

use crate::PageWriter;
use im_base_disk::Disk;
use im_base_types::{Fault, Lsn};

impl PageWriter {
    ghost use Rattle.im_base_disk.specs.Runs.{Reads};
    ghost use Rattle.im_log.specs.Span.{IsSpanOf};
    ghost use Rattle.im_page_writer.specs.PageWriter.{IsReadyWriter, StandsAs};

    /// Brings the bytes of the durable log from an LSN on to the front of the room, and answers how many, as the log's `read_span` does.
    ///
    /// Refused `Device`. After a refusal every later call is refused `Failed`.
    pub fn read_span<D: Disk>(
        &mut self,
        disk: &mut D,
        from: Lsn,
        room: &mut [u8],
    ) -> Result<usize, Fault>
        requires ready { IsReadyWriter D.Disk self.old disk.old }
        ensures ready { IsReadyWriter D.Disk self.new disk.new }
        ensures kept { (b : Base) (base : ℕ) (s : Writer) → StandsAs D.Disk b base s self.old disk.old → OnOk result (StandsAs D.Disk b base s self.new disk.new) }
        ensures span { (b : Base) (base : ℕ) (s : Writer) → StandsAs D.Disk b base s self.old disk.old → IfOk result (λ size. IsSpanOf s.log from (take size room.new)) }
        ensures within { IfOk result (λ size. size ≤ length room.new) }
        ensures reads { Reads D.Disk disk.old disk.new }
        ensures room { length room.new ≡ length room.old }
        ensures works { OnOk result (self.new.failed ≡ false) }
        ensures failed { self.new.failed ≡ not (is_ok result) }
        ensures causes { IfErr result (λ e. (e ≡ Failed) ⊎ (e ≡ Device)) }
        ensures already { result ≡ Err Failed ↔ (self.old.failed ≡ true) }
        ensures device { self.old.failed ≡ false → result ≡ Err Device ↔ (D.failed disk.new ≡ true) }
        ensures frames { self.new.pool.frames ≡ self.old.pool.frames }
    {
        if self.failed {
            return Err(Fault::Failed);
        }
        self.failed = true;
        let size = self.log.read_span(disk, from, room)?;
        self.failed = false;
        Ok(size)
    }
}
