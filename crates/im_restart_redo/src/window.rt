//! A part of the log is held in a room, in which the records of redo are found one after another.

ghost use Rattle.std.specs.Prelude.{◌≡◌, ◌≤◌, false, ℕ, List, length, IfErr, IfOk, IfSome, OnErr, OnOk};
ghost use Rattle.im_base_types.specs.declared.fault.Fault.TheVariants.{Device};
ghost use Rattle.im_base_types.specs.Records.{Logged};
ghost use Rattle.im_base_disk.specs.Runs.{Reads};
ghost use Rattle.im_theory_log.specs.Histories.{Base, History, IsRecordOf};
ghost use Rattle.im_theory_log.specs.Writer.{Writer};
ghost use Rattle.im_log.specs.Reading.{SpellsRecord};
ghost use Rattle.im_page_writer.specs.Outcome.{fault_of, no_page};
ghost use Rattle.im_page_writer.specs.PageWriter.{IsReadyWriter, StandsAs};
ghost use Rattle.im_restart_redo.specs.Recovery.{Recovers};
ghost use Rattle.im_restart_redo.specs.Window.{AreAlsoOf, BroughtKept, IsWithin, Shows, bytes_at};

use im_base_disk::Disk;
use im_base_types::{Fault, Lsn};
use im_log::whole_size;
use im_page_writer::PageWriter;

/// The front of a room has so many bytes of the log, from an LSN on.
#[derive(Clone, Copy)]
pub(crate) struct Window {
    pub from: Lsn,
    pub used: usize,
}

/// Where a record stands in a room.
#[derive(Clone, Copy)]
pub(crate) struct Place {
    pub at: usize,
    pub end: usize,
}

impl Window {
    /// Nothing of the log.
    pub fn empty() -> Window
        ensures shows { (log : History) (room : List ℕ) → Shows log result room }
        ensures none { result.used ≡ 0 }
    {
        Window { from: 0, used: 0 }
    }

    // Where the record at an LSN stands, if all of it does.
    fn find(self, lsn: Lsn, room: &[u8]) -> Option<Place>
        requires { self.used ≤ length room.now }
        ensures within { IfSome result (λ place. IsWithin place room.now) }
        ensures found { (log : History) (r : Logged) → Shows log self room.now → IsRecordOf r log → lsn ≡ r.lsn → IfSome result (λ place. SpellsRecord r (bytes_at place room.now)) }
    {
        if lsn < self.from || lsn - self.from >= self.used as u64 {
            return None;
        }
        let at = (lsn - self.from) as usize;
        match whole_size(&room[at..self.used]) {
            None => None,
            Some(size) => Some(Place { at, end: at + size }),
        }
    }

    /// Reads the log to the room from an LSN on: as much of it as the room takes, by one read.
    ///
    /// Refused `Device`.
    pub fn refill<D: Disk>(
        &mut self,
        writer: &mut PageWriter,
        disk: &mut D,
        from: Lsn,
        room: &mut [u8],
    ) -> Result<(), Fault>
        requires ready { IsReadyWriter D.Disk writer.old disk.old }
        requires working { writer.old.failed ≡ false }
        ensures outcome { Recovers D.Disk no_page writer.old writer.new disk.new (fault_of result) }
        ensures kept { (b : Base) (base : ℕ) (s : Writer) → StandsAs D.Disk b base s writer.old disk.old → OnOk result (StandsAs D.Disk b base s writer.new disk.new) }
        ensures shows { (b : Base) (base : ℕ) (s : Writer) (log : History) → StandsAs D.Disk b base s writer.old disk.old → AreAlsoOf log s.log → OnOk result (Shows log self.new room.new) }
        ensures cause { IfErr result (λ e. e ≡ Device) }
        ensures reads { Reads D.Disk disk.old disk.new }
        ensures used { OnOk result (self.new.used ≤ length room.new) }
        ensures same { OnErr result (self.new ≡ self.old) }
        ensures room { length room.new ≡ length room.old }
    {
        let used = writer.read_span(disk, from, room)?;
        self.from = from;
        self.used = used;
        Ok(())
    }

    // The log is read to the room from an LSN on, at which a record is to stand. Where the record is not among that, it alone is read, as the
    // writer's `read_at` does.
    fn read_anew<D: Disk>(
        &mut self,
        writer: &mut PageWriter,
        disk: &mut D,
        lsn: Lsn,
        room: &mut [u8],
    ) -> Result<Place, Fault>
        requires room { 16384 ≤ length room.old }
        requires used { self.old.used ≤ length room.old }
        requires ready { IsReadyWriter D.Disk writer.old disk.old }
        requires working { writer.old.failed ≡ false }
        ensures outcome { Recovers D.Disk no_page writer.old writer.new disk.new (fault_of result) }
        ensures kept { (b : Base) (base : ℕ) (s : Writer) → StandsAs D.Disk b base s writer.old disk.old → OnOk result (StandsAs D.Disk b base s writer.new disk.new) }
        ensures shows { (b : Base) (base : ℕ) (s : Writer) (log : History) → StandsAs D.Disk b base s writer.old disk.old → AreAlsoOf log s.log → OnOk result (Shows log self.new room.new) }
        ensures found { (b : Base) (base : ℕ) (s : Writer) (log : History) (r : Logged) → StandsAs D.Disk b base s writer.old disk.old → AreAlsoOf log s.log → IsRecordOf r log → lsn ≡ r.lsn → BroughtKept r room.new result }
        ensures within { IfOk result (λ place. IsWithin place room.new) }
        ensures reads { Reads D.Disk disk.old disk.new }
        ensures used { self.new.used ≤ length room.new }
        ensures room { length room.new ≡ length room.old }
    {
        self.refill(writer, disk, lsn, room)?;
        if let Some(place) = self.find(lsn, room) {
            return Ok(place);
        }
        self.used = 0;
        let size = writer.read_at(disk, lsn, room)?;
        Ok(Place { at: 0, end: size })
    }

    /// Finds the record at an LSN in the room, to which the log is read from there on where it does not hold all of it.
    ///
    /// Refused `NotAStore` where no record can be at that LSN; `Device`.
    pub fn bring<D: Disk>(
        &mut self,
        writer: &mut PageWriter,
        disk: &mut D,
        lsn: Lsn,
        room: &mut [u8],
    ) -> Result<Place, Fault>
        requires room { 16384 ≤ length room.old }
        requires used { self.old.used ≤ length room.old }
        requires ready { IsReadyWriter D.Disk writer.old disk.old }
        requires working { writer.old.failed ≡ false }
        ensures outcome { Recovers D.Disk no_page writer.old writer.new disk.new (fault_of result) }
        ensures kept { (b : Base) (base : ℕ) (s : Writer) → StandsAs D.Disk b base s writer.old disk.old → OnOk result (StandsAs D.Disk b base s writer.new disk.new) }
        ensures shows { (b : Base) (base : ℕ) (s : Writer) (log : History) → StandsAs D.Disk b base s writer.old disk.old → AreAlsoOf log s.log → Shows log self.old room.old
            → OnOk result (Shows log self.new room.new) }
        ensures found { (b : Base) (base : ℕ) (s : Writer) (log : History) (r : Logged) → StandsAs D.Disk b base s writer.old disk.old → AreAlsoOf log s.log → Shows log self.old room.old
            → IsRecordOf r log → lsn ≡ r.lsn → BroughtKept r room.new result }
        ensures within { IfOk result (λ place. IsWithin place room.new) }
        ensures reads { Reads D.Disk disk.old disk.new }
        ensures used { self.new.used ≤ length room.new }
        ensures room { length room.new ≡ length room.old }
    {
        if let Some(place) = self.find(lsn, room) {
            return Ok(place);
        }
        self.read_anew(writer, disk, lsn, room)
    }
}
