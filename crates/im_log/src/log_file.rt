//! The log file with its buffer. A record's LSN is the base and its place in the file.

ghost use Rattle.std.specs.Prelude.{[], ◌∷◌, ◌≡◌, ◌+◌, ◌^◌, ◌<◌, ◌≤◌, ◌↔◌, ◌⊎◌, ◌++◌, false, true, length, take, min, ◌-◌, IfOk, OnOk, List, ℕ};
ghost use Rattle.im_log_gate.specs.Gate.{base_at, first_of, place_of};
ghost use Rattle.im_log.specs.Gates.{IsOfLog};

use crate::read_front::{copy_front, read_front};
use im_base_disk::Disk;
use im_base_types::{BATCH_ROOM, Fault, LAST_LSN, LONGEST_BATCH, Lsn};
use im_log_gate::{Gate, seal};
use im_log_record::{Record, law_spellings};

mod span;
mod switching;

/// The log: records in turn, of which the last may wait in a buffer for a force, laid out as they will stand in the file.
#[derive(Drop)]
pub struct LogFile {
    gate: Gate,
    /// The LSN of the file's first byte.
    base: u64,
    /// What waits for a force stands at its front as it will after the gate: whole batches, each after an open gate, and the one that is filled.
    buffer: Vec<u8>,
    /// Where the length of that one will stand.
    start: usize,
    /// How many bytes its records have: none where nothing waits.
    used: usize,
    failed: bool,
    ghost of_log: { IsOfLog gate },
    ghost sized: { start + 16389 ≤ length buffer.items },
    ghost ahead: { failed ≡ false → 1 ≤ start → base + (place_of gate + 1) + (length buffer.items + 16388) ≤ 2 ^ 62 },
    ghost within: { used ≤ 16384 },
    ghost based: { base ≤ 2 ^ 62 },
    ghost of_gate: { failed ≡ false → base ≡ base_at gate },
}

impl LogFile {
    ghost use Rattle.im_base_disk.specs.Runs.{Costs, Forces};
    ghost use Rattle.im_base_types.specs.declared.fault.Fault.TheVariants.{Failed, LogFull, NotAStore};
    ghost use Rattle.im_base_types.specs.Records.{Logged};
    ghost use Rattle.im_theory_log.specs.Histories.{IsRecordOf};
    ghost use Rattle.im_log_record.specs.Entry.{view};
    ghost use Rattle.im_log_record.specs.Spelling.{IsEntry, size_of, spelling};
    ghost use Rattle.im_log.specs.LogFile.{buffered, first_waiting_lsn, next_lsn, end_with, HasTakenIn, HasNextRoom, IsOpen, IsLog, LiesOutside, SameGate};
    ghost use Rattle.im_log_gate.specs.Batches.{IsFilled};
    ghost use Rattle.im_log.specs.Kept.{AppendKept, ForceKept};
    ghost use Rattle.im_log.specs.Outcome.{LacksRoom, LogOutcome, LogRead};
    ghost use Rattle.im_base_types.specs.Outcomes.{fault_of, none_own};
    ghost use Rattle.im_log.specs.Reading.{FoundKept};

    // A log with nothing buffered, after this gate.
    pub(crate) fn at_end(gate: Gate, buffer: Vec<u8>) -> LogFile
        requires of_log { IsOfLog gate }
        requires room { 16389 ≤ length buffer.items }
        ensures log { (result.gate ≡ gate) × (result.base ≡ base_at gate) × (result.start ≡ 0) × (result.used ≡ 0) × (result.failed ≡ false) }
    {
        let base = gate.base();
        LogFile {
            gate,
            base,
            buffer,
            start: 0,
            used: 0,
            failed: false,
        }
    }

    /// How many bytes wait for a force.
    pub fn waiting(&self) -> usize
        ensures { result ≡ self.now.start + self.now.used }
    {
        self.start + self.used
    }

    /// The LSN of the gate: each record below it is durable. A failed log answers any number.
    pub fn durable_end(&self) -> Lsn
        ensures { result ≡ min (self.now.base + place_of self.now.gate) (2 ^ 64 - 1) }
    {
        self.base.saturating_add(self.gate.place())
    }

    /// Where the gate stands in the log's file, in bytes: each record below it is durable.
    pub fn place(&self) -> u64
        ensures { result ≡ place_of self.now.gate }
    {
        self.gate.place()
    }

    /// Whether it is a log of the first format.
    pub fn is_first_format(&self) -> bool
        ensures { result ≡ true ↔ first_of self.now.gate ≡ 31 }
    {
        self.gate.is_first_format()
    }

    /// An append of a record of this length makes no device call.
    pub fn takes(&self, size: usize) -> bool
        requires { size ≤ 16384 }
        ensures { result ≡ true → (self.now.used + size ≤ 16384) ⊎ HasNextRoom self.now }
    {
        self.used + size <= LONGEST_BATCH || self.begins_next()
    }

    // A whole batch more finds room in the buffer. Near the end of the log none is begun there, so that a log is full only where little of it waits.
    fn begins_next(&self) -> bool
        ensures { result ≡ true ↔ HasNextRoom self.now }
    {
        let space = LAST_LSN - self.base;
        let place = self.gate.place();
        let most = (self.buffer.len() + BATCH_ROOM) as u64;
        self.start + self.used + 5 + BATCH_ROOM <= self.buffer.len()
            && place <= space
            && most <= space - place
    }

    // A record of this length would end above the greatest LSN.
    fn is_full(&self, size: usize) -> bool
        requires { size ≤ 16384 }
        ensures full { result ≡ true → 2 ^ 62 < end_with self.now size }
        ensures room { result ≡ false → end_with self.now size ≤ 2 ^ 62 }
    {
        let space = LAST_LSN - self.base;
        let place = self.gate.place();
        let waiting = self.start + self.used + size;
        let wanted = if self.used + size <= LONGEST_BATCH {
            waiting + 5
        } else {
            waiting + 10
        };
        place > space || wanted as u64 > space - place
    }

    // Puts a record at the end of the buffer, and answers its LSN.
    fn put_in(&mut self, record: &Record) -> Lsn
        requires entry { IsEntry (view record.now) }
        requires fits { self.old.used + size_of (view record.now) ≤ 16384 }
        requires place { next_lsn self.old + size_of (view record.now) ≤ 2 ^ 62 }
        ensures lsn { result ≡ next_lsn self.old }
        ensures buffered { buffered self.new ≡ buffered self.old ++ spelling (view record.now) }
        ensures used { self.new.used ≡ self.old.used + size_of (view record.now) }
        ensures sealed { (self.new.start ≡ self.old.start) × (take self.old.start self.new.buffer.items ≡ take self.old.start self.old.buffer.items) }
        ensures same { SameGate self.old self.new }
    {
        let at = self.start + 4 + self.used;
        let lsn = self.base + (self.gate.place() + 1) + at as u64;
        let end = record.encode(&mut self.buffer, at);
        self.used += end - at;
        lsn
    }

    // Ends the batch that is being filled, and begins the next one.
    fn begin_batch(&mut self)
        requires some { 1 ≤ self.old.used }
        requires room { HasNextRoom self.old }
        ensures sealed { (bs : List (List ℕ)) → IsFilled bs (take self.old.start self.old.buffer.items) → IsFilled (bs ++ buffered self.old ∷ []) (take self.new.start self.new.buffer.items) }
        ensures start { self.new.start ≡ self.old.start + (self.old.used + 5) }
        ensures used { self.new.used ≡ 0 }
        ensures room { length self.new.buffer.items ≡ length self.old.buffer.items }
        ensures same { SameGate self.old self.new }
    {
        let end = self.start + 4 + self.used;
        seal(&mut self.buffer, self.start, end, true);
        self.start = end + 1;
        self.used = 0;
    }

    /// Makes the buffered records durable, by two writes and two syncs; none where nothing is buffered.
    ///
    /// Refused `Device`. After a refusal every later call answers `Failed`.
    pub fn force<D: Disk>(&mut self, disk: &mut D) -> Result<(), Fault>
        requires ready { IsOpen D.Disk self.old disk.old }
        ensures outcome { LogOutcome D.Disk none_own self.old disk.old self.new disk.new (fault_of result) }
        ensures kept { (base : ℕ) (all durable : List Logged) → IsLog D.Disk base all durable self.old disk.old
            → ForceKept D.Disk base all durable disk.old self.new disk.new result }
        ensures costs { OnOk result (1 ≤ self.old.used → Costs D.Disk 2 2 disk.old disk.new) }
        ensures none { self.old.used ≡ 0 → (disk.new ≡ disk.old) × (self.old.failed ≡ false → (result ≡ Ok tt) × (self.new ≡ self.old)) }
        ensures place { OnOk result (1 ≤ self.old.used → next_lsn self.new ≡ next_lsn self.old + 5) }
        ensures empty { OnOk result (self.new.used ≡ 0) }
    {
        if self.failed {
            return Err(Fault::Failed);
        }
        if self.used == 0 {
            return Ok(());
        }
        self.failed = true;
        let end = self.start + 4 + self.used;
        seal(&mut self.buffer, self.start, end, false);
        let room = if end < BATCH_ROOM {
            BATCH_ROOM
        } else {
            end + 1
        };
        self.gate
            .put_batches(disk, &mut self.buffer, end + 1, room)?;
        self.start = 0;
        self.used = 0;
        self.failed = false;
        Ok(())
    }

    /// Adds a record, and answers its LSN, which is above all before. It takes no memory; where the record does not fit into
    /// the buffer, that is forced first, once.
    ///
    /// Refused `LogFull`, before any device call, where the record would end above LSN 2^62; `Device`. After a refusal every
    /// later call answers `Failed`.
    pub fn append<D: Disk>(&mut self, disk: &mut D, record: &Record) -> Result<Lsn, Fault>
        requires entry { IsEntry (view record.now) }
        requires ready { IsOpen D.Disk self.old disk.old }
        ensures outcome { LogOutcome D.Disk (LacksRoom (size_of (view record.now)) self.new) self.old disk.old self.new disk.new (fault_of result) }
        ensures kept { (base : ℕ) (all durable : List Logged) → IsLog D.Disk base all durable self.old disk.old
            → AppendKept D.Disk base all durable (view record.now) disk.old self.new disk.new result }
        ensures full { result ≡ Err LogFull ↔ ((self.old.failed ≡ false) × (2 ^ 62 < end_with self.old (size_of (view record.now)))) }
        ensures grows { OnOk result (HasTakenIn (size_of (view record.now)) self.old self.new) }
        ensures fits { (self.old.used + size_of (view record.now) ≤ 16384) ⊎ HasNextRoom self.old → disk.new ≡ disk.old }
        ensures forces { OnOk result (Forces D.Disk 1 disk.old disk.new) }
    {
        if self.failed {
            return Err(Fault::Failed);
        }
        law_spellings();
        let size = record.size();
        if self.is_full(size) {
            self.failed = true;
            return Err(Fault::LogFull);
        }
        if self.used + size <= LONGEST_BATCH {
            return Ok(self.put_in(record));
        }
        if self.begins_next() {
            self.begin_batch();
            return Ok(self.put_in(record));
        }
        self.force(disk)?;
        Ok(self.put_in(record))
    }

    /// Brings the record at an LSN to the front of `room`, which has 16,384 bytes or more, and answers its size: from the buffer
    /// where it waits for a force, and otherwise from the file, by two reads. No device call, and no memory is taken.
    ///
    /// Refused `NotAStore` where no record can be at that LSN, as below the log, at its gate, and at its end or above; `Failed` where the log has failed; `Device`, after which the log is
    /// not used again.
    pub fn read_at<D: Disk>(&self, disk: &mut D, lsn: Lsn, room: &mut [u8]) -> Result<usize, Fault>
        requires room { 16384 ≤ length room.old }
        requires ready { IsOpen D.Disk self.now disk.old }
        ensures outcome { LogRead D.Disk (λ e. e ≡ NotAStore) self.now disk.old disk.new result }
        ensures found { (base : ℕ) (all durable : List Logged) (r : Logged) → IsLog D.Disk base all durable self.now disk.old
            → IsRecordOf r all → lsn ≡ r.lsn → FoundKept r room.new result }
        ensures room { length room.new ≡ length room.old }
        ensures size { IfOk result (λ size. (4 ≤ size) × (size ≤ 16384)) }
        ensures buffered { first_waiting_lsn self.now ≤ lsn → disk.new ≡ disk.old }
        ensures outside { self.now.failed ≡ false → LiesOutside self.now lsn → result ≡ Err NotAStore }
    {
        if self.failed {
            return Err(Fault::Failed);
        }
        if lsn < self.base {
            return Err(Fault::NotAStore);
        }
        let at = lsn - self.base;
        let place = self.gate.place();
        if at < place {
            let size = read_front(disk, at, room)?;
            return Ok(size);
        }
        let behind = at - place;
        if behind < 5 || behind - 5 >= (self.start + self.used) as u64 {
            return Err(Fault::NotAStore);
        }
        let waiting = (behind - 1) as usize;
        let end = (self.start + 4 + self.used).min(waiting + LONGEST_BATCH);
        let size = copy_front(&self.buffer[waiting..end], room)?;
        Ok(size)
    }
}
