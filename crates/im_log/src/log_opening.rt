//! A log is opened after the last batch of its file, which is read once, several batches at a time.

ghost use Rattle.std.specs.Prelude.{◌*◌, ◌≡◌, ◌+◌, ◌-◌, ◌^◌, ◌<◌, ◌≤◌, ◌⊎◌, true, false, length, IfErr, IfOk, List, ℕ, Some};
ghost use Rattle.im_log.specs.Gates.{IsOfLog};
ghost use Rattle.im_base_types.specs.declared.fault.Fault.TheVariants.{Memory, NotAStore};
ghost use Rattle.im_base_types.specs.declared.file_id.FileId.TheVariants.{Log};
ghost use Rattle.im_base_types.specs.Records.{Logged};
ghost use Rattle.im_base_disk.specs.Ends.{ReadsOr};
ghost use Rattle.im_log_gate.specs.Gate.{base_at, first_of, place_of, has_failed, StartsAs, IsReading};
ghost use Rattle.im_log_gate.specs.Header.{base_of, IsMade};
ghost use Rattle.im_log.specs.LogFile.{IsOpen, IsLog};
ghost use Rattle.im_log.specs.Kept.{HasLog, ReadKept};

use crate::LogFile;
use crate::front::front_size;
use im_base_disk::Disk;
use im_base_types::{BATCH_ROOM, Fault, LAST_LSN, Lsn};
use im_log_gate::Gate;
use im_log_record::{Record, decode};
use std::alloc::Global;

/// A log that is being opened: its records are read in turn.
#[derive(Drop)]
pub struct Opening {
    gate: Gate,
    /// The LSN of the file's first byte.
    base: u64,
    /// What was read of the file last stands at its front: the batch whose records are taken, and what comes after it.
    bytes: Vec<u8>,
    /// Where the record stands in it that was read last.
    from: usize,
    /// Where the next one stands in it.
    at: usize,
    /// Where the batch ends in it.
    end: usize,
    /// How many bytes were read.
    held: usize,
    /// The place after the batch in the file.
    behind: u64,
    failed: bool,
    ghost of_log: { IsOfLog gate },
    ghost sized: { 16389 ≤ length bytes.items },
    ghost ordered: { from ≤ at },
    ghost within: { at ≤ end },
    ghost ends: { end ≤ held },
    ghost holds: { held ≤ length bytes.items },
    ghost after: { end ≤ behind },
    ghost placed: { base + behind ≤ 2 ^ 62 },
    ghost of_gate: { base ≡ base_at gate },
}

// The room for so many batches.
fn make_room(alloc: Global, batches: usize) -> Result<Vec<u8>, Fault>
    requires few { (1 ≤ batches) × (batches ≤ 64) }
    ensures size { IfOk result (λ room. length room.items ≡ 16389 * batches) }
    ensures causes { IfErr result (λ e. e ≡ Fault.Memory) }
{
    vec![in alloc; 0; BATCH_ROOM * batches].map_err(|_| Fault::Memory)
}

impl Opening {
    ghost use Rattle.std.specs.Prelude.{MatchOption, None, [], ◌∷◌};
    ghost use Rattle.im_base_types.specs.declared.fault.Fault.TheVariants.{Memory, NotAStore};
    ghost use Rattle.im_base_types.specs.Outcomes.{none_own};
    ghost use Rattle.im_base_types.specs.Records.{Logged};
    ghost use Rattle.im_log_gate.specs.Gate.{place_of, unread, IsReady};
    ghost use Rattle.im_log_gate.specs.Batches.{in_front};
    ghost use Rattle.im_log_record.specs.Entry.{view};
    ghost use Rattle.im_log_record.specs.Reading.{entry_of, Gives};
    ghost use Rattle.im_log.specs.LogFile.{IsOpen, IsLog};
    ghost use Rattle.im_log.specs.Spelled.{first_record};
    ghost use Rattle.im_log.specs.Opening.{ahead_of, current_of, rest_of, position_of, AtEnd, IsBegun, IsOpening, KeepsLog, OpeningRead, NextKept, HasNext, HasRead, ReadOn, Stepped, RefusedBatch, Ended};

    /// Begins to read a log at its first gate. It takes the room for so many batches, into which the file is read, and in which the log's records will wait.
    ///
    /// Refused `Memory`.
    pub fn start(alloc: Global, gate: Gate, batches: usize) -> Result<Opening, Fault>
        requires few { (1 ≤ batches) × (batches ≤ 64) }
        requires of_log { IsOfLog gate }
        requires first { place_of gate ≡ first_of gate }
        ensures opening { IfOk result (λ opening. (opening.gate ≡ gate) × (opening.base ≡ base_at gate) × (opening.at ≡ 0) × (opening.end ≡ 0) × (opening.behind ≡ place_of gate) × (opening.failed ≡ false) × (opening.held ≡ 0)) }
        ensures causes { IfErr result (λ e. e ≡ Memory) }
    {
        let base = gate.base();
        let behind = gate.place();
        Ok(Opening {
            gate,
            base,
            bytes: make_room(alloc, batches)?,
            from: 0,
            at: 0,
            end: 0,
            held: 0,
            behind,
            failed: false,
        })
    }

    // Reads the next batch alone, if there is one. A batch that the format refuses is refused here.
    fn read_alone<D: Disk>(&mut self, disk: &mut D) -> Result<bool, Fault>
        requires begun { IsBegun D.Disk self.old disk.old }
        requires working { self.old.failed ≡ false }
        ensures outcome { OpeningRead D.Disk (λ e. e ≡ NotAStore) self.old disk.old self.new disk.new result }
        ensures ended { result ≡ Ok false → AtEnd D.Disk self.old disk.old self.new disk.new }
        ensures stays { result ≡ Ok false → self.new.behind ≡ self.old.behind }
        ensures one { result ≡ Ok true → D.tells → unread D.Disk self.old.gate disk.old ≡ in_front (rest_of self.new ∷ []) (unread D.Disk self.new.gate disk.new) }
        ensures read { result ≡ Ok true → HasNext self.old self.new }
        ensures refused { result ≡ Err NotAStore → D.tells → RefusedBatch self.old.base (place_of self.old.gate) (unread D.Disk self.old.gate disk.old) }
    {
        self.failed = true;
        self.from = 0;
        self.at = 0;
        self.end = 0;
        self.held = 0;
        let next = self.gate.read_into(disk, &mut self.bytes)?;
        if let Some(size) = next {
            let behind = self.gate.place();
            if behind > LAST_LSN - self.base {
                return Err(Fault::NotAStore);
            }
            self.behind = behind;
            self.end = size;
            self.held = size;
        }
        self.failed = false;
        Ok(next.is_some())
    }

    // Reads the file from the gate on, as much as the room takes.
    fn read_ahead<D: Disk>(&mut self, disk: &mut D) -> Result<(), Fault>
        requires begun { IsBegun D.Disk self.old disk.old }
        requires working { self.old.failed ≡ false }
        ensures outcome { OpeningRead D.Disk none_own self.old disk.old self.new disk.new result }
        ensures unread { unread D.Disk self.new.gate disk.new ≡ unread D.Disk self.old.gate disk.old }
        ensures place { (place_of self.new.gate ≡ place_of self.old.gate) × (self.new.behind ≡ self.old.behind) }
    {
        self.failed = true;
        self.from = 0;
        self.at = 0;
        self.end = 0;
        self.held = 0;
        self.held = self.gate.read_ahead(disk, &mut self.bytes)?;
        self.failed = false;
        Ok(())
    }

    // Goes on to the next batch, where all of it and the next gate were read.
    fn pass<D: Disk>(&mut self, disk: &D) -> Result<bool, Fault>
        requires begun { IsBegun D.Disk self.old disk.now }
        requires working { self.old.failed ≡ false }
        ensures begun { IsBegun D.Disk self.new disk.now }
        ensures stays { result ≡ Ok false → (self.new.gate ≡ self.old.gate) × (self.new.behind ≡ self.old.behind) }
        ensures one { result ≡ Ok true → D.tells → unread D.Disk self.old.gate disk.now ≡ in_front (rest_of self.new ∷ []) (unread D.Disk self.new.gate disk.now) }
        ensures read { result ≡ Ok true → HasNext self.old self.new }
        ensures refused { IfErr result (λ e. (e ≡ NotAStore) × (D.tells → RefusedBatch self.old.base (place_of self.old.gate) (unread D.Disk self.old.gate disk.now))) }
        ensures same { KeepsLog self.old self.new result }
    {
        let Some(size) = self.gate.pass(disk, &self.bytes[self.end..self.held]) else {
            return Ok(false);
        };
        let behind = self.gate.place();
        if behind > LAST_LSN - self.base {
            self.failed = true;
            return Err(Fault::NotAStore);
        }
        self.behind = behind;
        self.from = self.end + 5;
        self.at = self.end + 5;
        self.end = self.end + 5 + size;
        Ok(true)
    }

    // What was read shows that the log ends at the gate.
    fn is_at_end<D: Disk>(&self, disk: &D) -> bool
        requires begun { IsBegun D.Disk self.now disk.now }
        requires working { self.now.failed ≡ false }
        ensures closed { result ≡ true → IsReady D.Disk self.now.gate disk.now }
        ensures none { result ≡ true → D.tells → unread D.Disk self.now.gate disk.now ≡ Some [] }
    {
        self.gate.is_closed(disk, &self.bytes[self.end..self.held])
    }

    // Goes on to the next batch, if there is one: in what was read, or else in what is then read from the gate on. One of which the room does not take all
    // is read alone, and so is one that is refused.
    fn fill<D: Disk>(&mut self, disk: &mut D) -> Result<bool, Fault>
        requires begun { IsBegun D.Disk self.old disk.old }
        requires working { self.old.failed ≡ false }
        ensures outcome { OpeningRead D.Disk (λ e. e ≡ NotAStore) self.old disk.old self.new disk.new result }
        ensures ended { result ≡ Ok false → AtEnd D.Disk self.old disk.old self.new disk.new }
        ensures one { result ≡ Ok true → D.tells → unread D.Disk self.old.gate disk.old ≡ in_front (rest_of self.new ∷ []) (unread D.Disk self.new.gate disk.new) }
        ensures read { result ≡ Ok true → HasNext self.old self.new }
        ensures refused { result ≡ Err NotAStore → D.tells → RefusedBatch self.old.base (place_of self.old.gate) (unread D.Disk self.old.gate disk.old) }
    {
        if self.pass(disk)? {
            return Ok(true);
        }
        if self.is_at_end(disk) {
            return Ok(false);
        }
        self.read_ahead(disk)?;
        if self.pass(disk)? {
            return Ok(true);
        }
        if self.is_at_end(disk) {
            return Ok(false);
        }
        self.read_alone(disk)
    }

    // Moves on to the next record of the batch.
    fn step(&mut self) -> Result<Lsn, Fault>
        requires some { self.old.at < self.old.end }
        ensures stepped { IfOk result (λ lsn. Stepped self.old lsn self.new) }
        ensures refused { IfErr result (λ e. (e ≡ NotAStore) × (first_record (rest_of self.old) ≡ None)) }
        ensures gate { self.new.gate ≡ self.old.gate }
        ensures behind { self.new.behind ≡ self.old.behind }
        ensures ahead { ahead_of self.new ≡ ahead_of self.old }
        ensures same { KeepsLog self.old self.new result }
    {
        self.failed = true;
        let size = front_size(&self.bytes[self.at..self.end])?;
        let lsn = self.base + (self.behind - (self.end - self.at) as u64);
        self.from = self.at;
        self.at += size;
        self.failed = false;
        Ok(lsn)
    }

    /// Moves on to the next record and answers its LSN, or none after the last.
    ///
    /// Refused `NotAStore` where the bytes are no log; `Device`. After a refusal every later call answers `Failed`.
    pub fn next<D: Disk>(&mut self, disk: &mut D) -> Result<Option<Lsn>, Fault>
        requires begun { IsBegun D.Disk self.old disk.old }
        ensures outcome { OpeningRead D.Disk (λ e. e ≡ NotAStore) self.old disk.old self.new disk.new result }
        ensures kept { (base : ℕ) (all older : List Logged) → IsOpening D.Disk base all older self.old disk.old → NextKept D.Disk base all older self.new disk.new result }
        ensures reads_on { (base : ℕ) (older : List Logged) → HasRead D.Disk base older self.old disk.old → ReadOn D.Disk base older self.new disk.new result }
        ensures ended { result ≡ Ok None → IsReady D.Disk self.new.gate disk.new }
        ensures moves { IfOk result (λ next. MatchOption next (Unit {0}) (λ lsn. position_of self.old < position_of self.new)) }
    {
        if self.failed {
            return Err(Fault::Failed);
        }
        if self.at < self.end {
            return Ok(Some(self.step()?));
        }
        if !self.fill(disk)? {
            return Ok(None);
        }
        Ok(Some(self.step()?))
    }

    /// The record that was read last.
    ///
    /// Refused `NotAStore` where its bytes are no record.
    pub fn record(&self) -> Result<Record<'_>, Fault>
        ensures record { Gives view result (entry_of (current_of self.now)) }
    {
        decode(&self.bytes[self.from..self.at])
    }

    /// The log after its last record, with nothing buffered.
    pub fn finish<D: Disk>(self, disk: &D) -> LogFile
        requires usable { self.failed ≡ false }
        requires begun { IsBegun D.Disk self disk.now }
        requires ended { IsReady D.Disk self.gate disk.now }
        ensures ready { IsOpen D.Disk result disk.now }
        ensures kept { (base : ℕ) (all older : List Logged) → Ended D.Disk base all older self disk.now → IsLog D.Disk base all all result disk.now }
        ensures base { result.base ≡ self.base }
        ensures empty { result.used ≡ 0 }
        ensures working { result.failed ≡ false }
    {
        let _ = disk;
        let Opening { gate, bytes, .. } = self;
        LogFile::at_end(gate, bytes)
    }
}

/// Opens a log at its first gate: reads its records to the last, and checks each. The file is read once, but for batches of which not all came.
///
/// Refused `NotAStore` where the bytes are no log; `Device`; `Memory`.
pub fn open_log<D: Disk>(
    alloc: Global,
    disk: &mut D,
    gate: Gate,
    batches: usize,
) -> Result<LogFile, Fault>
    requires few { (1 ≤ batches) × (batches ≤ 64) }
    requires of_log { IsOfLog gate }
    requires first { place_of gate ≡ first_of gate }
    requires starts { D.tells → StartsAs gate (D.seen disk.old Log) }
    requires usable { has_failed gate ≡ false }
    requires reading { IsReading D.Disk gate disk.old }
    ensures outcome { ReadsOr D.Disk (λ e. (e ≡ Memory) ⊎ (e ≡ NotAStore)) disk.old disk.new result }
    ensures ready { IfOk result (λ log. IsOpen D.Disk log disk.new) }
    ensures kept { (base : ℕ) (all : List Logged) → D.tells → HasLog base all (D.seen disk.old Log) → ReadKept D.Disk base all disk.new result }
    ensures spelled { IfOk result (λ log. D.tells → IsMade (D.seen disk.old Log) → (all : List Logged) × HasLog (base_of (D.seen disk.old Log)) all (D.seen disk.old Log)
        × IsLog D.Disk (base_of (D.seen disk.old Log)) all all log disk.new) }
    ensures working { IfOk result (λ log. (log.failed ≡ false) × (log.base ≡ base_at gate)) }
{
    let mut opening = Opening::start(alloc, gate, batches)?;
    loop {
        match opening.next(disk)? {
            None => return Ok(opening.finish(disk)),
            Some(_) => {
                let _ = opening.record()?;
            }
        }
    }
}
