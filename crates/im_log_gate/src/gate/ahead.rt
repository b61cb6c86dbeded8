//! The file is read several batches at once, and the gate goes past one after another in what was read.

ghost use Rattle.std.specs.Prelude.{◌≡◌, ◌≢◌, ◌+◌, ◌-◌, ◌^◌, ◌<◌, ◌≤◌, ◌↔◌, false, true, min, length, take, drop, slice_index, IfOk, IfSome, None, Some, [], ◌∷◌};

use crate::ahead::{begins_closed, whole_batch};
use crate::gate::Gate;
use im_base_disk::Disk;
use im_base_types::Fault;

impl Gate {
    ghost use Rattle.im_base_types.specs.Outcomes.{none_own};
    ghost use Rattle.im_log_gate.specs.Batches.{in_front, BeginsWhole};
    ghost use Rattle.im_log_gate.specs.Gate.{file_of, place_of, has_failed, InOneFile, unread, IsFromGate, IsReading, IsReady};
    ghost use Rattle.im_log_gate.specs.Outcome.{BatchRead, PassesIn};

    /// Reads the file from the gate on to the front of `room`, as much as there is or as the room takes, and answers how many bytes: by one
    /// length call and one read. The gate stays where it is, and no memory is taken.
    ///
    /// Refused `Device`. After a refusal every later call answers `Failed` until the file is opened again, and what the room holds is not said.
    pub fn read_ahead<D: Disk>(&mut self, disk: &mut D, room: &mut [u8]) -> Result<usize, Fault>
        requires reading { IsReading D.Disk self.old disk.old }
        ensures outcome { BatchRead D.Disk none_own self.old disk.old self.new disk.new result }
        ensures place { place_of self.new ≡ place_of self.old }
        ensures ahead { IfOk result (λ size. D.tells → take size room.new ≡ take size (drop (place_of self.old) (D.seen disk.old (file_of self.old)))) }
        ensures all { IfOk result (λ size. D.tells → size ≡ min (length room.old) (length (D.seen disk.old (file_of self.old)) - place_of self.old)) }
        ensures within { IfOk result (λ size. size ≤ length room.new) }
        ensures room { length room.new ≡ length room.old }
    {
        if self.failed {
            return Err(Fault::Failed);
        }
        self.failed = true;
        let end = disk.len(self.file)?;
        let left = end.saturating_sub(self.place);
        let size = (room.len() as u64).min(left) as usize;
        let part = &mut room[..size];
        disk.read(self.file, self.place, part)?;
        self.failed = false;
        Ok(size)
    }

    /// Goes past the next batch, and answers how many bytes it has: in these bytes, which are the file's from the gate on, they come after the
    /// first five. None, with nothing changed, where the bytes do not have all of it and the next gate, as at a closed gate, and of a gate that has failed.
    /// No device call.
    pub fn pass<D: Disk>(&mut self, disk: &D, ahead: &[u8]) -> Option<usize>
        requires reading { IsReading D.Disk self.old disk.now }
        requires ahead { IsFromGate D.Disk self.old disk.now ahead.now }
        ensures reading { IsReading D.Disk self.new disk.now }
        ensures same { InOneFile self.old self.new }
        ensures next { IfSome result (λ size. D.tells → unread D.Disk self.old disk.now ≡ in_front (take size (drop 5 ahead.now) ∷ []) (unread D.Disk self.new disk.now)) }
        ensures moves { PassesIn ahead.now self.old result self.new }
        ensures none { result ≡ None → has_failed self.old ≡ false → place_of self.old + length ahead.now < 2 ^ 64 → ¬ (BeginsWhole ahead.now) }
        ensures failed { has_failed self.new ≡ has_failed self.old }
    {
        let _ = disk;
        if self.failed {
            return None;
        }
        let size = whole_batch(ahead)?;
        let place = self.place.checked_add(size as u64 + 5)?;
        self.place = place;
        Some(size)
    }

    /// These bytes, which are the file's from the gate on, show that the gate is closed, so that the log ends at it. No device call.
    pub fn is_closed<D: Disk>(&self, disk: &D, ahead: &[u8]) -> bool
        requires reading { IsReading D.Disk self.now disk.now }
        requires ahead { IsFromGate D.Disk self.now disk.now ahead.now }
        ensures closed { result ≡ true → IsReady D.Disk self.now disk.now }
        ensures end { result ≡ true → has_failed self.now ≡ false → D.tells → unread D.Disk self.now disk.now ≡ Some [] }
        ensures shown { result ≡ true ↔ (1 ≤ length ahead.now) × (slice_index ahead.now 0 ≢ 1) }
    {
        let _ = disk;
        begins_closed(ahead)
    }
}
