//! The gate of a log whose batches have sums: making and opening the file, reading its batches, and putting more.

ghost use Rattle.std.specs.Prelude.{◌≡◌, ◌≢◌, ◌+◌, ◌^◌, ◌<◌, ◌≤◌, ◌↔◌, ◌⊎◌, ◌++◌, ℕ, List, false, true, length, max, replicate, slice_index, take, drop, not, is_ok, IfErr, IfOk, IfSome, OnOk, MatchOption, [], ◌∷◌};

use crate::putting::put;
use crate::reading::{batch_at, is_opened};
use crate::sealing::seal;
use im_base_disk::Disk;
use im_base_types::{Fault, FileId, LAST_LSN, TxnId};
use im_log_header::Header;
use im_log_third_header::{ThirdHeader, make_third, read_third};

// The first generation that no log has.
const GENERATIONS: u64 = 1 << 62;

// The greatest base: the first gate has an LSN of 2^62 at most.
const LAST_BASE: u64 = LAST_LSN - 47;

/// A gate of a log whose batches have sums. It carries its file and the header of its log. It has failed once a call failed, and refuses every call from then on.
#[derive(Drop)]
pub struct SumGate {
    file: FileId,
    header: ThirdHeader,
    place: u64,
    // From the gate up to here the file shows nothing.
    clear: u64,
    // The gate's byte is 1, though no batch counts behind it: a put was torn.
    opened: bool,
    failed: bool,
    ghost low: { header.start.base ≤ 2 ^ 62 },
    ghost salted: { length header.salt ≡ 3 },
    ghost placed: { place ≤ 2 ^ 63 },
}

fn zero(bytes: &mut [u8])
    ensures { bytes.new ≡ replicate (length bytes.old) 0 }
{
    bytes.fill(0);
}

// What stands after so many bytes of a room is zero.
fn blank(room: &mut [u8], from: usize)
    requires room { from ≤ length room.old }
    ensures front { take from room.new ≡ take from room.old }
    ensures length { length room.new ≡ length room.old }
    ensures zeros { (i : ℕ) → from ≤ i → slice_index room.new i ≡ 0 }
{
    zero(&mut room[from..]);
}

// One write and one sync are enough: up to the end nothing is shown, and the header does not ask for two.
fn is_once(clear: u64, end: u64, two_syncs: bool) -> bool
    ensures { (result ≡ true) ↔ ((end ≤ clear) × (two_syncs ≡ false)) }
{
    clear >= end && !two_syncs
}

// The later of two places.
fn later(one: u64, other: u64) -> u64
    ensures { result ≡ max one other }
{
    one.max(other)
}

impl SumGate {
    ghost use Rattle.im_base_types.specs.declared.file_id.FileId.TheVariants.{Pages};
    ghost use Rattle.im_base_types.specs.declared.fault.Fault.TheVariants.{Capacity, LogFull, NotAStore};
    ghost use Rattle.im_base_disk.specs.Disk.{Only, Answers};
    ghost use Rattle.im_base_disk.specs.Ends.{ReadsOr, Refusals};
    ghost use Rattle.im_base_disk.specs.Runs.{ChangesOnly, CostsAtMost, LeavesIn, Reads};
    ghost use Rattle.im_log_header.specs.Header.{IsUnmade};
    ghost use Rattle.im_log_third_header.specs.declared.header.ThirdHeader.{ThirdHeader};
    ghost use Rattle.im_log_third_header.specs.Header.{HasHeader, IsBeingMade, MayStart};
    ghost use Rattle.im_log_sum_gate.specs.Batches.{HasFront};
    ghost use Rattle.im_log_sum_gate.specs.Gate.{file_of, has_failed, header_of, is_torn, logged, lsn_of, place_of, unread, GoesOn, InOneFile, IsReading, IsReady, IsSealed, PutOutcome};

    /// Makes a log with this header and no batch, of a file whatever it has, and answers its gate: by six device calls, or four.
    ///
    /// Refused `Device`.
    pub fn create<D: Disk>(
        disk: &mut D,
        file: FileId,
        header: ThirdHeader,
    ) -> Result<SumGate, Fault>
        requires log { file ≢ Pages }
        requires working { D.failed disk.old ≡ false }
        requires may { MayStart header }
        requires durable { Only file (D.seen disk.old) (D.may_leave disk.old) }
        ensures ready { IfOk result (λ gate. IsReady D.Disk gate disk.new) }
        ensures gate { IfOk result (λ gate. (file_of gate ≡ file) × (header_of gate ≡ header) × (place_of gate ≡ 47) × (is_torn gate ≡ false) × (has_failed gate ≡ false)) }
        ensures empty { IfOk result (λ gate. D.tells → logged D.Disk gate disk.new ≡ []) }
        ensures any_moment { LeavesIn D.Disk file disk.old disk.new (IsBeingMade header (D.seen disk.old file)) }
        ensures changes { ChangesOnly D.Disk file disk.old disk.new }
        ensures few { CostsAtMost D.Disk 3 3 disk.old disk.new }
        ensures answers { Answers (D.failed disk.new) result }
    {
        make_third(disk, file, &header)?;
        Ok(SumGate {
            file,
            header,
            place: 47,
            clear: 48,
            opened: false,
            failed: false,
        })
    }

    /// Opens a log of the third format at its first gate, or answers none of a file that is not made. It writes nothing.
    ///
    /// Refused `NotAStore` where the file is made and has no such header, or no first gate; `Device`.
    pub fn open<D: Disk>(disk: &mut D, file: FileId) -> Result<Option<SumGate>, Fault>
        requires log { file ≢ Pages }
        requires working { D.failed disk.old ≡ false }
        requires durable { Only file (D.seen disk.old) (D.may_leave disk.old) }
        ensures reading { IfOk result (λ opened. IfSome opened (λ gate. IsReading D.Disk gate disk.new)) }
        ensures gate { IfOk result (λ opened. IfSome opened (λ gate. (file_of gate ≡ file) × (place_of gate ≡ 47) × (has_failed gate ≡ false))) }
        ensures header { IfOk result (λ opened. IfSome opened (λ gate. D.tells → HasHeader (header_of gate) (D.seen disk.old file))) }
        ensures all { IfOk result (λ opened. IfSome opened (λ gate. unread D.Disk gate disk.new ≡ logged D.Disk gate disk.new)) }
        ensures unmade { result ≡ Ok None → D.tells → IsUnmade (D.seen disk.old file) }
        ensures refused { result ≡ Err NotAStore → D.tells → ¬ (IsUnmade (D.seen disk.old file)) × ((h : ThirdHeader) → ¬ (HasHeader h (D.seen disk.old file))) }
        ensures outcome { ReadsOr D.Disk (λ e. e ≡ NotAStore) disk.old disk.new result }
    {
        let Some(header) = read_third(disk, file)? else {
            return Ok(None);
        };
        Ok(Some(SumGate {
            file,
            header,
            place: 47,
            clear: 47,
            opened: false,
            failed: false,
        }))
    }

    /// The place of the gate, in bytes.
    pub fn place(&self) -> u64
        ensures { result ≡ place_of self.now }
    {
        self.place
    }

    /// The header of its log.
    pub fn header(&self) -> ThirdHeader
        ensures { result ≡ header_of self.now }
    {
        self.header
    }

    /// The header of the log that goes on in the other file where this gate stands: of the next generation, with the LSN of this gate as the LSN of its first
    /// byte, the same salt and as many syncs a force, and transactions from this number on. `create` makes that log.
    ///
    /// Refused `LogFull` where its first gate would have an LSN above 2^62, and then `Capacity` where there is no next generation.
    pub fn next_header(&self, next: TxnId) -> Result<ThirdHeader, Fault>
        requires numbered { 1 ≤ next }
        ensures may { IfOk result (λ after. MayStart after) }
        ensures header { IfOk result (λ after. GoesOn (header_of self.now) (lsn_of self.now) next after) }
        ensures full { result ≡ Err LogFull ↔ (2 ^ 62 < lsn_of self.now + 47) }
        ensures capacity { result ≡ Err Capacity ↔ (lsn_of self.now + 47 ≤ 2 ^ 62) × (2 ^ 62 ≤ (header_of self.now).start.generation + 1) }
        ensures causes { IfErr result (λ e. (e ≡ LogFull) ⊎ (e ≡ Capacity)) }
    {
        let base = self.header.start.base + self.place;
        if base > LAST_BASE {
            return Err(Fault::LogFull);
        }
        if self.header.start.generation >= GENERATIONS - 1 {
            return Err(Fault::Capacity);
        }
        Ok(ThirdHeader {
            start: Header {
                generation: self.header.start.generation + 1,
                base,
                next,
            },
            salt: self.header.salt,
            two_syncs: self.header.two_syncs,
        })
    }

    /// The next batch comes to stand at the front of the buffer, from its gate to its sum: its records have so many bytes, and begin after five. None where the log
    /// ends. Nothing is refused: what does not count ends the log. It takes no memory.
    ///
    /// Refused `Failed` once a call failed; `LogFull` where the gate stands above place 2^62; `Device`.
    pub fn read_into<D: Disk>(
        &mut self,
        disk: &mut D,
        buffer: &mut [u8],
    ) -> Result<Option<usize>, Fault>
        requires room { 16389 ≤ length buffer.old }
        requires reading { IsReading D.Disk self.old disk.old }
        ensures reading { IsReading D.Disk self.new disk.new }
        ensures same { InOneFile self.old self.new }
        ensures next { IfOk result (λ next. D.tells → MatchOption next (unread D.Disk self.old disk.old ≡ [])
            (λ size. unread D.Disk self.old disk.old ≡ take size (drop 5 buffer.new) ∷ unread D.Disk self.new disk.new)) }
        ensures passes { IfOk result (λ next. MatchOption next (place_of self.new ≡ place_of self.old) (λ size. (1 ≤ size) × (size ≤ 16376) × (place_of self.new ≡ place_of self.old + (13 + size)))) }
        ensures end { result ≡ Ok None → IsReady D.Disk self.new disk.new }
        ensures usable { OnOk result (has_failed self.new ≡ false) }
        ensures buffer { length buffer.new ≡ length buffer.old }
        ensures reads { Reads D.Disk disk.old disk.new }
        ensures refusals { Refusals (λ e. e ≡ LogFull) (has_failed self.old) (D.failed disk.new) result }
    {
        if self.failed {
            return Err(Fault::Failed);
        }
        self.failed = true;
        if self.place > LAST_LSN {
            return Err(Fault::LogFull);
        }
        let opened = is_opened(disk, self.file, self.place)?;
        self.clear = self.place;
        self.opened = opened;
        if !opened {
            self.failed = false;
            return Ok(None);
        }
        let Some(size) = batch_at(disk, self.file, self.place, &self.header, buffer)? else {
            self.failed = false;
            return Ok(None);
        };
        self.place += size as u64 + 13;
        self.failed = false;
        Ok(Some(size))
    }

    /// Asks how long the file is. Where it ends before the place up to which it is known to show nothing, it shows nothing behind either: so all
    /// that is put from then on is put by one write and one sync, where disk and header allow it. No device call but for a length.
    ///
    /// Refused `Failed` once a call failed; `Device`.
    pub fn learn_end<D: Disk>(&mut self, disk: &mut D) -> Result<(), Fault>
        requires ready { IsReady D.Disk self.old disk.old }
        ensures ready { IsReady D.Disk self.new disk.new }
        ensures same { InOneFile self.old self.new }
        ensures place { place_of self.new ≡ place_of self.old }
        ensures failed { has_failed self.new ≡ not (is_ok result) }
        ensures reads { Reads D.Disk disk.old disk.new }
        ensures refusals { Refusals (λ e. ⊥) (has_failed self.old) (D.failed disk.new) result }
    {
        if self.failed {
            return Err(Fault::Failed);
        }
        self.failed = true;
        let size = disk.len(self.file)?;
        if size <= self.clear {
            self.clear = u64::MAX;
        }
        self.failed = false;
        Ok(())
    }

    /// Puts the batches that stand sealed at the front of a room, so many bytes of it and a closed gate after the last, and zeros behind up to the room's end: by one
    /// write and one sync where the header does not ask for two, the disk keeps the premise on stops, and the file is known to show nothing there. Else
    /// by two of each; and where a put that was torn has left the gate open, that is closed first, by one of each more. A stop at any
    /// moment leaves the batches from before and a front of these, each whole. It takes no memory.
    ///
    /// Refused `Failed` once a call failed; `LogFull`, with no device call made, where the last gate would stand above place 2^62; `Device`.
    pub fn put<D: Disk>(&mut self, disk: &mut D, room: &mut [u8], used: usize) -> Result<(), Fault>
        requires used { used < length room.old }
        requires room { length room.old ≤ 2 ^ 62 }
        requires sealed { (bs : List (List ℕ)) × IsSealed self.old used bs room.old }
        requires ready { IsReady D.Disk self.old disk.old }
        ensures outcome { PutOutcome D.Disk self.old disk.old self.new disk.new result }
        ensures ready { IsReady D.Disk self.new disk.new }
        ensures put { OnOk result ((bs : List (List ℕ)) → IsSealed self.old used bs room.old → D.tells → logged D.Disk self.new disk.new ≡ logged D.Disk self.old disk.old ++ bs) }
        ensures any_moment { has_failed self.old ≡ false → (bs : List (List ℕ)) → IsSealed self.old used bs room.old
            → LeavesIn D.Disk (file_of self.old) disk.old disk.new (HasFront (header_of self.old) (logged D.Disk self.old disk.old) bs) }
        ensures moves { OnOk result (place_of self.new ≡ place_of self.old + used) }
        ensures full { result ≡ Err LogFull ↔ ((has_failed self.old ≡ false) × (2 ^ 62 < place_of self.old + used)) }
        ensures costs { CostsAtMost D.Disk 3 3 disk.old disk.new }
        ensures few { is_torn self.old ≡ false → CostsAtMost D.Disk 2 2 disk.old disk.new }
        ensures shut { OnOk result (is_torn self.new ≡ false) }
    {
        if self.failed {
            return Err(Fault::Failed);
        }
        self.failed = true;
        if self.place > LAST_LSN || used as u64 > LAST_LSN - self.place {
            return Err(Fault::LogFull);
        }
        blank(room, used + 1);
        let end = self.place + room.len() as u64;
        let once = is_once(self.clear, end, self.header.two_syncs);
        put(disk, self.file, self.place, room, once, self.opened)?;
        self.clear = later(self.clear, end);
        self.place += used as u64;
        self.opened = false;
        self.failed = false;
        Ok(())
    }

    /// Seals a batch whose records stand from byte 5 of a room on, so many bytes of them, and puts it, as `put` does.
    ///
    /// Refused as by `put`.
    pub fn put_one<D: Disk>(
        &mut self,
        disk: &mut D,
        room: &mut [u8],
        size: usize,
    ) -> Result<(), Fault>
        requires size { (1 ≤ size) × (size ≤ 16376) }
        requires within { size + 14 ≤ length room.old }
        requires room { length room.old ≤ 2 ^ 62 }
        requires ready { IsReady D.Disk self.old disk.old }
        ensures outcome { PutOutcome D.Disk self.old disk.old self.new disk.new result }
        ensures ready { IsReady D.Disk self.new disk.new }
        ensures put { OnOk result (D.tells → logged D.Disk self.new disk.new ≡ logged D.Disk self.old disk.old ++ take size (drop 5 room.old) ∷ []) }
        ensures any_moment { has_failed self.old ≡ false
            → LeavesIn D.Disk (file_of self.old) disk.old disk.new (HasFront (header_of self.old) (logged D.Disk self.old disk.old) (take size (drop 5 room.old) ∷ [])) }
        ensures moves { OnOk result (place_of self.new ≡ place_of self.old + (size + 13)) }
        ensures full { result ≡ Err LogFull ↔ ((has_failed self.old ≡ false) × (2 ^ 62 < place_of self.old + (size + 13))) }
        ensures costs { CostsAtMost D.Disk 3 3 disk.old disk.new }
        ensures few { is_torn self.old ≡ false → CostsAtMost D.Disk 2 2 disk.old disk.new }
        ensures shut { OnOk result (is_torn self.new ≡ false) }
    {
        let lsn = self.header.start.base + self.place;
        seal(room, 0, size + 5, &self.header.salt, lsn);
        self.put(disk, room, size + 13)
    }
}
