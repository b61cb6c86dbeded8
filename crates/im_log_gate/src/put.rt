//! The four device calls of a put.

ghost use Rattle.std.specs.Prelude.{◌≡◌, ◌≢◌, ℕ, List, ◌+◌, ◌^◌, ◌<◌, ◌≤◌, ◌++◌, true, false, [], ◌∷◌, length, take, drop, slice_index, OnOk};
ghost use Rattle.std.specs.Int.{w32, to_be_bytes};
ghost use Rattle.im_base_disk.specs.Disk.{Only, Answers};
ghost use Rattle.im_base_disk.specs.Runs.{LeavesIn};
ghost use Rattle.im_log_gate.specs.Batches.{batches, spelled, HasPut, IsBeforeOrWith, IsBeforeOrWithAll, IsFilled, IsLaid, Lays, Reaches};
ghost use Rattle.im_base_disk.specs.Ends.{CostsUpTo};
ghost use Rattle.im_log_gate.specs.Outcome.{ChangesFrom};

use byteorder::{BigEndian, ByteOrder};
use im_base_disk::{Disk, write_synced};
use im_base_types::{Fault, FileId};

// Puts the length, the records and the next gate together at the front of the room.
fn spell(room: &mut [u8], records: &[u8])
    requires records { length records.now ≤ 16384 }
    requires room { length records.now + 5 ≤ length room.old }
    ensures spelled { take (length records.now + 5) room.new ≡ spelled records.now }
{
    let end = records.len() + 4;
    BigEndian::write_u32(room, records.len() as u32);
    room[4..end].copy_from_slice(records);
    room[end] = 0;
}

// Puts zeros into the room, from one place up to another.
pub(crate) fn clear(room: &mut [u8], from: usize, to: usize)
    requires order { from ≤ to }
    requires room { to ≤ length room.old }
    ensures front { take from room.new ≡ take from room.old }
{
    room[from..to].fill(0);
}

// Writes these bytes after the closed gate at this place, and opens it: whichever first gate this one is reached from. They begin with batches
// whose inner gates are open, and with a closed gate after the last; so all of these batches come to stand after the gate, or none.
pub(crate) fn put_laid<D: Disk>(
    disk: &mut D,
    file: FileId,
    place: u64,
    bytes: &[u8],
) -> Result<(), Fault>
    requires place { place ≤ 2 ^ 62 }
    requires working { D.failed disk.old ≡ false }
    requires within { D.tells → place < length (D.seen disk.old file) }
    requires closed { D.tells → slice_index (D.seen disk.old file) place ≢ 1 }
    requires durable { Only file (D.seen disk.old) (D.may_leave disk.old) }
    ensures put { OnOk result ((first : ℕ) (bs : List (List ℕ)) → Lays bs bytes.now → (D.tells → Reaches first (D.seen disk.old file) place) → D.tells
        → HasPut first bs place (D.seen disk.old file) (D.seen disk.new file)) }
    ensures durable { OnOk result (Only file (D.seen disk.new) (D.may_leave disk.new)) }
    ensures any_moment { (first : ℕ) (bs : List (List ℕ)) → Lays bs bytes.now → (D.tells → Reaches first (D.seen disk.old file) place)
        → LeavesIn D.Disk file disk.old disk.new (IsBeforeOrWithAll first bs (batches first (D.seen disk.old file))) }
    ensures changes { ChangesFrom D.Disk file place disk.old disk.new }
    ensures costs { CostsUpTo D.Disk 2 2 disk.old disk.new result }
    ensures answers { Answers (D.failed disk.new) result }
{
    write_synced(disk, file, place + 1, bytes)?;
    write_synced(disk, file, place, &[1])?;
    Ok(())
}

// Puts a batch after the closed gate at this place, and opens it: whichever first gate this one is reached from. So many bytes are
// written after the gate: the batch, and zeros after it.
pub(crate) fn put_behind<D: Disk>(
    disk: &mut D,
    file: FileId,
    place: u64,
    size: usize,
    room: &mut [u8],
    records: &[u8],
) -> Result<(), Fault>
    requires some { 1 ≤ length records.now }
    requires most { length records.now ≤ 16384 }
    requires least { length records.now + 5 ≤ size }
    requires room { size ≤ length room.old }
    requires place { place ≤ 2 ^ 62 }
    requires working { D.failed disk.old ≡ false }
    requires within { D.tells → place < length (D.seen disk.old file) }
    requires closed { D.tells → slice_index (D.seen disk.old file) place ≢ 1 }
    requires durable { Only file (D.seen disk.old) (D.may_leave disk.old) }
    ensures put { OnOk result ((first : ℕ) → (D.tells → Reaches first (D.seen disk.old file) place) → D.tells
        → HasPut first (records.now ∷ []) place (D.seen disk.old file) (D.seen disk.new file)) }
    ensures durable { OnOk result (Only file (D.seen disk.new) (D.may_leave disk.new)) }
    ensures any_moment { (first : ℕ) → (D.tells → Reaches first (D.seen disk.old file) place)
        → LeavesIn D.Disk file disk.old disk.new (IsBeforeOrWith first records.now (batches first (D.seen disk.old file))) }
    ensures changes { ChangesFrom D.Disk file place disk.old disk.new }
    ensures costs { CostsUpTo D.Disk 2 2 disk.old disk.new result }
    ensures answers { Answers (D.failed disk.new) result }
{
    spell(room, records);
    clear(room, records.len() + 5, size);
    put_laid(disk, file, place, &room[..size])?;
    Ok(())
}

/// Ends a batch of a room in which several are laid out: its length comes to stand in front of its records, which lie four bytes after `start` and up
/// to `end`, and a gate after them, open where another batch is to follow. In front of it stand whole batches, each after an open gate.
pub fn seal(room: &mut [u8], start: usize, end: usize, more: bool)
    requires some { start + 5 ≤ end }
    requires most { end ≤ start + 16388 }
    requires room { end < length room.old }
    ensures room { length room.new ≡ length room.old }
    ensures closed { more ≡ false → (bs : List (List ℕ)) → IsFilled bs (take start room.old) → IsLaid (bs ++ drop (start + 4) (take end room.old) ∷ []) (take (end + 1) room.new) }
    ensures open { more ≡ true → (bs : List (List ℕ)) → IsFilled bs (take start room.old) → IsFilled (bs ++ drop (start + 4) (take end room.old) ∷ []) (take (end + 1) room.new) }
{
    write_length(room, start, (end - start - 4) as u32);
    room[end] = u8::from(more);
}

// Writes a length at a place of the room.
fn write_length(room: &mut [u8], at: usize, size: u32)
    requires room { at + 4 ≤ length room.old }
    ensures room { length room.new ≡ length room.old }
    ensures written { room.new ≡ take at room.old ++ to_be_bytes w32 size ++ drop (at + 4) room.old }
{
    room[at..at + 4].copy_from_slice(&size.to_be_bytes());
}
