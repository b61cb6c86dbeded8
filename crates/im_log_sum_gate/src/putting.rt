//! Puts by one write and one sync, or by two of each, over whatever gate ends the log.

ghost use Rattle.std.specs.Prelude.{◌≡◌, ◌≢◌, ◌+◌, ◌^◌, ◌≤◌, ◌<◌, [], ◌∷◌, ℕ, List, true, false, length, slice_index, OnOk};
ghost use Rattle.im_base_types.specs.declared.file_id.FileId.TheVariants.{Pages};
ghost use Rattle.im_base_disk.specs.Disk.{Holds, Only, Answers};
ghost use Rattle.im_base_disk.specs.Runs.{LeavesIn, ChangesOnly, CostsAtMost};
ghost use Rattle.im_base_disk.specs.Ends.{CostsUpTo};
ghost use Rattle.im_log_third_header.specs.declared.header.ThirdHeader.{ThirdHeader};
ghost use Rattle.im_log_sum_gate.specs.Batches.{batches, Ends, HasFront, IsClearTo, MayPut, Reaches};

use im_base_disk::{Disk, write_synced};
use im_base_types::{Fault, FileId};

// All at once: the gate, and what comes after it.
fn put_once<D: Disk>(disk: &mut D, file: FileId, place: u64, bytes: &[u8]) -> Result<(), Fault>
    requires log { file ≢ Pages }
    requires sums { D.sums }
    requires working { D.failed disk.old ≡ false }
    requires within { D.tells → place < length (D.seen disk.old file) }
    requires durable { Only file (D.seen disk.old) (D.may_leave disk.old) }
    ensures any_moment { (h : ThirdHeader) (before bs : List (List ℕ)) → (D.tells → IsClearTo h (place + length bytes.now) place (D.seen disk.old file))
        → (D.tells → MayPut h place before bs bytes.now (D.seen disk.old file)) → LeavesIn D.Disk file disk.old disk.new (HasFront h before bs) }
    ensures written { OnOk result (D.tells → Holds place bytes.now (D.seen disk.old file) (D.seen disk.new file)) }
    ensures durable { OnOk result (Only file (D.seen disk.new) (D.may_leave disk.new)) }
    ensures changes { ChangesOnly D.Disk file disk.old disk.new }
    ensures costs { CostsUpTo D.Disk 1 1 disk.old disk.new result }
    ensures answers { Answers (D.failed disk.new) result }
{
    write_synced(disk, file, place, bytes)?;
    Ok(())
}

// What comes after a gate that is not 1, and then the gate.
fn put_twice<D: Disk>(disk: &mut D, file: FileId, place: u64, bytes: &[u8]) -> Result<(), Fault>
    requires place { place ≤ 2 ^ 62 }
    requires opens { (1 ≤ length bytes.now) × (slice_index bytes.now 0 ≡ 1) }
    requires working { D.failed disk.old ≡ false }
    requires within { D.tells → place < length (D.seen disk.old file) }
    requires closed { D.tells → slice_index (D.seen disk.old file) place ≢ 1 }
    requires durable { Only file (D.seen disk.old) (D.may_leave disk.old) }
    ensures any_moment { (h : ThirdHeader) (before bs : List (List ℕ)) → (D.tells → MayPut h place before bs bytes.now (D.seen disk.old file)) → LeavesIn D.Disk file disk.old disk.new (HasFront h before bs) }
    ensures written { OnOk result (D.tells → Holds place bytes.now (D.seen disk.old file) (D.seen disk.new file)) }
    ensures durable { OnOk result (Only file (D.seen disk.new) (D.may_leave disk.new)) }
    ensures changes { ChangesOnly D.Disk file disk.old disk.new }
    ensures costs { CostsUpTo D.Disk 2 2 disk.old disk.new result }
    ensures answers { Answers (D.failed disk.new) result }
{
    write_synced(disk, file, place + 1, &bytes[1..])?;
    write_synced(disk, file, place, &[1])?;
    Ok(())
}

// Closes a gate of 1 behind which no batch counts: a stop within a put has left it so.
fn close<D: Disk>(disk: &mut D, file: FileId, place: u64) -> Result<(), Fault>
    requires working { D.failed disk.old ≡ false }
    requires within { D.tells → place < length (D.seen disk.old file) }
    requires opened { D.tells → slice_index (D.seen disk.old file) place ≡ 1 }
    requires durable { Only file (D.seen disk.old) (D.may_leave disk.old) }
    ensures any_moment { (h : ThirdHeader) (before bs : List (List ℕ)) → (D.tells → Ends h place before (D.seen disk.old file)) → LeavesIn D.Disk file disk.old disk.new (HasFront h before bs) }
    ensures written { OnOk result (D.tells → Holds place (0 ∷ []) (D.seen disk.old file) (D.seen disk.new file)) }
    ensures durable { OnOk result (Only file (D.seen disk.new) (D.may_leave disk.new)) }
    ensures changes { ChangesOnly D.Disk file disk.old disk.new }
    ensures costs { CostsUpTo D.Disk 1 1 disk.old disk.new result }
    ensures answers { Answers (D.failed disk.new) result }
{
    write_synced(disk, file, place, &[0])?;
    Ok(())
}

// The gate is closed, and then the same is put by two of each.
fn put_closing<D: Disk>(disk: &mut D, file: FileId, place: u64, bytes: &[u8]) -> Result<(), Fault>
    requires place { place ≤ 2 ^ 62 }
    requires opens { (1 ≤ length bytes.now) × (slice_index bytes.now 0 ≡ 1) }
    requires working { D.failed disk.old ≡ false }
    requires within { D.tells → place < length (D.seen disk.old file) }
    requires opened { D.tells → slice_index (D.seen disk.old file) place ≡ 1 }
    requires durable { Only file (D.seen disk.old) (D.may_leave disk.old) }
    ensures any_moment { (h : ThirdHeader) (before bs : List (List ℕ)) → (D.tells → Ends h place before (D.seen disk.old file))
        → (D.tells → MayPut h place before bs bytes.now (D.seen disk.old file)) → LeavesIn D.Disk file disk.old disk.new (HasFront h before bs) }
    ensures written { OnOk result (D.tells → Holds place bytes.now (D.seen disk.old file) (D.seen disk.new file)) }
    ensures durable { OnOk result (Only file (D.seen disk.new) (D.may_leave disk.new)) }
    ensures changes { ChangesOnly D.Disk file disk.old disk.new }
    ensures costs { CostsAtMost D.Disk 3 3 disk.old disk.new }
    ensures answers { Answers (D.failed disk.new) result }
{
    close(disk, file, place)?;
    put_twice(disk, file, place, bytes)?;
    Ok(())
}

// Puts batches over the gate that ends the log: by one write and one sync where the range shows nothing (`clear`) and the disk keeps the second
// premise, else by two of each. Where a put that was torn left the gate 1 (`opened`) that is closed first, by one of each more. A stop at any
// moment since the call began leaves the batches from before and a front of these, each whole; once it answered Ok they are all there, and on the disk.
pub(crate) fn put<D: Disk>(
    disk: &mut D,
    file: FileId,
    place: u64,
    bytes: &[u8],
    clear: bool,
    opened: bool,
) -> Result<(), Fault>
    requires log { file ≢ Pages }
    requires place { place ≤ 2 ^ 62 }
    requires opens { (1 ≤ length bytes.now) × (slice_index bytes.now 0 ≡ 1) }
    requires working { D.failed disk.old ≡ false }
    requires within { D.tells → place < length (D.seen disk.old file) }
    requires closed { opened ≡ false → D.tells → slice_index (D.seen disk.old file) place ≢ 1 }
    requires opened { opened ≡ true → D.tells → slice_index (D.seen disk.old file) place ≡ 1 }
    requires durable { Only file (D.seen disk.old) (D.may_leave disk.old) }
    ensures any_moment { (h : ThirdHeader) (before bs : List (List ℕ)) → (D.tells → Ends h place before (D.seen disk.old file))
        → (D.tells → clear ≡ true → IsClearTo h (place + length bytes.now) place (D.seen disk.old file))
        → (D.tells → MayPut h place before bs bytes.now (D.seen disk.old file)) → LeavesIn D.Disk file disk.old disk.new (HasFront h before bs) }
    ensures written { OnOk result (D.tells → Holds place bytes.now (D.seen disk.old file) (D.seen disk.new file)) }
    ensures durable { OnOk result (Only file (D.seen disk.new) (D.may_leave disk.new)) }
    ensures changes { ChangesOnly D.Disk file disk.old disk.new }
    ensures costs { CostsAtMost D.Disk 3 3 disk.old disk.new }
    ensures few { opened ≡ false → CostsAtMost D.Disk 2 2 disk.old disk.new }
    ensures answers { Answers (D.failed disk.new) result }
{
    if clear && disk.keeps_sums() {
        return put_once(disk, file, place, bytes);
    }
    if opened {
        return put_closing(disk, file, place, bytes);
    }
    put_twice(disk, file, place, bytes)
}
