//! Puts by one write and one sync, or by two of each.

ghost use Rattle.std.specs.Prelude.{◌≡◌, ◌≢◌, ◌+◌, ◌^◌, ◌++◌, ◌∷◌, ◌≤◌, ◌<◌, ℕ, List, true, false, length, slice_index, OnOk};
ghost use Rattle.im_base_types.specs.declared.file_id.FileId.TheVariants.{Pages};
ghost use Rattle.im_base_disk.specs.Disk.{Only, Answers};
ghost use Rattle.im_base_disk.specs.Runs.{LeavesIn, ChangesOnly, CostsAtMost};
ghost use Rattle.im_base_disk.specs.Ends.{CostsUpTo};
ghost use Rattle.im_base_disk.specs.Sums.{is_open};
ghost use Rattle.im_log_one_sync.specs.Puts.{batches_in, HasFront, IsClearIn, MayPut};

use im_base_disk::{Disk, write_synced};
use im_base_types::{Fault, FileId};

// All at once: the gate, and what comes after it.
fn put_once<D: Disk>(disk: &mut D, file: FileId, place: u64, bytes: &[u8]) -> Result<(), Fault>
    requires log { file ≢ Pages }
    requires sums { D.sums }
    requires working { D.failed disk.old ≡ false }
    requires within { D.tells → place < length (D.seen disk.old file) }
    requires durable { Only file (D.seen disk.old) (D.may_leave disk.old) }
    ensures any_moment { (before bs : List (List ℕ)) (body : List ℕ) → bytes.now ≡ 1 ∷ body → (D.tells → IsClearIn place (place + length (1 ∷ body)) (D.seen disk.old file))
        → (D.tells → MayPut place before bs body (D.seen disk.old file)) → LeavesIn D.Disk file disk.old disk.new (HasFront before bs) }
    ensures there { OnOk result ((before bs : List (List ℕ)) (body : List ℕ) → bytes.now ≡ 1 ∷ body → D.tells → MayPut place before bs body (D.seen disk.old file)
        → batches_in (D.seen disk.new file) ≡ before ++ bs) }
    ensures durable { OnOk result (Only file (D.seen disk.new) (D.may_leave disk.new)) }
    ensures changes { ChangesOnly D.Disk file disk.old disk.new }
    ensures costs { CostsUpTo D.Disk 1 1 disk.old disk.new result }
    ensures answers { Answers (D.failed disk.new) result }
{
    write_synced(disk, file, place, bytes)?;
    Ok(())
}

// What comes after the closed gate, and then the gate.
fn put_twice<D: Disk>(disk: &mut D, file: FileId, place: u64, body: &[u8]) -> Result<(), Fault>
    requires place { place ≤ 2 ^ 62 }
    requires working { D.failed disk.old ≡ false }
    requires within { D.tells → place < length (D.seen disk.old file) }
    requires closed { D.tells → is_open (slice_index (D.seen disk.old file) place) ≡ false }
    requires durable { Only file (D.seen disk.old) (D.may_leave disk.old) }
    ensures any_moment { (before bs : List (List ℕ)) → (D.tells → MayPut place before bs body.now (D.seen disk.old file)) → LeavesIn D.Disk file disk.old disk.new (HasFront before bs) }
    ensures there { OnOk result ((before bs : List (List ℕ)) → D.tells → MayPut place before bs body.now (D.seen disk.old file) → batches_in (D.seen disk.new file) ≡ before ++ bs) }
    ensures durable { OnOk result (Only file (D.seen disk.new) (D.may_leave disk.new)) }
    ensures changes { ChangesOnly D.Disk file disk.old disk.new }
    ensures costs { CostsUpTo D.Disk 2 2 disk.old disk.new result }
    ensures answers { Answers (D.failed disk.new) result }
{
    write_synced(disk, file, place + 1, body)?;
    write_synced(disk, file, place, &[1])?;
    Ok(())
}

/// Puts batches over the closed gate after the last: by one write and one sync where the range shows nothing (`clear`) and the disk keeps the second
/// premise, else by two of each. A stop at any moment since the call began leaves the batches from before and a front of these, each whole; once it
/// answered Ok they are all there, and on the disk.
pub fn put<D: Disk>(
    disk: &mut D,
    file: FileId,
    place: u64,
    bytes: &[u8],
    clear: bool,
) -> Result<(), Fault>
    requires log { file ≢ Pages }
    requires place { place ≤ 2 ^ 62 }
    requires some { 1 ≤ length bytes.now }
    requires working { D.failed disk.old ≡ false }
    requires within { D.tells → place < length (D.seen disk.old file) }
    requires closed { D.tells → is_open (slice_index (D.seen disk.old file) place) ≡ false }
    requires durable { Only file (D.seen disk.old) (D.may_leave disk.old) }
    ensures any_moment { (before bs : List (List ℕ)) (body : List ℕ) → bytes.now ≡ 1 ∷ body
        → (D.tells → clear ≡ true → IsClearIn place (place + length (1 ∷ body)) (D.seen disk.old file))
        → (D.tells → MayPut place before bs body (D.seen disk.old file)) → LeavesIn D.Disk file disk.old disk.new (HasFront before bs) }
    ensures there { OnOk result ((before bs : List (List ℕ)) (body : List ℕ) → bytes.now ≡ 1 ∷ body → D.tells → MayPut place before bs body (D.seen disk.old file)
        → batches_in (D.seen disk.new file) ≡ before ++ bs) }
    ensures durable { OnOk result (Only file (D.seen disk.new) (D.may_leave disk.new)) }
    ensures changes { ChangesOnly D.Disk file disk.old disk.new }
    ensures costs { CostsAtMost D.Disk 2 2 disk.old disk.new }
    ensures answers { Answers (D.failed disk.new) result }
{
    if clear && disk.keeps_sums() {
        return put_once(disk, file, place, bytes);
    }
    put_twice(disk, file, place, &bytes[1..])
}
