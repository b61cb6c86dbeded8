//! What stands after a gate.

ghost use Rattle.std.specs.Prelude.{◌≡◌, ◌≢◌, ◌+◌, ◌^◌, ◌<◌, ◌≤◌, true, false, length, drop, slice_index, IfOk, MatchOption};
ghost use Rattle.im_base_types.specs.declared.fault.Fault.TheVariants.{NotAStore};
ghost use Rattle.im_base_disk.specs.Ends.{ReadsOr};
ghost use Rattle.im_log_gate.specs.Batches.{batch_length, is_whole, batches_from};

use byteorder::{BigEndian, ByteOrder};
use im_base_disk::Disk;
use im_base_types::{Fault, FileId, LONGEST_BATCH};

const BATCH: u64 = LONGEST_BATCH as u64;

// How many bytes the batch after the gate at this place has; none after a closed gate.
pub(crate) fn batch_size<D: Disk>(
    disk: &mut D,
    file: FileId,
    place: u64,
) -> Result<Option<u64>, Fault>
    requires { D.failed disk.old ≡ false }
    ensures outcome { ReadsOr D.Disk (λ e. e ≡ NotAStore) disk.old disk.new result }
    ensures closed { result ≡ Ok None → D.tells → slice_index (D.seen disk.old file) place ≢ 1 }
    ensures bounds { IfOk result (λ size. MatchOption size (Unit {0}) (λ n. (1 ≤ n) × (n ≤ 16384) × (place + 5 + n < 2 ^ 64))) }
    ensures whole { IfOk result (λ size. D.tells → MatchOption size (Unit {0}) (λ n. (slice_index (D.seen disk.old file) place ≡ 1)
        × (is_whole (drop (place + 1) (D.seen disk.old file)) ≡ true) × (batch_length (drop (place + 1) (D.seen disk.old file)) ≡ n))) }
    ensures refused { result ≡ Err NotAStore → D.tells → batches_from place (D.seen disk.old file) ≡ None }
{
    let end = disk.len(file)?;
    if place >= end {
        return Err(Fault::NotAStore);
    }
    let mut found = [0; 1];
    disk.read(file, place, &mut found)?;
    let gate = found[0];
    if gate != 1 {
        return Ok(None);
    }
    let behind = end - place - 1;
    if behind < 4 {
        return Err(Fault::NotAStore);
    }
    let mut length = [0; 4];
    disk.read(file, place + 1, &mut length)?;
    let size = u64::from(BigEndian::read_u32(&length));
    if size == 0 || size > BATCH || size + 4 >= behind {
        return Err(Fault::NotAStore);
    }
    Ok(Some(size))
}
