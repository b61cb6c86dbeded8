//! What stands at a gate.

ghost use Rattle.std.specs.Prelude.{◌≡◌, ◌≢◌, ◌+◌, ◌-◌, ◌^◌, ◌≤◌, ◌<◌, true, false, length, take, drop, slice_index, IfOk, IfSome, Some};
ghost use Rattle.std.specs.Int.{w32, from_be_bytes};
ghost use Rattle.im_base_disk.specs.Disk.{Answers};
ghost use Rattle.im_base_disk.specs.Runs.{Reads};
ghost use Rattle.im_base_disk.specs.Sums.{is_whole};
ghost use Rattle.im_log_sum_gate.specs.Batches.{shows_at};
ghost use Rattle.im_log_sum_gate.specs.Sealed.{is_within, sum_is, HasLength};

use crate::sealing::digest;
use byteorder::{BigEndian, ByteOrder};
use im_base_disk::Disk;
use im_base_types::{Fault, FileId};
use im_log_third_header::ThirdHeader;

// The gate at this place is 1.
pub(crate) fn is_opened<D: Disk>(disk: &mut D, file: FileId, place: u64) -> Result<bool, Fault>
    requires working { D.failed disk.old ≡ false }
    requires within { D.tells → place < length (D.seen disk.old file) }
    ensures yes { result ≡ Ok true → D.tells → slice_index (D.seen disk.old file) place ≡ 1 }
    ensures no { result ≡ Ok false → D.tells → slice_index (D.seen disk.old file) place ≢ 1 }
    ensures reads { Reads D.Disk disk.old disk.new }
    ensures answers { Answers (D.failed disk.new) result }
{
    let mut gate = [0; 1];
    disk.read(file, place, &mut gate)?;
    Ok(gate[0] == 1)
}

// The number in the last eight bytes of a batch is the digest of what stands in front of them.
fn has_sum(batch: &[u8], salt: &[u8], lsn: u64) -> bool
    requires long { 8 ≤ length batch.now }
    ensures { result ≡ sum_is salt.now lsn batch.now }
{
    let end = batch.len() - 8;
    BigEndian::read_u64(&batch[end..]) == digest(salt, lsn, &batch[..end])
}

// A length of four bytes.
fn length_in(head: &[u8; 4]) -> u32
    ensures { result ≡ from_be_bytes w32 head.now }
{
    u32::from_be_bytes(*head)
}

// How much stands from the gate on.
fn rest_of(size: u64, place: u64) -> u64
    ensures { result ≡ size - place }
{
    size.saturating_sub(place)
}

// A batch of this length and the next gate lie within what stands from the gate on.
fn is_within(size: u32, rest: u64) -> bool
    ensures { result ≡ is_within size rest }
{
    (9 <= size && size <= 16_384) && size as u64 + 5 < rest
}

// The length that stands after the gate, where a batch of that length and the next gate lie within the file.
fn whole_length<D: Disk>(disk: &mut D, file: FileId, place: u64) -> Result<Option<usize>, Fault>
    requires working { D.failed disk.old ≡ false }
    requires within { D.tells → place < length (D.seen disk.old file) }
    requires low { place ≤ 2 ^ 62 }
    ensures size { IfOk result (λ found. IfSome found (λ size. (9 ≤ size) × (size ≤ 16384))) }
    ensures some { IfOk result (λ found. IfSome found (λ size. D.tells → HasLength size (drop (place + 1) (D.seen disk.old file)))) }
    ensures none { result ≡ Ok None → D.tells → is_whole (drop (place + 1) (D.seen disk.old file)) ≡ false }
    ensures reads { Reads D.Disk disk.old disk.new }
    ensures answers { Answers (D.failed disk.new) result }
{
    let size = disk.len(file)?;
    let rest = rest_of(size, place);
    if rest < 15 {
        return Ok(None);
    }
    let mut head = [0; 4];
    disk.read(file, place + 1, &mut head)?;
    let length = length_in(&head);
    let whole = is_within(length, rest);
    if !whole {
        return Ok(None);
    }
    Ok(Some(length as usize))
}

// The batch behind a gate of 1, where one counts there: it comes to stand at the front of the buffer, from the gate to the sum, and its records have so many bytes.
pub(crate) fn batch_at<D: Disk>(
    disk: &mut D,
    file: FileId,
    place: u64,
    header: &ThirdHeader,
    buffer: &mut [u8],
) -> Result<Option<usize>, Fault>
    requires working { D.failed disk.old ≡ false }
    requires within { D.tells → place < length (D.seen disk.old file) }
    requires opened { D.tells → slice_index (D.seen disk.old file) place ≡ 1 }
    requires low { place ≤ 2 ^ 62 }
    requires base { header.now.start.base ≤ 2 ^ 62 }
    requires room { 16389 ≤ length buffer.old }
    ensures size { IfOk result (λ found. IfSome found (λ size. (1 ≤ size) × (size ≤ 16376))) }
    ensures some { IfOk result (λ found. IfSome found (λ size. D.tells → shows_at header.now place (D.seen disk.old file) ≡ Some (take size (drop 5 buffer.new)))) }
    ensures none { result ≡ Ok None → D.tells → shows_at header.now place (D.seen disk.old file) ≡ None }
    ensures buffer { length buffer.new ≡ length buffer.old }
    ensures reads { Reads D.Disk disk.old disk.new }
    ensures answers { Answers (D.failed disk.new) result }
{
    let Some(size) = whole_length(disk, file, place)? else {
        return Ok(None);
    };
    let batch = &mut buffer[..size + 5];
    disk.read(file, place, batch)?;
    let fits = has_sum(batch, &header.salt, header.start.base + place);
    if !fits {
        return Ok(None);
    }
    Ok(Some(size - 8))
}
