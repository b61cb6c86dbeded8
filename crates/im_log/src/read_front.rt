//! A record of the file or of the buffer is brought to the front of a room.

ghost use Rattle.std.specs.Prelude.{◌≡◌, ◌≤◌, false, length, drop, IfErr, IfOk, None};
ghost use Rattle.im_base_types.specs.declared.fault.Fault.TheVariants.{NotAStore};
ghost use Rattle.im_base_types.specs.declared.file_id.FileId.TheVariants.{Log};
ghost use Rattle.im_base_disk.specs.Ends.{ReadsOr};
ghost use Rattle.im_log.specs.Reading.{FitsFront, IsFrontOf};
ghost use Rattle.im_log.specs.Spelled.{first_record};

use crate::front::front_size;
use byteorder::{BigEndian, ByteOrder};
use im_base_disk::Disk;
use im_base_types::{Fault, FileId, LONGEST_BATCH};

const LONGEST: u64 = LONGEST_BATCH as u64;

// Reads the record at this place of the file to the front of the room, and answers its length. It reads the length, and then
// the record.
//
// Refused `NotAStore` where no record can lie there; `Device`.
pub(crate) fn read_front<D: Disk>(disk: &mut D, place: u64, room: &mut [u8]) -> Result<usize, Fault>
    requires room { 16384 ≤ length room.old }
    requires working { D.failed disk.old ≡ false }
    ensures read { IfOk result (λ size. D.tells → IsFrontOf size (drop place (D.seen disk.old Log)) room.new) }
    ensures bounds { IfOk result (λ size. (4 ≤ size) × (size ≤ 16384)) }
    ensures refused { result ≡ Err NotAStore → D.tells → ¬ (FitsFront (drop place (D.seen disk.old Log))) }
    ensures room { length room.new ≡ length room.old }
    ensures outcome { ReadsOr D.Disk (λ e. e ≡ NotAStore) disk.old disk.new result }
{
    let end = disk.len(FileId::Log)?;
    if place > end || end - place < 4 {
        return Err(Fault::NotAStore);
    }
    let mut length = [0; 4];
    disk.read(FileId::Log, place, &mut length)?;
    let size = u64::from(BigEndian::read_u32(&length));
    if size < 4 || size > LONGEST || size > end - place {
        return Err(Fault::NotAStore);
    }
    let found = &mut room[..size as usize];
    disk.read(FileId::Log, place, found)?;
    Ok(size as usize)
}

// Copies the record at the front of these bytes to the front of the room, and answers its length. Refused `NotAStore` where
// there is none.
pub(crate) fn copy_front(bytes: &[u8], room: &mut [u8]) -> Result<usize, Fault>
    requires room { length bytes.now ≤ length room.old }
    ensures copied { IfOk result (λ size. IsFrontOf size bytes.now room.new) }
    ensures bounds { IfOk result (λ size. (4 ≤ size) × (size ≤ length bytes.now)) }
    ensures refused { IfErr result (λ e. (e ≡ NotAStore) × (first_record bytes.now ≡ None)) }
    ensures room { length room.new ≡ length room.old }
{
    let size = front_size(bytes)?;
    room[..size].copy_from_slice(&bytes[..size]);
    Ok(size)
}
