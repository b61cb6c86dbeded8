//! Which header a file has.

ghost use Rattle.std.specs.Prelude.{◌≡◌, ◌≢◌, ◌↔◌, ◌<◌, true, false, length, take, drop, slice_index, IfOk, IfErr, IfSome};
ghost use Rattle.im_base_types.specs.declared.fault.Fault.TheVariants.{Device, NotAStore};
ghost use Rattle.im_base_disk.specs.Runs.{Reads};
ghost use Rattle.im_base_disk.specs.Ends.{ReadsOr};
ghost use Rattle.im_log_header.specs.Header.{IsUnmade};
ghost use Rattle.im_log_third_header.specs.declared.header.ThirdHeader.{ThirdHeader};
ghost use Rattle.im_log_third_header.specs.Header.{HasHeader, MayStart, third_header};

use crate::header::ThirdHeader;
use crate::spelling::parse;
use im_base_disk::Disk;
use im_base_types::{Fault, FileId};

/// The header of a log of the third format whose first bytes these are; none where there is no such log, or a gate does not stand after the header.
pub fn header_in(head: &[u8]) -> Option<ThirdHeader>
    ensures found { IfSome result (λ h. HasHeader h head.now) }
    ensures none { result ≡ None → (h : ThirdHeader) → ¬ (HasHeader h head.now) }
{
    if head.len() < 48 || head[0] != 1 {
        return None;
    }
    let mut found = [0; 46];
    found.copy_from_slice(&head[1..47]);
    parse(found)
}

// The file's made byte says that it was made.
fn is_made<D: Disk>(disk: &mut D, file: FileId) -> Result<bool, Fault>
    requires { D.failed disk.old ≡ false }
    ensures made { result ≡ Ok true → D.tells → (1 < length (D.seen disk.old file)) × (slice_index (D.seen disk.old file) 0 ≡ 1) }
    ensures unmade { result ≡ Ok false → D.tells → IsUnmade (D.seen disk.old file) }
    ensures reads { Reads D.Disk disk.old disk.new }
    ensures causes { IfErr result (λ e. e ≡ Device) }
    ensures device { result ≡ Err Device ↔ (D.failed disk.new ≡ true) }
{
    if disk.len(file)? <= 1 {
        return Ok(false);
    }
    let mut made = [0; 1];
    disk.read(file, 0, &mut made)?;
    Ok(made[0] == 1)
}

// What bytes 1 to 46 say, where they are a header and a gate stands after it.
fn header_behind<D: Disk>(disk: &mut D, file: FileId) -> Result<Option<ThirdHeader>, Fault>
    requires { D.failed disk.old ≡ false }
    ensures within { IfOk result (λ found. IfSome found (λ h. D.tells → 47 < length (D.seen disk.old file))) }
    ensures header { IfOk result (λ found. IfSome found (λ h. D.tells → take 46 (drop 1 (D.seen disk.old file)) ≡ third_header h)) }
    ensures may { IfOk result (λ found. IfSome found (λ h. MayStart h)) }
    ensures none { result ≡ Ok None → D.tells → 47 < length (D.seen disk.old file) → (h : ThirdHeader) → MayStart h → take 46 (drop 1 (D.seen disk.old file)) ≢ third_header h }
    ensures reads { Reads D.Disk disk.old disk.new }
    ensures causes { IfErr result (λ e. e ≡ Device) }
    ensures device { result ≡ Err Device ↔ (D.failed disk.new ≡ true) }
{
    if disk.len(file)? < 48 {
        return Ok(None);
    }
    let mut found = [0; 46];
    disk.read(file, 1, &mut found)?;
    Ok(parse(found))
}

/// The header of a file's log of the third format; none of a file that is not made. It only reads.
///
/// Refused `NotAStore` where the file is made and has no such header, as one with another sum or of another format, or ends in front of its first gate;
/// `Device`.
pub fn read_third<D: Disk>(disk: &mut D, file: FileId) -> Result<Option<ThirdHeader>, Fault>
    requires working { D.failed disk.old ≡ false }
    ensures unmade { result ≡ Ok None → D.tells → IsUnmade (D.seen disk.old file) }
    ensures made { IfOk result (λ found. IfSome found (λ h. D.tells → HasHeader h (D.seen disk.old file))) }
    ensures may { IfOk result (λ found. IfSome found (λ h. MayStart h)) }
    ensures refused { result ≡ Err NotAStore → D.tells → ¬ (IsUnmade (D.seen disk.old file)) × ((h : ThirdHeader) → ¬ (HasHeader h (D.seen disk.old file))) }
    ensures outcome { ReadsOr D.Disk (λ e. e ≡ NotAStore) disk.old disk.new result }
{
    let made = is_made(disk, file)?;
    if !made {
        return Ok(None);
    }
    let Some(header) = header_behind(disk, file)? else {
        return Err(Fault::NotAStore);
    };
    Ok(Some(header))
}
