//! The steps of which the protocols above are made. No other function of the store calls a disk to write.
ghost use Rattle.std.specs.Prelude.{◌≡◌, ◌+◌, ◌≤◌, ◌<◌, ◌⊎◌, ◌↔◌, true, false, length, take, drop, IfOk, IfErr, OnOk};
ghost use Rattle.im_base_disk.specs.Disk.{Files, Only, Stepped, Follows, InFile, Holds, Torn, Unforged, Answers};
ghost use Rattle.im_base_disk.specs.Runs.{LeavesOnly, ChangesOnly, Reads, Costs};
ghost use Rattle.im_base_disk.specs.Ends.{CostsUpTo, WritesIn};
ghost use Rattle.im_base_disk.specs.Sums.{shows_in};
ghost use Rattle.im_base_types.specs.declared.fault.Fault.TheVariants.{Device, Memory};

use crate::Disk;
use im_base_types::{Fault, FileId};
use std::alloc::Global;

/// Writes and syncs, two device calls. A stop within leaves any bytes in the range; where no stop forges a sum,
/// none that show a batch which the file had not, and would not have by the whole write.
pub fn write_synced<D: Disk>(disk: &mut D, file: FileId, at: u64, bytes: &[u8]) -> Result<(), Fault>
    requires working { D.failed disk.old ≡ false }
    requires place { D.tells → at ≤ length (D.seen disk.old file) }
    ensures written { OnOk result (D.tells → Holds at bytes.now (D.seen disk.old file) (D.seen disk.new file)) }
    ensures durable { OnOk result (Only file (D.seen disk.new) (D.may_leave disk.new)) }
    ensures writes { WritesIn D.Disk file (Torn at (length bytes.now)) disk.old disk.new }
    ensures unforged { D.sums → WritesIn D.Disk file (Unforged (shows_in file) at bytes.now) disk.old disk.new }
    ensures costs { CostsUpTo D.Disk 1 1 disk.old disk.new result }
    ensures answers { Answers (D.failed disk.new) result }
{
    disk.write_at(file, at, bytes)?;
    disk.sync(file)?;
    Ok(())
}

/// Writes without a sync, one device call. A stop within leaves any bytes in the range.
pub fn write<D: Disk>(disk: &mut D, file: FileId, at: u64, bytes: &[u8]) -> Result<(), Fault>
    requires working { D.failed disk.old ≡ false }
    requires place { D.tells → at ≤ length (D.seen disk.old file) }
    ensures written { OnOk result (D.tells → Holds at bytes.now (D.seen disk.old file) (D.seen disk.new file)) }
    ensures crash { Follows (InFile file (Torn at (length bytes.now))) (D.may_leave disk.old) (D.may_leave disk.new) }
    ensures changes { ChangesOnly D.Disk file disk.old disk.new }
    ensures any_moment { LeavesOnly D.Disk disk.old disk.new (Stepped (InFile file (Torn at (length bytes.now))) (D.may_leave disk.old)) }
    ensures costs { Costs D.Disk 1 0 disk.old disk.new }
    ensures answers { Answers (D.failed disk.new) result }
{
    disk.write_at(file, at, bytes)
}

/// Syncs, one device call. A stop within leaves what it might have left before.
pub fn sync<D: Disk>(disk: &mut D, file: FileId) -> Result<(), Fault>
    requires working { D.failed disk.old ≡ false }
    ensures durable { OnOk result (Only file (D.seen disk.new) (D.may_leave disk.new)) }
    ensures seen { D.seen disk.new ≡ D.seen disk.old }
    ensures outcomes { (c : Files) → D.may_leave disk.new c → D.may_leave disk.old c }
    ensures any_moment { LeavesOnly D.Disk disk.old disk.new (D.may_leave disk.old) }
    ensures costs { Costs D.Disk 0 1 disk.old disk.new }
    ensures answers { Answers (D.failed disk.new) result }
{
    disk.sync(file)
}

/// Reads from the place on until the buffer is full. No device call.
pub fn read_into<D: Disk>(disk: &mut D, file: FileId, at: u64, buf: &mut [u8]) -> Result<(), Fault>
    requires working { D.failed disk.old ≡ false }
    requires within { D.tells → at + length buf.old ≤ length (D.seen disk.old file) }
    ensures read { OnOk result (D.tells → buf.new ≡ take (length buf.old) (drop at (D.seen disk.old file))) }
    ensures reads { Reads D.Disk disk.old disk.new }
    ensures answers { Answers (D.failed disk.new) result }
{
    disk.read(file, at, buf)
}

/// Reads so many bytes into a `Vec` of their own. No device call. Refused `Memory` or `Device`.
pub fn read_vec<D: Disk>(
    alloc: Global,
    disk: &mut D,
    file: FileId,
    at: u64,
    size: usize,
) -> Result<Vec<u8>, Fault>
    requires working { D.failed disk.old ≡ false }
    requires within { D.tells → at + size ≤ length (D.seen disk.old file) }
    ensures read { IfOk result (λ bytes. D.tells → bytes.items ≡ take size (drop at (D.seen disk.old file))) }
    ensures reads { Reads D.Disk disk.old disk.new }
    ensures causes { IfErr result (λ e. (e ≡ Memory) ⊎ (e ≡ Device)) }
    ensures device { result ≡ Err Device ↔ (D.failed disk.new ≡ true) }
{
    let mut bytes = vec![in alloc; 0; size].map_err(|_| Fault::Memory)?;
    disk.read(file, at, &mut bytes)?;
    Ok(bytes)
}
