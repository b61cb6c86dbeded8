//! A disk that was handed back is brought to where its store can be opened again.

ghost use Rattle.std.specs.Prelude.{◌≡◌, false, OnOk};
ghost use Rattle.im_base_types.specs.declared.file_id.FileId.TheVariants.{Log, Pages};
ghost use Rattle.im_base_disk.specs.Disk.{Files, Answers, Only};
ghost use Rattle.im_base_disk.specs.Runs.{IsSynced, LeavesOnly};

use im_base_disk::Disk;
use im_base_types::{Fault, FileId};

/// Brings the files of a disk to the disk itself, so that its store may be opened again: what an engine or a life hands back (`into_disk`,
/// `live`), or an opening that was refused, need not be. Nothing that reads is changed, and a stop leaves nothing that it might not have
/// left before; so the files stand for what a stop after the last reply leaves. A disk whose last call failed takes no further call, this
/// one neither: its files are opened anew.
///
/// Refused `Device`.
pub fn sync_files<D: Disk>(disk: &mut D) -> Result<(), Fault>
    requires working { D.failed disk.old ≡ false }
    ensures synced { OnOk result (IsSynced D.Disk disk.new) }
    ensures seen { D.seen disk.new ≡ D.seen disk.old }
    ensures outcomes { (c : Files) → D.may_leave disk.new c → D.may_leave disk.old c }
    ensures stops { LeavesOnly D.Disk disk.old disk.new (D.may_leave disk.old) }
    ensures answers { Answers (D.failed disk.new) result }
{
    sync_used(disk)?;
    disk.sync(FileId::Log2)
}

// The log, and then the pages.
fn sync_used<D: Disk>(disk: &mut D) -> Result<(), Fault>
    requires working { D.failed disk.old ≡ false }
    ensures synced { OnOk result (Only Log (D.seen disk.new) (D.may_leave disk.new) × Only Pages (D.seen disk.new) (D.may_leave disk.new)) }
    ensures seen { D.seen disk.new ≡ D.seen disk.old }
    ensures outcomes { (c : Files) → D.may_leave disk.new c → D.may_leave disk.old c }
    ensures stops { LeavesOnly D.Disk disk.old disk.new (D.may_leave disk.old) }
    ensures answers { Answers (D.failed disk.new) result }
{
    disk.sync(FileId::Log)?;
    disk.sync(FileId::Pages)
}
