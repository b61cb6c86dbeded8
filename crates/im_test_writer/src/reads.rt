//! How often an opening reads a log of many short batches.
ghost use Rattle.std.specs.Prelude.{◌≡◌, false, OnOk};
ghost use Rattle.im_base_disk.specs.Runs.{IsSynced};
ghost use Rattle.im_log.specs.LogFile.{IsOpen};

use crate::generations::commit;
use im_base_disk::Disk;
use im_base_model_disk::ModelDisk;
use im_base_types::{Fault, Lsn};
use im_log::{LogFile, open_or_create};
use std::alloc::Global;
use std::test::Fail;

// Four commits join the log, each in a batch of its own.
fn commit_four<D: Disk>(disk: &mut D, log: &mut LogFile) -> Result<(), Fault>
    requires ready { IsOpen D.Disk log.old disk.old }
    ensures ready { OnOk result (IsOpen D.Disk log.new disk.new) }
{
    commit(disk, log, 1)?;
    commit(disk, log, 2)?;
    commit(disk, log, 3)?;
    commit(disk, log, 4)?;
    Ok(())
}

// Makes a log of sixteen batches, and answers where it ends.
fn fill<D: Disk>(alloc: Global, disk: &mut D) -> Result<Lsn, Fault>
    requires working { D.failed disk.old ≡ false }
    requires synced { IsSynced D.Disk disk.old }
{
    let mut log = open_or_create(alloc, disk, 1)?;
    commit_four(disk, &mut log)?;
    commit_four(disk, &mut log)?;
    commit_four(disk, &mut log)?;
    commit_four(disk, &mut log)?;
    Ok(log.durable_end())
}

// Where the log of a disk ends.
fn end_of<D: Disk>(alloc: Global, disk: &mut D) -> Result<Lsn, Fault>
    requires working { D.failed disk.old ≡ false }
    requires synced { IsSynced D.Disk disk.old }
{
    let log = open_or_create(alloc, disk, 1)?;
    Ok(log.durable_end())
}

#[test]
fn an_opening_reads_many_batches_at_once(rt: HostRuntime) -> Result<(), Fail> {
    let alloc = rt.alloc();
    let mut disk = ModelDisk::new(Vec::new(alloc), Vec::new(alloc));
    // A new log has its first gate at 47, and a batch of one commit takes 38 bytes.
    assert!(rt; fill(alloc, &mut disk)? == 655);
    let mut left = disk.after_stop(alloc)?;
    // A length call and three reads for each batch would be 64.
    left.fail_read(16);
    assert!(rt; end_of(alloc, &mut left)? == 655);
    Ok(())
}
