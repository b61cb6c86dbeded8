//! A log that goes on in the other file.
ghost use Rattle.std.specs.Prelude.{◌≡◌, ◌≤◌, false, OnOk, IfOk};
ghost use Rattle.im_log.specs.LogFile.{IsOpen};

use crate::headers::FIRST;
use im_base_disk::Disk;
use im_base_model_disk::{Fill, Length, ModelDisk, Stop};
use im_base_two_logs::{Renamed, TwoLogs};
use im_base_types::{Fault, FileId, Lsn, TxnId};
use im_log::{LogFile, open_or_create};
use im_log_choice::choose;
use im_log_record::Record;
use std::alloc::Global;
use std::test::Fail;

// A commit joins the log, and is forced. It answers its LSN.
pub(crate) fn commit<D: Disk>(
    disk: &mut D,
    log: &mut LogFile,
    transaction: TxnId,
) -> Result<Lsn, Fault>
    requires numbered { 1 ≤ transaction }
    requires ready { IsOpen D.Disk log.old disk.old }
    ensures ready { OnOk result (IsOpen D.Disk log.new disk.new) }
    ensures empty { OnOk result (log.new.used ≡ 0) }
{
    let commit = Record::Commit {
        transaction,
        prev: 0,
    };
    let lsn = log.append(disk, &commit)?;
    log.force(disk)?;
    Ok(lsn)
}

// The log that is current, or a new one.
fn open_current<D: TwoLogs>(alloc: Global, disk: &mut D) -> Result<LogFile, Fault>
    requires working { D.failed disk.old ≡ false }
    ensures ready { IfOk result (λ log. IsOpen D.Disk log disk.new) }
{
    choose(disk)?;
    disk.sync(FileId::Log)?;
    open_or_create(alloc, disk, 1)
}

// A commit joins the log that is current, or a new one, and another the log of the other file, in which it goes on. It answers the LSNs of
// the two.
fn switch_logs<D: TwoLogs>(alloc: Global, disk: &mut D) -> Result<(Lsn, Lsn), Fault>
    requires working { D.failed disk.old ≡ false }
{
    let mut log = open_current(alloc, disk)?;
    let first = commit(disk, &mut log, 1)?;
    log.switch_log(disk, 2)?;
    let second = commit(disk, &mut log, 2)?;
    Ok((first, second))
}

// The generation of a store's log, and where it ends.
fn look<D: TwoLogs>(alloc: Global, disk: &mut D) -> Result<(u64, Lsn), Fault>
    requires working { D.failed disk.old ≡ false }
{
    let log = open_current(alloc, disk)?;
    Ok((log.header().generation, log.durable_end()))
}

// A disk whose log goes on, and the LSNs of its two commits.
fn turned(alloc: Global, disk: ModelDisk) -> (ModelDisk, Result<(Lsn, Lsn), Fault>)
    requires working { ⟦<ModelDisk as Disk>⟧.failed disk ≡ false }
{
    let mut named = Renamed::new(disk, false);
    let told = switch_logs(alloc, &mut named);
    (named.into_disk(), told)
}

// The generation of the log that a stop now leaves, and where it ends.
fn left(alloc: Global, disk: &ModelDisk) -> Result<(u64, Lsn), Fault> {
    let left = disk.after_stop(alloc)?;
    let mut named = Renamed::new(left, false);
    look(alloc, &mut named)
}

#[test]
fn a_log_goes_on_in_the_other_file(rt: HostRuntime) -> Result<(), Fail> {
    let alloc = rt.alloc();
    let (first, told) = turned(alloc, ModelDisk::new(Vec::new(alloc), Vec::new(alloc)));
    // A new log has its first gate at 47; the second log begins where the first one ends, at 85.
    assert!(rt; told? == (52, 137));
    assert!(rt; first.calls() == 1 + 6 + 4 + 6 + 4);
    assert!(rt; left(alloc, &first)? == (2, 170));
    // The file of the first log is used again.
    let (second, told) = turned(alloc, first.after_stop(alloc)?);
    assert!(rt; told? == (175, 260));
    assert!(rt; second.calls() == 1 + 4 + 6 + 4);
    assert!(rt; left(alloc, &second)? == (3, 293));
    Ok(())
}

#[test]
fn a_log_of_the_first_format_goes_on_as_one_of_the_second(rt: HostRuntime) -> Result<(), Fail> {
    let alloc = rt.alloc();
    let log = Vec::from_slice(alloc, &FIRST)?;
    let (disk, told) = turned(alloc, ModelDisk::new(log, Vec::new(alloc)));
    // The first format has its first gate at 31, and the second log begins where the first one ends, at 69.
    assert!(rt; told? == (36, 121));
    assert!(rt; disk.calls() == 1 + 4 + 6 + 4);
    assert!(rt; left(alloc, &disk)? == (2, 154));
    Ok(())
}

// What a stop in this call leaves of a log that goes on.
fn left_by(alloc: Global, stop: Stop) -> Result<(u64, Lsn), Fault> {
    let mut disk = ModelDisk::new(Vec::new(alloc), Vec::new(alloc));
    disk.arm(stop);
    let (disk, _told) = turned(alloc, disk);
    left(alloc, &disk)
}

#[test]
fn a_stop_leaves_the_one_log_or_the_other(rt: HostRuntime) -> Result<(), Fail> {
    let alloc = rt.alloc();
    for call in 12..19 {
        for kind in 0..4 {
            let length = if kind % 2 == 0 {
                Length::Long
            } else {
                Length::Short
            };
            let byte = if kind < 2 { 0 } else { 1 };
            let fill = Fill::Bytes(vec![in alloc; byte; 1]?);
            let log = left_by(alloc, Stop { call, length, fill })?;
            assert!(rt; log == (1, 85) || log == (2, 132));
            assert!(rt; call > 15 || log == (1, 85));
            assert!(rt; call < 18 || log == (2, 132));
        }
    }
    Ok(())
}
