//! The bytes of a log of one insert that was committed.
ghost use Rattle.std.specs.Prelude.{◌≡◌, ◌≤◌, false, length, OnOk};
ghost use Rattle.im_base_disk.specs.Runs.{IsSynced};
ghost use Rattle.im_log.specs.LogFile.{IsOpen};

use im_base_disk::{Disk, read_vec};
use im_base_model_disk::{Fill, Length, ModelDisk, Stop};
use im_base_types::{Fault, FileId, LONGEST_BATCH, PAGE_SIZE, PageNo};
use im_log::{LogFile, open_or_create};
use im_log_record::Record;
use std::alloc::Global;
use std::test::Fail;

// Opens or makes a log, adds an insert and a commit to it and forces them. It answers the log's end.
fn commit_once<D: Disk>(alloc: Global, disk: &mut D) -> Result<u64, Fault>
    requires working { D.failed disk.old ≡ false }
    requires synced { IsSynced D.Disk disk.old }
    ensures works { OnOk result (D.failed disk.new ≡ false) }
{
    let mut log = open_or_create(alloc, disk, 1)?;
    let insert = Record::InsertKey {
        transaction: 1,
        prev: 0,
        page: 1,
        key: b"a",
        rid: 7,
    };
    let lsn = log.append(disk, &insert)?;
    let commit = Record::Commit {
        transaction: 1,
        prev: lsn,
    };
    log.append(disk, &commit)?;
    log.force(disk)?;
    Ok(log.durable_end())
}

// The file of the log has these bytes, and zeros after them, so many bytes in all.
fn is_log<D: Disk>(alloc: Global, disk: &mut D, expected: &[u8], size: usize) -> Result<bool, Fault>
    requires { D.failed disk.old ≡ false }
{
    if disk.len(FileId::Log)? != size as u64 {
        return Ok(false);
    }
    let found = read_vec(alloc, disk, FileId::Log, 0, size)?;
    Ok(match found.strip_prefix(expected) {
        Some(behind) => behind.iter().all(|byte| *byte == 0),
        None => false,
    })
}

#[test]
fn one_insert_and_commit_are_129_bytes(rt: HostRuntime) -> Result<(), Fail> {
    let alloc = rt.alloc();
    let mut disk = ModelDisk::new(Vec::new(alloc), Vec::new(alloc));
    assert!(rt; commit_once(alloc, &mut disk)? == 128);
    let expected =
        *b"\x01ARIESIM2\0\0\x10\0\0\0\0\0\0\0\0\0\0\0\x01\0\0\0\0\0\0\0\0\0\0\0\0\0\0\0\x01\0\0\0\0\0\0\0\x01\0\0\0\x4c\0\0\0\x2b\x01\0\0\0\0\0\0\0\x01\0\0\0\0\0\0\0\0\0\0\0\0\0\0\0\0\0\0\0\x01\x01a\0\0\0\0\0\0\0\x07\0\0\0\x21\x08\0\0\0\0\0\0\0\x01\0\0\0\0\0\0\0\x34\0\0\0\0\0\0\0\0\0\0\0\0\0";
    // The first batch makes the file longer by the room of a batch, from after its gate on.
    assert!(rt; is_log(alloc, &mut disk, &expected, 48 + 16_389)?);
    Ok(())
}

// An Image joins a log, and is read again before a force.
fn add_image<D: Disk>(
    disk: &mut D,
    log: &mut LogFile,
    page: PageNo,
    room: &mut [u8],
) -> Result<(), Fault>
    requires ready { IsOpen D.Disk log.old disk.old }
    requires room { 16384 ≤ length room.old }
    ensures ready { OnOk result (IsOpen D.Disk log.new disk.new) }
    ensures room { length room.new ≡ length room.old }
{
    let bytes = [7; PAGE_SIZE];
    let image = Record::Image {
        page,
        bytes: &bytes,
    };
    let lsn = log.append(disk, &image)?;
    let size = log.read_at(disk, lsn, room)?;
    if size != 4_129 {
        return Err(Fault::NotAStore);
    }
    Ok(())
}

fn add_five<D: Disk>(
    disk: &mut D,
    log: &mut LogFile,
    page: PageNo,
    room: &mut [u8],
) -> Result<(), Fault>
    requires ready { IsOpen D.Disk log.old disk.old }
    requires room { 16384 ≤ length room.old }
    ensures ready { OnOk result (IsOpen D.Disk log.new disk.new) }
    ensures room { length room.new ≡ length room.old }
{
    add_image(disk, log, page, room)?;
    add_image(disk, log, page, room)?;
    add_image(disk, log, page, room)?;
    add_image(disk, log, page, room)?;
    add_image(disk, log, page, room)
}

// Twenty Images join a log with a buffer of so many batches, before one force. It answers the log's end.
fn fill<D: Disk>(alloc: Global, disk: &mut D, batches: usize) -> Result<u64, Fault>
    requires working { D.failed disk.old ≡ false }
    requires synced { IsSynced D.Disk disk.old }
    requires few { (1 ≤ batches) × (batches ≤ 64) }
    ensures works { OnOk result (D.failed disk.new ≡ false) }
{
    let mut log = open_or_create(alloc, disk, batches)?;
    let Ok(mut room) = vec![in alloc; 0; LONGEST_BATCH] else {
        return Err(Fault::Memory);
    };
    add_five(disk, &mut log, 1, &mut room)?;
    add_five(disk, &mut log, 2, &mut room)?;
    add_five(disk, &mut log, 3, &mut room)?;
    add_five(disk, &mut log, 4, &mut room)?;
    log.force(disk)?;
    Ok(log.durable_end())
}

// How many device calls that takes, and where the log ends then.
fn filled(alloc: Global, batches: usize) -> Result<(u64, u64), Fault>
    requires few { (1 ≤ batches) × (batches ≤ 64) }
{
    let mut disk = ModelDisk::new(Vec::new(alloc), Vec::new(alloc));
    let end = fill(alloc, &mut disk, batches)?;
    Ok((disk.calls(), end))
}

#[test]
fn a_buffer_of_several_batches_is_forced_at_once(rt: HostRuntime) -> Result<(), Fail> {
    assert!(rt; filled(rt.alloc(), 1)? == (6 + 28, 82_662));
    assert!(rt; filled(rt.alloc(), 2)? == (6 + 16, 82_662));
    assert!(rt; filled(rt.alloc(), 64)? == (6 + 4, 82_662));
    Ok(())
}

// Where the log ends after a stop in this call.
fn left_by(alloc: Global, stop: Stop) -> Result<u64, Fault> {
    let mut disk = ModelDisk::new(Vec::new(alloc), Vec::new(alloc));
    disk.arm(stop);
    let _ = fill(alloc, &mut disk, 64);
    let mut left = disk.after_stop(alloc)?;
    end_of(alloc, &mut left)
}

// Where the log of a disk ends.
fn end_of<D: Disk>(alloc: Global, disk: &mut D) -> Result<u64, Fault>
    requires working { D.failed disk.old ≡ false }
    requires synced { IsSynced D.Disk disk.old }
{
    let log = open_or_create(alloc, disk, 1)?;
    Ok(log.durable_end())
}

#[test]
fn a_stop_leaves_none_of_them_or_all(rt: HostRuntime) -> Result<(), Fail> {
    let alloc = rt.alloc();
    for call in 7..12 {
        for kind in 0..4 {
            let length = if kind % 2 == 0 {
                Length::Long
            } else {
                Length::Short
            };
            let byte = if kind < 2 { 0 } else { 1 };
            let fill = Fill::Bytes(vec![in alloc; byte; 1]?);
            let end = left_by(alloc, Stop { call, length, fill })?;
            assert!(rt; end == 47 || end == 82_662);
            assert!(rt; call < 11 || end == 82_662);
        }
    }
    Ok(())
}
