//! The works that are timed.

ghost use Rattle.std.specs.Prelude.{◌≡◌, ◌≤◌, false, length, OnOk};
ghost use Rattle.im_base_disk.specs.Runs.{IsSynced};
ghost use Rattle.im_log.specs.LogFile.{IsOpen};

use crate::places::FIRST_GATE;
use im_base_disk::Disk;
use im_base_types::{Fault, FileId, LONGEST_BATCH, Lsn};
use im_log::{LogFile, open_or_create};
use im_log_record::Record;
use std::alloc::Global;

/// The bytes of one record.
pub const RECORD: usize = 50;

/// So many records fill the buffer of a log.
pub const BATCH: u64 = 327;

/// The LSN of the record of this number, from 0, where each batch is full: the header stands in front of the first gate, and
/// 5 bytes in front of the records of each batch.
pub fn lsn_of(number: u64) -> Lsn {
    let batch = number / BATCH;
    let place = number % BATCH * 50;
    batch
        .saturating_mul(16_355)
        .saturating_add(FIRST_GATE as u64 + 5 + place)
}

// Appends the insert of a key of eight bytes, and answers its LSN.
fn append_one<D: Disk>(
    log: &mut LogFile,
    disk: &mut D,
    prev: Lsn,
    number: u64,
) -> Result<Lsn, Fault>
    requires ready { IsOpen D.Disk log.old disk.old }
    ensures ready { IsOpen D.Disk log.new disk.new }
{
    let key = number.to_be_bytes();
    let record = Record::InsertKey {
        transaction: 1,
        prev,
        page: 1,
        key: &key,
        rid: number,
    };
    log.append(disk, &record)
}

/// Appends so many records, and answers the LSN of the last.
pub fn append_many<D: Disk>(log: &mut LogFile, disk: &mut D, count: u64) -> Result<Lsn, Fault>
    requires ready { IsOpen D.Disk log.old disk.old }
    ensures ready { IsOpen D.Disk log.new disk.new }
{
    let mut last = 0;
    for number in 0..count {
        last = append_one(log, disk, last, number)?;
    }
    Ok(last)
}

/// Appends so many records, each with a force of its own.
pub fn force_many<D: Disk>(log: &mut LogFile, disk: &mut D, count: u64) -> Result<(), Fault>
    requires ready { IsOpen D.Disk log.old disk.old }
    ensures ready { IsOpen D.Disk log.new disk.new }
{
    for _record in 0..count {
        append_many(log, disk, 1)?;
        log.force(disk)?;
    }
    Ok(())
}

/// Reads so many records by their LSNs, of the `all` from this number on, and adds up their lengths.
pub fn read_many<D: Disk>(
    log: &LogFile,
    disk: &mut D,
    room: &mut [u8],
    first: u64,
    all: u64,
    count: u64,
) -> Result<u64, Fault>
    requires room { 16384 ≤ length room.old }
    requires ready { IsOpen D.Disk log.now disk.old }
    ensures room { length room.new ≡ length room.old }
    ensures ready { OnOk result (IsOpen D.Disk log.now disk.new) }
{
    let mut sum: u64 = 0;
    for step in 0..count {
        let number = first.saturating_add(step.wrapping_mul(7_919) % all.max(1));
        let size = log.read_at(disk, lsn_of(number), room)?;
        sum = sum.saturating_add(size as u64);
    }
    Ok(sum)
}

// Reads so many records by their LSNs, from the first on, and adds up their lengths.
fn read_first<D: Disk>(alloc: Global, log: &LogFile, disk: &mut D, count: u64) -> Result<u64, Fault>
    requires ready { IsOpen D.Disk log.now disk.old }
    ensures ready { OnOk result (IsOpen D.Disk log.now disk.new) }
{
    let mut room = vec![in alloc; 0; LONGEST_BATCH].map_err(|_| Fault::Memory)?;
    read_many(log, disk, &mut room, 0, count, count)
}

/// Copies the bytes of one record so many times, one after another into the room, and from its front again where it is
/// full.
pub fn copy_by_hand(record: &[u8; 50], room: &mut [u8; LONGEST_BATCH], count: u64) -> u64 {
    let mut at = 0;
    for _copy in 0..count {
        if at + RECORD > LONGEST_BATCH {
            at = 0;
        }
        room[at..at + RECORD].copy_from_slice(record);
        at += RECORD;
    }
    at as u64
}

/// Makes the four device calls of a force of one record so many times.
pub fn put_by_hand<D: Disk>(disk: &mut D, count: u64) -> Result<(), Fault>
    requires { D.failed disk.old ≡ false }
{
    for _put in 0..count {
        let end = disk.len(FileId::Log)?;
        disk.write_at(FileId::Log, end, &[0x5a; 55])?;
        disk.sync(FileId::Log)?;
        disk.write_at(FileId::Log, end, &[1])?;
        disk.sync(FileId::Log)?;
    }
    Ok(())
}

/// What came of appending so many records, reading each of them and forcing.
#[derive(Drop)]
pub struct Counts {
    pub durable_end: Lsn,
    pub waiting: usize,
    pub read: u64,
    pub end: Lsn,
}

/// Does each work once in a new log.
pub fn counted<D: Disk>(alloc: Global, disk: &mut D, count: u64) -> Result<Counts, Fault>
    requires working { D.failed disk.old ≡ false }
    requires synced { IsSynced D.Disk disk.old }
{
    let mut log = open_or_create(alloc, disk, 1)?;
    counted_in(alloc, &mut log, disk, count)
}

// The same in a log that is open.
fn counted_in<D: Disk>(
    alloc: Global,
    log: &mut LogFile,
    disk: &mut D,
    count: u64,
) -> Result<Counts, Fault>
    requires ready { IsOpen D.Disk log.old disk.old }
{
    append_many(log, disk, count)?;
    let durable_end = log.durable_end();
    let waiting = log.waiting();
    let read = read_first(alloc, log, disk, count)?;
    log.force(disk)?;
    let end = log.durable_end();
    Ok(Counts {
        durable_end,
        waiting,
        read,
        end,
    })
}
