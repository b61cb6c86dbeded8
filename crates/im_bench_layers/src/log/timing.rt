//! How long the works take.

ghost use Rattle.std.specs.Prelude.{◌≡◌, false, OnOk};
ghost use Rattle.im_base_disk.specs.Runs.{IsSynced};
ghost use Rattle.im_log.specs.LogFile.{IsOpen};

use crate::log::work::{BATCH, append_many, copy_by_hand, force_many, put_by_hand, read_many};
use anyhow::Result;
use im_base_disk::Disk;
use im_base_model_disk::ModelDisk;
use im_base_types::LONGEST_BATCH;
use im_log::{LogFile, open_or_create};
use std::time::Instant;

// So many records are copied, forced one by one, and read.
const MANY: u64 = 100_000;

// The nanoseconds since the start, for each of so many.
fn nanos_each(rt: &HostRuntime, start: &Instant, count: u64) -> Result<u128> {
    Ok(start.elapsed(rt)?.as_nanos() / u128::from(count.max(1)))
}

// The nanoseconds of an append, where the buffer is filled so often; the forces between are not counted.
fn append_nanos<D: Disk>(
    rt: &HostRuntime,
    log: &mut LogFile,
    disk: &mut D,
    batches: u64,
) -> Result<u128>
    requires ready { IsOpen D.Disk log.old disk.old }
    ensures ready { IsOpen D.Disk log.new disk.new }
{
    let mut nanos: u128 = 0;
    for _batch in 0..batches {
        let start = Instant::now(rt)?;
        append_many(log, disk, BATCH)?;
        nanos = nanos.saturating_add(start.elapsed(rt)?.as_nanos());
        log.force(disk)?;
    }
    Ok(nanos / u128::from(batches.saturating_mul(BATCH).max(1)))
}

// The nanoseconds of a read of a durable record, and of a waiting one.
fn read_nanos<D: Disk>(
    rt: &HostRuntime,
    log: &LogFile,
    disk: &mut D,
    durable: u64,
) -> Result<(u128, u128)>
    requires ready { IsOpen D.Disk log.now disk.old }
    ensures ready { OnOk result (IsOpen D.Disk log.now disk.new) }
{
    let mut room = vec![in rt.alloc(); 0; LONGEST_BATCH]?;
    let start = Instant::now(rt)?;
    read_many(log, disk, &mut room, 0, durable, MANY)?;
    let from_file = nanos_each(rt, &start, MANY)?;
    let start = Instant::now(rt)?;
    read_many(log, disk, &mut room, durable, BATCH, MANY)?;
    Ok((from_file, nanos_each(rt, &start, MANY)?))
}

// Prints the times of a new log's calls.
fn print_log_times<D: Disk>(rt: &HostRuntime, disk: &mut D, batches: u64) -> Result<()>
    requires working { D.failed disk.old ≡ false }
    requires synced { IsSynced D.Disk disk.old }
{
    let mut log = open_or_create(rt.alloc(), disk, 1)?;
    print_times_of(rt, &mut log, disk, batches)
}

// Prints the times of the calls of a log that is open.
fn print_times_of<D: Disk>(
    rt: &HostRuntime,
    log: &mut LogFile,
    disk: &mut D,
    batches: u64,
) -> Result<()>
    requires ready { IsOpen D.Disk log.old disk.old }
{
    let append = append_nanos(rt, log, disk, batches)?;
    append_many(log, disk, BATCH)?;
    let (durable, waiting) = read_nanos(rt, log, disk, batches.saturating_mul(BATCH))?;
    println!(rt;
        "{batches} batches: a record is appended in {append} ns, read from the buffer in {waiting} and from the file in {durable}"
    )?;
    Ok(())
}

// Prints the time of forces, each of one record, in a new log that has so many batches.
fn print_force_times<D: Disk>(rt: &HostRuntime, disk: &mut D, batches: u64) -> Result<()>
    requires working { D.failed disk.old ≡ false }
    requires synced { IsSynced D.Disk disk.old }
{
    let mut log = open_or_create(rt.alloc(), disk, 1)?;
    append_nanos(rt, &mut log, disk, batches)?;
    let start = Instant::now(rt)?;
    force_many(&mut log, disk, MANY)?;
    let forced = nanos_each(rt, &start, MANY)?;
    println!(rt; "{batches} batches: a record is appended and forced in {forced} ns")?;
    Ok(())
}

/// Prints the times of one record in a log of so many batches.
pub fn print_times(rt: &HostRuntime, batches: u64) -> Result<()> {
    let alloc = rt.alloc();
    let mut disk = ModelDisk::new(Vec::new(alloc), Vec::new(alloc));
    print_log_times(rt, &mut disk, batches)?;
    let mut disk = ModelDisk::new(Vec::new(alloc), Vec::new(alloc));
    print_force_times(rt, &mut disk, batches)
}

/// Prints the times of the same bytes copied, and put by the same device calls.
pub fn print_hand_times(rt: &HostRuntime) -> Result<()> {
    let mut room = [0; LONGEST_BATCH];
    let start = Instant::now(rt)?;
    let at = copy_by_hand(&[0x5a; 50], &mut room, MANY);
    let copied = nanos_each(rt, &start, MANY)?;
    let put = hand_put_nanos(rt)?;
    println!(rt;
        "by hand: a record is copied in {copied} ns (up to place {at}), its bytes are put by four device calls in {put}"
    )?;
    Ok(())
}

// The nanoseconds of a record's device calls.
fn hand_put_nanos(rt: &HostRuntime) -> Result<u128> {
    let alloc = rt.alloc();
    let start = Instant::now(rt)?;
    let mut disk = ModelDisk::new(Vec::new(alloc), Vec::new(alloc));
    put_by_hand(&mut disk, MANY)?;
    nanos_each(rt, &start, MANY)
}
