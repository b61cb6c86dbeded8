//! Look-ups in a tree whose pages are made at once, over a writer of pages, and by a transaction's Fetch with its lock.

ghost use Rattle.im_page_writer.specs.PageWriter.{IsReadyWriter};

use crate::tree_pages::{keys_in, tree};
use crate::tree_work::{disk_of, found, found_locked, opened};
use anyhow::Result;
use im_base_disk::Disk;
use im_bench_layers::figures::show_of;
use im_engine_locks::LockTable;
use im_page_writer::PageWriter;
use std::time::Instant;

/// Look-ups in a tree of so many leaves.
pub fn look_up(rt: &HostRuntime, leaves: u32, timed: bool) -> Result<()> {
    let alloc = rt.alloc();
    let mut disk = disk_of(alloc, tree(alloc, leaves)?)?;
    let mut writer = opened(alloc, &mut disk)?;
    looked_up(rt, &mut writer, &mut disk, leaves, timed)
}

// The look-ups, once as they come, and once more beside the clock.
fn looked_up<D: Disk>(
    rt: &HostRuntime,
    writer: &mut PageWriter,
    disk: &mut D,
    leaves: u32,
    timed: bool,
) -> Result<()>
    requires ready { IsReadyWriter D.Disk writer.old disk.old }
{
    let rounds = if timed { 1_000_000 } else { 2_000 };
    let keys = keys_in(leaves);
    println!(rt; "{keys} keys in {leaves} leaves")?;
    found(writer, disk, keys, rounds)?;
    let start = Instant::now(rt)?;
    let sum = found(writer, disk, keys, rounds)?;
    let nanos = start.elapsed(rt)?.as_nanos();
    show_of(rt, "look-up", sum, rounds, nanos, timed)?;
    let mut locks = LockTable::new(rt.alloc());
    let start = Instant::now(rt)?;
    let sum = found_locked(writer, disk, &mut locks, keys, rounds)?;
    let nanos = start.elapsed(rt)?.as_nanos();
    show_of(rt, "look-up with its lock", sum, rounds, nanos, timed)
}
