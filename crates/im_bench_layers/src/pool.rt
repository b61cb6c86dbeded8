//! The calls of a pool: gets of held pages, and gets that read.
//!
//! Without words it does each work once and prints what came out, the same each run. With `--time` it prints the
//! nanoseconds of each call. Beside the gets of held pages stand look-ups of a hash map over the same numbers.

mod work;

ghost use Rattle.std.specs.Prelude.{◌≡◌, false};

use crate::figures::{is_timed, show};
use im_base_disk::Disk;
use im_base_model_disk::ModelDisk;
use im_base_types::{Fault, MOST_FRAMES};
use im_page_pool::Pool;
use std::time::Instant;
use work::{cached, file, filled, looked_up, missed};

/// Gets and look-ups: what they add up to, or how long they take.
pub fn run(rt: &HostRuntime, words: &[String]) -> anyhow::Result<()> {
    let timed = is_timed(words);
    let rounds = if timed { 2_000_000 } else { 1_000 };
    show_held(rt, rounds, timed)?;
    show_looked_up(rt, rounds, timed)?;
    show_read(rt, rounds / 10, timed)
}

fn show_held(rt: &HostRuntime, rounds: u64, timed: bool) -> anyhow::Result<()> {
    let start = Instant::now(rt)?;
    let sum = held(rt, rounds)?;
    let nanos = start.elapsed(rt)?.as_nanos();
    show(rt, "get of a held page", sum, nanos, rounds, timed)
}

fn show_looked_up(rt: &HostRuntime, rounds: u64, timed: bool) -> anyhow::Result<()> {
    let start = Instant::now(rt)?;
    let sum = looked_up(rt.alloc(), 1_000, rounds)?;
    let nanos = start.elapsed(rt)?.as_nanos();
    show(rt, "look-up in a hash map", sum, nanos, rounds, timed)
}

fn show_read(rt: &HostRuntime, rounds: u64, timed: bool) -> anyhow::Result<()> {
    let start = Instant::now(rt)?;
    let sum = read(rt, rounds)?;
    let nanos = start.elapsed(rt)?.as_nanos();
    show(rt, "get that reads", sum, nanos, rounds, timed)
}

/// Gets of pages that are all held.
fn held(rt: &HostRuntime, rounds: u64) -> anyhow::Result<u64> {
    let alloc = rt.alloc();
    let mut disk = ModelDisk::new(Vec::new(alloc), file(alloc, 1_000)?);
    let mut pool = Pool::new(alloc, MOST_FRAMES)?;
    Ok(held_in(&mut pool, &mut disk, rounds)?)
}

/// The same in a pool that has room for all of them.
fn held_in<D: Disk>(pool: &mut Pool, disk: &mut D, rounds: u64) -> Result<u64, Fault>
    requires { D.failed disk.old ≡ false }
{
    filled(pool, disk, 1_000)?;
    cached(pool, disk, 1_000, rounds)
}

/// Gets of pages in turn, of which eight are held at most.
fn read(rt: &HostRuntime, rounds: u64) -> anyhow::Result<u64> {
    let alloc = rt.alloc();
    let mut disk = ModelDisk::new(Vec::new(alloc), file(alloc, 1_000)?);
    let mut pool = Pool::new(alloc, 8)?;
    Ok(missed(&mut pool, &mut disk, 1_000, rounds)?)
}
