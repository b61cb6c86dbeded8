//! The calls of a writer of pages over a model disk: gets of a held page, logged changes of a leaf, and flushes of it.
//!
//! Without words it does each work a few times and prints how many device calls that took, the same each run. With
//! `--time` it prints the nanoseconds of each call beside them.

mod work;

use crate::figures::is_timed;
use anyhow::Result;
use im_base_model_disk::ModelDisk;
use im_base_types::Fault;
use std::time::Instant;
use work::{Work, worked};

/// A work, its line's name, and how often it is done where it is timed.
const WORKS: [(Work, &str, u64); 3] = [
    (Work::Get, "get of a held page", 2_000_000),
    (Work::Change, "logged change of a leaf", 1_000_000),
    (Work::Flush, "change, flush and sync", 100_000),
];

/// Each work in turn: its device calls, or its times beside them.
pub fn run(rt: &HostRuntime, words: &[String]) -> Result<()> {
    let timed = is_timed(words);
    for (work, name, many) in WORKS {
        let rounds = if timed { many } else { 100 };
        show(rt, work, name, rounds, timed)?;
    }
    Ok(())
}

/// One line: how many device calls so many rounds took, and how long each.
fn show(rt: &HostRuntime, work: Work, name: &str, rounds: u64, timed: bool) -> Result<()> {
    let start = Instant::now(rt)?;
    let calls = counted(rt, work, rounds)?;
    let nanos = start.elapsed(rt)?.as_nanos() / u128::from(rounds.max(1));
    if timed {
        println!(rt; "{name}: {rounds} rounds, {calls} device calls, {nanos} ns each")?;
    } else {
        println!(rt; "{name}: {rounds} rounds, {calls} device calls")?;
    }
    Ok(())
}

/// The device calls of so many rounds, and of the opening and the first change before them.
fn counted(rt: &HostRuntime, work: Work, rounds: u64) -> Result<u64, Fault> {
    let alloc = rt.alloc();
    let mut disk = ModelDisk::new(Vec::new(alloc), Vec::new(alloc));
    worked(alloc, &mut disk, work, rounds)?;
    Ok(disk.calls())
}
