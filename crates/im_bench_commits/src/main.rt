//! `im_bench_commits FOLDER MODE THREADS COMMITS`: threads that commit in one store of real files, and how long they take.
//!
//! So many threads make so many transactions each, of one insert: a key of 16 bytes, rising within each thread, and a row id. The folder is one that has no
//! store yet. The mode says who makes the forces: `group`, in a store with group commit, ends each transaction by `commit`; `alone` does so in a store
//! without; `own` asks for the Commit in a store with group commit and makes a force after it, each thread for itself. One line is printed, with the
//! commits a second and the forces. Without words four threads commit in each mode, in a folder that is removed then, and the entries that are there are
//! counted: the same each time.
//!
//! `crates/im_bench/peer/commits.cc` does the same work by LMDB, SQLite, Berkeley DB, WiredTiger and RocksDB, and prints the same line;
//! `crates/im_bench/peer/commits.py` runs both in turn and prints tables. The first lines of each say how.
//!
//! # Figures
//!
//! Five rounds on ext4, four cores, a load of 8 to 13 from proofs beside; a write of 4 KiB with its sync took 4 ms, now and then 0.1 to 3. Commits a second,
//! the middle of the rounds, and of our store the forces a commit:
//!
//! | Threads | 1 | 4 | 16 | 64 |
//! |---|---|---|---|---|
//! | `group` | 201, 1.00 | 615, 0.31 | 3,073, 0.07 | 11,906, 0.02 |
//! | `alone` | 168, 1.00 | 153, 1.00 | 184, 1.00 | 180, 1.00 |
//! | `own` | 354, 1.00 | 143, 1.00 | 273, 1.00 | 179, 1.00 |
//! | LMDB 0.9.24 | 145 | 168 | 264 | 219 |
//! | SQLite 3.40.1, WAL | 315 | 268 | 406 | 396 |
//! | Berkeley DB 5.3.28 | 256 | 536 | 2,246 | 6,392 |
//! | WiredTiger 3.2.1 | 274 | 739 | 1,945 | 4,641 |
//! | RocksDB 7.8.3 | 339 | 664 | 5,835 | 39,927 |
//!
//! How many times as fast `group` was, in the middle of the rounds:
//!
//! | Threads | 1 | 4 | 16 | 64 |
//! |---|---|---|---|---|
//! | `alone` | 1.08 | 3.76 | 18.1 | 61.9 |
//! | `own` | 0.86 | 4.30 | 15.7 | 56.4 |
//! | LMDB | 1.16 | 3.48 | 15.7 | 51.5 |
//! | SQLite | 0.66 | 1.90 | 7.61 | 30.1 |
//! | Berkeley DB | 0.81 | 1.31 | 1.52 | 1.74 |
//! | WiredTiger | 0.69 | 0.63 | 1.44 | 2.11 |
//! | RocksDB | 0.53 | 0.73 | 0.59 | 0.25 |
//!
//! One thread alone makes the same calls in all three modes, and what a sync takes decides: ten rounds more gave 1.36 of `own` and 1.17 of `alone`. In a
//! folder in memory, 15 rounds of 3,000 commits, `group` had 1.00 of `own` and 0.98 of `alone`, some 3.7 us a commit. A `call` of a front that nobody else
//! uses took 257 ns at the least of 54 runs, and 250 without the count of callers that are awake, by which the last of them forces for all.
//!
//! A force of ours makes two syncs, by the format; SQLite, Berkeley DB, WiredTiger and RocksDB make one. LMDB and SQLite have one writer.
#![tactic(auto)]

mod asked;
mod work;

use anyhow::{Result, bail};
use asked::{Asked, Mode, asked_by};
use im_base_types::Fault;
use im_engine::{BufferSize, Config, Engine, MoreFrames};
use im_front::{Left, Open, Rested};
use im_open::{Files, open};
use im_theory_store_trait::Store;
use std::alloc::Global;
use std::sync::Wait;
use std::thread::Threads;
use std::time::{Clock, Instant};
use std::{env, fs};
use work::{Spent, work_all};

/// The folder of the runs without words.
const FOLDER: &str = "im_bench_commits_files";

/// All modes.
static MODES: [Mode; 3] = [Mode::Group, Mode::Alone, Mode::Own];

fn main(rt: HostRuntime) -> Result<()> {
    let words: Vec<String> = env::args(&rt)?.collect(rt.alloc())?;
    if words.len() < 2 {
        return run_all(&rt, &rt);
    }
    match asked_by(words.as_slice()) {
        Some(asked) => run(&rt, &rt, words[1].as_str(), asked),
        None => bail!("im_bench_commits FOLDER group|alone|own THREADS COMMITS"),
    }
}

// A few commits in each mode, and how many entries are there then.
fn run_all<R: Threads + Wait + Clock + Sync>(rt: &HostRuntime, threads: &R) -> Result<()> {
    for mode in &MODES {
        let asked = Asked {
            mode: *mode,
            threads: 4,
            commits: 25,
        };
        let done = measured(rt, threads, FOLDER, asked)?;
        fs::remove_dir_all(rt, FOLDER)?;
        println!(rt;
            "{}: {} commits, {} entries",
            mode.name(),
            done.spent.commits,
            done.entries
        )?;
    }
    Ok(())
}

// A run, and its line.
fn run<R: Threads + Wait + Clock + Sync>(
    rt: &HostRuntime,
    threads: &R,
    folder: &str,
    asked: Asked,
) -> Result<()> {
    print_line(rt, asked, measured(rt, threads, folder, asked)?)
}

// What a run did: what its threads did, the nanoseconds that it took, the steps that the front made, and the entries that are there.
#[derive(Clone, Copy)]
struct Done {
    spent: Spent,
    nanos: u128,
    made: u64,
    entries: usize,
}

// The limits of the store.
fn config_of(mode: Mode) -> Config {
    Config {
        frames: 1_024,
        more: MoreFrames::NONE,
        max_pages: 1_000_000,
        buffer: BufferSize::OVER_FILES,
        stepped: false,
        dense: false,
        group: mode.groups(),
        workers: 1,
    }
}

// Lets a store go for which there is no front.
fn let_go(_at_rest: Rested<Engine<Files>>) {}

// Opens the store, and lets all threads commit. Threads are started, and waited for, by `threads` alone.
fn measured<R: Threads + Wait + Clock + Sync>(
    rt: &HostRuntime,
    threads: &R,
    folder: &str,
    asked: Asked,
) -> Result<Done> {
    let front = match Open::new(
        rt.alloc(),
        open(rt, threads, folder, config_of(asked.mode))?,
    ) {
        Ok(front) => front,
        Err((fault, at_rest)) => {
            let_go(at_rest);
            return Err(anyhow::Error::from(fault));
        },
    };
    let told = measure_on(threads, rt.alloc(), &front, asked);
    let (made, entries) = close(rt.alloc(), front.close())?;
    let (spent, nanos) = told?;
    Ok(Done {
        spent,
        nanos,
        made,
        entries,
    })
}

// What all threads did, and the nanoseconds that it took.
fn measure_on<E: Store + Send, R: Threads + Wait + Clock + Sync>(
    rt: &R,
    alloc: Global,
    front: &Open<E>,
    asked: Asked,
) -> Result<(Spent, u128)> {
    let start = Instant::now(rt)?;
    let spent = work_all(rt, alloc, front, asked)?;
    let nanos = start.elapsed(rt)?.as_nanos();
    Ok((spent, nanos))
}

// Closes the store. How many steps it made, and how many entries it has.
fn close(alloc: Global, left: Left<Engine<Files>>) -> Result<(u64, usize), Fault> {
    let Left {
        mut engine,
        made,
        ..
    } = left;
    let entries = engine.entries(alloc)?.len();
    let (synced, _disk) = engine.close();
    synced?;
    Ok((made, entries))
}

// The line: in a store with group commit each step that no thread has asked for is a force, in one without each Commit forces.
fn print_line(rt: &HostRuntime, asked: Asked, done: Done) -> Result<()> {
    let spent = done.spent;
    let forces = match asked.mode {
        Mode::Group => done.made.saturating_sub(spent.steps),
        Mode::Alone => spent.commits,
        Mode::Own => spent.forces,
    };
    let rate = u128::from(spent.commits) * 1_000_000_000 / done.nanos.max(1);
    println!(rt;
        "{} {} threads: {} commits in {} ms, {rate} a second, {forces} forces",
        asked.mode.name(),
        asked.threads,
        spent.commits,
        done.nanos / 1_000_000
    )?;
    Ok(())
}
