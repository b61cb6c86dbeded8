//! A store that is filled, searched, emptied in part and opened again, with what each part costs: device calls by kind, and bytes of log.
//!
//! Without words it works on 2,000 keys in memory, in 8 frames and in 64, and prints counts, the same each run. With `--time` it
//! prints nanoseconds beside them. `--keys N`, `--frames N` and `--in FOLDER` work on so many keys, in so many frames, in a folder in
//! the place of memory, which has to be empty. Keys have eight bytes and come in scattered order.
//!
//! By the formats an insert takes 50 bytes of log with its share of a batch of 64, a Commit 33; each page of a split some 8,225, as it
//! is before and after; a full copy of a page 4,129.
//!
//! # Figures
//!
//! Bytes of log a key, inserts in scattered order, 64 a commit, no Checkpoint: 100,000 keys leave 333 in 64 frames and 332 in 1,024,
//! 1,000,000 keys in 64 frames 335. Structure changes alone take some 280 of it, records and Commits 51: evictions add no full copy but
//! the first of a page in no structure change. In 64 frames an insert takes 0.26 writes and as many syncs of the log, and 0.71 writes of
//! pages. Of two openings after it the first logs what it takes back, and the second adds no byte.
//!
//! In memory, 100,000 keys in 1,024 frames, five runs with nothing else running, on a host that is half as fast in some minutes: a scan
//! of 100 entries with its 101 locks 10.8 and 10.9 us in its two fast runs and 16.0 to 17.6 in the others; in the fast ones a look-up of a key
//! that is there 660 and 672 ns, of one that is not 945 and 966, an insert of 64 a commit 1.5 us.
//!
//! `imstore` over a folder in memory, 1,000,000 keys in random order, 64 a commit, in a build that was not proved, beside much other work: without
//! `--checkpoint` 436 bytes of log a key, with `--checkpoint 16` 2,888. An opening after a kill takes 2.5 s of processor then, where 67 MB of log were to
//! be redone, and 3.1 s, most of it for reading the longer log.
//!
//! Through step lines of `imstore`, keys in random order, each commit synced, each in turn with nothing else running. 64 a commit, 100,000
//! keys, eight rounds: 56,000 to 79,000 inserts a second, 64,200 in the middle; LMDB 47,200 to 73,100, 56,500 in the middle, SQLite in WAL
//! mode 43,500 to 58,200, 54,800 in the middle. One a commit, 8,000 from a file of lines, nine rounds: 8,050 to 9,920 a second, in the
//! middle 1.09 times two writes and two syncs of as many bytes in C on a file that they make longer (0.96 to 1.20), and 1.06 times the
//! same within a file of zeros; with replies into a file of the same disk 1.09 and 1.07 times, seven rounds. A log's file is longer by a room
//! of zeros at a time, so that most syncs write no new length, which is why it is above the first of the two.
//!
//! Syncs a commit of 64 such inserts, all calls of `fdatasync` counted up to the program's end, by step lines of `imstore` in 1,024 frames, in a build
//! that was not proved: with a log's buffer of one batch 5.44 at 20,000 keys, 6.77 at 100,000 and 7.22 at 1,000,000, with one of 32 2.02, 3.17 and
//! 2.54. Without Checkpoints 5.43 and 5.60, and 2.01 and 2.00. By the same driver at 100,000 keys LMDB makes 2, one of them by a write that syncs,
//! SQLite in WAL mode 1.17, Berkeley DB 1.01, WiredTiger 1.02. Of the 3.17 a fifth come at the end of the input, where 680 changed pages are written
//! with 476 forces of the log, one for each page that wants a full copy; a Checkpoint before that wrote 746 pages with 433.
//!
//! How many times as fast `imstore` was as LMDB, SQLite in WAL mode, Berkeley DB and WiredTiger, all by step lines, each in turn in one run, three rounds (one
//! at a million keys), the middle of them; 1,024 frames, Checkpoints as they come; four cores, a load of 9 to 13 from proofs beside, so that single
//! rounds lie up to twice as high or half as low:
//!
//! | in memory | 20,000 keys | 100,000 | 1,000,000 |
//! |---|---|---|---|
//! | inserts, 64 a commit | 1.33, 3.0, 2.0, 2.0 | 1.44, 3.1, 1.6, 2.5 | 0.64, 1.5, 0.58, 1.3 |
//! | inserts, one a commit | 1.9, 3.4, 1.5, 2.5 | 1.7, 2.5, 1.4, 2.2 | 1.2, 1.8, 0.88, 1.6 |
//! | look-ups, present | 1.2, 2.0, 1.9, 2.6 | 1.3, 1.9, 2.1, 2.5 | 0.34, 0.60, 0.65, 0.75 |
//! | look-ups, absent | 1.1, 1.7, 1.7, 2.4 | 1.2, 1.6, 2.0, 2.3 | 0.46, 0.69, 0.62, 0.66 |
//! | scans of 100 | 0.69, 1.4, 2.2, 0.96 | 0.59, 1.4, 2.2, 1.4 | 0.59, 1.4, 2.1, 1.6 |
//! | eight look-ups, an insert, a delete | 1.3, 2.3, 2.0, 3.3 | 1.3, 2.0, 1.7, 2.7 | 0.64, 1.2, 1.9, 1.3 |
//! | deletes, 64 a commit | 1.4, 3.2, 2.2, 1.8 | 1.8, 3.4, 2.2, 1.9 | 0.56, 1.3, 0.67, 0.62 |
//!
//! On a disk where a write of 4 KiB with its sync took 4 ms, now and then 0.1 to 3, which makes single rounds differ by up to four times: 64 inserts a commit
//! 1.45, 0.84, 0.84, 0.67 at 20,000 keys, 0.72, 0.44, 0.27, 0.27 at 100,000 and 0.69, 0.56, 0.38, 0.29 at a million; one a commit 0.94, 1.0, 0.42, 0.58, then
//! 1.2, 1.7, 0.96, 2.0, then 0.57, 0.46, 0.61, 0.51; deletes 1.1, 0.69, 0.54, 0.48, then 1.2, 1.3, 0.98, 1.1, then 0.56, 0.40, 0.23, 0.29. Absent look-ups
//! took 0.9 to 1.0 of the rate of present ones. At a million keys the 1,024 frames hold one leaf in seven, which the others' 256 MiB hold whole.
//!
//! # Redo after a kill
//!
//! Seconds of processor, and elapsed, of an opening that redoes a whole log of random inserts, keys of 8 to 16 bytes, 64 a commit: 43,264 keys (16 MiB) and
//! 692,480 (257 MiB). Files in memory, builds that were not proved, each in turn in one run, seven rounds (three with more than one worker at 257 MiB), the
//! middle of them; four cores, a load of 15 to 25 from proofs beside, from which elapsed times of several workers suffer most:
//!
//! | redo | 16 MiB, 64 frames | 16 MiB, 1,024 | 257 MiB, 64 | 257 MiB, 1,024 |
//! |---|---|---|---|---|
//! | record by record, three calls each | 0.113, 0.15 | 0.068, 0.097 | 2.82, 3.9 | 2.63, 3.4 |
//! | record by record, by a window of 64 KiB | 0.073, 0.13 | 0.027, 0.033 | 2.08, 2.8 | 1.97, 2.6 |
//! | in rounds, one worker | 0.076, 0.12 | 0.031, 0.042 | 2.16, 2.9 | 2.16, 2.8 |
//! | in rounds, two workers | 0.131, 0.72 | 0.040, 0.075 | 3.31, 17 | 2.63, 7.5 |
//! | in rounds, four workers | 0.169, 1.2 | 0.052, 0.12 | 4.28, 32 | 3.14, 12 |
//! | plain C: the log read once, each change made, all pages in memory | 0.012, 0.014 | 0.012, 0.024 | 0.44, 0.55 | 0.44, 0.61 |
//!
//! Over files on a disk, 257 MiB in 1,024 frames: 14.8 s by three calls a record, 4.97 by the window, 6.40 in rounds. So one read for many records is what
//! was won, and rounds add no more to it. Of one worker's opening reading the log twice takes 10 to 39 %, finding and decoding records 12 to 44 %, pages
//! that are read, written and checked 54 to 66 % (1 % where they fit the frames), the pool and the tables 9 to 23 %. The part that workers share is 4 to
//! 20 %: split without cost it would make an opening 1.04 to 1.17 times as fast. But each worker goes through all records of a round, and threads begin
//! anew each round, of which 257 MiB have 2,451. A window reads the log by 7,475 calls in all at 16 MiB and 1,024 frames, rounds by 7,218, three calls a
//! record by 97,235. Memory at its peak: 2.9 MiB by the window, 4.2 with one worker, 4.5 with four in 64 frames; 7.1, 8.8 and 9.2 in 1,024.

mod options;

ghost use Rattle.std.specs.Prelude.{◌≡◌, false};
ghost use Rattle.im_base_disk.specs.Runs.{IsSynced};

use crate::opened::opened;
use anyhow::Result;
use im_base_disk::Disk;
use im_base_two_logs::Renamed;
use im_bench_layers::counted::{Calls, Counted, show_costs};
use im_bench_layers::figures::show_of;
use im_bench_layers::memory::MemoryDisk;
use im_bench_layers::works::{Order, Part, Work, worked};
use im_engine::Engine;
use im_files_disk::FileDisk;
use options::{Options, options_of};
use std::thread::Threads;
use std::time::Instant;

/// The lives of a store, by what the words say.
pub fn run<R: Threads + Sync>(rt: &HostRuntime, threads: &R, words: &[String]) -> Result<()> {
    let options = options_of(words);
    if let Some(folder) = options.folder {
        return in_folder(rt, threads, &options, folder);
    }
    in_memory(rt, threads, &options, options.frames[0])?;
    if options.frames[0] != options.frames[1] {
        in_memory(rt, threads, &options, options.frames[1])?;
    }
    Ok(())
}

// All parts in memory.
fn in_memory<R: Threads + Sync>(
    rt: &HostRuntime,
    threads: &R,
    options: &Options<'_>,
    frames: usize,
) -> Result<()> {
    println!(rt; "{} keys in {frames} frames", options.keys)?;
    let disk = MemoryDisk::new(rt.alloc());
    let disk = lived(rt, threads, options, frames, disk, &PARTS)?;
    let disk = lived(rt, threads, options, frames, disk.at_rest(), &[])?;
    lived(rt, threads, options, frames, disk.at_rest(), &[])?;
    Ok(())
}

// All parts in a folder.
fn in_folder<R: Threads + Sync>(
    rt: &HostRuntime,
    threads: &R,
    options: &Options<'_>,
    folder: &str,
) -> Result<()> {
    let frames = options.frames[0];
    println!(rt; "{} keys in {frames} frames", options.keys)?;
    lived(
        rt,
        threads,
        options,
        frames,
        FileDisk::open(rt, folder)?,
        &PARTS,
    )?;
    lived(
        rt,
        threads,
        options,
        frames,
        FileDisk::open(rt, folder)?,
        &[],
    )?;
    lived(
        rt,
        threads,
        options,
        frames,
        FileDisk::open(rt, folder)?,
        &[],
    )?;
    Ok(())
}

/// A part by its name: a work, on so many parts of 64 of the keys, from such a part on, so many in a transaction.
struct Named {
    name: &'static str,
    work: Work,
    from: u64,
    parts: u64,
    each: u64,
}

const PARTS: [Named; 7] = [
    Named {
        name: "insert, 64 a commit:",
        work: Work::Insert,
        from: 0,
        parts: 64,
        each: 64,
    },
    Named {
        name: "look up, present:",
        work: Work::Present,
        from: 0,
        parts: 64,
        each: 1_000,
    },
    Named {
        name: "look up, absent:",
        work: Work::Absent,
        from: 0,
        parts: 64,
        each: 1_000,
    },
    Named {
        name: "scan of 100 entries:",
        work: Work::Scan,
        from: 0,
        parts: 16,
        each: 16,
    },
    Named {
        name: "insert, one a commit:",
        work: Work::Insert,
        from: 64,
        parts: 4,
        each: 1,
    },
    Named {
        name: "delete, 64 a commit:",
        work: Work::Delete,
        from: 0,
        parts: 32,
        each: 64,
    },
    Named {
        name: "insert, 64 taken back:",
        work: Work::TakenBack,
        from: 68,
        parts: 8,
        each: 64,
    },
];

// A life: the store is opened, and parts are done in turn.
fn lived<D: Disk + Drop, R: Threads + Sync>(
    rt: &HostRuntime,
    threads: &R,
    options: &Options<'_>,
    frames: usize,
    disk: D,
    parts: &[Named],
) -> Result<D>
    requires working { D.failed disk ≡ false }
    requires synced { IsSynced D.Disk disk }
{
    let start = Instant::now(rt)?;
    let mut engine = opened(threads, rt.alloc(), Counted::new(disk), frames)?;
    each_done(rt, options, &mut engine, &start, parts)?;
    Ok(engine.into_disk().into_disk().into_disk())
}

// Says what the opening took that began at the start, and does parts in turn.
fn each_done<D: Disk + Drop>(
    rt: &HostRuntime,
    options: &Options<'_>,
    engine: &mut Engine<Renamed<Counted<D>>>,
    start: &Instant,
    parts: &[Named],
) -> Result<()> {
    let nanos = start.elapsed(rt)?.as_nanos();
    let mut before = engine.disk().disk().calls();
    show_of(rt, "opened:", 1, 1, nanos, options.timed)?;
    show_costs(rt, before)?;
    for part in parts {
        before = done(rt, options, engine, part, before)?;
    }
    Ok(())
}

// Does a part, and says what it took; the calls before it are known, and it answers those after it.
fn done<D: Disk + Drop>(
    rt: &HostRuntime,
    options: &Options<'_>,
    engine: &mut Engine<Renamed<Counted<D>>>,
    part: &Named,
    before: Calls,
) -> Result<Calls> {
    let keys = options.keys.wrapping_mul(part.parts) / 64;
    let span = Part {
        work: part.work,
        order: Order::Scattered,
        first: options.keys.wrapping_mul(part.from) / 64,
        keys,
        each: part.each,
    };
    let start = Instant::now(rt)?;
    let right = worked(rt.alloc(), engine, span)?;
    let nanos = start.elapsed(rt)?.as_nanos();
    let calls = engine.disk().disk().calls();
    show_of(rt, part.name, right, keys, nanos, options.timed)?;
    show_costs(rt, calls.since(before))?;
    Ok(calls)
}
