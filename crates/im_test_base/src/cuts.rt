//! Real files: what is cut of the logs of a closed store.

use im_files_disk::FileDisk;
use std::alloc::{AllocError, Global};
use std::fs;
use std::process::Abort;
use std::test::Fail;

const FOLDER: &str = "im_disk_cuts";

// A log, as far as it is told apart by its beginning.
#[derive(Clone, Copy, Debug)]
enum Log {
    // It has no byte.
    Missing,
    // It is of the first format, has 300 bytes, and a batch of 43 after its first gate.
    First,
    // It is of generation 2 but for its first byte.
    Unmade,
    // It is of this generation, with a batch of so many bytes after its first gate, and has so many.
    Batch(u8, u8, usize),
    // The same, whose first gate is closed.
    Closed(u8, u8, usize),
}

// The two logs of a folder, how many bytes a cut gives back, and how long they are then.
static CUTS: [(Log, Log, u64, usize, usize); 15] = [
    (Log::Batch(1, 43, 300), Log::Closed(2, 0, 48), 205, 95, 48),
    (Log::Closed(3, 0, 48), Log::Batch(2, 43, 300), 205, 48, 95),
    (Log::First, Log::Closed(2, 0, 48), 221, 79, 48),
    // The current log has no record: of that too; or it has one.
    (Log::Batch(1, 43, 300), Log::Closed(2, 43, 300), 457, 95, 48),
    (
        Log::Closed(3, 43, 300),
        Log::Closed(2, 43, 300),
        252,
        48,
        300,
    ),
    (Log::Batch(1, 43, 300), Log::Batch(2, 43, 300), 205, 95, 300),
    // What was cut is not cut again.
    (Log::Batch(1, 43, 95), Log::Closed(2, 0, 48), 0, 95, 48),
    // No log was left.
    (Log::Missing, Log::Missing, 0, 0, 0),
    (Log::First, Log::Missing, 0, 300, 0),
    (Log::Closed(1, 43, 300), Log::Missing, 0, 300, 0),
    (Log::Batch(2, 43, 300), Log::Batch(2, 43, 300), 0, 300, 300),
    (Log::Batch(1, 43, 300), Log::Unmade, 0, 300, 300),
    // It begins with no batch, or with none that is whole.
    (Log::Closed(1, 43, 300), Log::Closed(2, 0, 48), 0, 300, 48),
    (Log::Batch(1, 32, 300), Log::Closed(2, 0, 48), 0, 300, 48),
    (Log::Batch(1, 43, 94), Log::Closed(2, 0, 48), 0, 94, 48),
];

// So many bytes, all of them 0 but these, each at its place.
fn written(alloc: Global, long: usize, bytes: &[(usize, u8)]) -> Result<Vec<u8>, AllocError> {
    let mut file = vec![in alloc; 0; long]?;
    for (at, byte) in bytes {
        if let Some(place) = file.get_mut(*at) {
            *place = *byte;
        }
    }
    Ok(file)
}

// The first byte of a log that was made, the last of its name, the last of its generation, its first gate, and the length after that.
fn bytes_of(alloc: Global, log: Log) -> Result<Vec<u8>, AllocError> {
    match log {
        Log::Missing => Ok(Vec::new(alloc)),
        Log::First => written(alloc, 300, &[(0, 1), (8, b'1'), (31, 1), (35, 43)]),
        Log::Unmade => written(alloc, 300, &[(8, b'2'), (23, 2), (47, 1), (51, 43)]),
        Log::Batch(generation, size, long) => written(
            alloc,
            long,
            &[(0, 1), (8, b'2'), (23, generation), (47, 1), (51, size)],
        ),
        Log::Closed(generation, size, long) => written(
            alloc,
            long,
            &[(0, 1), (8, b'2'), (23, generation), (51, size)],
        ),
    }
}

// Makes a folder with these logs, and a file of pages without bytes.
fn make(rt: &HostRuntime, log: Log, log2: Log) -> Result<(), Fail> {
    let _ = fs::remove_dir_all(rt, FOLDER);
    fs::create_dir(rt, FOLDER)?;
    let bytes = bytes_of(rt.alloc(), log)?;
    fs::write(rt, "im_disk_cuts/log", bytes.as_slice())?;
    let bytes = bytes_of(rt.alloc(), log2)?;
    fs::write(rt, "im_disk_cuts/log2", bytes.as_slice())?;
    fs::write(rt, "im_disk_cuts/pages", "")?;
    Ok(())
}

// What a cut gives back, and how long the logs are then.
fn cut(rt: &HostRuntime) -> Result<(u64, usize, usize), Fail> {
    let mut disk = FileDisk::open(rt, FOLDER)?;
    let gone = disk.cut_logs()?;
    let log = fs::read(rt, "im_disk_cuts/log")?.len();
    let log2 = fs::read(rt, "im_disk_cuts/log2")?.len();
    Ok((gone, log, log2))
}

// The rows are lent: a proof about a function that names a table has all of it at each step.
fn each_is_cut<R: Abort>(
    rt: &HostRuntime,
    aborts: &R,
    rows: &[(Log, Log, u64, usize, usize)],
) -> Result<(), Fail> {
    for (log, log2, gone, long, long2) in rows {
        make(rt, *log, *log2)?;
        assert!(aborts; cut(rt)? == (*gone, *long, *long2), "{log:?} {log2:?}");
    }
    fs::remove_dir_all(rt, FOLDER)?;
    Ok(())
}

#[test]
fn the_logs_of_a_closed_store_are_cut(rt: HostRuntime) -> Result<(), Fail> {
    each_is_cut(&rt, &rt, &CUTS)
}
