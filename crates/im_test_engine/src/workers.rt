//! Redo shared by workers: however many there are, an opening brings the same pages back and tells the same report.

use crate::said::{end, opened};
use im_base_model_disk::ModelDisk;
use im_base_steps::{Reply, Step};
use im_base_two_logs::Renamed;
use im_base_types::{Fault, FileId, Key, LONGEST_KEY, PAGE_SIZE, PageKind, PageNo, Rid};
use im_engine::{Config, Engine};
use std::alloc::Global;
use std::test::Fail;
use std::thread::Threads;

/// How many keys one transaction inserts, and how many transactions commit. A leaf has room for fifteen keys of 255 bytes, and in no
/// order of theirs they fill two thirds of it.
const KEYS: u64 = 1_000;

const TXNS: u64 = 31;

/// A step over the numbers below `KEYS * TXNS` that comes to each of them.
const APART: u64 = 7_919;

// The key of five digits.
fn key_of(alloc: Global, number: u64) -> Result<Vec<u8>, Fail> {
    let mut key = Vec::new(alloc);
    let mut left = number;
    for _ in 0..5 {
        key.push(b'0' + (left % 10) as u8)?;
        left /= 10;
    }
    key.resize(LONGEST_KEY, b'z')?;
    Ok(key)
}

// Makes a transaction that inserts the keys after a number, and answers the last one; none where a step is answered otherwise.
fn commit(
    alloc: Global,
    engine: &mut Engine<Renamed<ModelDisk>>,
    behind: u64,
) -> Result<Option<u64>, Fail> {
    let mut number = behind;
    let Reply::Started(t) = engine.step(&Step::Begin) else {
        return Ok(None);
    };
    for _ in 0..KEYS {
        number = number.wrapping_add(APART) % (KEYS * TXNS);
        let insert = Step::Insert(t, key_of(alloc, number)?, number);
        if !matches!(&engine.step(&insert), Reply::Inserted) {
            return Ok(None);
        }
    }
    match engine.step(&Step::Commit(t)) {
        Reply::Committed => Ok(Some(number)),
        _ => Ok(None),
    }
}

// Makes all transactions, and brings what all but the last two did to the file of pages. Whether each was committed.
fn fill(alloc: Global, engine: &mut Engine<Renamed<ModelDisk>>) -> Result<bool, Fail> {
    let mut last = 0;
    for made in 0..TXNS {
        if made == TXNS - 2 {
            write_all(engine);
            let _ = engine.step(&Step::Checkpoint);
        }
        let Some(number) = commit(alloc, engine, last)? else {
            return Ok(false);
        };
        last = number;
    }
    Ok(true)
}

// The disk that a stop leaves of a store with all keys, whose pages lack what its last commits did.
fn left<R: Threads + Sync>(rt: &R, alloc: Global) -> Result<ModelDisk, Fail> {
    let config = Config {
        frames: 1_024,
        ..Config::default()
    };
    let disk = ModelDisk::new(Vec::new(alloc), Vec::new(alloc));
    let mut engine = opened(rt, alloc, disk, config)?;
    let filled = fill(alloc, &mut engine);
    let disk = engine.disk().disk().after_stop(alloc);
    end(engine);
    if !filled? {
        return Err(Fail::from(Fault::Failed));
    }
    Ok(disk?)
}

// What an opening did: redo's point and count, how many pages there are, and a sum over their headers and over all entries.
#[derive(Clone, Copy, Debug, PartialEq, Eq)]
struct Came {
    point: u64,
    applied: u64,
    entries: usize,
    pages: u64,
    sum: u64,
}

// Writes each page that lacks changes in its file.
fn write_all(engine: &mut Engine<Renamed<ModelDisk>>) {
    for _ in 0..engine.dirty_count() {
        let Some(change) = engine.oldest_change() else {
            return;
        };
        let _ = engine.step(&Step::FlushPage(change.page));
    }
}

// A sum and one number more, which counts by its place.
fn mixed(sum: u64, number: u64) -> u64 {
    (sum ^ number).wrapping_mul(0x0000_0100_0000_01B3)
}

// A sum over what the first pages are for.
fn sum_of_pages(engine: &mut Engine<Renamed<ModelDisk>>, pages: PageNo) -> Result<u64, Fault> {
    let mut sum = 0;
    for page in 0..pages {
        let header = engine.header(page)?;
        sum = mixed(sum, u64::from(header.kind == PageKind::Leaf));
        sum = mixed(sum, u64::from(header.level));
        sum = mixed(sum, header.count as u64);
    }
    Ok(sum)
}

// A sum over entries.
fn sum_of_entries(entries: &[(Key, Rid)]) -> u64 {
    let mut sum = 0;
    for (key, rid) in entries {
        for byte in key.bytes() {
            sum = mixed(sum, u64::from(*byte));
        }
        sum = mixed(sum, *rid);
    }
    sum
}

// What an opening by so many workers in eight frames makes of a copy of the disk.
fn came_of<R: Threads + Sync>(
    rt: &R,
    alloc: Global,
    disk: &ModelDisk,
    workers: usize,
) -> Result<Came, Fail> {
    let config = Config {
        frames: 8,
        workers,
        ..Config::default()
    };
    let mut engine = opened(rt, alloc, disk.after_stop(alloc)?, config)?;
    let report = engine.redo_report();
    let entries = engine.entries(alloc);
    write_all(&mut engine);
    let pages = engine.disk().disk().end(FileId::Pages) / PAGE_SIZE as u64;
    let sum = sum_of_pages(&mut engine, u32::try_from(pages).unwrap_or(u32::MAX));
    end(engine);
    let entries = entries?;
    Ok(Came {
        point: report.point,
        applied: report.applied,
        entries: entries.len(),
        pages,
        sum: mixed(sum?, sum_of_entries(&entries)),
    })
}

#[test]
fn workers_bring_back_what_one_does(rt: HostRuntime) -> Result<(), Fail> {
    let alloc = rt.alloc();
    let disk = left(&rt, alloc)?;
    let alone = came_of(&rt, alloc, &disk, 1)?;
    assert!(rt; alone.pages >= 3_000, "{}", alone.pages);
    assert!(rt; alone.entries as u64 == KEYS * TXNS, "{}", alone.entries);
    assert!(rt; alone.applied > 500, "{}", alone.applied);
    for workers in [2, 3, 16] {
        let came = came_of(&rt, alloc, &disk, workers)?;
        assert!(rt; came == alone, "{workers}: {came:?}, not {alone:?}");
    }
    Ok(())
}

// Why an opening with so many frames and workers is refused, and how many device calls it made.
fn refused<R: Threads + Sync>(rt: &R, alloc: Global, frames: usize, workers: usize) -> (u8, u64) {
    let config = Config {
        frames,
        workers,
        ..Config::default()
    };
    let disk = ModelDisk::new(Vec::new(alloc), Vec::new(alloc));
    match Engine::open_or_create(rt, alloc, Renamed::new(disk, false), config) {
        Ok(engine) => {
            let calls = engine.disk().disk().calls();
            end(engine);
            (0, calls)
        }
        Err((fault, named)) => (fault.number(), named.disk().calls()),
    }
}

#[test]
fn one_to_sixteen_workers_are_taken(rt: HostRuntime) -> Result<(), Fail> {
    let alloc = rt.alloc();
    assert!(rt; refused(&rt, alloc, 8, 0) == (18, 0));
    assert!(rt; refused(&rt, alloc, 8, 1) == (0, 6));
    assert!(rt; refused(&rt, alloc, 8, 16) == (0, 6));
    assert!(rt; refused(&rt, alloc, 8, 17) == (18, 0));
    assert!(rt; refused(&rt, alloc, 7, 0) == (13, 0));
    assert!(rt; refused(&rt, alloc, 1_025, 17) == (13, 0));
    Ok(())
}

// A caller who can start no threads opens the same store.
#[test]
fn an_opening_alone_finds_the_same(rt: HostRuntime) -> Result<(), Fail> {
    let alloc = rt.alloc();
    let disk = ModelDisk::new(Vec::new(alloc), Vec::new(alloc));
    let mut engine = opened(&rt, alloc, disk, Config::default())?;
    let _ = engine.step(&Step::Begin);
    let key = key_of(alloc, 1)?;
    let _ = engine.step(&Step::Insert(1, key, 7));
    let committed = matches!(&engine.step(&Step::Commit(1)), Reply::Committed);
    let left = engine.disk().disk().after_stop(alloc);
    end(engine);
    assert!(rt; committed);
    match Engine::open_alone(alloc, Renamed::new(left?, false), Config::default()) {
        Ok(mut again) => {
            let found = (again.redo_report().applied, again.entries(alloc));
            end(again);
            assert!(rt; found.0 == 1 && found.1?.len() == 1);
            Ok(())
        }
        Err((fault, _disk)) => Err(Fail::from(fault)),
    }
}
