//! How often an opening reads its files: the log in pieces, and not record by record.

use crate::said::{Said, end, make, opened, opened_after_stop};
use im_base_disk::Disk;
use im_base_model_disk::ModelDisk;
use im_base_steps::Step;
use im_base_two_logs::{Renamed, TwoLogs};
use im_base_types::Fault;
use im_engine::{Config, Engine};
use std::alloc::Global;
use std::process::Abort;
use std::test::Fail;
use std::thread::Threads;

/// How many keys each transaction inserts.
const KEYS: u64 = 250;

/// How many transactions there are.
const TXNS: u64 = 4;

// The key of a number below 100,000.
fn key_of(alloc: Global, number: u64) -> Result<Vec<u8>, Fail> {
    let mut key = Vec::new(alloc);
    key.push(b'0' + (number / 10_000 % 10) as u8)?;
    key.push(b'0' + (number / 1_000 % 10) as u8)?;
    key.push(b'0' + (number / 100 % 10) as u8)?;
    key.push(b'0' + (number / 10 % 10) as u8)?;
    key.push(b'0' + (number % 10) as u8)?;
    Ok(key)
}

// Inserts keys by one transaction, and commits it.
fn put_some<D: TwoLogs>(
    alloc: Global,
    engine: &mut Engine<D>,
    t: u64,
    first: u64,
) -> Result<Said, Fail> {
    let _ = make(engine, Step::Begin);
    for i in 0..KEYS {
        let number = first.wrapping_add(i);
        let key = key_of(alloc, number.wrapping_mul(7_919) % 100_000)?;
        let said = make(engine, Step::Insert(t, key, number));
        if said != Said::Inserted {
            return Ok(said);
        }
    }
    Ok(make(engine, Step::Commit(t)))
}

// Inserts the keys of all.
fn put_all<D: TwoLogs>(alloc: Global, engine: &mut Engine<D>) -> Result<Said, Fail> {
    let mut said = Said::Committed;
    for t in 0..TXNS {
        said = put_some(alloc, engine, t + 1, t * KEYS)?;
    }
    Ok(said)
}

// Whether an opening of what a stop now leaves comes through where the read of one number fails.
fn opens<R: Threads + Sync>(
    rt: &R,
    alloc: Global,
    engine: &Engine<Renamed<ModelDisk>>,
    read: u64,
) -> Result<bool, Fail> {
    let mut left = engine.disk().disk().after_stop(alloc)?;
    left.fail_read(read);
    match opened(rt, alloc, left, few_frames()) {
        Ok(next) => {
            end(next);
            Ok(true)
        }
        Err(fault) => Ok(fault != Fault::Device),
    }
}

// Eight frames.
fn few_frames() -> Config {
    Config {
        frames: 8,
        ..Config::default()
    }
}

// How many reads an opening makes, a length asked for included: the least number whose failure it does not see.
fn reads_of<R: Threads + Sync>(
    rt: &R,
    alloc: Global,
    engine: &Engine<Renamed<ModelDisk>>,
) -> Result<u64, Fail> {
    let mut low: u64 = 0;
    let mut high: u64 = 65_536;
    for _ in 0..16 {
        let middle = low.saturating_add(high) / 2;
        if opens(rt, alloc, engine, middle.saturating_add(1))? {
            high = middle;
        } else {
            low = middle;
        }
    }
    Ok(high)
}

// How many records the opening of an engine redid.
fn redone<D: Disk>(engine: &Engine<D>) -> u64 {
    engine.redo_report().applied
}

#[test]
fn an_opening_reads_the_log_in_pieces(rt: HostRuntime) -> Result<(), Fail> {
    let alloc = rt.alloc();
    let disk = ModelDisk::new(Vec::new(alloc), Vec::new(alloc));
    let mut engine = opened(&rt, alloc, disk, few_frames())?;
    let said = count(&rt, alloc, &mut engine);
    end(engine);
    said
}

// A record that is redone by itself takes three reads: here all of them, and the batches, pages and copies beside them, take fewer reads than there are
// records.
fn count<R: Abort + Threads + Sync>(
    rt: &R,
    alloc: Global,
    engine: &mut Engine<Renamed<ModelDisk>>,
) -> Result<(), Fail> {
    assert!(rt; put_all(alloc, engine)? == Said::Committed);
    let mut next = opened_after_stop(rt, alloc, engine, few_frames())?;
    let applied = redone(&next);
    let entries = next.entries(alloc);
    end(next);
    assert!(rt; entries?.len() as u64 == TXNS * KEYS);
    assert!(rt; applied > 400, "{applied}");
    let reads = reads_of(rt, alloc, engine)?;
    assert!(rt; reads < applied / 2, "{reads} reads for {applied} records");
    Ok(())
}
