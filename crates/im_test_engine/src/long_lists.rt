//! A Checkpoint of more changed pages than its record has room for, in a pool that holds all of them.

use crate::said::{Said, created, end, make, opened_after_stop};
use im_base_model_disk::ModelDisk;
use im_base_steps::Step;
use im_base_two_logs::Renamed;
use im_base_types::{Fault, LONGEST_KEY, MOST_DIRTY};
use im_engine::{Config, Engine, MoreFrames};
use std::alloc::Global;
use std::test::Fail;
use std::thread::Threads;

/// How many keys each transaction puts in, and how many transactions there are. A leaf has room for fifteen of these keys, and rising ones leave it half full.
const PUTS: u64 = 250;

const TXNS: u64 = 48;

// The key of a number: its bytes, the highest first, and more, so that a leaf has few.
fn key_of(alloc: Global, number: u64) -> Result<Vec<u8>, Fail> {
    let mut key = Vec::from_slice(alloc, &[(number / 256 % 256) as u8, (number % 256) as u8])?;
    key.resize(LONGEST_KEY, b'z')?;
    Ok(key)
}

// Puts in the keys of a transaction, and commits them. Whether each came in.
fn put_some(
    alloc: Global,
    engine: &mut Engine<Renamed<ModelDisk>>,
    first: u64,
) -> Result<bool, Fail> {
    let Said::Started(t) = make(engine, Step::Begin) else {
        return Ok(false);
    };
    for i in 0..PUTS {
        let number = first.wrapping_add(i);
        let key = key_of(alloc, number)?;
        if make(engine, Step::Insert(t, key, number)) != Said::Inserted {
            return Ok(false);
        }
    }
    Ok(make(engine, Step::Commit(t)) == Said::Committed)
}

// Puts in all keys.
fn put_all(alloc: Global, engine: &mut Engine<Renamed<ModelDisk>>) -> Result<bool, Fail> {
    for i in 0..TXNS {
        if !put_some(alloc, engine, i.wrapping_mul(PUTS))? {
            return Ok(false);
        }
    }
    Ok(true)
}

// How many pages were changed, how many of these a Checkpoint left so, and how many entries are there after a stop.
fn listed<R: Threads + Sync>(
    rt: &R,
    alloc: Global,
    engine: &mut Engine<Renamed<ModelDisk>>,
    config: Config,
) -> Result<(usize, usize, usize), Fail> {
    if !put_all(alloc, engine)? {
        return Err(Fail::from(Fault::Failed));
    }
    let changed = engine.dirty_count();
    if make(engine, Step::Checkpoint) != Said::Done {
        return Err(Fail::from(Fault::Failed));
    }
    let left = engine.dirty_count();
    let again = opened_after_stop(rt, alloc, engine, config)?;
    let entries = entries_of(alloc, again)?;
    Ok((changed, left, entries))
}

// How many entries a store has, which is then ended.
fn entries_of(alloc: Global, engine: Engine<Renamed<ModelDisk>>) -> Result<usize, Fail> {
    let mut engine = engine;
    let entries = engine.entries(alloc);
    end(engine);
    Ok(entries?.len())
}

#[test]
fn a_checkpoint_of_many_changed_pages_writes_some_first(rt: HostRuntime) -> Result<(), Fail> {
    let Some(more) = MoreFrames::new(4_088) else {
        return Err(Fail::from(Fault::PoolSize));
    };
    let config = Config {
        frames: 8,
        more,
        ..Config::default()
    };
    let alloc = rt.alloc();
    let mut engine = created(&rt, alloc, config)?;
    let told = listed(&rt, alloc, &mut engine, config);
    end(engine);
    let (changed, left, entries) = told?;
    assert!(rt;
        changed > MOST_DIRTY && left <= MOST_DIRTY,
        "{changed} {left}"
    );
    assert!(rt; entries == 12_000, "{entries}");
    Ok(())
}
