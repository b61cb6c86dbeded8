//! Many transactions at once.

use crate::said::{Said, created, end, make, opened_after_stop};
use im_base_model_disk::ModelDisk;
use im_base_steps::Step;
use im_base_two_logs::{Renamed, TwoLogs};
use im_engine::{Config, Engine};
use std::alloc::Global;
use std::process::Abort;
use std::test::Fail;
use std::thread::Threads;

// The key of three digits.
fn key_of(alloc: Global, number: u64) -> Result<Vec<u8>, Fail> {
    let mut key = Vec::new(alloc);
    key.push(b'0' + (number / 100 % 10) as u8)?;
    key.push(b'0' + (number / 10 % 10) as u8)?;
    key.push(b'0' + (number % 10) as u8)?;
    Ok(key)
}

// Transaction t inserts the key of a number.
fn insert<D: TwoLogs>(
    alloc: Global,
    engine: &mut Engine<D>,
    t: u64,
    number: u64,
) -> Result<Said, Fail> {
    let key = key_of(alloc, number)?;
    Ok(make(engine, Step::Insert(t, key, number)))
}

// How many of 64 transactions begin, insert a key of their own, and commit, each step for all of them before the next; and what a 65th is answered.
fn count_all<D: TwoLogs>(
    alloc: Global,
    engine: &mut Engine<D>,
) -> Result<(usize, Said, usize, usize), Fail> {
    let mut begun = 0;
    let mut put = 0;
    let mut done = 0;
    for t in 1..65u64 {
        if make(engine, Step::Begin) == Said::Started(t) && begun < 64 {
            begun += 1;
        }
    }
    let over = make(engine, Step::Begin);
    for t in 1..65u64 {
        if insert(alloc, engine, t, t)? == Said::Inserted && put < 64 {
            put += 1;
        }
    }
    for t in 1..65u64 {
        if make(engine, Step::Commit(t)) == Said::Committed && done < 64 {
            done += 1;
        }
    }
    Ok((begun, over, put, done))
}

#[test]
fn sixty_four_are_active_and_commit(rt: HostRuntime) -> Result<(), Fail> {
    let alloc = rt.alloc();
    let mut engine = created(&rt, alloc, Config::default())?;
    let told = commit_all(&rt, alloc, &mut engine);
    end(engine);
    told
}

fn commit_all<R: Abort + Threads + Sync>(
    rt: &R,
    alloc: Global,
    engine: &mut Engine<Renamed<ModelDisk>>,
) -> Result<(), Fail> {
    assert!(rt; count_all(alloc, engine)? == (64, Said::Refused(12), 64, 64));
    assert!(rt; engine.active() == 0);
    assert!(rt; left_after_stop(rt, alloc, engine)? == 64);
    Ok(())
}

// How many entries there are after a stop.
fn left_after_stop<R: Threads + Sync>(
    rt: &R,
    alloc: Global,
    engine: &Engine<Renamed<ModelDisk>>,
) -> Result<usize, Fail> {
    let mut next = opened_after_stop(rt, alloc, engine, Config::default())?;
    let entries = next.entries(alloc);
    end(next);
    Ok(entries?.len())
}

// Puts 300 keys into the store by one transaction, and commits it.
fn put_many<D: TwoLogs>(alloc: Global, engine: &mut Engine<D>) -> Result<Said, Fail> {
    let _ = make(engine, Step::Begin);
    for number in 0..300u64 {
        let said = insert(alloc, engine, 1, number)?;
        if said != Said::Inserted {
            return Ok(said);
        }
    }
    Ok(make(engine, Step::Commit(1)))
}

// A scan of transaction 2 over all of them.
fn scan<D: TwoLogs>(alloc: Global, engine: &mut Engine<D>, limit: u64) -> Result<Said, Fail> {
    let from = key_of(alloc, 0)?;
    let to = key_of(alloc, 999)?;
    Ok(make(engine, Step::Scan(2, from, to, limit)))
}

#[test]
fn a_scan_lists_as_many_as_its_limit(rt: HostRuntime) -> Result<(), Fail> {
    let alloc = rt.alloc();
    let mut engine = created(&rt, alloc, Config::default())?;
    let told = scan_many(&rt, alloc, &mut engine);
    end(engine);
    told
}

// Limits, and how many entries a scan then lists.
static LIMITS: [(u64, usize); 3] = [(256, 256), (1000, 256), (3, 3)];

fn scan_many<D: TwoLogs>(
    rt: &impl Abort,
    alloc: Global,
    engine: &mut Engine<D>,
) -> Result<(), Fail> {
    assert!(rt; put_many(alloc, engine)? == Said::Committed);
    assert!(rt; make(engine, Step::Begin) == Said::Started(2));
    for (limit, count) in &LIMITS {
        assert!(rt;
            scan(alloc, engine, *limit)? == Said::Entries(*count),
            "{limit}"
        );
    }
    Ok(())
}
