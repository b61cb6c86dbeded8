//! What an opening redoes, and what it reads, within bounds.

use crate::stores::{Store, end, store_of};
use im_base_model_disk::ModelDisk;
use im_base_steps::{Reply, Step};
use im_base_types::LONGEST_KEY;
use im_store::Bounds;
use std::alloc::Global;
use std::process::Abort;
use std::test::Fail;
use std::thread::Threads;

// So many keys, over bounds of what an opening redoes and reads; with 0 any.
#[derive(Clone, Copy)]
struct Asked {
    keys: u64,
    redo: u64,
    log: u64,
}

// How much of the log an opening redoes, and how long the log is that it reads.
#[derive(Clone, Copy)]
struct Lengths {
    redone: u64,
    read: u64,
}

// What an opening has to do which follows a stop now.
fn opened_again<R: Threads + Sync>(
    rt: &R,
    alloc: Global,
    disk: &ModelDisk,
) -> Result<Lengths, Fail> {
    let left = disk.after_stop(alloc)?;
    let store = store_of(rt, alloc, left, Bounds::of_bytes(0, 0))?;
    let told = lengths_of(&store);
    end(store);
    Ok(told)
}

// What a store's opening had to do.
fn lengths_of(store: &Store) -> Lengths {
    let engine = store.engine();
    let read = engine.log_length();
    let behind = engine
        .durable_end()
        .saturating_sub(engine.redo_report().point);
    // A log without a record has no redo point.
    Lengths {
        redone: behind.min(read),
        read,
    }
}

// Whether an opening keeps within the bounds.
fn are_kept(asked: Asked, told: Lengths) -> bool {
    (asked.redo == 0 || told.redone <= asked.redo) && (asked.log == 0 || told.read <= asked.log)
}

// Makes a step. It answers nothing where the upkeep after it was refused.
fn made(store: &mut Store, step: &Step) -> Option<Reply> {
    let reply = store.step(step);
    match store.unkept() {
        None => Some(reply),
        Some(_) => None,
    }
}

// Puts the n-th key in and commits it. Whether all of that was done.
fn is_put(alloc: Global, store: &mut Store, n: u64) -> Result<bool, Fail> {
    let Some(Reply::Started(txn)) = made(store, &Step::Begin) else {
        return Ok(false);
    };
    let mut key = vec![in alloc; b'z'; LONGEST_KEY]?;
    key[0] = (n % 90 * 37 % 90) as u8;
    let Some(Reply::Inserted) = made(store, &Step::Insert(txn, key, n)) else {
        return Ok(false);
    };
    Ok(matches!(made(store, &Step::Commit(txn)), Some(Reply::Committed)))
}

// Without a bound the log has 174,000 bytes after these keys.
#[test]
fn what_is_redone_stays_within_the_bound(rt: HostRuntime) -> Result<(), Fail> {
    let asked = Asked {
        keys: 60,
        redo: 131_072,
        log: 0,
    };
    opened_and_stopped(&rt, rt.alloc(), asked)
}

#[test]
fn what_is_read_stays_within_the_bound(rt: HostRuntime) -> Result<(), Fail> {
    let asked = Asked {
        keys: 60,
        redo: 0,
        log: 65_536,
    };
    opened_and_stopped(&rt, rt.alloc(), asked)
}

// First a Checkpoint is due, and then a Switch.
#[test]
fn what_is_redone_and_what_is_read_stay_within_both(rt: HostRuntime) -> Result<(), Fail> {
    let asked = Asked {
        keys: 72,
        redo: 131_072,
        log: 262_144,
    };
    opened_and_stopped(&rt, rt.alloc(), asked)
}

// A store that stops after each of its commits, and at its end.
fn opened_and_stopped<R: Abort + Threads + Sync>(
    rt: &R,
    alloc: Global,
    asked: Asked,
) -> Result<(), Fail> {
    let disk = ModelDisk::new(Vec::new(alloc), Vec::new(alloc));
    let mut store = store_of(rt, alloc, disk, Bounds::of_bytes(asked.redo, asked.log))?;
    let stopped = stop_after_each(rt, alloc, &mut store, asked);
    let (closed, disk) = store.close();
    stopped?;
    closed?;
    let told = opened_again(rt, alloc, disk.disk())?;
    assert!(rt; told.redone <= 4_096 || asked.log > 0 && told.read <= asked.log);
    Ok(())
}

// Keys of 255 bytes, each committed, over leaves of fifteen: the store stops after each commit, and an opening keeps within the bounds.
fn stop_after_each<R: Abort + Threads + Sync>(
    rt: &R,
    alloc: Global,
    store: &mut Store,
    asked: Asked,
) -> Result<(), Fail> {
    let mut longest = 0;
    for n in 0..asked.keys {
        assert!(rt; is_put(alloc, store, n)?, "{n}");
        let told = opened_again(rt, alloc, store.engine().disk().disk())?;
        assert!(rt; are_kept(asked, told), "{n}");
        longest = told.read.max(longest);
    }
    // More was logged than a bound allows: what an opening reads goes beyond what it redoes, and a log of a later file begins above the LSN 0.
    let engine = store.engine();
    assert!(rt; asked.redo == 0 || longest > asked.redo);
    assert!(rt; (engine.durable_end() > engine.log_length()) == (asked.log > 0));
    Ok(())
}
