//! Work that is done again where its transaction has to give way: threads that all change one key.

use crate::stores::{grouped, key_of, look_behind};
use im_base_steps::{Reply, Step};
use im_base_types::{Fault, TxnId};
use im_front::{Open, Stop};
use im_theory_store_trait::Store;
use std::alloc::Global;
use std::sync::Wait;
use std::sync::atomic::{AtomicU64, Ordering};
use std::test::Fail;
use std::thread::{Threads, map_vec};
use std::time::Clock;

/// How many threads count.
const THREADS: u64 = 8;

/// How often each of them adds one.
const ROUNDS: u64 = 25;

/// How often work is done again at most. A transaction that gave way four times is first then, and gives way no more, but where a thread came to no step for a
/// tenth of a second.
const MOST: u64 = 40;

// The key that all of them change; its row id is the count.
fn counter(alloc: Global) -> Result<Vec<u8>, Stop> {
    match key_of(alloc, b'n') {
        Ok(key) => Ok(key),
        Err(fault) => Err(Stop::Refused(fault)),
    }
}

// A step by the key of the count.
fn ask<E: Store, R: Wait>(rt: &R, front: &Open<E>, step: Step) -> Result<Reply, Stop> {
    Stop::unless(front.call(rt, step))
}

// Takes the count away, and answers it: 0 where there is none yet.
fn take_count<E: Store, R: Wait>(
    rt: &R,
    alloc: Global,
    front: &Open<E>,
    t: TxnId,
) -> Result<u64, Stop> {
    let Reply::Found(count) = ask(rt, front, Step::Fetch(t, counter(alloc)?))? else {
        return Ok(0);
    };
    ask(rt, front, Step::Delete(t, counter(alloc)?))?;
    Ok(count)
}

// Adds one to the count.
fn add_one<E: Store, R: Wait>(
    rt: &R,
    alloc: Global,
    front: &Open<E>,
    t: TxnId,
) -> Result<(), Stop> {
    let count = take_count(rt, alloc, front, t)?;
    let more = count.saturating_add(1);
    ask(rt, front, Step::Insert(t, counter(alloc)?, more))?;
    Ok(())
}

// Does so in a transaction of its own, and answers how often the work was done.
fn count_once<E: Store, R: Wait + Clock>(
    rt: &R,
    alloc: Global,
    front: &Open<E>,
) -> Result<u64, Fault> {
    let runs = AtomicU64::new(0);
    front.write(rt, |t| {
        runs.fetch_add(1, Ordering::SeqCst);
        add_one(rt, alloc, front, t)
    })?;
    Ok(runs.load(Ordering::SeqCst))
}

// What one thread does. It answers how often the work of one transaction was done at most.
fn count<E: Store, R: Wait + Clock>(rt: &R, alloc: Global, front: &Open<E>) -> Result<u64, Fault> {
    let mut most = 0;
    for _round in 0..ROUNDS {
        most = count_once(rt, alloc, front)?.max(most);
    }
    Ok(most)
}

// All of them.
fn count_all<E: Store + Send, R: Threads + Wait + Clock + Sync>(
    rt: &R,
    alloc: Global,
    front: &Open<E>,
) -> Result<u64, Fault> {
    let mut threads = Vec::new(alloc);
    for thread in 0..THREADS {
        let Ok(()) = threads.push(thread) else {
            return Err(Fault::Memory);
        };
    }
    let Ok(told) = map_vec(rt, threads, &|_thread| count(rt, alloc, front)) else {
        return Err(Fault::Memory);
    };
    let mut most = 0;
    for one in told {
        most = one?.max(most);
    }
    Ok(most)
}

#[test]
fn all_changes_of_one_key_come_through(rt: HostRuntime) -> Result<(), Fail> {
    let front = grouped(&rt, rt.alloc())?;
    let most = count_all(&rt, rt.alloc(), &front);
    let found = look_behind(&rt, rt.alloc(), front)?;
    let most = most?;
    assert!(rt; 1 <= most && most <= MOST, "{most}");
    assert!(rt; found.entries.len() == 1 && found.entries[0].1 == THREADS * ROUNDS);
    Ok(())
}

// Work that gives up after it has inserted a key.
fn give_up<E: Store, R: Wait>(
    rt: &R,
    alloc: Global,
    front: &Open<E>,
    t: TxnId,
) -> Result<(), Stop> {
    ask(rt, front, Step::Insert(t, counter(alloc)?, 1))?;
    Err(Stop::Refused(Fault::Busy))
}

#[test]
fn work_that_gives_up_leaves_nothing(rt: HostRuntime) -> Result<(), Fail> {
    let front = grouped(&rt, rt.alloc())?;
    let alloc = rt.alloc();
    let told = front.write(&rt, |t| give_up(&rt, alloc, &front, t));
    let found = look_behind(&rt, alloc, front)?;
    assert!(rt; matches!(told, Err(Fault::Busy)));
    assert!(rt; found.entries.is_empty());
    Ok(())
}
