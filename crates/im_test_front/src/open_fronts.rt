//! Fronts whose trace is kept for proofs alone: more steps than a stored trace takes, in the memory of the first of them; and two threads that
//! prove nothing.

use crate::memory::mapped;
use crate::traced_stores::fresh;
use im_base_steps::{Reply, Step};
use im_base_types::Fault;
use im_front::{Open, Rested, Stats};
use im_theory_store_trait::Store;
use std::alloc::Global;
use std::sync::Wait;
use std::test::Fail;
use std::thread::{Threads, join};

/// How many look-ups one caller makes: a stored trace is full after 65,536 steps.
const LOOK_UPS: u64 = 1_000_000;

/// How many pages more than at the start the process may have mapped after them. A stored trace would take more than 60,000.
const MORE: u64 = 64;

/// How many transactions each of two threads makes.
const TXNS: u8 = 200;

// The key of a thread's transaction.
fn key_of(alloc: Global, thread: u8, number: u8) -> Result<Vec<u8>, Fault> {
    match Vec::from_slice(alloc, &[thread, number]) {
        Ok(key) => Ok(key),
        Err(_) => Err(Fault::Memory),
    }
}

// A key after all those of each thread, committed: the next key of what a thread inserts is then its own, so that no other stands in its way.
fn set_apart<E: Store, R: Wait>(rt: &R, alloc: Global, front: &Open<E>) -> Result<bool, Fault> {
    let Reply::Started(t) = front.call(rt, Step::Begin) else {
        return Err(Fault::Failed);
    };
    for thread in 1..3 {
        let key = key_of(alloc, thread, TXNS)?;
        let _ = front.call(rt, Step::Insert(t, key, 0));
    }
    Ok(matches!(front.call(rt, Step::Commit(t)), Reply::Committed))
}

// Transactions of one insert each, by one thread. It answers how many were committed.
fn inserts<E: Store, R: Wait>(
    rt: &R,
    alloc: Global,
    front: &Open<E>,
    thread: u8,
) -> Result<u64, Fault> {
    let mut committed: u64 = 0;
    for number in 0..TXNS {
        let Reply::Started(t) = front.call(rt, Step::Begin) else {
            return Err(Fault::Failed);
        };
        let key = key_of(alloc, thread, number)?;
        let _ = front.call(rt, Step::Insert(t, key, u64::from(number)));
        if matches!(front.call(rt, Step::Commit(t)), Reply::Committed) {
            committed = committed.saturating_add(1);
        }
    }
    Ok(committed)
}

// What came of it: how many each thread committed, and what the front counted.
#[derive(Clone, Copy)]
struct Came {
    one: u64,
    two: u64,
    stats: Stats,
}

// Both threads at work.
fn both<E: Store + Send, R: Threads + Wait + Sync>(
    rt: &R,
    alloc: Global,
    front: &Open<E>,
) -> Result<Came, Fault> {
    let mut reader = front.share(rt)?;
    if !set_apart(rt, alloc, front)? {
        return Err(Fault::Failed);
    }
    let (one, two) = join(
        rt,
        || inserts(rt, alloc, front, 1),
        || inserts(rt, alloc, front, 2),
    );
    Ok(Came {
        one: one?,
        two: two?,
        stats: front.stats(&mut reader),
    })
}

// The same over a store at rest, and how many steps the front made.
fn both_over<E: Store + Send, R: Threads + Wait + Sync>(
    rt: &R,
    alloc: Global,
    at_rest: Rested<E>,
) -> Result<(Came, u64), Fault> {
    let front = match Open::new(alloc, at_rest) {
        Ok(front) => front,
        Err((fault, _at_rest)) => return Err(fault),
    };
    let came = both(rt, alloc, &front);
    let left = front.close();
    Ok((came?, left.made))
}

#[test]
fn two_threads_share_an_open_front(rt: HostRuntime) -> Result<(), Fail> {
    let at_rest = Rested::new(fresh(&rt, rt.alloc())?);
    let (came, made) = both_over(&rt, rt.alloc(), at_rest)?;
    assert!(rt; came.one == 200);
    assert!(rt; came.two == 200);
    assert!(rt; came.stats.committed == 401);
    assert!(rt; made == 1_204);
    Ok(())
}

// What came of it: how many look-ups found the key, and how many pages the process had mapped before them and after.
#[derive(Drop)]
struct Seen {
    found: u64,
    before: u64,
    after: u64,
}

// A key put in, and looked up so often.
fn look_ups<E: Store, R: Wait>(rt: &R, alloc: Global, front: &Open<E>) -> Result<u64, Fault> {
    let Reply::Started(t) = front.call(rt, Step::Begin) else {
        return Err(Fault::Failed);
    };
    let _ = front.call(rt, Step::Insert(t, key_of(alloc, 1, 1)?, 7));
    let mut found: u64 = 0;
    for _ in 0..LOOK_UPS {
        let key = key_of(alloc, 1, 1)?;
        if matches!(front.call(rt, Step::Fetch(t, key)), Reply::Found(7)) {
            found = found.saturating_add(1);
        }
    }
    let _ = front.call(rt, Step::Commit(t));
    Ok(found)
}

// The look-ups, between two looks at the memory of the process.
fn watched<E: Store, R: Wait>(
    host: &HostRuntime,
    rt: &R,
    alloc: Global,
    front: &Open<E>,
) -> Result<Seen, Fault> {
    let before = mapped(host)?;
    let found = look_ups(rt, alloc, front)?;
    let after = mapped(host)?;
    Ok(Seen {
        found,
        before,
        after,
    })
}

// The same over a store at rest: what was seen, and how many steps the front made.
fn looked_up<E: Store, R: Threads + Wait + Sync>(
    host: &HostRuntime,
    rt: &R,
    alloc: Global,
    at_rest: Rested<E>,
) -> Result<(Seen, u64), Fault> {
    let front = match Open::new(alloc, at_rest) {
        Ok(front) => front,
        Err((fault, _at_rest)) => return Err(fault),
    };
    let seen = watched(host, rt, alloc, &front);
    let left = front.close();
    Ok((seen?, left.made))
}

#[test]
fn a_kept_trace_is_never_full_and_takes_no_memory(rt: HostRuntime) -> Result<(), Fail> {
    let at_rest = Rested::new(fresh(&rt, rt.alloc())?);
    let (seen, made) = looked_up(&rt, &rt, rt.alloc(), at_rest)?;
    assert!(rt; seen.found == LOOK_UPS);
    assert!(rt;
        seen.after <= seen.before.saturating_add(MORE),
        "{} pages, then {}",
        seen.before,
        seen.after
    );
    assert!(rt; made == LOOK_UPS + 3);
    Ok(())
}
