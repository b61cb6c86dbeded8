//! Threads that sleep until a force is made.

use crate::stores::{Found, begin, begin_with, grouped, key_of, look_behind, waits};
use im_base_steps::{Reply, Step};
use im_base_types::{Fault, TxnId};
use im_front::Open;
use im_theory_store_trait::Store;
use std::alloc::Global;
use std::sync::Wait;
use std::sync::atomic::{AtomicU64, Ordering};
use std::test::Fail;
use std::thread;
use std::thread::{Threads, join, map_vec};

/// How many threads commit at once.
const THREADS: u8 = 16;

/// In how many stores they do so at most, until two of them share a force.
const ROUNDS: u64 = 1_000;

/// How often a thread looks whether the others have come.
const LOOKS: u64 = 1_000_000;

// Waits for a while until all have come, and commits.
fn meet_and_commit<E: Store, R: Wait>(
    rt: &R,
    front: &Open<E>,
    came: &AtomicU64,
    t: TxnId,
) -> Result<(), Fault> {
    came.fetch_add(1, Ordering::SeqCst);
    for _look in 0..LOOKS {
        if came.load(Ordering::SeqCst) >= u64::from(THREADS) {
            break;
        }
        thread::yield_now();
    }
    front.commit(rt, t)
}

// A transaction for each thread, with a key inserted.
fn all_begin<E: Store, R: Wait>(
    rt: &R,
    alloc: Global,
    front: &Open<E>,
) -> Result<Vec<TxnId>, Fault> {
    let mut all = Vec::new(alloc);
    for byte in 1..=THREADS {
        let Ok(()) = all.push(begin_with(rt, alloc, front, byte)?) else {
            return Err(Fault::Memory);
        };
    }
    Ok(all)
}

// All commit at once.
fn all_commit<E: Store + Send, R: Threads + Wait + Sync>(
    rt: &R,
    alloc: Global,
    front: &Open<E>,
) -> Result<(), Fault> {
    let all = all_begin(rt, alloc, front)?;
    let came = AtomicU64::new(0);
    let Ok(told) = map_vec(rt, all, &|t| meet_and_commit(rt, front, &came, t)) else {
        return Err(Fault::Memory);
    };
    for one in told {
        one?;
    }
    Ok(())
}

// One round, in a new store.
fn round<R: Threads + Wait + Sync>(rt: &R, alloc: Global) -> Result<Found, Fault> {
    let front = grouped(rt, alloc)?;
    let told = all_commit(rt, alloc, &front);
    let found = look_behind(rt, alloc, front)?;
    told?;
    Ok(found)
}

#[test]
fn threads_share_a_force(rt: HostRuntime) -> Result<(), Fail> {
    let threads = u64::from(THREADS);
    let mut forces = threads;
    for _round in 0..ROUNDS {
        let found = round(&rt, rt.alloc())?;
        assert!(rt; found.entries.len() as u64 == threads);
        // Each transaction made three steps, and each further one is a force.
        forces = found.made.saturating_sub(3 * threads);
        assert!(rt; 1 <= forces && forces <= threads);
        if forces < threads {
            break;
        }
    }
    assert!(rt; forces < threads);
    Ok(())
}

// Lets other threads run, for a while.
fn give_way() {
    for _turn in 0..1000u64 {
        thread::yield_now();
    }
}

// Whether a Fetch of the key a finds it.
fn is_found<E: Store, R: Wait>(rt: &R, alloc: Global, front: &Open<E>, t: TxnId) -> bool {
    match key_of(alloc, b'a') {
        Ok(key) => matches!(front.call(rt, Step::Fetch(t, key)), Reply::Found(97)),
        Err(_) => false,
    }
}

// Its Commit waits for a while, and then somebody makes a force: it does, or another one that commits.
fn wait_and_force<E: Store, R: Wait>(
    rt: &R,
    front: &Open<E>,
    t: TxnId,
    another: Option<TxnId>,
) -> bool {
    give_way();
    let waits = waits(rt, front, t);
    give_way();
    let forced = match another {
        Some(another) => front.commit(rt, another).is_ok(),
        None => matches!(front.call(rt, Step::Force), Reply::Done),
    };
    waits && forced
}

// An older transaction fetches the key of a younger one whose Commit waits. Whether it has found the key, and the force was made.
fn older_finds<E: Store + Send, R: Threads + Wait + Sync>(
    rt: &R,
    alloc: Global,
    front: &Open<E>,
    by_commit: bool,
) -> Result<bool, Fault> {
    let older = begin(rt, front)?;
    let younger = begin_with(rt, alloc, front, b'a')?;
    let another = if by_commit {
        Some(begin_with(rt, alloc, front, b'b')?)
    } else {
        None
    };
    let (is_found, forced) = join(
        rt,
        || is_found(rt, alloc, front, older),
        || wait_and_force(rt, front, younger, another),
    );
    Ok(is_found && forced)
}

// The same in a new store.
fn blocked_in_a_new_store<R: Threads + Wait + Sync>(
    rt: &R,
    alloc: Global,
    by_commit: bool,
) -> Result<bool, Fault> {
    let front = grouped(rt, alloc)?;
    older_finds(rt, alloc, &front, by_commit)
}

#[test]
fn a_blocked_call_wakes_at_a_force(rt: HostRuntime) -> Result<(), Fail> {
    assert!(rt; blocked_in_a_new_store(&rt, rt.alloc(), false)?);
    assert!(rt; blocked_in_a_new_store(&rt, rt.alloc(), true)?);
    Ok(())
}

// One thread ends while its Commit waits, and then another commits.
fn end_and_commit<E: Store + Send, R: Threads + Wait + Sync>(
    rt: &R,
    alloc: Global,
    front: &Open<E>,
) -> Result<bool, Fault> {
    let first = begin_with(rt, alloc, front, b'a')?;
    let second = begin_with(rt, alloc, front, b'b')?;
    let (waits, ()) = join(rt, || waits(rt, front, first), || ());
    front.commit(rt, second)?;
    Ok(waits)
}

#[test]
fn who_ends_while_its_commit_waits_is_committed(rt: HostRuntime) -> Result<(), Fail> {
    let front = grouped(&rt, rt.alloc())?;
    let told = end_and_commit(&rt, rt.alloc(), &front);
    let found = look_behind(&rt, rt.alloc(), front)?;
    assert!(rt; told?);
    assert!(rt; found.made == 7 && found.entries.len() == 2);
    Ok(())
}
