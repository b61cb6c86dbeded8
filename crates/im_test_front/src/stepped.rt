//! Threads beside a structure change that is made page by page.

use crate::stores::{begin, begin_with, fault_of, key_of, stepped};
use im_base_steps::{Reply, Step};
use im_base_types::{Fault, TxnId};
use im_front::Open;
use im_theory_store_trait::Store;
use std::alloc::Global;
use std::sync::Wait;
use std::test::Fail;
use std::thread;
use std::thread::{Threads, join};

/// How many of the longest keys a leaf holds.
const FULL: u8 = 15;

// The key of 255 times this byte.
fn long_key(alloc: Global, byte: u8) -> Result<Vec<u8>, Fault> {
    match Vec::from_slice(alloc, &[byte; 255]) {
        Ok(key) => Ok(key),
        Err(_) => Err(Fault::Memory),
    }
}

// Puts as many long keys into the store as a leaf holds.
fn fill<E: Store, R: Wait>(rt: &R, alloc: Global, front: &Open<E>) -> Result<(), Fault> {
    let t = begin(rt, front)?;
    for i in 0..FULL {
        let key = long_key(alloc, b'a' + i)?;
        match front.call(rt, Step::Insert(t, key, 1)) {
            Reply::Inserted => {}
            other => return Err(fault_of(other)),
        }
    }
    front.commit(rt, t)
}

// The younger one puts a key into the leaf that splits, for which it waits, and commits.
fn insert_and_commit<E: Store, R: Wait>(
    rt: &R,
    alloc: Global,
    front: &Open<E>,
    t: TxnId,
) -> Result<(), Fault> {
    let key = key_of(alloc, b'B')?;
    match front.call(rt, Step::Insert(t, key, 66)) {
        Reply::Inserted => front.commit(rt, t),
        other => Err(fault_of(other)),
    }
}

// The older one ends its insert, after the other has come to wait for it, and then waits itself, for the other's first key.
fn end_and_fetch<E: Store, R: Wait>(
    rt: &R,
    alloc: Global,
    front: &Open<E>,
    t: TxnId,
) -> Result<bool, Fault> {
    for _turn in 0..1000u64 {
        thread::yield_now();
    }
    let mut reply = Reply::More;
    for _page in 0..FULL {
        if matches!(reply, Reply::More) {
            reply = front.call(rt, Step::Continue(t));
        }
    }
    let key = key_of(alloc, b'A')?;
    let is_found = matches!(front.call(rt, Step::Fetch(t, key)), Reply::Found(65));
    front.commit(rt, t)?;
    Ok(is_found && matches!(reply, Reply::Inserted))
}

// Both at once: the older one's insert splits a leaf, in which the younger one has a key and wants another.
fn beside_a_split<E: Store + Send, R: Threads + Wait + Sync>(
    rt: &R,
    alloc: Global,
    front: &Open<E>,
) -> Result<bool, Fault> {
    fill(rt, alloc, front)?;
    let older = begin(rt, front)?;
    let younger = begin_with(rt, alloc, front, b'A')?;
    let key = long_key(alloc, b'a' + FULL)?;
    let begun = front.call(rt, Step::Insert(older, key, 1));
    let (came, is_found) = join(
        rt,
        || insert_and_commit(rt, alloc, front, younger),
        || end_and_fetch(rt, alloc, front, older),
    );
    came?;
    Ok(matches!(begun, Reply::More) && is_found?)
}

#[test]
fn who_waits_for_a_structure_change_is_woken(rt: HostRuntime) -> Result<(), Fail> {
    let front = stepped(&rt, rt.alloc())?;
    assert!(rt; beside_a_split(&rt, rt.alloc(), &front)?);
    Ok(())
}
