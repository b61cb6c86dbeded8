//! A device that fails in a force: all that wait are told so, and whether they are committed shows when the store is opened again.

use crate::stores::{
    CREATION, Found, begin, begin_with, fault_of, front_over, key_of, look_behind, stop_with, waits,
};
use im_base_steps::{Reply, Step};
use im_base_types::{Fault, TxnId};
use im_front::Open;
use im_theory_store_trait::Store;
use std::alloc::Global;
use std::sync::Wait;
use std::test::Fail;
use std::thread::{Threads, map_vec};

/// The device call that opens the gate of the first force's batch: after it the batch is there, before it is not.
const OPENING: u64 = CREATION + 3;

// What the last of four is told, whose force fails; and what `settle` and a Begin are told then.
fn commit_four<E: Store, R: Wait>(
    rt: &R,
    alloc: Global,
    front: &Open<E>,
) -> Result<(Result<(), Fault>, Result<(), Fault>, Reply), Fault> {
    for byte in b'a'..b'd' {
        let t = begin_with(rt, alloc, front, byte)?;
        if !waits(rt, front, t) {
            return Err(Fault::Failed);
        }
    }
    let last = begin_with(rt, alloc, front, b'd')?;
    let told = front.commit(rt, last);
    let settled = front.settle(rt);
    Ok((told, settled, front.call(rt, Step::Begin)))
}

// The same on a new store; then what was not synced becomes this byte.
fn fail_and_stop<R: Wait + Threads + Sync>(
    rt: &R,
    alloc: Global,
    byte: u8,
) -> Result<(bool, Found), Fault> {
    let front = front_over(rt, alloc, true, stop_with(alloc, byte)?, OPENING)?;
    let told = commit_four(rt, alloc, &front);
    let found = look_behind(rt, alloc, front)?;
    let (told, settled, then) = told?;
    let refused = told == Err(Fault::Device) && settled == Err(Fault::Failed);
    Ok((refused && fault_of(then) == Fault::Failed, found))
}

#[test]
fn a_force_that_fails_leaves_all_or_none(rt: HostRuntime) -> Result<(), Fail> {
    let (refused, none) = fail_and_stop(&rt, rt.alloc(), 0)?;
    assert!(rt; refused && none.entries.is_empty());
    let (refused, all) = fail_and_stop(&rt, rt.alloc(), 1)?;
    assert!(rt; refused && all.entries.len() == 4);
    Ok(())
}

// What a thread does: it commits, or fetches a key that one of the others has inserted.
#[derive(Clone, Copy)]
enum Job {
    Commit(TxnId),
    Fetch(TxnId),
}

fn told_to<E: Store, R: Wait>(rt: &R, alloc: Global, front: &Open<E>, job: Job) -> Fault {
    match job {
        Job::Commit(t) => match front.commit(rt, t) {
            Ok(()) => Fault::Busy,
            Err(fault) => fault,
        },
        Job::Fetch(t) => match key_of(alloc, b'd') {
            Ok(key) => fault_of(front.call(rt, Step::Fetch(t, key))),
            Err(fault) => fault,
        },
    }
}

// An old transaction that fetches, and four that have inserted a key and commit.
fn jobs_of<E: Store, R: Wait>(rt: &R, alloc: Global, front: &Open<E>) -> Result<Vec<Job>, Fault> {
    let mut jobs = Vec::new(alloc);
    let Ok(()) = jobs.push(Job::Fetch(begin(rt, front)?)) else {
        return Err(Fault::Memory);
    };
    for byte in b'a'..=b'd' {
        let Ok(()) = jobs.push(Job::Commit(begin_with(rt, alloc, front, byte)?)) else {
            return Err(Fault::Memory);
        };
    }
    Ok(jobs)
}

// What all are told, each in a thread of its own.
fn all_told<E: Store + Send, R: Threads + Wait + Sync>(
    rt: &R,
    alloc: Global,
    front: &Open<E>,
) -> Result<Vec<Fault>, Fault> {
    let jobs = jobs_of(rt, alloc, front)?;
    match map_vec(rt, jobs, &|job| told_to(rt, alloc, front, job)) {
        Ok(told) => Ok(told),
        Err(_) => Err(Fault::Memory),
    }
}

// How many were told this.
fn count(told: &[Fault], fault: Fault) -> usize {
    told.iter().filter(|one| **one == fault).count()
}

#[test]
fn who_sleeps_while_the_force_fails_is_told(rt: HostRuntime) -> Result<(), Fail> {
    let stop = stop_with(rt.alloc(), 0)?;
    let front = front_over(&rt, rt.alloc(), true, stop, OPENING)?;
    let told = all_told(&rt, rt.alloc(), &front);
    let found = look_behind(&rt, rt.alloc(), front)?;
    let told = told?;
    assert!(rt; count(told.as_slice(), Fault::Device) == 1);
    assert!(rt; count(told.as_slice(), Fault::Failed) == 4);
    assert!(rt; found.entries.is_empty());
    Ok(())
}
