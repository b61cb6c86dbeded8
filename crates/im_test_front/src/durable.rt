//! What `commit` and `settle` answer to one caller, and what is there after a stop then.

use crate::stores::{
    CREATION, FORCE, NEVER, are_bytes, begin_with, front_over, grouped, look_behind, stop_at, waits,
};
use im_base_steps::{Reply, Step};
use im_base_types::{Fault, TxnId};
use im_front::Open;
use im_theory_store_trait::Store;
use std::alloc::Global;
use std::sync::Wait;
use std::test::Fail;

// One transaction that inserts the key a; what its commit is answered.
fn commit_one<E: Store, R: Wait>(rt: &R, alloc: Global, front: &Open<E>) -> Result<(), Fault> {
    let t = begin_with(rt, alloc, front, b'a')?;
    front.commit(rt, t)
}

#[test]
fn commit_makes_a_force_and_is_durable(rt: HostRuntime) -> Result<(), Fail> {
    let front = grouped(&rt, rt.alloc())?;
    let told = commit_one(&rt, rt.alloc(), &front);
    let found = look_behind(&rt, rt.alloc(), front)?;
    assert!(rt; told.is_ok());
    assert!(rt; found.made == 4 && found.calls == CREATION + FORCE);
    assert!(rt; are_bytes(found.entries.as_slice(), b"a"));
    Ok(())
}

#[test]
fn without_group_commit_is_one_step(rt: HostRuntime) -> Result<(), Fail> {
    let front = front_over(&rt, rt.alloc(), false, stop_at(NEVER), NEVER)?;
    let told = commit_one(&rt, rt.alloc(), &front);
    let found = look_behind(&rt, rt.alloc(), front)?;
    assert!(rt; told.is_ok());
    assert!(rt; found.made == 3 && found.calls == CREATION + FORCE);
    assert!(rt; are_bytes(found.entries.as_slice(), b"a"));
    Ok(())
}

/// How often a key of 250 bytes comes and goes: the records take nearly all of the log's buffer of 16,384 bytes.
const ROUNDS: u64 = 27;

// A key of so many bytes comes and goes.
fn come_and_go<E: Store, R: Wait>(
    rt: &R,
    alloc: Global,
    front: &Open<E>,
    t: TxnId,
    long: usize,
) -> Result<(), Fault> {
    let Ok(key) = Vec::from_elem(alloc, b'z', long) else {
        return Err(Fault::Memory);
    };
    let Ok(same) = Vec::from_elem(alloc, b'z', long) else {
        return Err(Fault::Memory);
    };
    let _ = front.call(rt, Step::Insert(t, key, 1));
    let _ = front.call(rt, Step::Delete(t, same));
    Ok(())
}

// A transaction whose records leave no room for its Commit: two bytes are wanting.
fn commit_a_long_one<E: Store, R: Wait>(
    rt: &R,
    alloc: Global,
    front: &Open<E>,
) -> Result<(), Fault> {
    let t = begin_with(rt, alloc, front, b'a')?;
    for _ in 0..ROUNDS {
        come_and_go(rt, alloc, front, t, 250)?;
    }
    come_and_go(rt, alloc, front, t, 229)?;
    front.commit(rt, t)
}

#[test]
fn a_commit_that_does_not_fit_is_durable(rt: HostRuntime) -> Result<(), Fail> {
    let front = grouped(&rt, rt.alloc())?;
    let told = commit_a_long_one(&rt, rt.alloc(), &front);
    let found = look_behind(&rt, rt.alloc(), front)?;
    assert!(rt; told.is_ok());
    assert!(rt; found.calls == CREATION + FORCE + FORCE);
    assert!(rt; are_bytes(found.entries.as_slice(), b"a"));
    Ok(())
}

// What a transaction that waits is answered to a second Commit, a Rollback and a Continue; and what `settle` says twice.
#[derive(Clone, Copy)]
struct Answers {
    waits: bool,
    second: Result<(), Fault>,
    rollback: bool,
    go_on: bool,
    settled: bool,
    settled_again: bool,
}

fn ask_of_one_that_waits<E: Store, R: Wait>(
    rt: &R,
    alloc: Global,
    front: &Open<E>,
) -> Result<Answers, Fault> {
    let t = begin_with(rt, alloc, front, b'a')?;
    let waits = waits(rt, front, t);
    let second = front.commit(rt, t);
    let rollback = is_unknown(front.call(rt, Step::Rollback(t)));
    let go_on = is_unknown(front.call(rt, Step::Continue(t)));
    let settled = front.settle(rt).is_ok();
    let settled_again = front.settle(rt).is_ok();
    Ok(Answers {
        waits,
        second,
        rollback,
        go_on,
        settled,
        settled_again,
    })
}

fn is_unknown(reply: Reply) -> bool {
    matches!(reply, Reply::Refused(Fault::NoTransaction))
}

#[test]
fn who_waits_takes_no_step_until_it_is_settled(rt: HostRuntime) -> Result<(), Fail> {
    let front = grouped(&rt, rt.alloc())?;
    let told = ask_of_one_that_waits(&rt, rt.alloc(), &front);
    let found = look_behind(&rt, rt.alloc(), front)?;
    let told = told?;
    assert!(rt; told.waits && told.second == Err(Fault::NoTransaction));
    assert!(rt; told.rollback && told.go_on);
    assert!(rt; told.settled && told.settled_again);
    assert!(rt; found.made == 7 && found.calls == CREATION + FORCE);
    assert!(rt; are_bytes(found.entries.as_slice(), b"a"));
    Ok(())
}

// How many of 64 transactions wait at once; what a Begin is answered then, and after `settle`.
fn let_all_wait<E: Store, R: Wait>(
    rt: &R,
    alloc: Global,
    front: &Open<E>,
) -> Result<(u64, Reply, Reply), Fault> {
    let mut waiting: u64 = 0;
    for byte in 1..65u8 {
        let t = begin_with(rt, alloc, front, byte)?;
        if waits(rt, front, t) {
            waiting = waiting.saturating_add(1);
        }
    }
    let over = front.call(rt, Step::Begin);
    front.settle(rt)?;
    Ok((waiting, over, front.call(rt, Step::Begin)))
}

#[test]
fn sixty_four_wait_and_one_force_serves_them(rt: HostRuntime) -> Result<(), Fail> {
    let front = grouped(&rt, rt.alloc())?;
    let told = let_all_wait(&rt, rt.alloc(), &front);
    let found = look_behind(&rt, rt.alloc(), front)?;
    let (waiting, over, then) = told?;
    assert!(rt; waiting == 64 && found.calls == CREATION + FORCE);
    assert!(rt; matches!(over, Reply::Refused(Fault::TooMany)));
    assert!(rt; matches!(then, Reply::Started(65)));
    assert!(rt; found.entries.len() == 64);
    Ok(())
}
