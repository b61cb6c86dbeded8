//! Commits through a front that counts its steps: a Commit and the force after it are two.

use crate::stores::{begin_with, grouped};
use im_base_steps::{Reply, Step};
use im_base_types::Fault;
use im_front::Open;
use im_theory_store_trait::Store;
use std::alloc::Global;
use std::sync::Wait;
use std::test::Fail;

// The first is committed by `commit`, the second waits until `settle`: whether it waited, and both are then counted as committed.
fn commit_both<E: Store, R: Wait>(rt: &R, alloc: Global, front: &Open<E>) -> Result<bool, Fault> {
    let mut reader = front.share(rt)?;
    let first = begin_with(rt, alloc, front, b'a')?;
    front.commit(rt, first)?;
    let second = begin_with(rt, alloc, front, b'b')?;
    let waits = matches!(front.call(rt, Step::Commit(second)), Reply::More);
    front.settle(rt)?;
    Ok(waits && front.stats(&mut reader).committed == 2)
}

// How many steps a front has made, at its end.
fn made_by<E: Store>(front: Open<E>) -> u64 {
    front.close().made
}

#[test]
fn each_step_of_a_commit_is_counted(rt: HostRuntime) -> Result<(), Fail> {
    let front = grouped(&rt, rt.alloc())?;
    let told = commit_both(&rt, rt.alloc(), &front);
    let made = made_by(front);
    assert!(rt; told?);
    assert!(rt; made == 8);
    Ok(())
}
