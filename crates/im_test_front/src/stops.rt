//! Threads that commit in one store while its disk stops within one of its calls: after the stop each transaction is there whose `commit` was answered
//! `Ok`, each that asked for its commit is there or not, and no other.

use crate::stores::{CREATION, Found, NEVER, front_over, look_behind};
use im_base_model_disk::{Fill, Length, Stop};
use im_base_steps::{Reply, Step};
use im_base_types::{Fault, Key, Rid, TxnId};
use im_front::Open;
use im_theory_store_trait::Store;
use std::alloc::Global;
use std::sync::Wait;
use std::test::Fail;
use std::thread::{Threads, join};

/// How many transactions each of the two threads makes.
const TXNS: u8 = 20;

/// How many stops are tried: one within each of the first calls of the disk after those of a creation. They are fewer than the calls of the forces that one
/// thread's commits need.
const STOPS: u64 = 60;

// What became of a transaction: its commit was answered `Ok`; its commit was asked and refused; it was not asked.
#[derive(Clone, Copy, PartialEq, Eq)]
enum Outcome {
    Kept,
    Asked,
    Left,
}

// What the threads were told, and what is there after the stop.
#[derive(Drop)]
struct Told {
    first: Vec<Outcome>,
    second: Vec<Outcome>,
    found: Found,
}

// A stop within a call, of one of four kinds.
fn stop_within(alloc: Global, call: u64) -> Result<Stop, Fault> {
    let Ok(bytes) = Vec::from_slice(alloc, &[(call % 251) as u8]) else {
        return Err(Fault::Memory);
    };
    Ok(Stop {
        call,
        length: if call % 2 == 0 {
            Length::Long
        } else {
            Length::Short
        },
        fill: if call % 4 < 2 {
            Fill::Bytes(bytes)
        } else {
            Fill::Written
        },
    })
}

// The key of a thread's transaction. The keys of both threads stand in turn.
fn key_of(alloc: Global, thread: u8, number: u8) -> Result<Vec<u8>, Fault> {
    match Vec::from_slice(alloc, &[number, thread]) {
        Ok(key) => Ok(key),
        Err(_) => Err(Fault::Memory),
    }
}

// Makes transactions that insert a key each.
fn work<E: Store, R: Wait>(
    rt: &R,
    alloc: Global,
    front: &Open<E>,
    thread: u8,
) -> Result<Vec<Outcome>, Fault> {
    let mut outcomes = Vec::new(alloc);
    for number in 0..TXNS {
        let outcome = insert_one(rt, alloc, front, thread, number)?;
        let Ok(()) = outcomes.push(outcome) else {
            return Err(Fault::Memory);
        };
    }
    Ok(outcomes)
}

// A key is inserted and committed. Where its transaction must die, another one tries again after a force.
fn insert_one<E: Store, R: Wait>(
    rt: &R,
    alloc: Global,
    front: &Open<E>,
    thread: u8,
    number: u8,
) -> Result<Outcome, Fault> {
    for _attempt in rt.forever() {
        let key = key_of(alloc, thread, number)?;
        if let Some(outcome) = one_insert(rt, front, key, u64::from(number)) {
            return Ok(outcome);
        }
        if front.settle(rt).is_err() {
            return Ok(Outcome::Left);
        }
    }
    unreachable!()
}

// One transaction, which commits; none where it must die, and is rolled back.
fn one_insert<E: Store, R: Wait>(
    rt: &R,
    front: &Open<E>,
    key: Vec<u8>,
    rid: Rid,
) -> Option<Outcome> {
    let Reply::Started(t) = front.call(rt, Step::Begin) else {
        return Some(Outcome::Left);
    };
    match front.call(rt, Step::Insert(t, key, rid)) {
        Reply::Inserted => match front.commit(rt, t) {
            Ok(()) => Some(Outcome::Kept),
            Err(_) => Some(Outcome::Asked),
        },
        Reply::Die => {
            roll_back(rt, front, t);
            None
        }
        _ => Some(Outcome::Left),
    }
}

// Rolls a transaction back, to its end or a refusal.
fn roll_back<E: Store, R: Wait>(rt: &R, front: &Open<E>, t: TxnId) {
    let mut reply = front.call(rt, Step::Rollback(t));
    for _round in rt.forever() {
        if !matches!(reply, Reply::More) {
            break;
        }
        reply = front.call(rt, Step::Continue(t));
    }
}

// Both threads at work, and what is there after the stop.
fn stopped_within<R: Threads + Wait + Sync>(
    rt: &R,
    alloc: Global,
    call: u64,
) -> Result<Told, Fault> {
    let front = front_over(rt, alloc, true, stop_within(alloc, call)?, NEVER)?;
    let (first, second) = join(
        rt,
        || work(rt, alloc, &front, 0),
        || work(rt, alloc, &front, 1),
    );
    let found = look_behind(rt, alloc, front)?;
    Ok(Told {
        first: first?,
        second: second?,
        found,
    })
}

// Whether there is an entry of a thread's transaction.
fn is_there(entries: &[(Key, Rid)], thread: u8, number: usize) -> bool {
    entries.iter().any(|entry| {
        let key = entry.0.bytes();
        key.len() == 2 && usize::from(key[0]) == number && key[1] == thread
    })
}

// How many of a thread's transactions are there; none where one is not as its outcome says.
fn count_there(entries: &[(Key, Rid)], thread: u8, outcomes: &[Outcome]) -> Option<usize> {
    let mut there = 0usize;
    for i in 0..outcomes.len() {
        if is_there(entries, thread, i) {
            if outcomes[i] == Outcome::Left {
                return None;
            }
            there = there.saturating_add(1);
        } else if outcomes[i] == Outcome::Kept {
            return None;
        }
    }
    Some(there)
}

// Whether just what may be there is.
fn is_allowed(told: &Told) -> bool {
    let entries = told.found.entries.as_slice();
    let first = count_there(entries, 0, told.first.as_slice());
    let second = count_there(entries, 1, told.second.as_slice());
    match (first, second) {
        (Some(first), Some(second)) => first.saturating_add(second) == entries.len(),
        _ => false,
    }
}

// How many commits were answered `Ok`.
fn count_kept(told: &Told) -> usize {
    let first = told
        .first
        .iter()
        .filter(|one| **one == Outcome::Kept)
        .count();
    let second = told
        .second
        .iter()
        .filter(|one| **one == Outcome::Kept)
        .count();
    first.saturating_add(second)
}

#[test]
fn a_stop_keeps_what_commit_answered(rt: HostRuntime) -> Result<(), Fail> {
    let mut kept = 0usize;
    for stop in 1..=STOPS {
        let told = stopped_within(&rt, rt.alloc(), CREATION.saturating_add(stop))?;
        assert!(rt; told.found.stopped);
        assert!(rt; is_allowed(&told));
        kept = kept.saturating_add(count_kept(&told));
    }
    assert!(rt; kept > 0);
    Ok(())
}
