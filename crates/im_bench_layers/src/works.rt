//! Keys put into a store, looked up, listed, dropped and taken back, by steps.

use crate::keys::{key_of, scattered};
use crate::making::begun;
use im_base_steps::{Reply, Step};
use im_base_types::{Fault, TxnId};
use im_theory_store_trait::Store;
use std::alloc::Global;

/// What is done with each key.
#[derive(Clone, Copy)]
pub enum Work {
    Insert,
    /// A look-up of a key that is there.
    Present,
    /// A look-up of one that is not.
    Absent,
    /// The first entries from a key on, as many as `SCANNED`.
    Scan,
    Delete,
    /// An insert that is taken back: its transaction rolls back.
    TakenBack,
}

/// How many entries a scan asks for.
pub const SCANNED: u64 = 100;

/// In which order the keys of a part come.
#[derive(Clone, Copy)]
pub enum Order {
    Rising,
    Scattered,
}

/// A work on so many keys from a number on, so many in a transaction.
#[derive(Clone, Copy)]
pub struct Part {
    pub work: Work,
    pub order: Order,
    pub first: u64,
    pub keys: u64,
    pub each: u64,
}

/// Does a part, and answers how many steps were answered as they should be.
pub fn worked<E: Store>(alloc: Global, store: &mut E, part: Part) -> Result<u64, Fault> {
    let mut right = 0u64;
    let each = part.each.max(1);
    for n in 0..part.keys.wrapping_add(each - 1) / each {
        let done = n.wrapping_mul(each);
        let keys = part.keys.wrapping_sub(done).min(each);
        let first = part.first.wrapping_add(done);
        right = right.wrapping_add(made(alloc, store, part, first, keys)?);
    }
    Ok(right)
}

// A transaction of so many steps, and its end.
fn made<E: Store>(
    alloc: Global,
    store: &mut E,
    part: Part,
    first: u64,
    keys: u64,
) -> Result<u64, Fault> {
    let Some(transaction) = begun(store) else {
        return Ok(0);
    };
    let mut right = 0u64;
    for i in 0..keys {
        let number = first.wrapping_add(i);
        if is_answered(alloc, store, transaction, part, number)? {
            right = right.wrapping_add(1);
        }
    }
    let ended = match part.work {
        Work::TakenBack => is_taken_back(store, transaction, keys),
        _ => matches!(store.step(&Step::Commit(transaction)), Reply::Committed),
    };
    Ok(if ended { right } else { 0 })
}

// Whether the step of a number is answered as it should be.
fn is_answered<E: Store>(
    alloc: Global,
    store: &mut E,
    transaction: TxnId,
    part: Part,
    number: u64,
) -> Result<bool, Fault> {
    let step = step_of(alloc, transaction, part, number)?;
    Ok(is_wanted(part.work, number, &store.step(&step)))
}

// Takes back what a transaction did, which is so many changes.
fn is_taken_back<E: Store>(store: &mut E, transaction: TxnId, changes: u64) -> bool {
    let mut reply = store.step(&Step::Rollback(transaction));
    for _ in 0..changes {
        if !matches!(reply, Reply::More) {
            return false;
        }
        reply = store.step(&Step::Continue(transaction));
    }
    matches!(reply, Reply::RolledBack)
}

// The step of a number. Keys of numbers from 2^63 on are never put; absent ones are looked up in scattered order alone.
fn step_of(alloc: Global, transaction: TxnId, part: Part, number: u64) -> Result<Step, Fault> {
    let place = match (part.order, part.work) {
        (Order::Rising, _) => number,
        (_, Work::Absent) => scattered(number | 1 << 63),
        _ => scattered(number),
    };
    let key = Vec::from_slice(alloc, &key_of(place)).map_err(|_| Fault::Memory)?;
    Ok(match part.work {
        Work::Insert | Work::TakenBack => Step::Insert(transaction, key, number),
        Work::Present | Work::Absent => Step::Fetch(transaction, key),
        Work::Scan => {
            let last = Vec::from_slice(alloc, &key_of(u64::MAX)).map_err(|_| Fault::Memory)?;
            Step::Scan(transaction, key, last, SCANNED)
        }
        Work::Delete => Step::Delete(transaction, key),
    })
}

// Whether it is the reply that a step should have. A scan near the greatest key has fewer entries.
fn is_wanted(work: Work, number: u64, reply: &Reply) -> bool {
    match work {
        Work::Insert | Work::TakenBack => matches!(reply, Reply::Inserted),
        Work::Present => matches!(reply, Reply::Found(rid) if *rid == number),
        Work::Absent => matches!(reply, Reply::Absent),
        Work::Scan => match reply {
            Reply::Entries(list) => list.len() as u64 == SCANNED,
            _ => false,
        },
        Work::Delete => matches!(reply, Reply::Deleted),
    }
}
