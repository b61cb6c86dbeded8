//! The parts of `im_bench long`: steps over many keys of 255 bytes.

use crate::long_keys::{key_of, scattered};
use crate::making::{begun, make};
use crate::tally::Tally;
use im_base_steps::{Reply, Step};
use im_base_types::{Fault, Key, LONGEST_KEY, Rid, TxnId};
use im_theory_store_trait::Store;
use std::alloc::Global;

/// How many keys a transaction takes.
const STEPS: u64 = 1_000;

/// What is done with a key.
#[derive(Clone, Copy)]
pub enum Work {
    Insert,
    Fetch,
    Delete,
}

/// In which order the keys of a part come.
#[derive(Clone, Copy)]
pub enum Order {
    Rising,
    Falling,
    Scattered,
}

/// The keys of a part: so many numbers from the first one on, in steps of two.
#[derive(Clone, Copy)]
pub struct Span {
    pub first: u64,
    pub keys: u64,
    pub order: Order,
}

impl Span {
    // The number of the key that comes at a place.
    fn number(&self, place: u64) -> u64 {
        let place = match self.order {
            Order::Rising => place,
            Order::Falling => self.keys.wrapping_sub(place).wrapping_sub(1),
            Order::Scattered => scattered(place, self.keys),
        };
        self.first.wrapping_add(place.wrapping_mul(2))
    }
}

// Makes a work of each key of a span in a transaction, which goes on.
fn worked<E: Store>(
    alloc: Global,
    store: &mut E,
    transaction: TxnId,
    work: Work,
    span: Span,
    tally: &mut Tally,
) -> Result<(), Fault> {
    for place in 0..span.keys {
        work_one(alloc, store, transaction, work, span.number(place), tally)?;
    }
    Ok(())
}

// Makes a work of one key.
fn work_one<E: Store>(
    alloc: Global,
    store: &mut E,
    transaction: TxnId,
    work: Work,
    number: u64,
    tally: &mut Tally,
) -> Result<(), Fault> {
    let step = step_of(alloc, transaction, work, number)?;
    let reply = store.step(&step);
    tally.add(&reply, is_right(work, number, &reply));
    Ok(())
}

/// Makes a work of each key of a span in a transaction of its own, which commits.
pub fn committed<E: Store>(
    alloc: Global,
    store: &mut E,
    work: Work,
    span: Span,
    tally: &mut Tally,
) -> Result<(), Fault> {
    if let Some(transaction) = begun(store) {
        worked(alloc, store, transaction, work, span, tally)?;
        let reply = store.step(&Step::Commit(transaction));
        tally.add(&reply, matches!(&reply, Reply::Committed));
    }
    Ok(())
}

/// Makes a work of so many keys, by transactions that commit, of a thousand keys each.
pub fn all_committed<E: Store>(
    alloc: Global,
    store: &mut E,
    work: Work,
    keys: u64,
    order: Order,
) -> Result<Tally, Fault> {
    let mut tally = Tally::default();
    for n in 0..keys / STEPS {
        let span = Span {
            first: n.wrapping_mul(STEPS * 2),
            keys: STEPS,
            order,
        };
        committed(alloc, store, work, span, &mut tally)?;
    }
    Ok(tally)
}

/// Makes a work of each key of a span in a transaction that never commits, and a force after it.
pub fn worked_and_forced<E: Store>(
    alloc: Global,
    store: &mut E,
    work: Work,
    span: Span,
) -> Result<Tally, Fault> {
    let mut tally = Tally::default();
    if let Some(transaction) = begun(store) {
        worked(alloc, store, transaction, work, span, &mut tally)?;
    }
    let reply = store.step(&Step::Force);
    tally.add(&reply, matches!(&reply, Reply::Done));
    Ok(tally)
}

/// Makes the two works of a transaction that never commits: inserts, and deletes after them. After the last of them its records are durable,
/// and the root's page is written.
pub fn lose<E: Store>(
    alloc: Global,
    store: &mut E,
    inserted: Span,
    deleted: Span,
    tally: &mut Tally,
) -> Result<(), Fault> {
    if let Some(transaction) = begun(store) {
        worked(alloc, store, transaction, Work::Insert, inserted, tally)?;
        worked(alloc, store, transaction, Work::Delete, deleted, tally)?;
        make(store, Step::FlushPage(1));
        make(store, Step::Force);
    }
    Ok(())
}

// The step of a number.
fn step_of(alloc: Global, transaction: TxnId, work: Work, number: u64) -> Result<Step, Fault> {
    let key = key_of(alloc, number)?;
    Ok(match work {
        Work::Insert => Step::Insert(transaction, key, number),
        Work::Fetch => Step::Fetch(transaction, key),
        Work::Delete => Step::Delete(transaction, key),
    })
}

// Whether it has the reply that it should have.
fn is_right(work: Work, number: u64, reply: &Reply) -> bool {
    match work {
        Work::Insert => matches!(reply, Reply::Inserted),
        Work::Fetch => matches!(reply, Reply::Found(rid) if *rid == number),
        Work::Delete => matches!(reply, Reply::Deleted),
    }
}

/// How many of these entries are as they should be: row ids rise by two from 0 on.
pub fn right_among(entries: &[(Key, Rid)]) -> u64 {
    let mut right = 0u64;
    let mut next: Rid = 0;
    for (key, rid) in entries {
        if *rid == next && key.bytes().len() == LONGEST_KEY {
            right = right.wrapping_add(1);
        }
        next = next.wrapping_add(2);
    }
    right
}
