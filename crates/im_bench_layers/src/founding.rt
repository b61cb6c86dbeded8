//! The store of `im_bench damage`, whose files are damaged: its keys, and the steps that fill it.

use crate::making::make;
use im_base_steps::Step;
use im_base_types::{Fault, Key, LONGEST_KEY, Rid};
use im_theory_store_trait::Store;
use std::alloc::Global;

// How many keys a first transaction inserts, and commits.
const KEYS: u64 = 140;

// How many of them a second one deletes, and commits: all of the first leaf.
const DELETED: u64 = 8;

// How many pages are written in place after that.
const PAGES: u32 = 30;

// The key of a number: two bytes of it, and then `z` up to 255 bytes. Keys rise as the numbers do.
fn key_of(alloc: Global, number: u64) -> Result<Vec<u8>, Fault> {
    let front = [(number / 100 % 100) as u8, (number % 100) as u8];
    let mut key = Vec::from_slice(alloc, &front).map_err(|_| Fault::Memory)?;
    key.resize(LONGEST_KEY, b'z').map_err(|_| Fault::Memory)?;
    Ok(key)
}

/// The steps of the three transactions, of which the last has changed keys and never commits.
pub fn found<E: Store>(alloc: Global, store: &mut E) -> Result<(), Fault> {
    make(store, Step::Begin);
    for number in 0..KEYS {
        make(store, Step::Insert(1, key_of(alloc, number)?, number));
    }
    make(store, Step::Commit(1));
    make(store, Step::Begin);
    for number in 0..DELETED {
        make(store, Step::Delete(2, key_of(alloc, number)?));
    }
    make(store, Step::Commit(2));
    for page in 0..PAGES {
        make(store, Step::FlushPage(page));
    }
    make(store, Step::Begin);
    make(store, Step::Delete(3, key_of(alloc, DELETED)?));
    make(store, Step::Insert(3, key_of(alloc, 0)?, 7));
    make(store, Step::Force);
    Ok(())
}

/// Makes steps of each kind, and writes each page.
pub fn make_each<E: Store>(alloc: Global, store: &mut E) -> Result<(), Fault> {
    make(store, Step::Begin);
    make(store, Step::Fetch(4, key_of(alloc, 20)?));
    make(store, Step::Insert(4, key_of(alloc, 1)?, 9));
    make(store, Step::Delete(4, key_of(alloc, 30)?));
    make(store, Step::Commit(4));
    for page in 0..PAGES {
        make(store, Step::FlushPage(page));
    }
    Ok(())
}

/// Whether these are the entries that the store has committed.
pub fn are_committed(alloc: Global, entries: &[(Key, Rid)]) -> Result<bool, Fault> {
    let mut number = DELETED;
    for (key, rid) in entries {
        if *rid != number || key.bytes() != key_of(alloc, number)?.as_slice() {
            return Ok(false);
        }
        number = number.wrapping_add(1);
    }
    Ok(number == KEYS)
}
