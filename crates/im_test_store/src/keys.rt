//! What a test knows of its keys: a plain table, beside the store.

use im_base_types::{Key, Rid};
use std::alloc::{AllocError, Global};

/// How many keys there are.
pub const KEYS: u64 = 400;

/// What is known of a key.
#[derive(Clone, Copy)]
struct Known {
    // Its row id, where it is there, as it was committed.
    kept: Option<Rid>,
    // The same for the transaction that has changed it, and whose that is.
    now: Option<Rid>,
    by: Option<usize>,
}

/// What is known of each key.
#[derive(Drop)]
pub struct Keys {
    all: Vec<Known>,
}

impl Keys {
    /// None is there.
    pub fn new(alloc: Global) -> Result<Keys, AllocError> {
        let none = Known {
            kept: None,
            now: None,
            by: None,
        };
        Ok(Keys {
            all: vec![in alloc; none; KEYS as usize]?,
        })
    }

    /// The transaction of a slot has changed a key.
    pub fn change(&mut self, number: u64, slot: usize, rid: Option<Rid>) {
        if let Some(known) = self.all.get_mut(number as usize) {
            known.now = rid;
            known.by = Some(slot);
        }
    }

    /// The transaction of a slot was committed.
    pub fn keep(&mut self, slot: usize) {
        for known in &mut self.all {
            if known.by == Some(slot) {
                known.kept = known.now;
                known.by = None;
            }
        }
    }

    /// The transaction of a slot was rolled back.
    pub fn take_back(&mut self, slot: usize) {
        for known in &mut self.all {
            if known.by == Some(slot) {
                known.by = None;
            }
        }
    }

    /// Whether these are all that were committed.
    pub fn are(&self, entries: &[(Key, Rid)]) -> bool {
        let mut at = 0;
        for (number, known) in self.all.iter().enumerate() {
            if let Some(rid) = known.kept {
                match entries.get(at) {
                    Some(entry) if number_of(&entry.0) == number && entry.1 == rid => {
                        at = at.saturating_add(1);
                    }
                    _ => return false,
                }
            }
        }
        at == entries.len()
    }
}

/// The key of a number: of its bytes, and of some more.
pub fn key_of(alloc: Global, number: u64) -> Result<Vec<u8>, AllocError> {
    let mut key = Vec::from_slice(alloc, &[(number / 256 % 256) as u8, (number % 256) as u8])?;
    let long = (number.wrapping_mul(37) % 200) as usize;
    key.extend_from_slice(&[b'z'; 200][..long])?;
    Ok(key)
}

// The number of a key.
fn number_of(key: &Key) -> usize {
    match key.bytes() {
        [high, low, ..] => usize::from(*high) * 256 + usize::from(*low),
        _ => usize::MAX,
    }
}

/// Whether two stores have the same entries.
pub fn are_same(some: &[(Key, Rid)], others: &[(Key, Rid)]) -> bool {
    if some.len() != others.len() {
        return false;
    }
    for i in 0..some.len() {
        if some[i].0.bytes() != others[i].0.bytes() || some[i].1 != others[i].1 {
            return false;
        }
    }
    true
}
