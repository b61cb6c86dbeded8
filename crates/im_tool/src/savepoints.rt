//! Savepoints that have names.

use im_base_disk::Disk;
use im_base_types::TxnId;
use im_engine::Engine;
use std::alloc::{AllocError, Global};

/// The most names that there are at a time.
const MOST_NAMES: usize = 64;

/// The savepoints of active transactions that have names.
#[derive(Drop)]
pub(crate) struct Savepoints {
    all: Vec<Savepoint>,
}

// How many changes of a transaction stood, under a name.
#[derive(Drop)]
struct Savepoint {
    number: TxnId,
    name: Vec<u8>,
    count: u64,
}

impl Savepoint {
    fn is(&self, number: TxnId, name: &[u8]) -> bool {
        self.number == number && self.name.as_slice() == name
    }
}

impl Savepoints {
    /// No savepoint.
    pub fn new(alloc: Global) -> Savepoints {
        Savepoints {
            all: Vec::new(alloc),
        }
    }

    /// Notes how many changes of a transaction stand, in place of what the name stood for. Answers whether there was room for the name.
    pub fn note(&mut self, number: TxnId, name: Vec<u8>, count: u64) -> Result<bool, AllocError> {
        self.all.retain(|save| !save.is(number, name.as_slice()));
        if self.all.len() >= MOST_NAMES {
            return Ok(false);
        }
        self.all.push(Savepoint {
            number,
            name,
            count,
        })?;
        Ok(true)
    }

    /// How many changes stood at the savepoint of this name.
    pub fn count_at(&self, number: TxnId, name: &[u8]) -> Option<u64> {
        for save in &self.all {
            if save.is(number, name) {
                return Some(save.count);
            }
        }
        None
    }

    /// Forgets those of which fewer changes stand, and those of transactions that have ended.
    pub fn keep_standing<D: Disk>(&mut self, engine: &Engine<D>) {
        self.all.retain(|save| match engine.changes(save.number) {
            Ok(count) => save.count <= count,
            Err(_) => false,
        });
    }
}
