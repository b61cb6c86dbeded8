//! What each key has, as a list by the numbers of keys.

use crate::by_chance::number_of;
use im_base_types::{Key, Rid};
use std::alloc::{AllocError, Global};

/// How many keys there may be. A leaf has room for fifteen.
pub(crate) const KEYS: u64 = 60;

// What each key has.
#[derive(Drop)]
pub(crate) struct Map {
    rids: Vec<Option<Rid>>,
}

impl Map {
    pub(crate) fn new(alloc: Global) -> Result<Map, AllocError> {
        let none: Option<Rid> = None;
        Ok(Map {
            rids: vec![in alloc; none; KEYS as usize]?,
        })
    }

    pub(crate) fn copied(&self, alloc: Global) -> Result<Map, AllocError> {
        Ok(Map {
            rids: Vec::from_slice(alloc, &self.rids)?,
        })
    }

    pub(crate) fn rid(&self, number: u64) -> Option<Rid> {
        match self.rids.get(number as usize) {
            Some(rid) => *rid,
            None => None,
        }
    }

    pub(crate) fn set(&mut self, number: u64, rid: Option<Rid>) {
        if let Some(known) = self.rids.get_mut(number as usize) {
            *known = rid;
        }
    }

    // Whether these are all of its entries.
    pub(crate) fn is_all(&self, entries: &[(Key, Rid)]) -> bool {
        let mut at = 0;
        for (number, known) in self.rids.iter().enumerate() {
            if let Some(rid) = known {
                match entries.get(at) {
                    Some(entry) if number_of(&entry.0) == number && entry.1 == *rid => {
                        at = at.saturating_add(1);
                    }
                    _ => return false,
                }
            }
        }
        at == entries.len()
    }
}
