//! A plain ordered map: a list of entries in rising key order.

ghost use Rattle.std.specs.Prelude.{◌≡◌, ◌↔◌, true, IfOk, OnOk};
ghost use Rattle.std.specs.FinMap.{empty, entries};
ghost use Rattle.im_base_types.specs.Changes.{applied};
ghost use Rattle.im_base_types.specs.Keys.{key_order};
ghost use Rattle.im_base_types.specs.Maps.{IndexMap, without_key};
ghost use Rattle.im_tool_judge.specs.Judged.{held_entries, change_of, made_in_turn, with_entry};

use crate::change::Change;
use im_base_types::{Key, Rid, compare};
use std::alloc::{AllocError, Global};
use std::cmp::Ordering;
use std::mem;

/// Entries in rising key order.
#[derive(Drop)]
pub struct Sorted {
    entries: Vec<(Vec<u8>, Rid)>,
}

impl Sorted {
    /// No entries.
    #[tactic(auto, using(crate::proofs::Entries::empty_entries))]
    pub fn new(alloc: Global) -> Sorted
        ensures { held_entries result.entries.items ≡ entries {R = key_order} empty }
    {
        Sorted {
            entries: Vec::new(alloc),
        }
    }

    /// Makes changes in turn.
    pub fn make_all(&mut self, alloc: Global, changes: &[Change]) -> Result<(), AllocError>
        ensures { OnOk result ((m : IndexMap) → held_entries self.old.entries.items ≡ entries m → held_entries self.new.entries.items ≡ entries (made_in_turn m changes.now)) }
    {
        for change in changes {
            self.make(alloc, change)?;
        }
        Ok(())
    }

    #[tactic(auto, using(crate::proofs::Entries::made_put, crate::proofs::Entries::made_drop))]
    fn make(&mut self, alloc: Global, change: &Change) -> Result<(), AllocError>
        ensures { OnOk result ((m : IndexMap) → held_entries self.old.entries.items ≡ entries m → held_entries self.new.entries.items ≡ entries (applied m (change_of change.now))) }
    {
        match change {
            Change::Insertion(key, rid) => {
                let key = Vec::from_slice(alloc, key)?;
                put(&mut self.entries, key, *rid)
            }
            Change::Deletion(key) => {
                let entries = mem::replace(&mut self.entries, Vec::new(alloc));
                self.entries = without(alloc, entries, key)?;
                Ok(())
            }
        }
    }

    /// Whether these are the entries.
    pub fn is(&self, found: &[(Key, Rid)]) -> bool
        ensures { result ≡ true ↔ found.now ≡ held_entries self.now.entries.items }
    {
        if self.entries.len() != found.len() {
            return false;
        }
        for i in 0..found.len() {
            if !is_entry(&self.entries[i], &found[i]) {
                return false;
            }
        }
        true
    }
}

// Whether the two are the same.
fn is_entry(entry: &(Vec<u8>, Rid), found: &(Key, Rid)) -> bool
    ensures { result ≡ true ↔ found.now ≡ (entry.now.0.items, entry.now.1) }
{
    entry.0.as_slice() == found.0.bytes() && entry.1 == found.1
}

// Puts a row id at a key, over what is there.
#[tactic(auto, using(crate::proofs::Entries::passed_none, crate::proofs::Entries::put_here, crate::proofs::Entries::put_over, crate::proofs::Entries::passed_more, crate::proofs::Entries::put_last))]
fn put(entries: &mut Vec<(Vec<u8>, Rid)>, key: Vec<u8>, rid: Rid) -> Result<(), AllocError>
    ensures { OnOk result (held_entries entries.new.items ≡ with_entry key.items rid (held_entries entries.old.items)) }
{
    for i in 0..entries.len() {
        match compare(&key, &entries[i].0) {
            Ordering::Less => {
                entries.insert(i, (key, rid))?;
                return Ok(());
            }
            Ordering::Equal => {
                entries[i].1 = rid;
                return Ok(());
            }
            Ordering::Greater => {}
        }
    }
    entries.push((key, rid))?;
    Ok(())
}

// The entries without a key.
#[tactic(auto, using(crate::proofs::Entries::without_kept, crate::proofs::Entries::without_gone))]
fn without(
    alloc: Global,
    entries: Vec<(Vec<u8>, Rid)>,
    key: &[u8],
) -> Result<Vec<(Vec<u8>, Rid)>, AllocError>
    ensures { IfOk result (λ kept. held_entries kept.items ≡ without_key key.now (held_entries entries.items)) }
{
    let mut kept = Vec::new(alloc);
    for entry in entries {
        if compare(key, &entry.0) != Ordering::Equal {
            kept.push(entry)?;
        }
    }
    Ok(kept)
}
