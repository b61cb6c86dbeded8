//! The entries of a store, a part at a time.

use crate::transfer::{begun, fault_of};
use im_base_steps::{Reply, Step};
use im_base_two_logs::TwoLogs;
use im_base_types::{Fault, Key, LONGEST_KEY, MOST_ENTRIES, Rid};
use im_store::OpenStore;
use std::alloc::Global;

/// Goes over the entries of a store in rising order. Each part is read by a transaction of its own, which then ends, so that no lock is held from one part
/// to the next, and memory holds one part alone.
#[derive(Drop)]
pub(crate) struct EntryWalk {
    // The least key that the next part may have. None after the last part.
    from: Option<Vec<u8>>,
}

impl EntryWalk {
    /// Begins at the least key. Refused `Memory`.
    pub(crate) fn new(alloc: Global) -> Result<EntryWalk, Fault> {
        let least = Vec::from_slice(alloc, &[0]).map_err(|_| Fault::Memory)?;
        Ok(EntryWalk { from: Some(least) })
    }

    /// The next entries, none after the last. Refused as the steps are that read them.
    pub(crate) fn next_part<D: TwoLogs + Drop>(
        &mut self,
        alloc: Global,
        store: &mut OpenStore<D>,
    ) -> Result<Vec<(Key, Rid)>, Fault> {
        let Some(from) = self.from.take() else {
            return Ok(Vec::new(alloc));
        };
        let part = read_part(alloc, store, from)?;
        if part.len() >= MOST_ENTRIES {
            if let Some((last, _)) = part.last() {
                self.from = key_after(alloc, last.bytes())?;
            }
        }
        Ok(part)
    }
}

// The first entries from a key on.
fn read_part<D: TwoLogs + Drop>(
    alloc: Global,
    store: &mut OpenStore<D>,
    from: Vec<u8>,
) -> Result<Vec<(Key, Rid)>, Fault> {
    let greatest = vec![in alloc; 255; LONGEST_KEY].map_err(|_| Fault::Memory)?;
    let number = begun(store)?;
    let part = match store.step(&Step::Scan(number, from, greatest, MOST_ENTRIES as u64)) {
        Reply::Entries(part) => part,
        reply => return Err(fault_of(reply)),
    };
    match store.step(&Step::Rollback(number)) {
        Reply::RolledBack => Ok(part),
        reply => Err(fault_of(reply)),
    }
}

/// The least key above one, if there is one: with a byte 0 at its end, or where it has no room for that, without the bytes 255 at its end, and the
/// byte before them greater by one.
pub(crate) fn key_after(alloc: Global, key: &[u8]) -> Result<Option<Vec<u8>>, Fault> {
    let mut after = Vec::from_slice(alloc, key).map_err(|_| Fault::Memory)?;
    if after.len() < LONGEST_KEY {
        after.push(0).map_err(|_| Fault::Memory)?;
        return Ok(Some(after));
    }
    for _byte in 0..LONGEST_KEY {
        match after.pop() {
            Some(255) => {}
            Some(byte) => {
                after.push(byte + 1).map_err(|_| Fault::Memory)?;
                return Ok(Some(after));
            }
            None => return Ok(None),
        }
    }
    Ok(None)
}
