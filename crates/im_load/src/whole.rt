//! A load of entries that are all at hand.

ghost use Rattle.std.specs.Prelude.{◌≡◌, ◌⊎◌, false, Ok};
ghost use Rattle.im_base_types.specs.declared.fault.Fault.TheVariants.{Capacity, Memory};
ghost use Rattle.im_base_disk.specs.Ends.{AnswersOr};
ghost use Rattle.im_base_disk.specs.Runs.{IsSynced, LeavesOnly, Reads};
ghost use Rattle.im_theory_page.specs.Entry.{Rises};
ghost use Rattle.im_load.specs.Files.{AreEmpty, AreLeft, AreOfLoad};

use crate::loader::Loader;
use im_base_disk::Disk;
use im_base_types::{Fault, Key, Rid};
use std::alloc::Global;

/// How a load ended that was not refused.
#[derive(Clone, Copy, Debug, PartialEq, Eq)]
pub enum Ending {
    /// The files are the loaded store.
    Loaded,
    /// A file had a byte: none was written.
    NotEmpty,
    /// A key is not above the one before it: the files are no store.
    NotRising,
}

/// Loads entries, whose keys have to rise, into files without bytes, all of them on the disk.
///
/// Refused `Capacity`, `Memory`, `Device`: the files are no store then, or the one that was loaded. So they are after a stop at any moment (`stops`).
pub fn load<D: Disk>(alloc: Global, disk: &mut D, entries: &[(Key, Rid)]) -> Result<Ending, Fault>
    requires working { D.failed disk.old ≡ false }
    requires synced { IsSynced D.Disk disk.old }
    ensures loaded { result ≡ Ok Ending.Loaded → D.tells → AreOfLoad entries.now (D.seen disk.new) }
    ensures synced { result ≡ Ok Ending.Loaded → IsSynced D.Disk disk.new }
    ensures not_empty { result ≡ Ok Ending.NotEmpty → D.tells → ¬ (AreEmpty (D.seen disk.new)) }
    ensures untouched { result ≡ Ok Ending.NotEmpty → Reads D.Disk disk.old disk.new }
    ensures not_rising { result ≡ Ok Ending.NotRising → ¬ (Rises entries.now) }
    ensures stops { (D.tells → AreEmpty (D.seen disk.old)) → LeavesOnly D.Disk disk.old disk.new (AreLeft entries.now) }
    ensures outcome { AnswersOr (λ e. (e ≡ Memory) ⊎ (e ≡ Capacity)) (D.failed disk.new) result }
{
    let Some(mut loader) = Loader::begin(alloc, disk)? else {
        return Ok(Ending::NotEmpty);
    };
    for (key, rid) in entries {
        let taken = loader.put(disk, key.bytes(), *rid)?;
        if !taken {
            return Ok(Ending::NotRising);
        }
    }
    loader.finish(disk)?;
    Ok(Ending::Loaded)
}
