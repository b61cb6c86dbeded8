//! Look-ups of keys in a tree.

ghost use Rattle.std.specs.Prelude.{◌≡◌, false, IfOk, OnOk};
ghost use Rattle.im_base_disk.specs.Runs.{IsSynced};
ghost use Rattle.im_page_writer.specs.PageWriter.{IsReadyWriter};

use im_base_disk::{Disk, read_vec};
use im_base_model_disk::ModelDisk;
use im_base_types::{Fault, FileId, MOST_FRAMES};
use im_bench_layers::keys::{key_of, scattered};
use im_engine_access::{LockAnswer, fetch};
use im_engine_locks::LockTable;
use im_log::open_or_create;
use im_page_writer::PageWriter;
use im_tree_search::{Beside, Sight, leaf_for, value_of};
use std::alloc::Global;

/// A disk with a new log, and these pages.
pub fn disk_of(alloc: Global, pages: Vec<u8>) -> Result<ModelDisk, Fault>
    ensures working { IfOk result (λ disk. ⟦<ModelDisk as Disk>⟧.failed disk ≡ false) }
    ensures synced { IfOk result (λ disk. IsSynced ⟦<ModelDisk as Disk>⟧ disk) }
{
    let mut empty = ModelDisk::new(Vec::new(alloc), Vec::new(alloc));
    let log = new_log(alloc, &mut empty)?;
    Ok(ModelDisk::new(log, pages))
}

// The bytes of a new log.
fn new_log<D: Disk>(alloc: Global, disk: &mut D) -> Result<Vec<u8>, Fault>
    requires working { D.failed disk.old ≡ false }
    requires synced { IsSynced D.Disk disk.old }
{
    open_or_create(alloc, disk, 1)?;
    let size = disk.len(FileId::Log)?;
    read_vec(alloc, disk, FileId::Log, 0, size as usize)
}

/// A writer of pages with as many frames as it can have.
pub fn opened<D: Disk>(alloc: Global, disk: &mut D) -> Result<PageWriter, Fault>
    requires working { D.failed disk.old ≡ false }
    requires synced { IsSynced D.Disk disk.old }
    ensures ready { IfOk result (λ writer. IsReadyWriter D.Disk writer disk.new) }
{
    let log = open_or_create(alloc, disk, 1)?;
    PageWriter::new(alloc, log, MOST_FRAMES)
}

/// Looks up so many keys, each somewhere among the first `keys` numbers, and answers how many were found with their number as row id.
pub fn found<D: Disk>(
    writer: &mut PageWriter,
    disk: &mut D,
    keys: u64,
    rounds: u64,
) -> Result<u64, Fault>
    requires ready { IsReadyWriter D.Disk writer.old disk.old }
    ensures ready { OnOk result (IsReadyWriter D.Disk writer.new disk.new) }
{
    let mut found = 0u64;
    for round in 0..rounds {
        let number = scattered(round) % keys.max(1);
        let key = key_of(number);
        let leaf = leaf_for(writer, disk, &key)?;
        if value_of(writer.page(leaf), &key) == Some(number) {
            found = found.wrapping_add(1);
        }
    }
    Ok(found)
}

/// How many look-ups a transaction makes.
const LOOK_UPS: u64 = 1_000;

/// The same by a transaction's Fetch, each with its lock: they are given back after each thousand.
pub fn found_locked<D: Disk>(
    writer: &mut PageWriter,
    disk: &mut D,
    locks: &mut LockTable,
    keys: u64,
    rounds: u64,
) -> Result<u64, Fault>
    requires ready { IsReadyWriter D.Disk writer.old disk.old }
    ensures ready { OnOk result (IsReadyWriter D.Disk writer.new disk.new) }
{
    let mut found = 0u64;
    for round in 0..rounds {
        let number = scattered(round) % keys.max(1);
        match fetch(writer, disk, locks, 1, &key_of(number), Beside::none())? {
            Sight::Seen(LockAnswer::Granted(Some(rid))) if rid == number => {
                found = found.wrapping_add(1)
            }
            _ => {}
        }
        if round % LOOK_UPS == LOOK_UPS - 1 {
            locks.release_all(1);
        }
    }
    Ok(found)
}
