//! A store as an opening finds it, over its files, of which nothing is changed.

use im_base_disk::Disk;
use im_base_steps::{Reply, Step};
use im_base_two_logs::Renamed;
use im_base_types::{Fault, MOST_FRAMES};
use im_engine::{BufferSize, Config, MoreFrames};
use im_files_scratch_disk::ScratchDisk;
use im_store::{Bounds, OpenStore};
use std::alloc::Global;
use std::thread::Threads;

// How a store is opened that is only looked at.
const TO_LOOK: Config = Config {
    frames: MOST_FRAMES,
    more: MoreFrames::NONE,
    max_pages: u32::MAX,
    buffer: BufferSize::ONE,
    stepped: false,
    dense: false,
    group: false,
    workers: 1,
};

/// The store of the files, opened over them, with no upkeep. Refused as `OpenStore::open` is, with the disk.
pub(crate) fn opened<D: Disk + Drop, T: Threads + Sync>(
    rt: &T,
    alloc: Global,
    disk: ScratchDisk<D>,
) -> Result<OpenStore<Renamed<ScratchDisk<D>>>, (Fault, ScratchDisk<D>)> {
    if disk.has_failed() {
        return Err((Fault::Device, disk));
    }
    let disk = Renamed::new(disk, false);
    OpenStore::open(rt, alloc, disk, TO_LOOK, Bounds::of_bytes(0, 0)).map_err(|refused| (
        refused.0,
        refused.1.into_disk(),
    ))
}

/// Writes each page that lacks changes in its file.
pub(crate) fn write_changed<D: Disk + Drop>(
    store: &mut OpenStore<Renamed<ScratchDisk<D>>>,
) -> Result<(), Fault> {
    for _written in 0..store.engine().dirty_count() {
        let Some(change) = store.engine().oldest_change() else {
            break;
        };
        if let Reply::Refused(fault) = store.step(&Step::FlushPage(change.page)) {
            return Err(fault);
        }
    }
    Ok(())
}
