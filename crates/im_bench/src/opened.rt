//! An opening of a store.

ghost use Rattle.std.specs.Prelude.{◌≡◌, false};
ghost use Rattle.im_base_disk.specs.Runs.{IsSynced};

use im_base_disk::Disk;
use im_base_two_logs::Renamed;
use im_base_types::Fault;
use im_engine::{BufferSize, Config, Engine, MoreFrames};
use std::alloc::Global;
use std::thread::Threads;

/// The store of a disk, in so many frames.
pub fn opened<D: Disk + Drop, R: Threads + Sync>(
    rt: &R,
    alloc: Global,
    disk: D,
    frames: usize,
) -> Result<Engine<Renamed<D>>, Fault>
    requires working { D.failed disk ≡ false }
    requires synced { IsSynced D.Disk disk }
{
    let config = Config {
        frames,
        more: MoreFrames::NONE,
        max_pages: 1_000_000,
        buffer: BufferSize::ONE,
        stepped: false,
        dense: false,
        group: false,
        workers: 1,
    };
    match Engine::open_or_create(rt, alloc, Renamed::new(disk, false), config) {
        Ok(engine) => Ok(engine),
        Err((fault, _disk)) => Err(fault),
    }
}
