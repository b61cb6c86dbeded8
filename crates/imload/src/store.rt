//! The store of a load.

ghost use Rattle.std.specs.Prelude.{◌≡◌, IfOk};
ghost use Rattle.im_front.specs.Held.{IsResting};

use im_base_model_disk::ModelDisk;
use im_base_two_logs::Renamed;
use im_base_types::Fault;
use im_engine::{Config, Engine, law_every_list_of_lives};
use im_theory_store_trait::Store;
use std::alloc::Global;
use std::thread::Threads;

/// A new store at rest, whose files are a model disk in memory, and in which Commits wait for a force or do not. Refused as an opening is.
pub(crate) fn new_store<R: Threads + Sync>(
    rt: &R,
    alloc: Global,
    group: bool,
) -> Result<Engine<Renamed<ModelDisk>>, Fault>
    ensures resting { IfOk result (λ e. IsResting ⟦<Engine<Renamed<ModelDisk>> as Store>⟧ e) }
    ensures group { IfOk result (λ e. e.txns.group ≡ group) }
{
    law_every_list_of_lives();
    let disk = ModelDisk::new(Vec::new(alloc), Vec::new(alloc));
    let mut config = Config::default();
    config.group = group;
    match Engine::open_or_create(rt, alloc, Renamed::new(disk, false), config) {
        Ok(engine) => Ok(engine),
        Err((fault, _disk)) => Err(fault),
    }
}
