//! Stores as they are by default, and fronts with a trace over a store.

ghost use Rattle.std.specs.Prelude.{◌≡◌, IfOk};
ghost use Rattle.im_front.specs.Held.{IsResting};

use crate::stores::{NEVER, made_store, stop_at};
use im_base_model_disk::{ModelDisk, Stop};
use im_base_two_logs::Renamed;
use im_base_types::Fault;
use im_engine::{Config, Engine};
use im_front::Front;
use im_theory_store_trait::Store;
use std::alloc::Global;
use std::sync::ledger::{Blank, Ledger};
use std::thread::Threads;

/// An engine over a disk in memory.
pub type Memory = Engine<Renamed<ModelDisk>>;

/// A new store at rest.
pub fn fresh<R: Threads + Sync>(rt: &R, alloc: Global) -> Result<Memory, Fault>
    ensures resting { IfOk result (λ e. IsResting ⟦<Engine<Renamed<ModelDisk>> as Store>⟧ e) }
{
    default_store(rt, alloc, stop_at(NEVER))
}

/// A new store at rest, on a disk that will stop.
pub fn default_store<R: Threads + Sync>(rt: &R, alloc: Global, stop: Stop) -> Result<Memory, Fault>
    ensures resting { IfOk result (λ e. IsResting ⟦<Engine<Renamed<ModelDisk>> as Store>⟧ e) }
{
    made_store(rt, alloc, Config::default(), stop, NEVER)
}

/// A front over a store at rest.
pub fn front_over<E: Store, L: Ledger>(
    alloc: Global,
    store: E,
    blank: Blank,
) -> Result<Front<E, L>, Fault>
    requires resting { IsResting E.Store store }
    requires blank { (blank.name ≡ L.name) × (blank.parts ≡ L.parts) × (blank.parts ≡ 1024) }
{
    match Front::<E, L>::new(alloc, store, blank) {
        Ok(front) => Ok(front),
        Err(refused) => Err(refused.0),
    }
}
