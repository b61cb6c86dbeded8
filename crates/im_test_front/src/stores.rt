//! Stores on a disk in memory, as the tests open, fill and end them.

ghost use Rattle.std.specs.Prelude.{IfOk};
ghost use Rattle.im_front.specs.Held.{IsResting};

use im_base_model_disk::{Fill, Length, ModelDisk, Stop};
use im_base_steps::{Reply, Step};
use im_base_two_logs::Renamed;
use im_base_types::{Fault, Key, Rid, TxnId};
use im_engine::{Config, Engine, law_every_list_of_lives};
use im_front::{Left, Open, Rested};
use im_theory_store_trait::Store;
use std::alloc::Global;
use std::sync::Wait;
use std::thread::Threads;

/// A device call that is never made.
pub const NEVER: u64 = 1 << 61;

/// The device calls of a creation.
pub const CREATION: u64 = 6;

/// The device calls of a force.
pub const FORCE: u64 = 4;

/// What a front left: how many steps it made, how many calls its disk, whether that stopped, and the entries that are there when its store is opened after the
/// stop.
#[derive(Drop)]
pub struct Found {
    pub made: u64,
    pub calls: u64,
    pub stopped: bool,
    pub entries: Vec<(Key, Rid)>,
}

/// A stop within a device call. What was not synced is then as written.
pub fn stop_at(call: u64) -> Stop {
    Stop {
        call,
        length: Length::Long,
        fill: Fill::Written,
    }
}

/// A stop after the last device call. What was not synced is then this byte, over and over.
pub fn stop_with(alloc: Global, byte: u8) -> Result<Stop, Fault> {
    let Ok(bytes) = Vec::from_slice(alloc, &[byte]) else {
        return Err(Fault::Memory);
    };
    Ok(Stop {
        call: NEVER,
        length: Length::Long,
        fill: Fill::Bytes(bytes),
    })
}

/// A new store, on a disk that stops, and whose device call of that number fails.
pub fn new_store<R: Threads + Sync>(
    rt: &R,
    alloc: Global,
    group: bool,
    stop: Stop,
    failing: u64,
) -> Result<Engine<Renamed<ModelDisk>>, Fault>
    ensures rests { IfOk result (λ e. IsResting ⟦<Engine<Renamed<ModelDisk>> as Store>⟧ e) }
{
    let config = Config {
        max_pages: 1_000,
        group,
        ..Config::default()
    };
    made_store(rt, alloc, config, stop, failing)
}

/// The same, as it is configured.
pub fn made_store<R: Threads + Sync>(
    rt: &R,
    alloc: Global,
    config: Config,
    stop: Stop,
    failing: u64,
) -> Result<Engine<Renamed<ModelDisk>>, Fault>
    ensures rests { IfOk result (λ e. IsResting ⟦<Engine<Renamed<ModelDisk>> as Store>⟧ e) }
{
    law_every_list_of_lives();
    let mut disk = ModelDisk::new(Vec::new(alloc), Vec::new(alloc));
    disk.arm(stop);
    disk.fail_call(failing);
    match Engine::open_or_create(rt, alloc, Renamed::new(disk, false), config) {
        Ok(engine) => Ok(engine),
        Err((fault, _disk)) => Err(fault),
    }
}

/// A front over a store that makes structure changes page by page, on a disk that neither stops nor fails.
pub fn stepped<R: Threads + Sync>(
    rt: &R,
    alloc: Global,
) -> Result<Open<Engine<Renamed<ModelDisk>>>, Fault> {
    let config = Config {
        stepped: true,
        ..Config::default()
    };
    let engine = made_store(rt, alloc, config, stop_at(NEVER), NEVER)?;
    opened(alloc, Rested::new(engine))
}

/// A front over such a store.
pub fn front_over<R: Threads + Sync>(
    rt: &R,
    alloc: Global,
    group: bool,
    stop: Stop,
    failing: u64,
) -> Result<Open<Engine<Renamed<ModelDisk>>>, Fault> {
    let engine = new_store(rt, alloc, group, stop, failing)?;
    opened(alloc, Rested::new(engine))
}

/// A front over a store at rest.
pub fn opened<E: Store>(alloc: Global, at_rest: Rested<E>) -> Result<Open<E>, Fault> {
    match Open::new(alloc, at_rest) {
        Ok(front) => Ok(front),
        Err((fault, _at_rest)) => Err(fault),
    }
}

/// A front over a store with group commit, on a disk that neither stops nor fails.
pub fn grouped<R: Threads + Sync>(
    rt: &R,
    alloc: Global,
) -> Result<Open<Engine<Renamed<ModelDisk>>>, Fault> {
    front_over(rt, alloc, true, stop_at(NEVER), NEVER)
}

/// A transaction that begins.
pub fn begin<E: Store, R: Wait>(rt: &R, front: &Open<E>) -> Result<TxnId, Fault> {
    match front.call(rt, Step::Begin) {
        Reply::Started(t) => Ok(t),
        other => Err(fault_of(other)),
    }
}

/// A transaction that begins and inserts the key of one byte, which is its row id too.
pub fn begin_with<E: Store, R: Wait>(
    rt: &R,
    alloc: Global,
    front: &Open<E>,
    byte: u8,
) -> Result<TxnId, Fault> {
    let t = begin(rt, front)?;
    let key = key_of(alloc, byte)?;
    match front.call(rt, Step::Insert(t, key, u64::from(byte))) {
        Reply::Inserted => Ok(t),
        other => Err(fault_of(other)),
    }
}

/// Whether the Commit of a transaction is answered `More`.
pub fn waits<E: Store, R: Wait>(rt: &R, front: &Open<E>, t: TxnId) -> bool {
    matches!(front.call(rt, Step::Commit(t)), Reply::More)
}

/// Why a step was refused; `Failed` where it was not.
pub fn fault_of(reply: Reply) -> Fault {
    match reply {
        Reply::Refused(fault) => fault,
        _ => Fault::Failed,
    }
}

/// The key of one byte.
pub fn key_of(alloc: Global, byte: u8) -> Result<Vec<u8>, Fault> {
    match Vec::from_slice(alloc, &[byte]) {
        Ok(key) => Ok(key),
        Err(_) => Err(Fault::Memory),
    }
}

/// Ends a front, and looks what is there after a stop.
pub fn look_behind<R: Threads + Sync>(
    rt: &R,
    alloc: Global,
    front: Open<Engine<Renamed<ModelDisk>>>,
) -> Result<Found, Fault> {
    let Left { engine, made, .. } = front.close();
    look_at(rt, alloc, made, engine.into_disk().into_disk())
}

fn look_at<R: Threads + Sync>(
    rt: &R,
    alloc: Global,
    made: u64,
    disk: ModelDisk,
) -> Result<Found, Fault> {
    let calls = disk.calls();
    let stopped = disk.stopped();
    let entries = entries_left(rt, alloc, &disk)?;
    Ok(Found {
        made,
        calls,
        stopped,
        entries,
    })
}

// The entries that a stop leaves on a disk.
fn entries_left<R: Threads + Sync>(
    rt: &R,
    alloc: Global,
    disk: &ModelDisk,
) -> Result<Vec<(Key, Rid)>, Fault> {
    let left = disk.after_stop(alloc)?;
    match Engine::open_or_create(rt, alloc, Renamed::new(left, false), Config::default()) {
        Ok(engine) => entries_of(alloc, engine),
        Err((fault, _disk)) => Err(fault),
    }
}

fn entries_of(alloc: Global, engine: Engine<Renamed<ModelDisk>>) -> Result<Vec<(Key, Rid)>, Fault> {
    let mut engine = engine;
    engine.entries(alloc)
}

/// Whether these are the keys of these bytes, with their row ids.
pub fn are_bytes(entries: &[(Key, Rid)], bytes: &[u8]) -> bool {
    if entries.len() != bytes.len() {
        return false;
    }
    for i in 0..entries.len() {
        let key = entries[i].0.bytes();
        if key.len() != 1 || key[0] != bytes[i] || entries[i].1 != u64::from(bytes[i]) {
            return false;
        }
    }
    true
}
