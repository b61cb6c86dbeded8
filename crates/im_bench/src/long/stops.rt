//! A store whose loser stands after splits on two levels and after a page deletion, and its openings after a stop at each device call.
//!
//! The store has so many keys that its root has no room for another leaf. A transaction then inserts keys, so that a leaf and the root
//! split, deletes all keys of another leaf, so that this leaf leaves the tree, and never commits. Its life is stopped at each device call in
//! turn, and so is the opening that takes it back; after each stop the next opening has to find just what was committed.

ghost use Rattle.std.specs.Prelude.{◌≡◌, false, IfOk};
ghost use Rattle.im_base_disk.specs.Runs.{IsSynced};

use crate::long::looks::{listed, pages_by_kind};
use crate::opened::opened;
use im_base_disk::Disk;
use im_base_model_disk::{Fill, Length, ModelDisk, Stop};
use im_base_two_logs::Renamed;
use im_base_types::Fault;
use im_bench_layers::page_kinds::Kinds;
use im_bench_layers::spans::{Order, Span, Work, committed, lose};
use im_bench_layers::tally::Tally;
use im_engine::{BufferSize, Config, Engine, MoreFrames};
use std::alloc::Global;
use std::thread::Threads;

/// The keys that are committed, in rising order: a tree of two levels, whose root is full.
const FOUNDED: Span = Span {
    first: 0,
    keys: 128,
    order: Order::Rising,
};

// The keys that the transaction inserts after them.
const INSERTED: Span = Span {
    first: 256,
    keys: 12,
    order: Order::Rising,
};

// The keys that it deletes: all of the first leaf, and some of the next.
const DELETED: Span = Span {
    first: 0,
    keys: 10,
    order: Order::Rising,
};

// The device calls of a life are fewer.
const MOST_CALLS: u64 = 10_000;

// In how few frames the lives run, so that pages are written in the midst of them.
const CONFIG: Config = Config {
    frames: 8,
    more: MoreFrames::NONE,
    max_pages: 1_000_000,
    buffer: BufferSize::ONE,
    stepped: false,
    dense: false,
    group: false,
    workers: 1,
};

/// What is stopped.
#[derive(Clone, Copy)]
pub enum Life {
    /// The life of the transaction that never commits.
    Losing,
    /// The opening that takes it back.
    TakingBack,
}

/// What a stop leaves of the places that were not synced.
#[derive(Clone, Copy, Debug)]
pub enum Doubt {
    /// What was written, and the files as long as that.
    Written,
    /// Another byte at each place.
    Byte(u8),
    /// The files as long as they were synced, and a byte at each place.
    Short(u8),
}

/// What came of the stops.
#[derive(Clone, Copy, Default)]
pub struct Stops {
    /// How many device calls had their stop.
    pub calls: u64,
    /// After how many of them the next opening found just what was committed.
    pub right: u64,
}

/// The store, with nothing but what is committed.
pub fn founded<R: Threads + Sync>(rt: &R, alloc: Global) -> Result<ModelDisk, Fault> {
    let disk = ModelDisk::new(Vec::new(alloc), Vec::new(alloc));
    let mut engine = opened(rt, alloc, disk, CONFIG.frames)?;
    let mut tally = Tally::default();
    committed(alloc, &mut engine, Work::Insert, FOUNDED, &mut tally)?;
    Ok(engine.into_disk().into_disk())
}

/// What the transaction's steps came to, and what the pages are for after them.
pub fn losing<R: Threads + Sync>(
    rt: &R,
    alloc: Global,
    base: &ModelDisk,
) -> Result<(Tally, Kinds, ModelDisk), Fault> {
    let disk = base.after_stop(alloc)?;
    let mut engine = opened(rt, alloc, disk, CONFIG.frames)?;
    let (tally, kinds) = lost(alloc, &mut engine)?;
    Ok((tally, kinds, engine.into_disk().into_disk()))
}

fn lost(alloc: Global, engine: &mut Engine<Renamed<ModelDisk>>) -> Result<(Tally, Kinds), Fault> {
    let mut tally = Tally::default();
    lose(alloc, engine, INSERTED, DELETED, &mut tally)?;
    let kinds = pages_by_kind(engine, 64)?;
    Ok((tally, kinds))
}

/// Stops a life on copies of a disk at each of its device calls.
pub fn stopped_at_each<R: Threads + Sync>(
    rt: &R,
    alloc: Global,
    disk: &ModelDisk,
    life: Life,
    doubt: Doubt,
) -> Result<Stops, Fault> {
    let mut stops = Stops::default();
    for call in 1..MOST_CALLS {
        let left = run(rt, alloc, armed(alloc, disk, call, doubt)?, life)?;
        if !has_counted(rt, alloc, &left, &mut stops)? {
            break;
        }
    }
    Ok(stops)
}

// Counts what came of a stop, where there was one.
fn has_counted<R: Threads + Sync>(
    rt: &R,
    alloc: Global,
    left: &ModelDisk,
    stops: &mut Stops,
) -> Result<bool, Fault> {
    if !left.stopped() {
        return Ok(false);
    }
    stops.calls = stops.calls.wrapping_add(1);
    if is_right(rt, alloc, left)? {
        stops.right = stops.right.wrapping_add(1);
    }
    Ok(true)
}

// The same files on another disk, which stops within its call of that number.
fn armed(alloc: Global, disk: &ModelDisk, call: u64, doubt: Doubt) -> Result<ModelDisk, Fault>
    ensures working { IfOk result (λ disk. ⟦<ModelDisk as Disk>⟧.failed disk ≡ false) }
    ensures synced { IfOk result (λ disk. IsSynced ⟦<ModelDisk as Disk>⟧ disk) }
{
    let length = match doubt {
        Doubt::Written | Doubt::Byte(_) => Length::Long,
        Doubt::Short(_) => Length::Short,
    };
    let fill = fill_of(alloc, doubt)?;
    let mut copy = disk.after_stop(alloc)?;
    copy.arm(Stop { call, length, fill });
    Ok(copy)
}

fn fill_of(alloc: Global, doubt: Doubt) -> Result<Fill, Fault> {
    match doubt {
        Doubt::Written => Ok(Fill::Written),
        Doubt::Byte(byte) | Doubt::Short(byte) => {
            let bytes = Vec::from_slice(alloc, &[byte]).map_err(|_| Fault::Memory)?;
            Ok(Fill::Bytes(bytes))
        }
    }
}

// Runs a life until it ends or its disk stops.
fn run<R: Threads + Sync>(
    rt: &R,
    alloc: Global,
    disk: ModelDisk,
    life: Life,
) -> Result<ModelDisk, Fault>
    requires working { ⟦<ModelDisk as Disk>⟧.failed disk ≡ false }
    requires synced { IsSynced ⟦<ModelDisk as Disk>⟧ disk }
{
    let mut engine = match Engine::open_or_create(rt, alloc, Renamed::new(disk, false), CONFIG) {
        Ok(engine) => engine,
        Err((_fault, named)) => return Ok(named.into_disk()),
    };
    if matches!(life, Life::Losing) {
        let mut tally = Tally::default();
        lose(alloc, &mut engine, INSERTED, DELETED, &mut tally)?;
    }
    Ok(engine.into_disk().into_disk())
}

// An opening on what the stop has left finds just what is committed.
fn is_right<R: Threads + Sync>(rt: &R, alloc: Global, left: &ModelDisk) -> Result<bool, Fault> {
    let disk = left.after_stop(alloc)?;
    match opened(rt, alloc, disk, CONFIG.frames) {
        Ok(mut engine) => Ok(listed(alloc, &mut engine)? == (FOUNDED.keys, FOUNDED.keys)),
        Err(_) => Ok(false),
    }
}
