//! A store that is open, over any disk.

ghost use Rattle.std.specs.Prelude.{◌≡◌, ◌↔◌, ◌<◌, ◌-◌, ◌^◌, false, true, IfOk, IfErr};
ghost use Rattle.im_base_disk.specs.Runs.{IsSynced};
ghost use Rattle.im_calls.specs.Openings.{HasBounds, IsOpenedOn, RefusesOpening};
ghost use Rattle.im_store.specs.LogBound.{least_or_none};

use crate::call::Call;
use crate::opening::Opening;
use crate::question::step_of;
use crate::telling::{answer, refuse, tell, tell_numbers};
use im_base_disk::Disk;
use im_base_two_logs::TwoLogs;
use im_base_types::Fault;
use im_engine::{BufferSize, Config, MoreFrames};
use im_store::{Bounds, LogBound, OpenStore, RedoBound};
use std::alloc::Global;

/// A store that is open, with its upkeep.
#[derive(Drop)]
pub struct Opened<D: Disk> {
    pub(crate) store: OpenStore<D>,
}

impl<D: TwoLogs + Drop> Opened<D> {
    ghost use Rattle.im_base_disk.specs.Runs.{IsSynced};
    ghost use Rattle.im_calls.specs.Calls.{IsAnswered, TellsWord, Shows, numbers_bytes};
    ghost use Rattle.im_calls.specs.Openings.{AsksTheSame, IsOpening};
    ghost use Rattle.im_calls.specs.Sessions.{IsClosing, Serves, standing};

    /// Opens the store of a disk as it is asked: with these limits and bounds, of which the usual ones grow with the file of pages. The log's buffer is of the
    /// size that programs take.
    ///
    /// Refused, with no device call, `Capacity` where more pages are asked for than have numbers, and after that `PoolSize` where the frames more are above
    /// 261,120; and else as `OpenStore::open_alone` is with one worker: a library that is called from C can start no threads.
    pub fn open(alloc: Global, disk: D, asked: &mut Opening) -> Option<Opened<D>>
        requires working { D.failed disk ≡ false }
        requires synced { IsSynced D.Disk disk }
        ensures opening { IsOpening D.Disk asked.old asked.new disk result }
        ensures question { AsksTheSame asked.old asked.new }
    {
        match store_of(alloc, disk, asked) {
            Ok(store) => {
                asked.fault = 0;
                Some(Opened { store })
            }
            Err(fault) => {
                asked.refuse(fault);
                None
            }
        }
    }

    /// Makes the step that a call asks, and what is due after it, and answers the step. What of the upkeep is refused is not told.
    pub fn step(&mut self, alloc: Global, call: &mut Call)
        ensures served { Serves D.Disk call.old call.new self.old.store self.new.store }
        ensures question { IsAnswered call.old call.new }
    {
        match step_of(alloc, call) {
            Ok(step) => {
                let reply = self.store.step(&step);
                answer(call, &reply);
            }
            Err(fault) => refuse(call, fault),
        }
    }

    /// Answers how the store stands, in six numbers: active transactions, pages whose file lacks changes, where the durable log ends, where redo
    /// began, how many records it applied, and 1 where the engine has failed.
    pub fn stat(&self, call: &mut Call)
        ensures told { TellsWord call.new 14 6 }
        ensures question { IsAnswered call.old call.new }
        ensures shown { Shows call.new (numbers_bytes (standing D.Disk self.now.store.engine)) }
    {
        let engine = self.store.engine();
        let redo = engine.redo_report();
        let numbers = [
            engine.active() as u64,
            engine.dirty_count() as u64,
            engine.durable_end(),
            redo.point,
            redo.applied,
            u64::from(engine.failed()),
        ];
        tell_numbers(call, &numbers);
    }

    /// Ends the store, as `OpenStore::close` does, and answers how.
    pub fn close(self, call: &mut Call)
        ensures ended { IsClosing D.Disk call.new self.store }
        ensures question { IsAnswered call.old call.new }
    {
        let (ended, _disk) = self.store.close();
        match ended {
            Ok(()) => tell(call, 14, 0),
            Err(fault) => refuse(call, fault),
        }
    }
}

// The store of a disk, opened with the limits and the bounds that are asked.
fn store_of<D: TwoLogs + Drop>(
    alloc: Global,
    disk: D,
    asked: &Opening,
) -> Result<OpenStore<D>, Fault>
    requires working { D.failed disk ≡ false }
    requires synced { IsSynced D.Disk disk }
    ensures opened { IfOk result (IsOpenedOn D.Disk asked.now disk) }
    ensures causes { IfErr result (RefusesOpening asked.now) }
{
    let Ok(max_pages) = u32::try_from(asked.max_pages) else {
        return Err(Fault::Capacity);
    };
    let Some(more) = MoreFrames::new(asked.more as usize) else {
        return Err(Fault::PoolSize);
    };
    let config = Config {
        frames: asked.frames as usize,
        more,
        max_pages,
        buffer: BufferSize::OVER_FILES,
        stepped: false,
        dense: true,
        group: waits(asked),
        workers: 1,
    };
    match OpenStore::open_alone(alloc, disk, config, bounds_of(asked)) {
        Ok(store) => Ok(store),
        Err((fault, _disk)) => Err(fault),
    }
}

// Whether a Commit of the store that is to be opened waits for a Force.
fn waits(asked: &Opening) -> bool
    ensures { (result ≡ true) ↔ (asked.now.group ≡ 1) }
{
    asked.group == 1
}

// How much log an opening may have to redo, and to read: so many bytes, or the usual bound where they are the greatest number.
fn bounds_of(asked: &Opening) -> Bounds
    ensures { HasBounds asked.now result }
{
    Bounds {
        redo: redo_bound_of(asked.redo_bytes),
        log: log_bound_of(asked.log_bytes),
    }
}

fn redo_bound_of(bytes: u64) -> RedoBound
    ensures { bytes < 2 ^ 64 - 1 → (result.bytes ≡ bytes) × (result.grows ≡ false) }
{
    if bytes == u64::MAX {
        RedoBound::default()
    } else {
        RedoBound::of_bytes(bytes)
    }
}

fn log_bound_of(bytes: u64) -> LogBound
    ensures { bytes < 2 ^ 64 - 1 → (result.bytes ≡ least_or_none bytes) × (result.grows ≡ false) }
{
    if bytes == u64::MAX {
        LogBound::default()
    } else {
        LogBound::of_bytes(bytes)
    }
}
