//! Every stop of a life, and every stop of the openings after it.

ghost use Rattle.std.specs.Prelude.{◌≡◌, false, [], IfOk};
ghost use Rattle.im_base_disk.specs.Runs.{IsSynced};
ghost use Rattle.im_base_disk.specs.Disk.{three};
ghost use Rattle.im_base_model_disk.specs.Model.{IsFresh};
ghost use Rattle.im_tool_every.specs.Counted.{counted, one_stop, one_restart, AreCalls, IsAtEnd, IsJudgedIn};
ghost use Rattle.im_tool_every.specs.Failing.{with_later};
ghost use Rattle.im_tool_every.specs.Stopped.{IsLeftIn, IsStoppedIn, IsStoppedOn};
ghost use Rattle.im_tool_every.specs.Swept.{AreRestarts, AreRestartsAt, AreStopsAt, IsEveryRestart, IsEveryStop, IsLifeStopped, IsRestart, IsSameLife};

use crate::guards::is_taken;
use crate::judged_opening::{is_begun, judge_opening, left_by, stop_opening};
use crate::start::Start;
use crate::torn_disk::torn;
use crate::ways::{END, Stops, Way, stop_at, written_at};
use im_base_disk::Disk;
use im_base_model_disk::{ModelDisk, Stop};
use im_base_two_logs::Renamed;
use im_engine::BufferSize;
use im_tool_drill::run_store_life;
use im_tool_judge::{AskedEffect, effects_asked};
use im_tool_lines::{LifeOptions, StoreLife};
use std::alloc::{AllocError, Global};
use std::io::Write;
use std::thread::Threads;

/// How often a life was stopped, how often an opening after it was, and how many openings were bad.
#[derive(Clone, Copy, Debug, Default, PartialEq, Eq)]
pub struct Counts {
    pub stops: u64,
    pub restarts: u64,
    pub bad: u64,
}

/// Stops a life, which begins with this disk, at each of these places, judges what it leaves, and stops each opening of that at each of them too. The
/// life's own stop is forgotten. Each store is opened with a log's buffer of this size.
///
/// It writes to `progress` how many of the life's device calls are done, over the line before. Where that cannot be written nobody reads it.
pub fn every_stop<P: Write, T: Threads + Sync>(
    rt: &T,
    alloc: Global,
    start: &Start,
    life: &mut StoreLife,
    buffer: BufferSize,
    stops: Stops,
    progress: &mut P,
) -> Result<Counts, AllocError>
    ensures { IfOk result (λ counts. IsEveryStop ⟦<ModelDisk as Disk>⟧ ⟦<Renamed<ModelDisk> as Disk>⟧ start.now life.old stops counts) }
{
    life.stop = None;
    let mut counts = Counts::NONE;
    let disk = left_by(alloc, start.disk())?;
    let (told, disk) = run_store_life(rt, alloc, disk, life, buffer)?;
    counts.count(is_begun(told.opening));
    let calls = disk.calls();
    stop_calls(
        rt,
        alloc,
        start,
        life,
        buffer,
        calls,
        stops,
        &mut counts,
        progress,
    )?;
    let _ = writeln!(progress);
    stop_end(rt, alloc, start, life, buffer, stops, &mut counts)?;
    life.stop = None;
    Ok(counts)
}

// Stops a life within each of its first so many device calls.
fn stop_calls<P: Write, T: Threads + Sync>(
    rt: &T,
    alloc: Global,
    start: &Start,
    life: &mut StoreLife,
    buffer: BufferSize,
    calls: u64,
    stops: Stops,
    counts: &mut Counts,
    progress: &mut P,
) -> Result<(), AllocError>
    ensures stops { IfOk result (λ _. AreCalls (AreStopsAt ⟦<ModelDisk as Disk>⟧ ⟦<Renamed<ModelDisk> as Disk>⟧ start.now life.old.options life.old.lines stops) calls counts.old counts.new) }
    ensures life { IfOk result (λ _. IsSameLife life.old life.new) }
{
    for i in 0..calls {
        let call = i + 1;
        stop_call(rt, alloc, start, life, buffer, call, stops, counts)?;
        let _ = write!(progress, "\r{call} of {calls} device calls");
    }
    Ok(())
}

// Stops it at its end, where that is such a place.
fn stop_end<T: Threads + Sync>(
    rt: &T,
    alloc: Global,
    start: &Start,
    life: &mut StoreLife,
    buffer: BufferSize,
    stops: Stops,
    counts: &mut Counts,
) -> Result<(), AllocError>
    ensures { IfOk result (λ _. IsAtEnd (AreStopsAt ⟦<ModelDisk as Disk>⟧ ⟦<Renamed<ModelDisk> as Disk>⟧ start.now life.old.options life.old.lines stops 0) stops counts.old counts.new) }
{
    match stops {
        Stops::EachCall => Ok(()),
        Stops::Everywhere => stop_call(rt, alloc, start, life, buffer, END, stops, counts),
    }
}

// Stops a life within one of its device calls, in each way.
fn stop_call<T: Threads + Sync>(
    rt: &T,
    alloc: Global,
    start: &Start,
    life: &mut StoreLife,
    buffer: BufferSize,
    call: u64,
    stops: Stops,
    counts: &mut Counts,
) -> Result<(), AllocError>
    ensures stops { IfOk result (λ _. AreStopsAt ⟦<ModelDisk as Disk>⟧ ⟦<Renamed<ModelDisk> as Disk>⟧ start.now life.old.options life.old.lines stops call counts.old counts.new) }
    ensures life { IfOk result (λ _. IsSameLife life.old life.new) }
{
    let ways = stops.ways();
    for way in ways {
        stop_life(rt, alloc, start, life, buffer, call, way, stops, counts)?;
    }
    Ok(())
}

// Makes a life that is stopped within one of its device calls in one way, and stops each opening after it.
fn stop_life<T: Threads + Sync>(
    rt: &T,
    alloc: Global,
    start: &Start,
    life: &mut StoreLife,
    buffer: BufferSize,
    call: u64,
    way: &Way,
    stops: Stops,
    counts: &mut Counts,
) -> Result<(), AllocError>
    ensures stopped { IfOk result (λ _. IsLifeStopped ⟦<ModelDisk as Disk>⟧ ⟦<Renamed<ModelDisk> as Disk>⟧ start.now life.old.options life.old.lines stops call way.now counts.old counts.new) }
    ensures life { IfOk result (λ _. IsSameLife life.old life.new) }
{
    let stop = stop_at(alloc, call, *way)?;
    life.stop = Some(stop);
    counts.count_stop();
    let disk = left_by(alloc, start.disk())?;
    let (told, disk) = run_store_life(rt, alloc, disk, life, buffer)?;
    counts.count(is_begun(told.opening));
    let asked = start.asked(alloc, &life.lines, &told.replies)?;
    let left = left_in(alloc, disk, *way)?;
    let options = life.options;
    each_restart(rt, alloc, &left, options, buffer, &asked, stops, counts)?;
    Ok(())
}

// The disk that its stop leaves in this way.
fn left_in(alloc: Global, disk: ModelDisk, way: Way) -> Result<ModelDisk, AllocError>
    ensures { IfOk result (λ next. IsLeftIn ⟦<ModelDisk as Disk>⟧ way.keeps_single way disk next) }
{
    let filled = left_by(alloc, &disk)?;
    if !way.keeps_single {
        return Ok(filled);
    }
    let mut disk = disk;
    disk.arm(written_at(END, way));
    let written = left_by(alloc, &disk)?;
    let next = torn(alloc, filled, written)?;
    Ok(next)
}

/// Makes a life of a new store with its own stop, opens after it with the same frames and pages, stops that opening at each of these places, and
/// judges each opening that was not stopped.
pub fn every_restart<T: Threads + Sync>(
    rt: &T,
    alloc: Global,
    life: &StoreLife,
    buffer: BufferSize,
    stops: Stops,
    counts: &mut Counts,
) -> Result<(), AllocError>
    ensures { IfOk result (λ _. IsEveryRestart ⟦<ModelDisk as Disk>⟧ ⟦<Renamed<ModelDisk> as Disk>⟧ life.now stops counts.old counts.new) }
{
    let disk = new_disk(alloc);
    let (told, disk) = run_store_life(rt, alloc, disk, life, buffer)?;
    counts.count(is_begun(told.opening));
    let asked = effects_asked(alloc, &life.lines, &told.replies)?;
    let left = left_by(alloc, &disk)?;
    let options = life.options;
    each_restart(rt, alloc, &left, options, buffer, &asked, stops, counts)?;
    Ok(())
}

pub(crate) fn new_disk(alloc: Global) -> ModelDisk
    ensures working { ⟦<ModelDisk as Disk>⟧.failed result ≡ false }
    ensures synced { IsSynced ⟦<ModelDisk as Disk>⟧ result }
    ensures fresh { IsFresh result }
    ensures empty { ⟦<ModelDisk as Disk>⟧.seen result ≡ three [] [] [] }
{
    ModelDisk::new(Vec::new(alloc), Vec::new(alloc))
}

// Opens what is left of a life, and stops that opening everywhere.
fn each_restart<T: Threads + Sync>(
    rt: &T,
    alloc: Global,
    left: &ModelDisk,
    options: LifeOptions,
    buffer: BufferSize,
    asked: &[AskedEffect],
    stops: Stops,
    counts: &mut Counts,
) -> Result<(), AllocError>
    ensures { IfOk result (λ _. AreRestarts ⟦<ModelDisk as Disk>⟧ ⟦<Renamed<ModelDisk> as Disk>⟧ options asked.now stops left.now counts.old counts.new) }
{
    let calls = judge(rt, alloc, left, options, buffer, asked, counts)?;
    restart_calls(
        rt, alloc, left, options, buffer, asked, calls, stops, counts,
    )?;
    restart_end(rt, alloc, left, options, buffer, asked, stops, counts)?;
    Ok(())
}

// Stops an opening within each of its first so many device calls.
fn restart_calls<T: Threads + Sync>(
    rt: &T,
    alloc: Global,
    left: &ModelDisk,
    options: LifeOptions,
    buffer: BufferSize,
    asked: &[AskedEffect],
    calls: u64,
    stops: Stops,
    counts: &mut Counts,
) -> Result<(), AllocError>
    ensures { IfOk result (λ _. AreCalls (AreRestartsAt ⟦<ModelDisk as Disk>⟧ ⟦<Renamed<ModelDisk> as Disk>⟧ options asked.now stops left.now) calls counts.old counts.new) }
{
    for i in 0..calls {
        let call = i + 1;
        stop_restart(rt, alloc, left, options, buffer, asked, call, stops, counts)?;
    }
    Ok(())
}

// Stops it at its end, where that is such a place.
fn restart_end<T: Threads + Sync>(
    rt: &T,
    alloc: Global,
    left: &ModelDisk,
    options: LifeOptions,
    buffer: BufferSize,
    asked: &[AskedEffect],
    stops: Stops,
    counts: &mut Counts,
) -> Result<(), AllocError>
    ensures { IfOk result (λ _. IsAtEnd (AreRestartsAt ⟦<ModelDisk as Disk>⟧ ⟦<Renamed<ModelDisk> as Disk>⟧ options asked.now stops left.now 0) stops counts.old counts.new) }
{
    match stops {
        Stops::EachCall => Ok(()),
        Stops::Everywhere => {
            stop_restart(rt, alloc, left, options, buffer, asked, END, stops, counts)
        }
    }
}

// Stops an opening within one of its device calls, in each way, and opens once more.
fn stop_restart<T: Threads + Sync>(
    rt: &T,
    alloc: Global,
    left: &ModelDisk,
    options: LifeOptions,
    buffer: BufferSize,
    asked: &[AskedEffect],
    call: u64,
    stops: Stops,
    counts: &mut Counts,
) -> Result<(), AllocError>
    ensures { IfOk result (λ _. AreRestartsAt ⟦<ModelDisk as Disk>⟧ ⟦<Renamed<ModelDisk> as Disk>⟧ options asked.now stops left.now call counts.old counts.new) }
{
    let ways = stops.ways();
    for way in ways {
        one_restart(rt, alloc, left, options, buffer, asked, call, way, counts)?;
    }
    Ok(())
}

// In one way.
fn one_restart<T: Threads + Sync>(
    rt: &T,
    alloc: Global,
    left: &ModelDisk,
    options: LifeOptions,
    buffer: BufferSize,
    asked: &[AskedEffect],
    call: u64,
    way: &Way,
    counts: &mut Counts,
) -> Result<(), AllocError>
    ensures { IfOk result (λ _. IsRestart ⟦<ModelDisk as Disk>⟧ ⟦<Renamed<ModelDisk> as Disk>⟧ options asked.now left.now call way.now counts.old counts.new) }
{
    counts.count_restart();
    let next = stopped_in(rt, alloc, left, options, buffer, call, *way)?;
    let _calls = judge(rt, alloc, &next, options, buffer, asked, counts)?;
    Ok(())
}

// What is left of this disk where an opening is stopped within this device call.
fn stopped_in<T: Threads + Sync>(
    rt: &T,
    alloc: Global,
    disk: &ModelDisk,
    options: LifeOptions,
    buffer: BufferSize,
    call: u64,
    way: Way,
) -> Result<ModelDisk, AllocError>
    ensures { IfOk result (λ next. IsStoppedIn ⟦<ModelDisk as Disk>⟧ ⟦<Renamed<ModelDisk> as Disk>⟧ way.keeps_single options call way disk.now next) }
{
    let stop = stop_at(alloc, call, way)?;
    let filled = stopped_on(rt, alloc, disk, options, buffer, stop)?;
    if !way.keeps_single {
        return Ok(filled);
    }
    let written = stopped_on(rt, alloc, disk, options, buffer, written_at(call, way))?;
    let next = torn(alloc, filled, written)?;
    Ok(next)
}

// What is left of this disk where an opening is stopped so.
fn stopped_on<T: Threads + Sync>(
    rt: &T,
    alloc: Global,
    disk: &ModelDisk,
    options: LifeOptions,
    buffer: BufferSize,
    stop: Stop,
) -> Result<ModelDisk, AllocError>
    ensures working { IfOk result (λ next. ⟦<ModelDisk as Disk>⟧.failed next ≡ false) }
    ensures stopped { IfOk result (λ next. IsStoppedOn ⟦<ModelDisk as Disk>⟧ ⟦<Renamed<ModelDisk> as Disk>⟧ options stop disk.now next) }
{
    let copy = left_by(alloc, disk)?;
    let next = stop_opening(rt, alloc, copy, options, buffer, stop)?;
    Ok(next)
}

/// Judges what is left of this disk: the guards of real files take it, and an opening is good. It answers how many device calls that made. What is bad is
/// counted: no later verdict takes that back.
pub(crate) fn judge<T: Threads + Sync>(
    rt: &T,
    alloc: Global,
    disk: &ModelDisk,
    options: LifeOptions,
    buffer: BufferSize,
    asked: &[AskedEffect],
    counts: &mut Counts,
) -> Result<u64, AllocError>
    ensures { IfOk result (λ calls. IsJudgedIn ⟦<ModelDisk as Disk>⟧ ⟦<Renamed<ModelDisk> as Disk>⟧ options asked.now disk.now calls counts.old counts.new) }
{
    let taken = is_taken(alloc, disk)?;
    counts.count(taken);
    let copy = left_by(alloc, disk)?;
    let (judged, _disk) = judge_opening(rt, alloc, copy, options, buffer, asked)?;
    counts.count(judged.good);
    Ok(judged.calls)
}

impl Counts {
    /// Nothing is counted.
    pub(crate) const NONE: Counts = Counts {
        stops: 0,
        restarts: 0,
        bad: 0,
    };

    /// One life more that was made.
    pub(crate) fn count_stop(&mut self)
        ensures { self.new ≡ one_stop self.old }
    {
        self.stops = self.stops.saturating_add(1);
    }

    /// One opening more that was stopped.
    pub(crate) fn count_restart(&mut self)
        ensures { self.new ≡ one_restart self.old }
    {
        self.restarts = self.restarts.saturating_add(1);
    }

    /// The counts of lives, and of the openings after them.
    pub(crate) fn with_later(self, later: Counts) -> Counts
        ensures { result ≡ with_later self later }
    {
        Counts {
            stops: self.stops,
            restarts: later.stops,
            bad: self.bad.saturating_add(later.bad),
        }
    }

    /// One verdict more.
    pub(crate) fn count(&mut self, good: bool)
        ensures { self.new ≡ counted good self.old }
    {
        if !good {
            self.bad = self.bad.saturating_add(1);
        }
    }
}
