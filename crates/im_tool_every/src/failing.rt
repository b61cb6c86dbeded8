//! Every device call of a life that fails once, and every read; and those of the opening after it.

ghost use Rattle.std.specs.Prelude.{◌≡◌, ◌↔◌, true, None, IfOk};
ghost use Rattle.im_tool_every.specs.Counted.{AreCalls};
ghost use Rattle.im_tool_every.specs.Failing.{AreAllFailures, AreCallFailures, AreFailures, AreLater, AreReadFailures, HasFailed, IsEveryFailure, IsFailure, IsLater, IsLikeLife, IsMade, IsOpeningFailed, IsSetTo, IsUndisturbed, failing};
ghost use Rattle.im_tool_every.specs.Swept.{IsSameLife};

use crate::every::{Counts, judge};
use crate::judged_opening::{is_begun, left_by};
use crate::start::Start;
use crate::ways::{END, Stops, Way, stop_at};
use im_base_disk::Disk;
use im_base_model_disk::ModelDisk;
use im_base_two_logs::Renamed;
use im_base_types::Fault;
use im_engine::BufferSize;
use im_tool_drill::run_store_life;
use im_tool_judge::is_disturbed;
use im_tool_lines::{LifeOptions, StoreAnswers, StoreLife};
use std::alloc::{AllocError, Global};
use std::thread::Threads;

/// Makes a life again and again, which begins with this disk: another device call fails each time, then another read or length call, and at last none,
/// and it ends in each length and with each fill. Its answers are judged (`IsDisturbed`) by those of the life that nothing disturbs, so a failure of which
/// nothing is said is bad, and so is the opening after it. It counts these lives as stops. Then each call of the opening after the whole life fails in
/// turn, which it counts as restarts. The life's own stop and failures are forgotten. Each store is opened with a log's buffer of this size.
pub fn every_failure<T: Threads + Sync>(
    rt: &T,
    alloc: Global,
    start: &Start,
    life: &mut StoreLife,
    buffer: BufferSize,
) -> Result<Counts, AllocError>
    ensures { IfOk result (λ counts. IsEveryFailure ⟦<ModelDisk as Disk>⟧ ⟦<Renamed<ModelDisk> as Disk>⟧ start.now life.old counts) }
{
    let mut lives = Counts::NONE;
    fail_each(rt, alloc, start, life, buffer, &mut lives)?;
    let mut later = Counts::NONE;
    fail_later(rt, alloc, start, life, buffer, &mut later)?;
    life.stop = None;
    Ok(lives.with_later(later))
}

// Fails each call of the opening after a life that ends in each way.
fn fail_later<T: Threads + Sync>(
    rt: &T,
    alloc: Global,
    start: &Start,
    life: &mut StoreLife,
    buffer: BufferSize,
    counts: &mut Counts,
) -> Result<(), AllocError>
    ensures { IfOk result (λ _. AreLater ⟦<ModelDisk as Disk>⟧ ⟦<Renamed<ModelDisk> as Disk>⟧ start.now life.old.options life.old.lines counts.old counts.new) }
{
    let ways = Stops::EachCall.ways();
    for way in ways {
        fail_after(rt, alloc, start, life, buffer, way, counts)?;
    }
    Ok(())
}

// In one way.
fn fail_after<T: Threads + Sync>(
    rt: &T,
    alloc: Global,
    start: &Start,
    life: &mut StoreLife,
    buffer: BufferSize,
    way: &Way,
    counts: &mut Counts,
) -> Result<(), AllocError>
    ensures later { IfOk result (λ _. IsLater ⟦<ModelDisk as Disk>⟧ ⟦<Renamed<ModelDisk> as Disk>⟧ start.now life.old.options life.old.lines way.now counts.old counts.new) }
    ensures life { IfOk result (λ _. IsSameLife life.old life.new) }
{
    let stop = stop_at(alloc, END, *way)?;
    life.stop = Some(stop);
    let next = start.after(rt, alloc, life, buffer, counts)?;
    fail_opening(rt, alloc, next, life.options, buffer, counts)?;
    Ok(())
}

// Fails each call of an opening of what a life left; where it can't be opened that is bad.
fn fail_opening<T: Threads + Sync>(
    rt: &T,
    alloc: Global,
    next: Result<Start, Fault>,
    options: LifeOptions,
    buffer: BufferSize,
    counts: &mut Counts,
) -> Result<(), AllocError>
    ensures { IfOk result (λ _. IsOpeningFailed ⟦<ModelDisk as Disk>⟧ ⟦<Renamed<ModelDisk> as Disk>⟧ options next counts.old counts.new) }
{
    match next {
        Ok(next) => {
            let mut opened = StoreLife {
                options,
                lines: Vec::new(alloc),
                stop: None,
            };
            fail_each(rt, alloc, &next, &mut opened, buffer, counts)?;
            Ok(())
        }
        Err(_) => {
            counts.count(false);
            Ok(())
        }
    }
}

// Each call of a life fails in turn, and each read; and once none does.
fn fail_each<T: Threads + Sync>(
    rt: &T,
    alloc: Global,
    start: &Start,
    life: &mut StoreLife,
    buffer: BufferSize,
    counts: &mut Counts,
) -> Result<(), AllocError>
    ensures failures { IfOk result (λ _. AreAllFailures ⟦<ModelDisk as Disk>⟧ ⟦<Renamed<ModelDisk> as Disk>⟧ start.now life.old.options life.old.lines counts.old counts.new) }
    ensures life { IfOk result (λ _. IsSetTo None None life.old life.new) }
{
    let (plain, disk) = undisturbed(rt, alloc, start, life, buffer)?;
    counts.count(is_begun(plain.opening));
    let calls = disk.calls();
    fail_calls(rt, alloc, start, life, buffer, &plain, calls, counts)?;
    let reads = disk.reads();
    fail_reads(rt, alloc, start, life, buffer, &plain, reads, counts)?;
    each_end(rt, alloc, start, life, buffer, &plain, None, None, counts)?;
    Ok(())
}

// A life in which no call fails, and no read.
fn undisturbed<T: Threads + Sync>(
    rt: &T,
    alloc: Global,
    start: &Start,
    life: &mut StoreLife,
    buffer: BufferSize,
) -> Result<(StoreAnswers, ModelDisk), AllocError>
    ensures made { IfOk result (λ made. IsUndisturbed ⟦<ModelDisk as Disk>⟧ ⟦<Renamed<ModelDisk> as Disk>⟧ start.now life.old.options life.old.lines made.0 made.1) }
    ensures life { IfOk result (λ _. IsSetTo None None life.old life.new) }
{
    life.stop = None;
    life.options.failing_call = None;
    life.options.failing_read = None;
    let disk = left_by(alloc, start.disk())?;
    let (plain, disk) = run_store_life(rt, alloc, disk, life, buffer)?;
    Ok((plain, disk))
}

// Each of the first so many device calls fails in turn.
fn fail_calls<T: Threads + Sync>(
    rt: &T,
    alloc: Global,
    start: &Start,
    life: &mut StoreLife,
    buffer: BufferSize,
    plain: &StoreAnswers,
    calls: u64,
    counts: &mut Counts,
) -> Result<(), AllocError>
    ensures calls { IfOk result (λ _. AreCalls (AreCallFailures ⟦<ModelDisk as Disk>⟧ ⟦<Renamed<ModelDisk> as Disk>⟧ start.now life.old.options life.old.lines plain.now) calls counts.old counts.new) }
    ensures life { IfOk result (λ _. IsLikeLife life.old life.new) }
{
    for i in 0..calls {
        let call = Some(i + 1);
        each_end(rt, alloc, start, life, buffer, plain, call, None, counts)?;
    }
    Ok(())
}

// Each of the first so many reads and length calls.
fn fail_reads<T: Threads + Sync>(
    rt: &T,
    alloc: Global,
    start: &Start,
    life: &mut StoreLife,
    buffer: BufferSize,
    plain: &StoreAnswers,
    reads: u64,
    counts: &mut Counts,
) -> Result<(), AllocError>
    ensures reads { IfOk result (λ _. AreCalls (AreReadFailures ⟦<ModelDisk as Disk>⟧ ⟦<Renamed<ModelDisk> as Disk>⟧ start.now life.old.options life.old.lines plain.now) reads counts.old counts.new) }
    ensures life { IfOk result (λ _. IsLikeLife life.old life.new) }
{
    for i in 0..reads {
        let read = Some(i + 1);
        each_end(rt, alloc, start, life, buffer, plain, None, read, counts)?;
    }
    Ok(())
}

// Makes the life with each end, while this device call fails, or this read or length call.
fn each_end<T: Threads + Sync>(
    rt: &T,
    alloc: Global,
    start: &Start,
    life: &mut StoreLife,
    buffer: BufferSize,
    plain: &StoreAnswers,
    call: Option<u64>,
    read: Option<u64>,
    counts: &mut Counts,
) -> Result<(), AllocError>
    ensures failures { IfOk result (λ _. AreFailures ⟦<ModelDisk as Disk>⟧ ⟦<Renamed<ModelDisk> as Disk>⟧ start.now (failing life.old.options call read) life.old.lines plain.now counts.old counts.new) }
    ensures life { IfOk result (λ _. IsSetTo call read life.old life.new) }
{
    life.options.failing_call = call;
    life.options.failing_read = read;
    let ways = Stops::EachCall.ways();
    for way in ways {
        one_failure(rt, alloc, start, life, buffer, plain, way, counts)?;
    }
    Ok(())
}

// Makes it with one end, and judges its answers and the opening after it.
fn one_failure<T: Threads + Sync>(
    rt: &T,
    alloc: Global,
    start: &Start,
    life: &mut StoreLife,
    buffer: BufferSize,
    plain: &StoreAnswers,
    way: &Way,
    counts: &mut Counts,
) -> Result<(), AllocError>
    ensures failure { IfOk result (λ _. IsFailure ⟦<ModelDisk as Disk>⟧ ⟦<Renamed<ModelDisk> as Disk>⟧ start.now life.old.options life.old.lines plain.now way.now counts.old counts.new) }
    ensures life { IfOk result (λ _. IsSameLife life.old life.new) }
{
    let stop = stop_at(alloc, END, *way)?;
    life.stop = Some(stop);
    counts.count_stop();
    let disk = left_by(alloc, start.disk())?;
    let (told, disk) = run_store_life(rt, alloc, disk, life, buffer)?;
    let fails = has_failed(life.options, &disk);
    let good = is_disturbed(plain, &told, fails);
    counts.count(good);
    let asked = start.asked(alloc, &life.lines, &told.replies)?;
    let left = left_by(alloc, &disk)?;
    let options = life.options;
    let _calls = judge(rt, alloc, &left, options, buffer, &asked, counts)?;
    Ok(())
}

// Whether the call that shall fail was made, or the read.
fn has_failed(options: LifeOptions, disk: &ModelDisk) -> bool
    ensures { result ≡ true ↔ HasFailed options disk.now }
{
    is_made(options.failing_call, disk.calls()) || is_made(options.failing_read, disk.reads())
}

// Whether a number is one of the first so many.
fn is_made(number: Option<u64>, made: u64) -> bool
    ensures { result ≡ true ↔ IsMade number made }
{
    match number {
        Some(number) => number <= made,
        None => false,
    }
}
