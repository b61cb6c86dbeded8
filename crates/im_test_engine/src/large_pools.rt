//! Lives by chance in pools of more than 1,024 frames, with a stop within any device call, beside a plain table of their keys.

ghost use Rattle.std.specs.Prelude.{◌≡◌, false, IfOk};
ghost use Rattle.im_base_disk.specs.Runs.{IsSynced};

use crate::by_chance::{Last, Shape, Table, Told, Within, life};
use im_base_disk::Disk;
use im_base_model_disk::{Fill, Length, ModelDisk, Stop};
use im_base_types::Fault;
use im_engine::{BufferSize, Config, MoreFrames};
use std::alloc::Global;
use std::test::Fail;
use std::thread::Threads;

// A stop by chance within one of so many device calls: the files are as long as they were written, or as they were synced, and what was not synced is as
// it was written, or one byte over and over.
fn stop_within(alloc: Global, table: &mut Table, calls: u64) -> Result<Stop, Fail> {
    let call = table.below(calls).saturating_add(1);
    let length = if table.below(2) == 0 {
        Length::Long
    } else {
        Length::Short
    };
    let fill = if table.below(2) == 0 {
        Fill::Written
    } else {
        let byte = (table.below(1_000_000) % 256) as u8;
        Fill::Bytes(vec![in alloc; byte; 1]?)
    };
    Ok(Stop { call, length, fill })
}

/// The disk that is left of a life, with a stop by chance within one of so many device calls of the next; with none where an opening was stopped, so that
/// one comes to its end.
pub fn left_by(
    alloc: Global,
    used: &ModelDisk,
    table: &mut Table,
    told: Told,
    calls: u64,
) -> Result<ModelDisk, Fail>
    ensures working { IfOk result (λ disk. ⟦<ModelDisk as Disk>⟧.failed disk ≡ false) }
    ensures synced { IfOk result (λ disk. IsSynced ⟦<ModelDisk as Disk>⟧ disk) }
{
    let mut disk = used.after_stop(alloc)?;
    if told != Told::Stopped(Within::Opening) {
        disk.arm(stop_within(alloc, table, calls)?);
    }
    Ok(disk)
}

/// A pool of 1,024 frames and so many more, and a log's buffer of so many batches.
pub fn pool_of(others: usize, batches: usize) -> Result<Config, Fail> {
    let Some(more) = MoreFrames::new(others) else {
        return Err(Fail::from(Fault::PoolSize));
    };
    let Some(buffer) = BufferSize::new(batches) else {
        return Err(Fail::from(Fault::Capacity));
    };
    Ok(Config {
        frames: 1_024,
        more,
        buffer,
        ..Config::default()
    })
}

/// Makes a life whose last step is a Checkpoint or a Switch, and then makes it again with a stop within a device call of that step, so many times, at calls
/// that lie evenly among them; each time the opening after it has to find what the table has. Answers whether all was so, how many stops came within the
/// step, and how many device calls it made.
pub fn stopped_last<R: Threads + Sync>(
    rt: &R,
    alloc: Global,
    disk: &ModelDisk,
    config: Config,
    table: &mut Table,
    shape: Shape,
    times: u64,
) -> Result<(bool, u64, u64), Fail> {
    let start = table.again(alloc)?;
    let mut first = start.again(alloc)?;
    let (told, used) = life(
        rt,
        alloc,
        disk.after_stop(alloc)?,
        config,
        &mut first,
        shape,
    )?;
    let before = first.calls_before();
    let calls = used.calls().saturating_sub(before);
    let mut came = 0u64;
    let mut is_right = told == Told::Right;
    for n in 0..times {
        let mut stop = stop_within(alloc, table, 1)?;
        let part = calls.saturating_mul(n).checked_div(times).unwrap_or(0);
        stop.call = before.saturating_add(part).saturating_add(1);
        let mut next = start.again(alloc)?;
        let mut torn = disk.after_stop(alloc)?;
        torn.arm(stop);
        let (told, used) = life(rt, alloc, torn, config, &mut next, shape)?;
        if matches!(
            told,
            Told::Stopped(Within::Checkpoint) | Told::Stopped(Within::Switch)
        ) {
            came = came.saturating_add(1);
        }
        let look = Shape { steps: 0, ..shape };
        let (found, _used) = life(rt, alloc, used.after_stop(alloc)?, config, &mut next, look)?;
        is_right = is_right && told != Told::Wrong && found == Told::Right;
    }
    Ok((is_right, came, calls))
}

// Makes lives, of which all but the first have a stop armed, and answers how many pages were changed at most where a Checkpoint came; or a failure, where
// something is not as the table has it.
fn most_dirty<R: Threads + Sync>(
    rt: &R,
    alloc: Global,
    config: Config,
    shape: Shape,
    lives: u64,
) -> Result<usize, Fail> {
    let mut table = Table::new(alloc, lives, shape.keys)?;
    let mut used = ModelDisk::new(Vec::new(alloc), Vec::new(alloc));
    // The first life has no stop armed.
    let mut told = Told::Stopped(Within::Opening);
    let mut most = 0;
    let mut dirty = 0;
    for _ in 0..lives {
        let disk = left_by(alloc, &used, &mut table, told, most)?;
        let (came, left) = life(rt, alloc, disk, config, &mut table, shape)?;
        if came == Told::Wrong {
            return Err(Fail::from(Fault::Failed));
        }
        dirty = table.take_dirty().max(dirty);
        most = left.calls().max(most);
        told = came;
        used = left;
    }
    Ok(dirty)
}

/// Lives that make many steps, so that more pages than 1,024 are changed at once.
const LARGE: Shape = Shape {
    keys: 60_000,
    steps: 40_000,
    apart: 2_000,
    last: Last::Any,
};

/// Lives that make few.
const SMALL: Shape = Shape {
    keys: 20_000,
    steps: 3_000,
    apart: 100,
    last: Last::Any,
};

/// Lives that end with a Checkpoint, before which thousands of pages were changed.
const CHECKED: Shape = Shape {
    keys: 60_000,
    steps: 24_000,
    apart: 2_400,
    last: Last::Checkpoint,
};

#[test]
fn lives_in_1_025_frames(rt: HostRuntime) -> Result<(), Fail> {
    let most = most_dirty(&rt, rt.alloc(), pool_of(1, 1)?, SMALL, 12)?;
    assert!(rt; most > 500, "{most}");
    Ok(())
}

#[test]
fn lives_in_4_096_frames(rt: HostRuntime) -> Result<(), Fail> {
    let most = most_dirty(&rt, rt.alloc(), pool_of(3_072, 4)?, LARGE, 6)?;
    assert!(rt; most > 1_024, "{most}");
    Ok(())
}

#[test]
fn lives_in_20_000_frames(rt: HostRuntime) -> Result<(), Fail> {
    let most = most_dirty(&rt, rt.alloc(), pool_of(18_976, 32)?, LARGE, 6)?;
    assert!(rt; most > 1_024, "{most}");
    Ok(())
}

#[test]
fn a_checkpoint_of_many_pages_is_stopped(rt: HostRuntime) -> Result<(), Fail> {
    let alloc = rt.alloc();
    let config = pool_of(18_976, 32)?;
    let disk = ModelDisk::new(Vec::new(alloc), Vec::new(alloc));
    let mut table = Table::new(alloc, 7, CHECKED.keys)?;
    let (told, used) = life(&rt, alloc, disk, config, &mut table, CHECKED)?;
    assert!(rt; told == Told::Right);
    let (is_right, came, calls) = stopped_last(&rt, alloc, &used, config, &mut table, CHECKED, 6)?;
    assert!(rt; is_right && came == 6 && calls > 100, "{came} {calls}");
    Ok(())
}

#[test]
fn more_frames_are_261_120_at_most(rt: HostRuntime) -> Result<(), Fail> {
    assert!(rt; MoreFrames::new(261_121).is_none());
    assert!(rt; MoreFrames::new(261_120) == Some(MoreFrames::of_mib(1_020)));
    assert!(rt; MoreFrames::of_mib(u64::MAX).frames() == 261_120);
    assert!(rt; MoreFrames::of_mib(3).frames() == 768);
    assert!(rt; MoreFrames::over_pages(5).frames() == 10);
    assert!(rt; MoreFrames::over_pages(u64::MAX).frames() == 16_384);
    assert!(rt; MoreFrames::over_pages(0) == MoreFrames::NONE);
    Ok(())
}
