//! An opening that is judged, and one that is stopped.

ghost use Rattle.std.specs.Prelude.{◌≡◌, ◌↔◌, true, false, IfOk};
ghost use Rattle.im_base_types.specs.declared.file_id.FileId.{FileId};
ghost use Rattle.im_base_model_disk.specs.Left.{IsLeftBy};
ghost use Rattle.im_base_model_disk.specs.Model.{IsFresh, file_of, model_stop};
ghost use Rattle.im_base_disk.specs.Runs.{IsSynced};
ghost use Rattle.im_tool_every.specs.Opened.{IsBegun, IsJudged, IsJudgedBy, IsStopped};

use im_base_disk::Disk;
use im_base_model_disk::{ModelDisk, Stop};
use im_base_two_logs::Renamed;
use im_engine::{BufferSize, Engine};
use im_tool_drill::open_store;
use im_tool_judge::{AskedEffect, is_good, is_passed_over};
use im_tool_lines::{LifeOptions, Opening};
use std::alloc::{AllocError, Global};
use std::thread::Threads;

/// How many device calls an opening made, and whether it is good.
#[derive(Clone, Copy, Debug, PartialEq, Eq)]
pub(crate) struct Judged {
    pub(crate) calls: u64,
    pub(crate) good: bool,
}

/// Opens to the end, and judges what is there by what was asked. It gives the disk back as it is then.
pub(crate) fn judge_opening<T: Threads + Sync>(
    rt: &T,
    alloc: Global,
    disk: ModelDisk,
    options: LifeOptions,
    buffer: BufferSize,
    asked: &[AskedEffect],
) -> Result<(Judged, ModelDisk), AllocError>
    requires working { ⟦<ModelDisk as Disk>⟧.failed disk ≡ false }
    requires synced { IsSynced ⟦<ModelDisk as Disk>⟧ disk }
    ensures { IfOk result (λ told. IsJudged ⟦<Renamed<ModelDisk> as Disk>⟧ options asked.now disk told.1 told.0) }
{
    match open_store(rt, alloc, Renamed::new(disk, false), options, buffer) {
        Ok(mut engine) => {
            let calls = engine.disk().disk().calls();
            let good = judge_entries(alloc, &mut engine, asked)?;
            let disk = engine.into_disk().into_disk();
            Ok((Judged { calls, good }, disk))
        }
        Err((fault, named)) => {
            let disk = named.into_disk();
            let calls = disk.calls();
            let good = is_passed_over(fault);
            Ok((Judged { calls, good }, disk))
        }
    }
}

// Judges the entries that an engine hands out.
fn judge_entries(
    alloc: Global,
    engine: &mut Engine<Renamed<ModelDisk>>,
    asked: &[AskedEffect],
) -> Result<bool, AllocError>
    ensures { IfOk result (λ good. IsJudgedBy ⟦<Renamed<ModelDisk> as Disk>⟧ asked.now engine.old engine.new good) }
{
    let found = engine.entries(alloc);
    let good = is_good(alloc, asked, found)?;
    Ok(good)
}

/// Whether a life without a call that fails may begin so: it is open, its stop has come, or the refusal says nothing against the store.
pub(crate) fn is_begun(opening: Opening) -> bool
    ensures { result ≡ true ↔ IsBegun opening }
{
    match opening {
        Opening::Open(_) => true,
        Opening::Stopped => true,
        Opening::Refused(fault) => is_passed_over(fault),
    }
}

/// Opens with a stop armed, and gives the disk that the stop leaves.
pub(crate) fn stop_opening<T: Threads + Sync>(
    rt: &T,
    alloc: Global,
    disk: ModelDisk,
    options: LifeOptions,
    buffer: BufferSize,
    stop: Stop,
) -> Result<ModelDisk, AllocError>
    requires working { ⟦<ModelDisk as Disk>⟧.failed disk ≡ false }
    requires synced { IsSynced ⟦<ModelDisk as Disk>⟧ disk }
    ensures working { IfOk result (λ next. ⟦<ModelDisk as Disk>⟧.failed next ≡ false) }
    ensures synced { IfOk result (λ next. IsSynced ⟦<ModelDisk as Disk>⟧ next) }
    ensures stopped { IfOk result (λ next. IsStopped ⟦<ModelDisk as Disk>⟧ ⟦<Renamed<ModelDisk> as Disk>⟧ options stop disk next) }
{
    let mut disk = disk;
    disk.arm(stop);
    match open_store(rt, alloc, Renamed::new(disk, false), options, buffer) {
        Ok(engine) => {
            let disk = engine.into_disk().into_disk();
            let next = left_by(alloc, &disk)?;
            Ok(next)
        }
        Err((_fault, named)) => {
            let disk = named.into_disk();
            let left = left_by(alloc, &disk)?;
            Ok(left)
        }
    }
}

/// The disk that a stop leaves.
pub(crate) fn left_by(alloc: Global, disk: &ModelDisk) -> Result<ModelDisk, AllocError>
    ensures bytes { IfOk result (λ next. (file : FileId) → IsLeftBy (model_stop disk.now) (file_of disk.now file) (⟦<ModelDisk as Disk>⟧.seen next file)) }
    ensures fresh { IfOk result (λ next. IsFresh next) }
    ensures working { IfOk result (λ next. ⟦<ModelDisk as Disk>⟧.failed next ≡ false) }
    ensures synced { IfOk result (λ next. IsSynced ⟦<ModelDisk as Disk>⟧ next) }
{
    match disk.after_stop(alloc) {
        Ok(left) => Ok(left),
        Err(_) => Err(AllocError),
    }
}
