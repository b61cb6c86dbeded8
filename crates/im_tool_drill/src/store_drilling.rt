//! A script of lives of a store, run.

ghost use Rattle.std.specs.Prelude.{◌≡◌, ◌≢◌, List, IfOk, MatchResult};
ghost use Rattle.std.specs.FinMap.{empty, entries};
ghost use Rattle.im_base_types.specs.declared.fault.Fault.TheVariants.{NotAStore};
ghost use Rattle.im_base_types.specs.Changes.{Effect, apply_all};
ghost use Rattle.im_base_types.specs.Lives.{Lives};
ghost use Rattle.im_base_disk.specs.Disk.{three};
ghost use Rattle.im_engine.specs.Stands.{StandsFor};
ghost use Rattle.im_tool_lines.specs.StoreShown.{asked_in_each, EachStoreAnswered, AreStores};
ghost use Rattle.im_tool_drill.specs.StoreRuns.{IsRun};

use crate::store_drilled::StoreDrilled;
use crate::store_lives::{last_entries, run_store_life};
use im_base_disk::Disk;
use im_base_model_disk::ModelDisk;
use im_base_two_logs::Renamed;
use im_engine::BufferSize;
use im_tool_lines::StoreScript;
use std::alloc::{AllocError, Global};
use std::thread::Threads;

/// Runs the lives of a script on a model disk, each on what the stop of the one before has left, and opens once
/// more after the last.
///
/// Every answer comes from a call: in each life the stop is armed, an engine is opened with the life's options, and a log's buffer of this
/// size, on the disk that the stop before has left, and its steps and headers are what the lines answer, up to one into which the stop fell. `Stopped` is told only where the life has a
/// stop within a device call, and it has come; an opening is refused only for its cause.
///
/// Where the script's files stand for some effects at first, as two empty ones do for none, each life leaves those from before it and
/// after them a front of those whose Commit its steps asked, as its own replies show, with all that were acknowledged; the last
/// opening finds the entries of just the effects that the last life left; and no opening says that there is no store. So it is of
/// every store, whether the tree has changed its structure or not, in whichever life.
///
/// On any bytes, each life has its answers and each of its lines its reply, up to a line into which the stop fell.
pub fn drill_store<T: Threads + Sync>(
    rt: &T,
    alloc: Global,
    script: &StoreScript,
    buffer: BufferSize,
) -> Result<StoreDrilled, AllocError>
    ensures run { IfOk result (λ told. IsRun ⟦<ModelDisk as Disk>⟧ ⟦<Renamed<ModelDisk> as Disk>⟧ script.now told) }
    ensures answered { IfOk result (λ told. EachStoreAnswered script.now.lives.items told.lives.items) }
    ensures kept { IfOk result (λ told. (before : List Effect) → StandsFor before (three script.now.log.items script.now.pages.items script.now.log2.items)
        → (after : List Effect) × Lives before (asked_in_each script.now.lives.items told.lives.items) after
        × MatchResult told.last (λ found. found.items ≡ entries (apply_all empty after)) (λ fault. fault ≢ NotAStore)) }
    ensures stores { IfOk result (λ told. (before : List Effect) → StandsFor before (three script.now.log.items script.now.pages.items script.now.log2.items) → AreStores told.lives.items) }
{
    let log = Vec::from_slice(alloc, &script.log)?;
    let pages = Vec::from_slice(alloc, &script.pages)?;
    let log2 = Vec::from_slice(alloc, &script.log2)?;
    let mut disk = ModelDisk::with_log2(log, pages, log2);
    let mut lives = Vec::new(alloc);
    for life in &script.lives {
        let (told, after) = run_store_life(rt, alloc, disk, life, buffer)?;
        lives.push(told)?;
        disk = match after.after_stop(alloc) {
            Ok(left) => left,
            Err(_) => return Err(AllocError),
        };
    }
    let (last, disk) = last_entries(rt, alloc, disk, buffer);
    Ok(StoreDrilled { lives, last, disk })
}
