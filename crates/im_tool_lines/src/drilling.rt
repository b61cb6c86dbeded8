//! A script, run.

ghost use Rattle.std.specs.Prelude.{◌≡◌, ◌≢◌, ℕ, List, map, IfOk, MatchResult};
ghost use Rattle.im_base_types.specs.declared.fault.Fault.TheVariants.{NotAStore};
ghost use Rattle.im_base_disk.specs.Disk.{three};
ghost use Rattle.im_tool_lines.specs.Lives.{StandsFor, RawLives};
ghost use Rattle.im_tool_lines.specs.Answered.{EachAnswered, AreRawStores};
ghost use Rattle.im_tool_lines.specs.RawRuns.{IsRawRun};

use crate::Drilled;
use crate::lives::run_life;
use crate::opened_batches::last_batches;
use crate::script::Script;
use im_base_disk::Disk;
use im_base_model_disk::ModelDisk;
use std::alloc::{AllocError, Global};

/// Runs the lives of a script on a model disk, each on what the stop of the one before has left, and opens once
/// more after the last.
///
/// Every answer comes from a call: in each life the stop is armed, the log is opened on the disk that the stop before has left, and what its gate
/// puts is what the lines answer, up to one into which the stop fell. `Stopped` is told only where the life has a stop within a device
/// call, and it has come; an opening and a put are refused only for their causes.
///
/// Where the script's log file stands for some batches at first, each life leaves those from before it and after them a
/// front of those that it asked to put, in order, with all that were acknowledged; and the last opening finds what the last life left. No opening
/// says that there is no store.
/// Each life has its answers and each of its lines its reply, up to a line into which the stop fell.
pub fn drill(alloc: Global, script: &Script) -> Result<Drilled, AllocError>
    ensures run { IfOk result (λ told. IsRawRun ⟦<ModelDisk as Disk>⟧ script.now told) }
    ensures answered { IfOk result (λ told. EachAnswered script.now.lives.items told.lives.items) }
    ensures kept { IfOk result (λ told. (before : List (List ℕ)) → StandsFor (three script.now.log.items script.now.pages.items script.now.log2.items) before
        → (after : List (List ℕ)) × RawLives script.now.lives.items told.lives.items before after
        × MatchResult told.last (λ found. map (λ batch. batch.items) found.items ≡ after) (λ fault. fault ≢ NotAStore)) }
    ensures stores { IfOk result (λ told. (before : List (List ℕ)) → StandsFor (three script.now.log.items script.now.pages.items script.now.log2.items) before → AreRawStores told.lives.items) }
{
    let log = Vec::from_slice(alloc, &script.log)?;
    let pages = Vec::from_slice(alloc, &script.pages)?;
    let log2 = Vec::from_slice(alloc, &script.log2)?;
    let mut disk = ModelDisk::with_log2(log, pages, log2);
    let mut lives = Vec::new(alloc);
    for life in &script.lives {
        let told = run_life(alloc, &mut disk, life)?;
        lives.push(told)?;
        disk = match disk.after_stop(alloc) {
            Ok(left) => left,
            Err(_) => return Err(AllocError),
        };
    }
    let last = last_batches(alloc, &mut disk);
    Ok(Drilled { lives, last })
}
