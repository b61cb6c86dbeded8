//! Lives over the gate alone, on the model disk.

ghost use Rattle.std.specs.Prelude.{◌≡◌, ◌≢◌, ◌++◌, ◌∷◌, ◌⊎◌, ◌+◌, [], ℕ, List, false, is_ok, length, if◌then◌else◌, IfOk, OnOk};
ghost use Rattle.im_base_disk.specs.Disk.{Files};
ghost use Rattle.im_base_disk.specs.Runs.{IsSynced};
ghost use Rattle.im_base_types.specs.declared.fault.Fault.TheVariants.{NotAStore};
ghost use Rattle.im_log_gate.specs.declared.gate.Gate.{Gate};
ghost use Rattle.im_log_gate.specs.Batches.{with_batch};
ghost use Rattle.im_log_gate.specs.Gate.{IsReady, logged};
ghost use Rattle.im_log_gate.specs.Outcome.{MovesBy, PutOutcome};
ghost use Rattle.im_tool_lines.specs.Lives.{StandsFor, BatchesSurvive, asked_of, acked_of};
ghost use Rattle.im_tool_lines.specs.Living.{IsLiving};
ghost use Rattle.im_tool_lines.specs.RawRuns.{IsRawLineRun, AreRawLinesRun, IsRawLifeRun};
ghost use Rattle.im_tool_lines.specs.Answered.{IsRawReply, Answered, AnsweredBehind};

use crate::batch::Batch;
use crate::opened_batches::open_batches;
use crate::raw_life::RawLife;
use crate::raw_line::RawLine;
use crate::stop::{arm, has_come, refused_opening};
use crate::{LifeAnswers, Opening, RawReply};
use im_base_disk::Disk;
use im_base_model_disk::{ModelDisk, Stop};
use im_base_types::Fault;
use im_log_gate::Gate;
use std::alloc::{AllocError, Global};

/// Runs one life on the disk, and leaves the disk as it was when the stop came or the lines ended.
///
/// Whatever a stop then leaves stands for the batches from before and after them a front of those that the life asked
/// to put, in order, with all that were acknowledged. Each line has its reply, unless the stop came before or the opening did
/// not succeed.
pub(crate) fn run_life(
    alloc: Global,
    disk: &mut ModelDisk,
    life: &RawLife,
) -> Result<LifeAnswers, AllocError>
    requires working { ⟦<ModelDisk as Disk>⟧.failed disk.old ≡ false }
    requires synced { IsSynced ⟦<ModelDisk as Disk>⟧ disk.old }
    ensures run { IfOk result (λ told. IsRawLifeRun ⟦<ModelDisk as Disk>⟧ life.now told disk.old disk.new) }
    ensures opened { IfOk result (λ told. (before : List (List ℕ)) → StandsFor (⟦<ModelDisk as Disk>⟧.seen disk.old) before → told.opening ≢ Opening.Refused NotAStore) }
    ensures answered { IfOk result (λ told. AnsweredBehind told.opening life.now.lines.items told.replies.items) }
    ensures kept { IfOk result (λ told. (before : List (List ℕ)) → StandsFor (⟦<ModelDisk as Disk>⟧.seen disk.old) before
        → (c : Files) → ⟦<ModelDisk as Disk>⟧.may_leave disk.new c
        → (after : List (List ℕ)) × StandsFor c after × BatchesSurvive before (asked_of life.now.lines.items) (acked_of life.now.lines.items told.replies.items) after) }
{
    arm(alloc, disk, &life.stop)?;
    match open_batches(alloc, disk) {
        Ok((mut gate, _before)) => {
            let opening = Opening::Open(disk.calls());
            let replies = run_lines(alloc, disk, &mut gate, &life.lines, &life.stop)?;
            Ok(LifeAnswers { opening, replies })
        }
        Err(fault) => Ok(LifeAnswers {
            opening: refused_opening(disk, &life.stop, fault),
            replies: Vec::new(alloc),
        }),
    }
}

fn run_lines(
    alloc: Global,
    disk: &mut ModelDisk,
    gate: &mut Gate,
    lines: &[RawLine],
    stop: &Option<Stop>,
) -> Result<Vec<RawReply>, AllocError>
    requires { IsReady ⟦<ModelDisk as Disk>⟧ gate.old disk.old }
    ensures run { IfOk result (λ told. (last : Gate) × AreRawLinesRun ⟦<ModelDisk as Disk>⟧ stop.now lines.now told.items gate.old last disk.old disk.new) }
    ensures answered { IfOk result (λ told. Answered lines.now told.items) }
    ensures kept { IfOk result (λ told. (before : List (List ℕ)) → IsLiving ⟦<ModelDisk as Disk>⟧ before [] [] gate.old disk.old
        → (c : Files) → ⟦<ModelDisk as Disk>⟧.may_leave disk.new c
        → (after : List (List ℕ)) × StandsFor c after × BatchesSurvive before (asked_of lines.now) (acked_of lines.now told.items) after) }
{
    let mut replies = Vec::new(alloc);
    for line in lines {
        let reply = run_line(disk, gate, line, stop);
        replies.push(reply)?;
        if reply == RawReply::Stopped {
            return Ok(replies);
        }
    }
    Ok(replies)
}

fn run_line(disk: &mut ModelDisk, gate: &mut Gate, line: &RawLine, stop: &Option<Stop>) -> RawReply
    requires { IsReady ⟦<ModelDisk as Disk>⟧ gate.old disk.old }
    ensures run { IsRawLineRun ⟦<ModelDisk as Disk>⟧ stop.now line.now result gate.old gate.new disk.old disk.new }
    ensures fits { (result ≡ RawReply.Stopped) ⊎ IsRawReply line.now result }
    ensures ready { IsReady ⟦<ModelDisk as Disk>⟧ gate.new disk.new }
    ensures living { (before asked acked : List (List ℕ)) → IsLiving ⟦<ModelDisk as Disk>⟧ before asked acked gate.old disk.old
        → IsLiving ⟦<ModelDisk as Disk>⟧ before (asked ++ asked_of (line.now ∷ [])) (acked ++ acked_of (line.now ∷ []) (result ∷ [])) gate.new disk.new }
{
    let batch = match line {
        RawLine::Calls => return RawReply::Calls(disk.calls()),
        RawLine::Put(batch) => batch,
    };
    match put(disk, gate, batch) {
        Ok(()) => RawReply::Put,
        Err(_) if has_come(stop, disk) => RawReply::Stopped,
        Err(fault) => RawReply::Refused(fault),
    }
}

// Puts one batch: it was asked, and acknowledged where the answer is `Ok`.
fn put<D: Disk>(disk: &mut D, gate: &mut Gate, batch: &Batch) -> Result<(), Fault>
    requires { IsReady D.Disk gate.old disk.old }
    ensures outcome { PutOutcome D.Disk gate.old disk.old gate.new disk.new result }
    ensures put { OnOk result (D.tells → logged D.Disk gate.new disk.new ≡ with_batch batch.now.records.items (logged D.Disk gate.old disk.old)) }
    ensures moves { MovesBy (length batch.now.records.items + 5) gate.old gate.new result }
    ensures living { (before asked acked : List (List ℕ)) → IsLiving D.Disk before asked acked gate.old disk.old
        → IsLiving D.Disk before (asked ++ batch.now.records.items ∷ []) (if is_ok result then acked ++ batch.now.records.items ∷ [] else acked) gate.new disk.new }
{
    gate.put_batch(disk, &batch.records)
}
