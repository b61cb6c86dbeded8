//! A log after a gate, opened: made where there is none yet, and read to its end.

ghost use Rattle.std.specs.Prelude.{◌≡◌, ◌≢◌, ◌⊎◌, ◌↔◌, ℕ, [], Some, List, true, false, map, IfOk, IfErr, MatchResult};
ghost use Rattle.im_base_types.specs.declared.file_id.FileId.TheVariants.{Log};
ghost use Rattle.im_base_types.specs.declared.fault.Fault.TheVariants.{Device, Memory, NotAStore};
ghost use Rattle.im_base_disk.specs.Disk.{Files};
ghost use Rattle.im_base_disk.specs.Ends.{ReadsOr};
ghost use Rattle.im_base_disk.specs.Runs.{IsSynced};
ghost use Rattle.im_log_gate.specs.Gate.{IsReading, IsReady, InOneFile, unread, has_failed};
ghost use Rattle.im_tool_lines.specs.Lives.{StandsFor};
ghost use Rattle.im_tool_lines.specs.Living.{IsLiving};
ghost use Rattle.im_tool_lines.specs.RawRuns.{IsRawLastRun};

use im_base_disk::Disk;
use im_base_model_disk::ModelDisk;
use im_base_types::{Fault, FileId};
use im_log_gate::Gate;
use std::alloc::Global;

/// Opens the log, or makes it where no store was made yet. It answers the closed gate and the batches in front
/// of it.
///
/// Refused `NotAStore` where the files stand for no batches; `Memory`; `Device`. What a stop then leaves stands for the same batches.
pub fn open_batches<D: Disk>(alloc: Global, disk: &mut D) -> Result<(Gate, Vec<Vec<u8>>), Fault>
    requires working { D.failed disk.old ≡ false }
    requires synced { IsSynced D.Disk disk.old }
    ensures living { IfOk result (λ opened. IsLiving D.Disk (map (λ batch. batch.items) opened.1.items) [] [] opened.0 disk.new) }
    ensures found { IfOk result (λ opened. D.tells → StandsFor (D.seen disk.old) (map (λ batch. batch.items) opened.1.items)) }
    ensures leaves { D.tells → (found : List (List ℕ)) → StandsFor (D.seen disk.old) found → (c : Files) → D.may_leave disk.new c → StandsFor c found }
    ensures refused { result ≡ Err NotAStore → D.tells → (found : List (List ℕ)) → ¬ (StandsFor (D.seen disk.old) found) }
    ensures causes { IfErr result (λ e. (e ≡ Memory) ⊎ (e ≡ Device) ⊎ (e ≡ NotAStore)) }
    ensures device { result ≡ Err Device ↔ (D.failed disk.new ≡ true) }
{
    match Gate::open(alloc, disk, FileId::Log)? {
        Some(gate) => read_batches(alloc, disk, gate),
        None => {
            let gate = Gate::create(alloc, disk, FileId::Log)?;
            Ok((gate, Vec::new(alloc)))
        }
    }
}

// The batches that an opening finds.
pub(crate) fn last_batches(alloc: Global, disk: &mut ModelDisk) -> Result<Vec<Vec<u8>>, Fault>
    requires working { ⟦<ModelDisk as Disk>⟧.failed disk.old ≡ false }
    requires synced { IsSynced ⟦<ModelDisk as Disk>⟧ disk.old }
    ensures run { IsRawLastRun ⟦<ModelDisk as Disk>⟧ disk.old result }
    ensures found { (after : List (List ℕ)) → StandsFor (⟦<ModelDisk as Disk>⟧.seen disk.old) after
        → MatchResult result (λ found. map (λ batch. batch.items) found.items ≡ after) (λ fault. fault ≢ NotAStore) }
{
    match open_batches(alloc, disk) {
        Ok((_gate, batches)) => Ok(batches),
        Err(fault) => Err(fault),
    }
}

// The batches from the gate on, and the gate after the last. No list has more than numbers go.
fn read_batches<D: Disk>(
    alloc: Global,
    disk: &mut D,
    gate: Gate,
) -> Result<(Gate, Vec<Vec<u8>>), Fault>
    requires usable { has_failed gate ≡ false }
    requires reading { IsReading D.Disk gate disk.old }
    ensures outcome { ReadsOr D.Disk (λ e. (e ≡ Memory) ⊎ (e ≡ NotAStore)) disk.old disk.new result }
    ensures ready { IfOk result (λ opened. IsReady D.Disk opened.0 disk.new) }
    ensures same { IfOk result (λ opened. InOneFile gate opened.0) }
    ensures found { IfOk result (λ opened. D.tells → unread D.Disk gate disk.old ≡ Some (map (λ batch. batch.items) opened.1.items)) }
    ensures refused { result ≡ Err NotAStore → D.tells → unread D.Disk gate disk.old ≡ None }
{
    let mut gate = gate;
    let mut batches = Vec::new(alloc);
    for _count in 0..u64::MAX {
        let records = match gate.read_batch(alloc, disk) {
            Ok(Some(records)) => records,
            Ok(None) => return Ok((gate, batches)),
            Err(fault) => return Err(fault),
        };
        if batches.push(records).is_err() {
            return Err(Fault::Memory);
        }
    }
    Err(Fault::Memory)
}
