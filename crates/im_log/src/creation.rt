//! A log is made where there is none yet.

ghost use Rattle.std.specs.Prelude.{◌≤◌, ◌≡◌, ◌⊎◌, false, length, IfOk, List, ℕ};
ghost use Rattle.im_base_types.specs.declared.fault.Fault.TheVariants.{Memory, NotAStore};
ghost use Rattle.im_base_types.specs.declared.file_id.FileId.TheVariants.{Log, Pages};
ghost use Rattle.im_base_types.specs.Records.{Logged};
ghost use Rattle.im_base_disk.specs.Disk.{Only};
ghost use Rattle.im_base_disk.specs.Ends.{AnswersOr};
ghost use Rattle.im_base_disk.specs.Runs.{ChangesOnly};
ghost use Rattle.im_log_gate.specs.Header.{base_of, IsUnmade};
ghost use Rattle.im_log.specs.LogFile.{IsOpen, IsLog};
ghost use Rattle.im_log.specs.Kept.{IsLogOf, IsStore, OpenKept};

use crate::{LogFile, open_log};
use im_base_disk::Disk;
use im_base_types::{Fault, FileId};
use im_log_gate::Gate;
use std::alloc::Global;

/// Opens the log of a store, or makes it where no store was made yet: the log is unmade, and the file of pages is empty. Its
/// first byte has the LSN that the file says.
///
/// Refused `NotAStore` where the files' bytes are no store, with no device call made; `Device`; `Memory`.
pub fn open_or_create<D: Disk>(
    alloc: Global,
    disk: &mut D,
    batches: usize,
) -> Result<LogFile, Fault>
    requires few { (1 ≤ batches) × (batches ≤ 64) }
    requires working { D.failed disk.old ≡ false }
    requires durable { Only Log (D.seen disk.old) (D.may_leave disk.old) }
    ensures ready { IfOk result (λ log. IsOpen D.Disk log disk.new × (log.failed ≡ false)) }
    ensures kept { (base : ℕ) (all : List Logged) → D.tells → IsLogOf base all (D.seen disk.old Log) → (IsUnmade (D.seen disk.old Log) → length (D.seen disk.old Pages) ≡ 0)
        → OpenKept D.Disk base all disk.old disk.new result }
    ensures store { IfOk result (λ log. D.tells → (store : IsStore (D.seen disk.old)) × IsLog D.Disk (base_of (D.seen disk.old Log)) store.all store.all log disk.new) }
    ensures refused { result ≡ Err NotAStore → D.tells → ¬ (IsStore (D.seen disk.old)) }
    ensures changes { ChangesOnly D.Disk Log disk.old disk.new }
    ensures answers { AnswersOr (λ e. (e ≡ Memory) ⊎ (e ≡ NotAStore)) (D.failed disk.new) result }
{
    match Gate::open(alloc, disk, FileId::Log)? {
        Some(gate) => open_log(alloc, disk, gate, batches),
        None => {
            let gate = Gate::create(alloc, disk, FileId::Log)?;
            open_log(alloc, disk, gate, batches)
        }
    }
}
