//! How long the files of the logs are, before a store is opened.

ghost use Rattle.std.specs.Prelude.{◌≡◌, ◌↔◌, IfOk, IfErr, IsTrue, false, true};
ghost use Rattle.im_base_types.specs.declared.fault.Fault.TheVariants.{Device};
ghost use Rattle.im_base_disk.specs.Runs.{IsSynced, Reads};
ghost use Rattle.im_store.specs.LogFiles.{HasLong};

use im_base_disk::Disk;
use im_base_types::{Fault, FileId};
use im_log_header::read_header;

/// No log has more bytes after a close with nothing active.
const MOST: u64 = 65_536;

/// What the files of the two logs are of a store that is to be opened.
#[derive(Clone, Copy, Debug, PartialEq, Eq)]
pub struct LogFiles {
    /// One has more bytes than a close leaves.
    pub is_long: bool,
    /// One has, and the log that was left begins with no batch, so that a close cuts neither that one nor all of the other.
    pub is_bare: bool,
}

/// What the files of the logs are of a store that is to be opened. It only reads: the two lengths, and where one is long the beginnings.
///
/// Refused `Device`.
#[tactic(auto, using(crate::proofs::Synced::reads_synced))]
pub fn look_at_logs<D: Disk>(disk: &mut D) -> Result<LogFiles, Fault>
    requires working { D.failed disk.old ≡ false }
    ensures reads { Reads D.Disk disk.old disk.new }
    ensures synced { IsSynced D.Disk disk.old → IsSynced D.Disk disk.new }
    ensures long { IfOk result (λ found. D.tells → IsTrue found.is_long ↔ HasLong (D.seen disk.old)) }
    ensures causes { IfErr result (λ e. e ≡ Device) }
    ensures device { result ≡ Err Device ↔ (D.failed disk.new ≡ true) }
{
    let log = disk.len(FileId::Log)?;
    let other = disk.len(FileId::Log2)?;
    if log <= MOST && other <= MOST {
        return Ok(LogFiles {
            is_long: false,
            is_bare: false,
        });
    }
    let is_bare = is_left_bare(disk)?;
    Ok(LogFiles {
        is_long: true,
        is_bare,
    })
}

// Whether the log of the lower generation is not made, or begins with no batch.
#[tactic(auto, using(crate::proofs::Synced::reads_synced))]
fn is_left_bare<D: Disk>(disk: &mut D) -> Result<bool, Fault>
    requires working { D.failed disk.old ≡ false }
    ensures reads { Reads D.Disk disk.old disk.new }
    ensures synced { IsSynced D.Disk disk.old → IsSynced D.Disk disk.new }
    ensures causes { IfErr result (λ e. e ≡ Device) }
    ensures device { result ≡ Err Device ↔ (D.failed disk.new ≡ true) }
{
    let log = generation_of(disk, FileId::Log)?;
    let other = generation_of(disk, FileId::Log2)?;
    if log < other {
        is_bare(disk, FileId::Log)
    } else {
        is_bare(disk, FileId::Log2)
    }
}

// The generation of a log, 0 of one that is not made, or is none.
#[tactic(auto, using(crate::proofs::Synced::reads_synced))]
fn generation_of<D: Disk>(disk: &mut D, file: FileId) -> Result<u64, Fault>
    requires working { D.failed disk.old ≡ false }
    ensures reads { Reads D.Disk disk.old disk.new }
    ensures synced { IsSynced D.Disk disk.old → IsSynced D.Disk disk.new }
    ensures causes { IfErr result (λ e. e ≡ Device) }
    ensures device { result ≡ Err Device ↔ (D.failed disk.new ≡ true) }
{
    match read_header(disk, file) {
        Ok(Some(start)) => Ok(start.header.generation),
        Err(Fault::Device) => Err(Fault::Device),
        Ok(None) | Err(_) => Ok(0),
    }
}

// Whether a log is not made, or its first gate is closed.
#[tactic(auto, using(crate::proofs::Synced::reads_synced))]
fn is_bare<D: Disk>(disk: &mut D, file: FileId) -> Result<bool, Fault>
    requires working { D.failed disk.old ≡ false }
    ensures reads { Reads D.Disk disk.old disk.new }
    ensures synced { IsSynced D.Disk disk.old → IsSynced D.Disk disk.new }
    ensures causes { IfErr result (λ e. e ≡ Device) }
    ensures device { result ≡ Err Device ↔ (D.failed disk.new ≡ true) }
{
    let start = match read_header(disk, file) {
        Ok(Some(start)) => start,
        Err(Fault::Device) => return Err(Fault::Device),
        Ok(None) | Err(_) => return Ok(true),
    };
    let mut gate = [0; 1];
    disk.read(file, start.first_gate, &mut gate)?;
    Ok(gate[0] != 1)
}
