//! A disk made of two.

ghost use Rattle.std.specs.Prelude.{◌≡◌, false, IfOk};
ghost use Rattle.im_base_disk.specs.Runs.{IsSynced};
ghost use Rattle.im_tool_every.specs.Stopped.{AreTornOf};
ghost use Rattle.im_tool_every.specs.Torn.{IsTornOf};

use im_base_disk::Disk;
use im_base_model_disk::ModelDisk;
use im_base_types::FileId;
use std::alloc::{AllocError, Global};

/// The first of two disks, with single bytes of the second: at each third place that both have, from the first one on. All of it is synced.
pub fn torn(alloc: Global, filled: ModelDisk, written: ModelDisk) -> Result<ModelDisk, AllocError>
    requires filled { ⟦<ModelDisk as Disk>⟧.failed filled ≡ false }
    requires written { ⟦<ModelDisk as Disk>⟧.failed written ≡ false }
    ensures working { IfOk result (λ next. ⟦<ModelDisk as Disk>⟧.failed next ≡ false) }
    ensures synced { IfOk result (λ next. IsSynced ⟦<ModelDisk as Disk>⟧ next) }
    ensures torn { IfOk result (λ next. AreTornOf ⟦<ModelDisk as Disk>⟧ filled written next) }
{
    let mut filled = filled;
    let mut written = written;
    let log = torn_file(alloc, &mut filled, &mut written, FileId::Log)?;
    let pages = torn_file(alloc, &mut filled, &mut written, FileId::Pages)?;
    let log2 = torn_file(alloc, &mut filled, &mut written, FileId::Log2)?;
    Ok(ModelDisk::with_log2(log, pages, log2))
}

/// The bytes of one file of such a disk: at each place that of one of the two.
pub fn torn_file<D: Disk>(
    alloc: Global,
    filled: &mut D,
    written: &mut D,
    file: FileId,
) -> Result<Vec<u8>, AllocError>
    requires filled { D.failed filled.old ≡ false }
    requires written { D.failed written.old ≡ false }
    ensures filled_works { IfOk result (λ bytes. D.failed filled.new ≡ false) }
    ensures written_works { IfOk result (λ bytes. D.failed written.new ≡ false) }
    ensures filled_stays { D.seen filled.new ≡ D.seen filled.old }
    ensures written_stays { D.seen written.new ≡ D.seen written.old }
    ensures torn { IfOk result (λ bytes. D.tells → IsTornOf (D.seen filled.old file) (D.seen written.old file) bytes.items) }
{
    let mut bytes = bytes_of(alloc, filled, file)?;
    let others = bytes_of(alloc, written, file)?;
    take_single(&mut bytes, &others);
    Ok(bytes)
}

/// The bytes of a file.
pub fn bytes_of<D: Disk>(alloc: Global, disk: &mut D, file: FileId) -> Result<Vec<u8>, AllocError>
    requires working { D.failed disk.old ≡ false }
    ensures works { IfOk result (λ bytes. D.failed disk.new ≡ false) }
    ensures stays { D.seen disk.new ≡ D.seen disk.old }
    ensures bytes { IfOk result (λ bytes. D.tells → bytes.items ≡ D.seen disk.old file) }
{
    let Ok(len) = disk.len(file) else {
        return Err(AllocError);
    };
    let mut bytes = vec![in alloc; 0; len as usize]?;
    match disk.read(file, 0, &mut bytes) {
        Ok(()) => Ok(bytes),
        Err(_) => Err(AllocError),
    }
}

// Each third of the others, from the first one on.
fn take_single(bytes: &mut [u8], others: &[u8])
    ensures { IsTornOf bytes.old others.now bytes.new }
{
    for place in 0..bytes.len() {
        if place % 3 == 0 && place < others.len() {
            bytes[place] = others[place];
        }
    }
}
