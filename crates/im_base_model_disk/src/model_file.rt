//! One file of the model disk.
ghost use Rattle.std.specs.Prelude.{◌≡◌, ◌+◌, ◌<◌, ◌≤◌, ◌⊎◌, [], length, OnOk, OnErr, vec_capacity};
ghost use Rattle.im_base_disk.specs.Disk.{Holds};
ghost use Rattle.im_base_model_disk.specs.ModelFile.{Keeps};

use std::alloc::AllocError;

/// A file in memory, and what of it a stop leaves as it reads.
#[derive(Drop)]
pub struct ModelFile {
    /// The bytes that a read gives.
    pub(crate) bytes: Vec<u8>,
    /// The length at the last successful sync.
    pub(crate) synced: usize,
    /// The place and length of each write since then, whether it failed or not.
    pub(crate) written: Vec<(usize, usize)>,
    ghost synced_within: { synced ≤ length bytes.items },
    ghost all_synced: { written.items ≡ [] → synced ≡ length bytes.items },
}

impl ModelFile {
    ghost use Rattle.im_base_model_disk.specs.Written.{IsWritten, IsRefused, IsSyncedFrom};

    /// All of it is on the disk.
    pub(crate) fn new(bytes: Vec<u8>) -> ModelFile
        ensures bytes { result.bytes.items ≡ bytes.items }
        ensures synced { result.synced ≡ length bytes.items }
        ensures written { result.written.items ≡ [] }
    {
        let len = bytes.len();
        let written = Vec::new(*bytes.allocator());
        ModelFile {
            bytes,
            synced: len,
            written,
        }
    }

    /// Writes over what is there and past the end, and notes the range. Where memory is refused, it does neither.
    pub(crate) fn write_at(&mut self, at: usize, bytes: &[u8]) -> Result<(), AllocError>
        requires { at ≤ length self.old.bytes.items }
        ensures ok { OnOk result (IsWritten at bytes.now self.old self.new) }
        ensures refused { OnErr result (IsRefused at (length bytes.now) self.old self.new) }
        ensures outcome { IsWritten at bytes.now self.old self.new ⊎ IsRefused at (length bytes.now) self.old self.new }
        ensures bytes { Keeps at (length bytes.now) self.old.bytes.items self.new.bytes.items }
    {
        let end = at.checked_add(bytes.len()).ok_or(AllocError)?;
        self.written.push((at, bytes.len()))?;
        if overwrite(&mut self.bytes, at, end, bytes).is_err() {
            self.written.pop();
            return Err(AllocError);
        }
        Ok(())
    }

    /// All of it is on the disk from now on.
    pub(crate) fn sync(&mut self)
        ensures { IsSyncedFrom self.old self.new }
    {
        self.written.clear();
        self.synced = self.bytes.len();
    }
}

fn overwrite(file: &mut Vec<u8>, at: usize, end: usize, bytes: &[u8]) -> Result<(), AllocError>
    requires place { at ≤ length file.old.items }
    requires end { end ≡ at + length bytes.now }
    ensures ok { OnOk result (Holds at bytes.now file.old.items file.new.items) }
    ensures refused { OnErr result (file.new.items ≡ file.old.items) }
    ensures short { OnErr result (vec_capacity file.old < at + length bytes.now) }
    ensures bytes { Keeps at (length bytes.now) file.old.items file.new.items }
{
    if end > file.len() {
        file.resize(end, 0)?;
    }
    file[at..end].copy_from_slice(bytes);
    Ok(())
}
