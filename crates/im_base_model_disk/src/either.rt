//! A write and a sync of one of the files of a model disk.
ghost use Rattle.std.specs.Prelude.{◌≡◌, ◌≢◌, ◌≤◌, length, OnOk, OnErr};
ghost use Rattle.im_base_types.specs.declared.file_id.FileId.{FileId};
ghost use Rattle.im_base_disk.specs.Disk.{Files, three, Only, Follows, InFile, Torn};
ghost use Rattle.im_base_model_disk.specs.Past.{MayLeave, either};
ghost use Rattle.im_base_model_disk.specs.Written.{IsWritten, IsRefused, IsSyncedFrom};

use crate::ModelFile;
use im_base_types::FileId;
use std::alloc::AllocError;

pub(crate) fn write_either(
    log: &mut ModelFile,
    pages: &mut ModelFile,
    log2: &mut ModelFile,
    file: FileId,
    at: usize,
    bytes: &[u8],
) -> Result<(), AllocError>
    requires { at ≤ length (either log.old pages.old log2.old file).bytes.items }
    ensures ok { OnOk result (IsWritten at bytes.now (either log.old pages.old log2.old file) (either log.new pages.new log2.new file)) }
    ensures refused { OnErr result (IsRefused at (length bytes.now) (either log.old pages.old log2.old file) (either log.new pages.new log2.new file)) }
    ensures others { (other : FileId) → other ≢ file → either log.new pages.new log2.new other ≡ either log.old pages.old log2.old other }
    ensures crash { Follows (InFile file (Torn at (length bytes.now))) (MayLeave log.old pages.old log2.old) (MayLeave log.new pages.new log2.new) }
{
    match file {
        FileId::Log => log.write_at(at, bytes),
        FileId::Pages => pages.write_at(at, bytes),
        FileId::Log2 => log2.write_at(at, bytes),
    }
}

pub(crate) fn sync_either(
    log: &mut ModelFile,
    pages: &mut ModelFile,
    log2: &mut ModelFile,
    file: FileId,
)
    ensures synced { IsSyncedFrom (either log.old pages.old log2.old file) (either log.new pages.new log2.new file) }
    ensures others { (other : FileId) → other ≢ file → either log.new pages.new log2.new other ≡ either log.old pages.old log2.old other }
    ensures seen { three log.new.bytes.items pages.new.bytes.items log2.new.bytes.items ≡ three log.old.bytes.items pages.old.bytes.items log2.old.bytes.items }
    ensures durable { Only file (three log.old.bytes.items pages.old.bytes.items log2.old.bytes.items) (MayLeave log.new pages.new log2.new) }
    ensures crash { (c : Files) → MayLeave log.new pages.new log2.new c → MayLeave log.old pages.old log2.old c }
{
    match file {
        FileId::Log => log.sync(),
        FileId::Pages => pages.sync(),
        FileId::Log2 => log2.sync(),
    }
}
