//! A copy of a store that is open, in a folder of its own.

ghost use Rattle.std.specs.Prelude.{◌≡◌, length, Err, IfErr, IfSome, OnOk};
ghost use Rattle.im_open.specs.Copied.{HasBegun, HasEnded, IsCopiedHere, IsNotBegun, IsNotCopied, IsNotEnded, OnlyItsDisk, WasCopied, WasPieceRefused};
ghost use Rattle.im_open.specs.Folders.{HasNames, IsNamed};

use crate::folder::Folder;
use crate::open_folder::FilesOf;
use im_base_disk::Disk;
use im_base_mirror_disk::Piece;
use im_base_two_logs::Renamed;
use im_base_types::Fault;
use im_files_disk::OpenError;
use im_store::OpenStore;
use std::alloc::Global;
use thiserror::Error;

/// So many bytes are copied at once.
const PIECE: usize = 262_144;

/// Why there is no copy. The store goes on, but where it says that it has failed.
#[derive(Debug, Drop, Error)]
pub enum NotCopied {
    /// The files of the copy were not made, or did not get their names.
    #[error("{0}")]
    Files(OpenError),
    /// The store has failed, by this call or an earlier one.
    #[error("{0}")]
    Store(Fault),
    /// A call of the system on the files of the copy failed, or something was left to be copied. What was written stays in its folder, which no opening takes.
    #[error("the copy was not finished")]
    Unfinished,
    /// There is no memory for a piece.
    #[error("out of memory")]
    Memory,
}

/// Copies a store into a folder that is not there, or is empty: each commit that was acknowledged is in the copy, of the others a front, each whole. Steps are made
/// between no pieces of it; `begin_copy`, `OpenStore::copy_piece` and `end_copy` are for who makes some.
pub fn copy<F: Folder>(
    rt: &HostRuntime,
    store: &mut OpenStore<FilesOf<F>>,
    folder: &str,
) -> Result<(), NotCopied>
    ensures only { OnlyItsDisk ⟦<FilesOf<F> as Disk>⟧ store.old store.new }
    ensures copied { OnOk result (IsCopiedHere ⟦<Renamed<F> as Disk>⟧ ⟦<Renamed<F> as Disk>⟧ ⟦<FilesOf<F> as Disk>⟧ (IsNamed F.makes folder.now) (HasNames F.names folder.now) store.old.engine store.new.engine) }
    ensures refused { IfErr result (IsNotCopied ⟦<Renamed<F> as Disk>⟧ ⟦<Renamed<F> as Disk>⟧ ⟦<FilesOf<F> as Disk>⟧ (IsNamed F.makes folder.now) (λ error. F.makes folder.now (Err error)) (λ to error. F.names folder.now to.disk (Err error)) store.old.engine store.new.engine) }
{
    if let Err(error) = begin_copy(rt, store, folder) {
        return Err(error);
    }
    let Some(mut room) = room_in(rt.alloc()) else {
        return Err(NotCopied::Memory);
    };
    if let Err(fault) = copy_pieces(store, &mut room) {
        return Err(NotCopied::Store(fault));
    }
    end_copy(rt, store, folder)
}

// Room for a piece.
fn room_in(alloc: Global) -> Option<Vec<u8>>
    ensures { IfSome result (λ room. length room.items ≡ 262144) }
{
    match vec![in alloc; 0; PIECE] {
        Ok(room) => Some(room),
        Err(_) => None,
    }
}

/// Makes the files of a copy in a folder that is not there, or is empty, and begins the copy. One that was under way is let go. Refused as `FileDisk::create_copy` is.
pub fn begin_copy<F: Folder>(
    rt: &HostRuntime,
    store: &mut OpenStore<FilesOf<F>>,
    folder: &str,
) -> Result<(), NotCopied>
    ensures only { OnlyItsDisk ⟦<FilesOf<F> as Disk>⟧ store.old store.new }
    ensures begun { OnOk result (HasBegun ⟦<Renamed<F> as Disk>⟧ ⟦<Renamed<F> as Disk>⟧ ⟦<FilesOf<F> as Disk>⟧ (IsNamed F.makes folder.now) store.old.engine store.new.engine) }
    ensures none { IfErr result (λ _. store.new ≡ store.old) }
    ensures refused { IfErr result (IsNotBegun ⟦<Renamed<F> as Disk>⟧ ⟦<Renamed<F> as Disk>⟧ ⟦<FilesOf<F> as Disk>⟧ (λ error. F.makes folder.now (Err error))) }
{
    match F::make_in(rt, folder) {
        Ok(disk) => {
            store.begin_copy(Renamed::new(disk, false));
            Ok(())
        }
        Err(error) => Err(NotCopied::Files(error)),
    }
}

/// Copies pieces of a copy that was begun, of as many bytes as there is room for, which should be some, until nothing is left. Steps are made between none.
///
/// Refused as `OpenStore::copy_piece` is.
pub fn copy_pieces<F: Folder>(
    store: &mut OpenStore<FilesOf<F>>,
    room: &mut [u8],
) -> Result<(), Fault>
    ensures only { OnlyItsDisk ⟦<FilesOf<F> as Disk>⟧ store.old store.new }
    ensures copied { OnOk result (WasCopied ⟦<Renamed<F> as Disk>⟧ ⟦<Renamed<F> as Disk>⟧ ⟦<FilesOf<F> as Disk>⟧ (length room.old) store.old.engine store.new.engine) }
    ensures refused { IfErr result (WasPieceRefused ⟦<Renamed<F> as Disk>⟧ ⟦<Renamed<F> as Disk>⟧ ⟦<FilesOf<F> as Disk>⟧ (length room.old) store.old.engine store.new.engine) }
{
    for _count in 0..u64::MAX {
        match store.copy_piece(room) {
            Ok(Piece::More) => {}
            Ok(Piece::Last) => return Ok(()),
            Ok(Piece::None) => return Ok(()),
            Err(fault) => return Err(fault),
        }
    }
    Ok(())
}

/// Ends a copy that was begun into this folder, where nothing is left to be copied, as `OpenStore::copy_piece` says: brings its files to the disk, and gives them their names.
pub fn end_copy<F: Folder>(
    rt: &HostRuntime,
    store: &mut OpenStore<FilesOf<F>>,
    folder: &str,
) -> Result<(), NotCopied>
    ensures only { OnlyItsDisk ⟦<FilesOf<F> as Disk>⟧ store.old store.new }
    ensures ended { OnOk result (HasEnded ⟦<Renamed<F> as Disk>⟧ ⟦<Renamed<F> as Disk>⟧ ⟦<FilesOf<F> as Disk>⟧ (HasNames F.names folder.now) store.old.engine store.new.engine) }
    ensures refused { IfErr result (IsNotEnded ⟦<Renamed<F> as Disk>⟧ ⟦<Renamed<F> as Disk>⟧ ⟦<FilesOf<F> as Disk>⟧ (λ to error. F.names folder.now to.disk (Err error)) store.old.engine store.new.engine) }
{
    match store.end_copy() {
        Ok(Some(copy)) => match copy.into_disk().name_in(rt, folder) {
            Ok(_named) => Ok(()),
            Err(error) => Err(NotCopied::Files(error)),
        },
        Ok(None) => Err(NotCopied::Unfinished),
        Err(fault) => Err(NotCopied::Store(fault)),
    }
}
