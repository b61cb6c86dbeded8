//! How the store of a folder is closed.

ghost use Rattle.im_open.specs.Closed.{IsClosedHere};

use crate::folder::Folder;
use crate::open_folder::FilesOf;
use im_base_disk::Disk;
use im_base_types::Fault;
use im_store::OpenStore;

/// Ends a store as `OpenStore::close` does, and then gives back the room of its logs: the one that it has left is cut to its first batch, the current one, where it has no record, to
/// its end. With nothing active, and a bound of the log, 65,536 bytes of each are left at most. A copy that is under way is let go. What was committed is kept, refused or not.
///
/// Refused as `OpenStore::close` is: then nothing is cut. Else `Device` where a log was not cut: each is as long as it was then, or cut.
pub fn close<F: Folder>(store: OpenStore<FilesOf<F>>) -> Result<(), Fault>
    ensures { IsClosedHere ⟦<FilesOf<F> as Disk>⟧ (λ left. F.cuts left.disk.disk) store result }
{
    let (closed, disk) = store.close();
    match closed {
        Ok(()) => disk.into_disk().into_disk().cut_and_end(),
        Err(fault) => Err(fault),
    }
}
