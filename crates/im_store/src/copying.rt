//! A copy of a store that is open, between its steps.

ghost use Rattle.std.specs.Prelude.{◌≡◌, [], false, length};
ghost use Rattle.im_base_types.specs.declared.file_id.FileId.{FileId};
ghost use Rattle.im_store.specs.Copies.{IsCopied, IsCopyBegun, IsCopyEnd};

use crate::open_store::OpenStore;
use im_base_disk::Disk;
use im_base_mirror_disk::{Mirrored, Piece};
use im_base_types::Fault;

impl<D: Disk, T: Disk + Drop> OpenStore<Mirrored<D, T>> {
    /// Begins a copy of the store into files without bytes, as `Engine::begin_copy` does. Steps may be made between the pieces, whichever they are.
    pub fn begin_copy(&mut self, to: T)
        requires working { T.failed to ≡ false }
        requires empty { T.tells → (file : FileId) → T.seen to file ≡ [] }
        ensures begun { IsCopyBegun D.Disk T.Disk ⟦<Mirrored<D, T> as Disk>⟧ self.old.engine self.new.engine to }
        ensures upkeep { (self.new.upkeep ≡ self.old.upkeep) × (self.new.unkept ≡ self.old.unkept) }
    {
        self.engine.begin_copy(to);
    }

    /// Copies the next bytes, as many as there is room for, which should be some. `Piece::Last` where nothing is left, and `Piece::None` where there is no copy.
    ///
    /// Refused as `Engine::copy_piece` is.
    pub fn copy_piece(&mut self, room: &mut [u8]) -> Result<Piece, Fault>
        ensures copied { IsCopied D.Disk T.Disk ⟦<Mirrored<D, T> as Disk>⟧ self.old.engine self.new.engine (length room.old) result }
        ensures upkeep { (self.new.upkeep ≡ self.old.upkeep) × (self.new.unkept ≡ self.old.unkept) }
    {
        self.engine.copy_piece(room)
    }

    /// Ends the copy, where nothing is left: then it holds what a stop of this store now might have left. `None` where something is left, where there is no copy, or where
    /// a sync of it failed.
    ///
    /// Refused as `Engine::end_copy` is.
    pub fn end_copy(&mut self) -> Result<Option<T>, Fault>
        ensures ended { IsCopyEnd D.Disk T.Disk ⟦<Mirrored<D, T> as Disk>⟧ self.old.engine self.new.engine result }
        ensures upkeep { (self.new.upkeep ≡ self.old.upkeep) × (self.new.unkept ≡ self.old.unkept) }
    {
        self.engine.end_copy()
    }
}
