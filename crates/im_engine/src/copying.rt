//! A copy of a store in use, which its disk makes of itself between the steps.

ghost use Rattle.std.specs.Prelude.{◌≡◌, ◌↔◌, ◌≢◌, ◌⊎◌, ◌≤◌, [], true, false, length, IfSome, IfOk, IfErr, Ok, Err, Some, None};
ghost use Rattle.im_base_types.specs.declared.fault.Fault.TheVariants.{Device, Failed};
ghost use Rattle.im_base_types.specs.declared.file_id.FileId.{FileId};
ghost use Rattle.im_base_mirror_disk.specs.Copies.{HasFailed, IsLeft};
ghost use Rattle.im_base_mirror_disk.specs.Marks.{mark_of};
ghost use Rattle.im_engine.specs.Copied.{CopiesNext, IsCopyOf, IsStill};

use crate::engine::Engine;
use im_base_disk::Disk;
use im_base_mirror_disk::{Mirrored, Piece};
use im_base_types::Fault;

impl<D: Disk, T: Disk + Drop> Engine<Mirrored<D, T>> {
    /// Begins a copy of the store into files without bytes. One that was under way is let go. Steps may be made between the pieces, whichever they are.
    pub fn begin_copy(&mut self, to: T)
        requires working { T.failed to ≡ false }
        requires empty { T.tells → (file : FileId) → T.seen to file ≡ [] }
        ensures still { IsStill ⟦<Mirrored<D, T> as Disk>⟧ self.old self.new }
        ensures begun { self.new.disk.copy ≡ Some to }
    {
        self.disk.begin(to);
    }

    /// Copies the next bytes of the store, as many as there is room for, which should be some. `Piece::More` where some were copied, `Piece::Last` where nothing is
    /// left, `Piece::None` where there is no copy: none was begun, or it was let go, as it is where a call of its disk fails. The store itself is as it was.
    ///
    /// Refused `Failed` where the engine has failed, and `Device` where its own disk failed in a read for a copy: the next step that calls the disk is told so too.
    pub fn copy_piece(&mut self, room: &mut [u8]) -> Result<Piece, Fault>
        ensures still { IsStill ⟦<Mirrored<D, T> as Disk>⟧ self.old self.new }
        ensures none { result ≡ Ok Piece.None → self.old.disk.copy ≡ None }
        ensures last { result ≡ Ok Piece.Last → D.tells → (file : FileId) → length (D.seen self.new.disk.disk file) ≤ mark_of self.new.disk.marks file }
        ensures next { CopiesNext D.Disk T.Disk ⟦<Mirrored<D, T> as Disk>⟧ self.old self.new (length room.old) result }
        ensures failed { result ≡ Err Failed ↔ self.old.failed ≡ true }
        ensures causes { IfErr result (λ e. e ≢ Failed → (e ≡ Device) × (D.failed self.new.disk.disk ≡ true)) }
    {
        if self.failed {
            return Err(Fault::Failed);
        }
        self.disk.next_piece(room)
    }

    /// Ends the copy, where nothing is left: then each file of it reads as this store's does, and all of it is on its disk. So it holds what a stop of this store now
    /// might have left: each Commit that was acknowledged, of the others a front, each whole (`IsCopyOf.allowed`). `None` where something is left, where there is no copy, or
    /// where a sync of it failed: then it is let go.
    ///
    /// Refused as `copy_piece` is.
    pub fn end_copy(&mut self) -> Result<Option<T>, Fault>
        ensures still { IsStill ⟦<Mirrored<D, T> as Disk>⟧ self.old self.new }
        ensures whole { IfOk result (λ o. IfSome o (λ t. IsCopyOf D.Disk T.Disk ⟦<Mirrored<D, T> as Disk>⟧ self.old self.new t)) }
        ensures none { result ≡ Ok None → (self.old.disk.copy ≡ None) ⊎ ((self.new.disk.copy ≡ self.old.disk.copy) × (D.tells → IsLeft self.old.disk.marks (D.seen self.old.disk.disk))) ⊎ ((self.new.disk.copy ≡ None) × HasFailed T.Disk) }
        ensures failed { result ≡ Err Failed ↔ self.old.failed ≡ true }
        ensures causes { IfErr result (λ e. e ≢ Failed → (e ≡ Device) × (D.failed self.new.disk.disk ≡ true)) }
    {
        if self.failed {
            return Err(Fault::Failed);
        }
        self.disk.finish()
    }
}
