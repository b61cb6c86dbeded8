//! The disk, and its copy.
ghost use Rattle.std.specs.Prelude.{◌≡◌, ◌↔◌, ◌⊎◌, ◌<◌, ◌≤◌, ◌+◌, [], true, false, length, IfSome, IfOk, IfErr, OnOk, Ok, Err, Some, None};
ghost use Rattle.std.specs.Option.{ForSome};
ghost use Rattle.im_base_types.specs.declared.fault.Fault.TheVariants.{Device};
ghost use Rattle.im_base_types.specs.declared.file_id.FileId.{FileId};
ghost use Rattle.im_base_disk.specs.Disk.{Answers};
ghost use Rattle.im_base_disk.specs.Runs.{IsSynced};
ghost use Rattle.im_base_mirror_disk.specs.Marks.{mark_of};
ghost use Rattle.im_base_mirror_disk.specs.Copies.{HasFailed, HasLengths, IsFront, IsFurther, IsLeft, IsWhole};

use crate::follow::follow;
use crate::marks::Marks;
use crate::piece::Piece;
use im_base_disk::{Count, Disk};
use im_base_two_logs::TwoLogs;
use im_base_types::{Fault, FileId};

/// A disk, and the copy of it that is under way.
#[derive(Drop)]
pub struct Mirrored<D: Disk, T: Disk + Drop> {
    disk: D,
    // The last call of the disk failed: there is no other.
    lost: bool,
    // The last call that was answered failed. A piece is no such call: whoever works with this disk is told by the next one.
    has_failed: bool,
    writes: Count,
    syncs: Count,
    copy: Option<T>,
    marks: Marks,
    ghost known: { D.failed disk ≡ lost },
    ghost own: { has_failed ≡ true → D.failed disk ≡ true },
    ghost works: { ForSome copy (λ t. T.failed t ≡ false) },
    ghost long: { ForSome copy (λ t. T.tells → HasLengths marks (T.seen t)) },
    ghost front: { ForSome copy (λ t. T.tells → D.tells → D.failed disk ≡ false → IsFront marks (D.seen disk) (T.seen t)) },
}

impl<D: Disk, T: Disk + Drop> Mirrored<D, T> {
    ghost use Rattle.im_base_mirror_disk.specs.Pieces.{IsHandedOut, IsPieceOf, ReadsStore, StaysOrEnds};

    /// A disk of which no copy is under way.
    pub fn new(disk: D) -> Mirrored<D, T>
        requires working { D.failed disk ≡ false }
        ensures disk { result.disk ≡ disk }
        ensures copy { result.copy ≡ None }
        ensures working { result.has_failed ≡ false }
    {
        Mirrored {
            disk,
            lost: false,
            has_failed: false,
            writes: Count::new(),
            syncs: Count::new(),
            copy: None,
            marks: Marks::none(),
        }
    }

    /// The disk below, for reading.
    pub fn disk(&self) -> &D
        ensures { result.now ≡ self.now.disk }
    {
        &self.disk
    }

    /// Whether the last call of the disk below failed, be it one that a piece made.
    pub fn has_lost(&self) -> bool
        ensures { result ≡ D.failed self.now.disk }
    {
        self.lost
    }

    /// The disk below. A copy that is under way is let go.
    pub fn into_disk(self) -> D
        ensures { result ≡ self.disk }
    {
        let Mirrored {
            disk,
            lost: _lost,
            has_failed: _has_failed,
            writes: _writes,
            syncs: _syncs,
            copy: _copy,
            marks: _marks,
        } = self;
        disk
    }

    /// Begins a copy into files without bytes. One that was under way is let go.
    pub fn begin(&mut self, to: T)
        requires working { T.failed to ≡ false }
        requires empty { T.tells → (file : FileId) → T.seen to file ≡ [] }
        ensures disk { self.new.disk ≡ self.old.disk }
        ensures failed { self.new.has_failed ≡ self.old.has_failed }
        ensures counts { (self.new.writes ≡ self.old.writes) × (self.new.syncs ≡ self.old.syncs) }
        ensures copy { self.new.copy ≡ Some to }
        ensures marks { (file : FileId) → mark_of self.new.marks file ≡ 0 }
    {
        let Mirrored { copy, marks, .. } = self;
        *marks = Marks::none();
        *copy = Some(to);
    }

    /// Copies the next bytes of a file, as many as there is room for. Where a call of the copy's disk fails, the copy is let go.
    ///
    /// Refused `Device` where a call of the disk itself failed, this one or an earlier one. Whoever works with this disk is told by its next call.
    pub fn piece(&mut self, file: FileId, room: &mut [u8]) -> Result<Piece, Fault>
        ensures store { ReadsStore D.Disk T.Disk self.old self.new }
        ensures piece { IsPieceOf D.Disk T.Disk self.old self.new file (length room.old) result }
        ensures device { IfErr result (λ e. (e ≡ Device) × (D.failed self.new.disk ≡ true)) }
    {
        let Mirrored {
            disk,
            lost,
            copy,
            marks,
            ..
        } = self;
        if *lost {
            return Err(Fault::Device);
        }
        if copy.is_none() {
            return Ok(Piece::None);
        }
        *lost = true;
        let mark = marks.of(file);
        let len = disk.len(file)?;
        if len <= mark {
            *lost = false;
            return Ok(Piece::Last);
        }
        let size = room
            .len()
            .min(usize::try_from(len - mark).unwrap_or(usize::MAX));
        let part = &mut room[..size];
        disk.read(file, mark, part)?;
        *lost = false;
        let now = follow(copy, mark, file, mark, part);
        *marks = marks.with(file, now);
        Ok(Piece::More)
    }

    /// Copies the next bytes of the first file of which some are left, as `piece` does: of the pages, then of the logs. `Last` where nothing of any file is left.
    pub fn next_piece(&mut self, room: &mut [u8]) -> Result<Piece, Fault>
        ensures store { ReadsStore D.Disk T.Disk self.old self.new }
        ensures none { result ≡ Ok Piece.None → self.old.copy ≡ None }
        ensures ends { StaysOrEnds D.Disk T.Disk self.old self.new result }
        ensures more { result ≡ Ok Piece.More → ForSome self.new.copy (λ t. D.tells → IsFurther (length room.old) (D.seen self.old.disk) self.old.marks self.new.marks) }
        ensures gone { result ≡ Ok Piece.More → self.new.copy ≡ None → HasFailed T.Disk }
        ensures device { IfErr result (λ e. (e ≡ Device) × (D.failed self.new.disk ≡ true)) }
    {
        let pages = self.piece(FileId::Pages, room)?;
        if pages != Piece::Last {
            return Ok(pages);
        }
        let log = self.piece(FileId::Log, room)?;
        if log != Piece::Last {
            return Ok(log);
        }
        self.piece(FileId::Log2, room)
    }

    // Whether all of a file is copied.
    fn is_whole(&mut self, file: FileId) -> Result<bool, Fault>
        ensures store { ReadsStore D.Disk T.Disk self.old self.new }
        ensures whole { IfOk result (λ is. D.tells → (is ≡ true ↔ mark_of self.old.marks file ≡ length (D.seen self.old.disk file))) }
        ensures same { (self.new.copy ≡ self.old.copy) × (self.new.marks ≡ self.old.marks) }
        ensures device { IfErr result (λ e. (e ≡ Device) × (D.failed self.new.disk ≡ true)) }
        ensures working { OnOk result (D.failed self.new.disk ≡ false) }
    {
        let Mirrored {
            disk,
            lost,
            marks,
            ..
        } = self;
        if *lost {
            return Err(Fault::Device);
        }
        *lost = true;
        let len = disk.len(file)?;
        *lost = false;
        Ok(len == marks.of(file))
    }

    // Whether all of each file is copied.
    fn is_all(&mut self) -> Result<bool, Fault>
        ensures store { ReadsStore D.Disk T.Disk self.old self.new }
        ensures whole { IfOk result (λ is. D.tells → (is ≡ true ↔ IsWhole self.old.marks (D.seen self.old.disk))) }
        ensures same { (self.new.copy ≡ self.old.copy) × (self.new.marks ≡ self.old.marks) }
        ensures device { IfErr result (λ e. (e ≡ Device) × (D.failed self.new.disk ≡ true)) }
        ensures working { OnOk result (D.failed self.new.disk ≡ false) }
    {
        let log = self.is_whole(FileId::Log)?;
        let pages = self.is_whole(FileId::Pages)?;
        let log2 = self.is_whole(FileId::Log2)?;
        Ok(log && pages && log2)
    }

    /// Ends the copy, where all of each file is copied: then a read of it gives what a read of the disk gives, so that a stop of the disk now might have
    /// left just these files. All of it is brought to its disk. `None` where something is left to be copied, or there is no copy, or a sync of it failed: then it is let go.
    ///
    /// Refused `Device` where a call of the disk itself failed, this one or an earlier one. Whoever works with this disk is told by its next call.
    pub fn finish(&mut self) -> Result<Option<T>, Fault>
        ensures store { ReadsStore D.Disk T.Disk self.old self.new }
        ensures copied { IfOk result (λ o. IfSome o (λ t. T.tells → D.tells → (file : FileId) → T.seen t file ≡ D.seen self.new.disk file)) }
        ensures synced { IfOk result (λ o. IfSome o (λ t. IsSynced T.Disk t)) }
        ensures handed { IfOk result (λ o. IfSome o (λ t. IsHandedOut D.Disk T.Disk self.old self.new t)) }
        ensures none { result ≡ Ok None → (self.old.copy ≡ None) ⊎ ((self.new.copy ≡ self.old.copy) × (D.tells → IsLeft self.old.marks (D.seen self.old.disk))) ⊎ ((self.new.copy ≡ None) × HasFailed T.Disk) }
        ensures device { IfErr result (λ e. (e ≡ Device) × (D.failed self.new.disk ≡ true)) }
    {
        if !self.is_all()? {
            return Ok(None);
        }
        let Mirrored { copy, .. } = self;
        let Some(mut to) = copy.take() else {
            return Ok(None);
        };
        match sync_all(&mut to) {
            Ok(()) => Ok(Some(to)),
            Err(_) => Ok(None),
        }
    }
}

// Brings the three files of a copy to its disk.
fn sync_all<T: Disk>(to: &mut T) -> Result<(), Fault>
    requires working { T.failed to.old ≡ false }
    ensures synced { OnOk result (IsSynced T.Disk to.new) }
    ensures seen { T.seen to.new ≡ T.seen to.old }
    ensures working { OnOk result (T.failed to.new ≡ false) }
    ensures failing { IfErr result (λ _. T.failed to.new ≡ true) }
{
    to.sync(FileId::Log)?;
    to.sync(FileId::Pages)?;
    to.sync(FileId::Log2)
}

impl<D: Disk, T: Disk + Drop> Disk for Mirrored<D, T> {
    ghost tells = { D.tells };

    ghost sums = { D.sums };

    ghost seen = { λ d. D.seen d.disk };

    ghost may_leave = { λ d c. D.may_leave d.disk c };

    ghost moment = { λ d. D.moment d.disk };

    ghost left_since = { λ d t c. D.left_since d.disk t c };

    ghost failed = { λ d. d.has_failed };

    ghost writes = { λ d. d.writes.count };

    ghost syncs = { λ d. d.syncs.count };

    ghost counts_now = { λ d t c le now. D.counts_now d.disk t c le now };

    ghost only_now = { λ d c left. D.only_now d.disk c left };

    ghost seen_may_stay = { λ d told. D.seen_may_stay d.disk told };

    fn keeps_sums(&self) -> bool {
        self.disk.keeps_sums()
    }

    fn len(&mut self, file: FileId) -> Result<u64, Fault> {
        let Mirrored {
            disk,
            lost,
            has_failed,
            ..
        } = self;
        *has_failed = true;
        if *lost {
            return Err(Fault::Device);
        }
        *lost = true;
        let len = disk.len(file)?;
        *lost = false;
        *has_failed = false;
        Ok(len)
    }

    fn read(&mut self, file: FileId, at: u64, buf: &mut [u8]) -> Result<(), Fault> {
        let Mirrored {
            disk,
            lost,
            has_failed,
            ..
        } = self;
        *has_failed = true;
        if *lost {
            return Err(Fault::Device);
        }
        *lost = true;
        disk.read(file, at, buf)?;
        *lost = false;
        *has_failed = false;
        Ok(())
    }

    fn write_at(&mut self, file: FileId, at: u64, bytes: &[u8]) -> Result<(), Fault> {
        let Mirrored {
            disk,
            lost,
            has_failed,
            writes,
            copy,
            marks,
            ..
        } = self;
        *writes = writes.with_one_more();
        *has_failed = true;
        if *lost {
            return Err(Fault::Device);
        }
        *lost = true;
        disk.write_at(file, at, bytes)?;
        *lost = false;
        *has_failed = false;
        let mark = follow(copy, marks.of(file), file, at, bytes);
        *marks = marks.with(file, mark);
        Ok(())
    }

    fn sync(&mut self, file: FileId) -> Result<(), Fault> {
        let Mirrored {
            disk,
            lost,
            has_failed,
            syncs,
            ..
        } = self;
        *syncs = syncs.with_one_more();
        *has_failed = true;
        if *lost {
            return Err(Fault::Device);
        }
        *lost = true;
        disk.sync(file)?;
        *lost = false;
        *has_failed = false;
        Ok(())
    }
}

impl<D: TwoLogs, T: TwoLogs + Drop> TwoLogs for Mirrored<D, T> {
    fn swap_logs(&mut self) {
        let Mirrored {
            disk,
            copy,
            marks,
            ..
        } = self;
        disk.swap_logs();
        if let Some(to) = copy {
            to.swap_logs();
        }
        *marks = marks.swapped();
    }
}
