//! The files of a folder, with a line that tells how far an opening has read the log.
ghost use Rattle.std.specs.Prelude.{◌≡◌, [], false};

use crate::causes::{Cause, Causes};
use crate::ending::{Ending, cut_logs};
use crate::progress::{Progress, ProgressLine};
use im_base_disk::Disk;
use im_base_mirror_disk::Mirrored;
use im_base_model_disk::ModelDisk;
use im_base_two_logs::Renamed;
use im_base_types::{Fault, FileId};
use im_files_disk::{DiskError, FileDisk};
use im_files_scratch_disk::ScratchDisk;
use std::cell::Cell;
use std::io::{IsTerminal, Write};

const MIB: u64 = 1_048_576;

/// How much of the log is read between one word of it and the next.
const A_PIECE: u64 = 4 * MIB;

/// A disk that may tell how far an opening is.
pub trait Opening {
    /// The opening is done: nothing more is told of it.
    fn is_done(&self);
}

impl Opening for FileDisk {
    fn is_done(&self) {}
}

impl Opening for ModelDisk {
    fn is_done(&self) {}
}

impl<D: Disk + Opening> Opening for Renamed<D> {
    fn is_done(&self) {
        self.disk().is_done();
    }
}

impl<D: Disk + Opening, T: Disk + Drop> Opening for Mirrored<D, T> {
    fn is_done(&self) {
        self.disk().is_done();
    }
}

impl<D: Disk + Opening + Drop> Opening for ScratchDisk<D> {
    fn is_done(&self) {
        if let Some(base) = self.base() {
            base.is_done();
        }
    }
}

/// The files of a folder. Until the opening is done each few MiB that are read of a log are told.
#[derive(Drop)]
pub struct WatchedDisk<'a, W> {
    files: FileDisk,
    line: ProgressLine<'a, W, HostRuntime>,
    rt: &'a HostRuntime,
    is_opening: Cell<bool>,
    // How many bytes were read of a log since they were told last.
    read: u64,
    // How long the file is that was asked for last.
    length: u64,
}

impl<'a, W: Write> WatchedDisk<'a, W> {
    /// Nothing was read. What is told goes to the writer, where standard error is a terminal.
    pub fn new(files: FileDisk, writer: W, rt: &'a HostRuntime) -> WatchedDisk<'a, W>
        ensures { ⟦<WatchedDisk<'a, W> as Disk>⟧.failed result ≡ ⟦<FileDisk as Disk>⟧.failed files }
    {
        let is_shown = rt.stderr().is_terminal();
        WatchedDisk {
            files,
            line: ProgressLine::new(writer, is_shown, "MiB of log read", rt),
            rt,
            is_opening: Cell::new(true),
            read: 0,
            length: 0,
        }
    }

    // Tells how much of a log is read up to a place, where that is much since it was told last.
    fn tell(&mut self, file: FileId, at: u64, size: u64)
        ensures files { self.new.files ≡ self.old.files }
    {
        if matches!(file, FileId::Pages) || !self.is_opening.get() {
            return;
        }
        self.read = self.read.saturating_add(size);
        if self.read >= A_PIECE {
            self.read = 0;
            let done = at.saturating_add(size) / MIB;
            let all = self.length / MIB;
            self.line.show(done.min(all), Some(all));
        }
    }
}

impl<W: Write> Opening for WatchedDisk<'_, W> {
    fn is_done(&self) {
        if self.is_opening.get() && self.line.has_count() {
            let _ = writeln!(self.rt.stderr());
        }
        self.is_opening.set(false);
    }
}

impl<W> Cause for WatchedDisk<'_, W> {
    fn cause(&self) -> Option<&DiskError> {
        self.files.last_error()
    }
}

impl<W: Write + Drop> Ending for WatchedDisk<'_, W> {
    fn give_back<E: Write>(self, causes: &mut Causes<E>) -> Result<(), Fault> {
        let mut disk = self;
        cut_logs(&mut disk.files, causes)
    }
}

impl<W: Write> Disk for WatchedDisk<'_, W> {
    ghost tells = { ⊥ };

    ghost sums = { ⟦<FileDisk as Disk>⟧.sums };

    ghost seen = { λ _ _. [] };

    ghost may_leave = { λ _ _. ⊥ };

    ghost moment = { λ _. 0 };

    ghost left_since = { λ _ _ _. ⊥ };

    ghost failed = { λ d. ⟦<FileDisk as Disk>⟧.failed d.files };

    ghost writes = { λ d. ⟦<FileDisk as Disk>⟧.writes d.files };

    ghost syncs = { λ d. ⟦<FileDisk as Disk>⟧.syncs d.files };

    ghost counts_now = { λ _ _ _ _ none. none };

    ghost only_now = { λ _ _ none. none };

    ghost seen_may_stay = { λ _ none. absurd none };

    fn keeps_sums(&self) -> bool {
        self.files.keeps_sums()
    }

    fn len(&mut self, file: FileId) -> Result<u64, Fault> {
        let length = self.files.len(file)?;
        self.length = length;
        Ok(length)
    }

    fn read(&mut self, file: FileId, at: u64, buf: &mut [u8]) -> Result<(), Fault> {
        let size = buf.len() as u64;
        let read = self.files.read(file, at, buf);
        self.tell(file, at, size);
        read
    }

    fn write_at(&mut self, file: FileId, at: u64, bytes: &[u8]) -> Result<(), Fault> {
        self.files.write_at(file, at, bytes)
    }

    fn sync(&mut self, file: FileId) -> Result<(), Fault> {
        self.files.sync(file)
    }
}
