//! How the logs of a store that is closed become shorter.
ghost use Rattle.std.specs.Prelude.{◌≡◌, false};
ghost use Rattle.im_base_disk.specs.Disk.{Answers};

use crate::file_disk::{front_of, pages_front_of};
use crate::{DiskCall, FileDisk};
use im_base_disk::Disk;
use im_base_types::{Fault, FileId};
use im_files_belonging::{Folder, LogCuts};
use std::io;

impl FileDisk {
    /// Takes all bytes of a file away that stand at a place or after it, and brings that to the disk. No step of a store does that: it is for a log of which
    /// its store, which is closed, has no use.
    ///
    /// Refused `Device`.
    pub fn cut(&mut self, file: FileId, end: u64) -> Result<(), Fault>
        requires working { ⟦<FileDisk as Disk>⟧.failed self.old ≡ false }
        ensures answers { Answers (⟦<FileDisk as Disk>⟧.failed self.new) result }
    {
        let outcome = self.shorten(file, end);
        self.keep(DiskCall::Cut(end), file, outcome)
    }

    /// What may be cut of the logs of the store of these files, by their beginnings as they are now (`im_files_belonging`).
    ///
    /// Refused `Device`.
    pub fn log_cuts(&mut self) -> Result<LogCuts, Fault>
        ensures answers { Answers (⟦<FileDisk as Disk>⟧.failed self.new) result }
    {
        let (file, outcome) = match self.folder() {
            Ok(folder) => (FileId::Log, Ok(LogCuts::of(&folder))),
            Err((file, error)) => (file, Err(error)),
        };
        self.keep(DiskCall::Read(0), file, outcome)
    }

    /// Cuts the log that the store of these files has left to its first batch, and the current one, where it has no record, to its end, and brings that to the disk: for a store that was
    /// closed in order. It answers how many bytes that gives back: 0 where nothing may be cut, and then no file is written or synced.
    ///
    /// Refused `Device`, with no call of the system where one has failed before. Nothing is lost then: each file is as long as it was, or cut.
    pub fn cut_logs(&mut self) -> Result<u64, Fault>
        ensures answers { Answers (⟦<FileDisk as Disk>⟧.failed self.new) result }
    {
        if self.has_failed() {
            return Err(Fault::Device);
        }
        match self.log_cuts() {
            Ok(cuts) => self.give_back(cuts),
            Err(fault) => Err(fault),
        }
    }

    // Cuts the logs, where anything of them may go, and answers how much that is. The current one is brought to the disk before that: a power cut must not leave none of the two.
    fn give_back(&mut self, cuts: LogCuts) -> Result<u64, Fault>
        requires working { ⟦<FileDisk as Disk>⟧.failed self.old ≡ false }
        ensures answers { Answers (⟦<FileDisk as Disk>⟧.failed self.new) result }
    {
        let gone = cuts.gone.saturating_add(cuts.after);
        if gone == 0 {
            return Ok(0);
        }
        let left = left_file(cuts);
        let current = other_log(left);
        let outcome = self.bring_all(current);
        match self.keep(DiskCall::Sync, current, outcome) {
            Ok(()) => {}
            Err(fault) => return Err(fault),
        }
        match self.cut_where(left, cuts.kept, cuts.gone) {
            Ok(()) => {}
            Err(fault) => return Err(fault),
        }
        match self.cut_where(current, cuts.end, cuts.after) {
            Ok(()) => Ok(gone),
            Err(fault) => Err(fault),
        }
    }

    // Cuts a file to so many bytes, where any go.
    fn cut_where(&mut self, file: FileId, kept: u64, gone: u64) -> Result<(), Fault>
        requires working { ⟦<FileDisk as Disk>⟧.failed self.old ≡ false }
        ensures answers { Answers (⟦<FileDisk as Disk>⟧.failed self.new) result }
    {
        if gone == 0 {
            return Ok(());
        }
        self.cut(file, kept)
    }

    fn bring_all(&self, file: FileId) -> io::Result<()> {
        self.file(file)?.sync_all()
    }

    fn shorten(&self, file: FileId, end: u64) -> io::Result<()> {
        let file = self.file(file)?;
        file.set_len(end)?;
        file.sync_all()
    }

    // The beginnings of the files, or of which file it was not read, and why.
    fn folder(&self) -> Result<Folder, (FileId, io::Error)> {
        let log = match front_of(self.file(FileId::Log).ok()) {
            Ok(front) => front,
            Err(error) => return Err((FileId::Log, error)),
        };
        let log2 = match front_of(self.file(FileId::Log2).ok()) {
            Ok(front) => front,
            Err(error) => return Err((FileId::Log2, error)),
        };
        let pages = match pages_front_of(self.file(FileId::Pages).ok()) {
            Ok(front) => front,
            Err(error) => return Err((FileId::Pages, error)),
        };
        Ok(Folder {
            log,
            log2,
            pages,
            has_part: false,
        })
    }
}

// The file of the log that was left.
fn left_file(cuts: LogCuts) -> FileId {
    if cuts.is_log2 {
        FileId::Log2
    } else {
        FileId::Log
    }
}

// The log that is not this one.
fn other_log(log: FileId) -> FileId {
    match log {
        FileId::Log => FileId::Log2,
        FileId::Log2 | FileId::Pages => FileId::Log,
    }
}
