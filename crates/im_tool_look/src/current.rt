//! Which of the two logs of the files is the current one.
ghost use Rattle.std.specs.Prelude.{◌≡◌, ◌≢◌, ◌≤◌, ◌↔◌, true, false};
ghost use Rattle.im_base_types.specs.declared.file_id.FileId.TheVariants.{Pages};
ghost use Rattle.im_tool_look.specs.Least.{least_said};

use crate::files::Files;
use crate::log_damage::LogDamage;
use im_base_disk::Disk;
use im_base_model_disk::ModelDisk;
use im_base_two_logs::Renamed;
use im_base_types::{Fault, FileId, LAST_LSN, Lsn, PageNo, TxnId};
use im_log_choice::{Logs, choose};
use im_log_header::{Header, LogStart, read_header};
use im_restart_analysis::pages_at_first;
use std::alloc::Global;

/// So many bytes of a log say where it starts.
const FRONT: usize = 48;

// What a log is counted as that is not made.
const NONE: Header = Header {
    generation: 0,
    base: 0,
    next: 1,
};

/// The current log of the files, and what the headers of both say.
#[derive(Clone, Copy, Debug, PartialEq, Eq)]
pub struct CurrentLog {
    /// The file that it is in.
    pub file: FileId,
    /// Where it starts. None where no log is made.
    pub start: Option<LogStart>,
    /// Where the other log starts. None where that is not made.
    pub other: Option<LogStart>,
}

impl CurrentLog {
    /// The file of the other log.
    pub fn other_file(&self) -> FileId
        ensures other { result ≢ self.now.file }
        ensures log { result ≢ Pages }
    {
        match self.file {
            FileId::Log2 => FileId::Log,
            FileId::Log | FileId::Pages => FileId::Log2,
        }
    }

    /// What its header says; generation 0 of one that is not made.
    pub fn header(&self) -> Header
        ensures least { result.next ≡ least_said self.now.start }
    {
        header_of(&self.start)
    }

    /// What the header of the other log says; generation 0 of one that is not made.
    pub fn other_header(&self) -> Header {
        header_of(&self.other)
    }

    /// The log that was left for this one, as if it were the current one. None where it is not there any more.
    pub(crate) fn log_before(&self) -> Option<CurrentLog> {
        let before = self.other_header().generation;
        if before == 0 || before.saturating_add(1) != self.header().generation {
            return None;
        }
        Some(CurrentLog {
            file: self.other_file(),
            start: self.other,
            other: None,
        })
    }

    /// The place of its first gate. None where it is not made.
    pub(crate) fn first_gate(&self) -> Option<u64> {
        match &self.start {
            Some(start) => Some(start.first_gate),
            None => None,
        }
    }

    /// The LSN of the byte at a place of its file.
    pub fn lsn(&self, place: u64) -> Lsn {
        self.header().base.saturating_add(place)
    }

    /// The page count that it begins with at most.
    pub(crate) fn pages(&self) -> PageNo {
        pages_at_first(self.header().base)
    }

    /// A transaction of this number may be its own: those of the logs before it have lower ones.
    pub(crate) fn may_have(&self, transaction: TxnId) -> bool
        ensures { (result ≡ true) ↔ (least_said self.now.start ≤ transaction) }
    {
        transaction >= self.header().next
    }
}

/// The name that a file has in the folder.
pub fn file_name(file: FileId) -> &'static str {
    match file {
        FileId::Log => "log",
        FileId::Pages => "pages",
        FileId::Log2 => "log2",
    }
}

/// Finds the current log, by the headers of both: as an opening does, whose choice it asks.
pub fn current_log<F: Files>(alloc: Global, files: &mut F) -> Result<CurrentLog, LogDamage> {
    let log = front(alloc, files, FileId::Log).map_err(LogDamage::Unread)?;
    let log2 = front(alloc, files, FileId::Log2).map_err(LogDamage::Unread)?;
    let disk = ModelDisk::with_log2(log, Vec::new(alloc), log2);
    choice(disk)
}

// The first bytes of a log.
fn front<F: Files>(alloc: Global, files: &mut F, file: FileId) -> Result<Vec<u8>, Fault> {
    let size = usize::try_from(files.length(file)?)
        .unwrap_or(FRONT)
        .min(FRONT);
    let mut bytes = vec![in alloc; 0; size].map_err(|_| Fault::Memory)?;
    files.fill(file, 0, &mut bytes)?;
    Ok(bytes)
}

// The same over a disk that has the first bytes of both logs.
fn choice(disk: ModelDisk) -> Result<CurrentLog, LogDamage>
    requires working { ⟦<ModelDisk as Disk>⟧.failed disk ≡ false }
{
    let mut named = Renamed::new(disk, false);
    match choose(&mut named) {
        Ok(logs) => chosen(&logs),
        Err(Fault::NotAStore) => Err(refusal(named.into_disk())),
        Err(fault) => Err(LogDamage::Unread(fault)),
    }
}

// By the names that the choice gave.
fn chosen(logs: &Logs) -> Result<CurrentLog, LogDamage> {
    let file = if logs.is_swapped {
        FileId::Log2
    } else {
        FileId::Log
    };
    if !is_low(&logs.log) {
        return Err(LogDamage::NoHeader(file_name(file)));
    }
    Ok(CurrentLog {
        file,
        start: logs.log,
        other: logs.other,
    })
}

// Why nothing could be chosen.
fn refusal(disk: ModelDisk) -> LogDamage
    requires working { ⟦<ModelDisk as Disk>⟧.failed disk ≡ false }
{
    let mut disk = disk;
    let log = match read_header(&mut disk, FileId::Log) {
        Ok(start) => header_of(&start).generation,
        Err(Fault::NotAStore) => return LogDamage::NoHeader("log"),
        Err(fault) => return LogDamage::Unread(fault),
    };
    match read_header(&mut disk, FileId::Log2) {
        Ok(_) => LogDamage::SameGeneration(log),
        Err(Fault::NotAStore) => LogDamage::NoHeader("log2"),
        Err(fault) => LogDamage::Unread(fault),
    }
}

fn header_of(start: &Option<LogStart>) -> Header
    ensures least { result.next ≡ least_said start.now }
{
    match start {
        Some(start) => start.header,
        None => NONE,
    }
}

// The first gate has an LSN that a log may have.
fn is_low(start: &Option<LogStart>) -> bool {
    match start {
        Some(start) => start.header.base.saturating_add(start.first_gate) <= LAST_LSN,
        None => true,
    }
}
