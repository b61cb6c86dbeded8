//! The log that a store has left, cut to its first batch.

ghost use Rattle.std.specs.Prelude.{◌≡◌, ◌≢◌, ◌≤◌, false, IfOk, IfSome};
ghost use Rattle.im_base_types.specs.declared.file_id.FileId.TheVariants.{Pages};

use crate::causes::Cause;
use crate::scratch_files::ScratchFiles;
use crate::telling::{print_refused_opening, tell, tell_unread};
use im_base_disk::Disk;
use im_base_types::{Fault, FileId};
use im_files_disk::FileDisk;
use im_files_scratch_disk::ScratchDisk;
use im_tool_look::{Files, LogDamage, kept_of_left, read_log};
use std::alloc::Global;
use std::io;
use std::io::{BufWriter, Write};

/// Cuts the log of the lower generation of the store in a folder, which no other program has open, to its first batch, which tells a file of pages from before
/// that log, and is none without the gate after it; and the current one to its end where it has no record. The store goes on in the current one, and makes the
/// other anew when it leaves that. So many bytes that a close gave back before are told with those of the cuts. It answers the exit status: 0, or 1 where nothing was done because of a
/// refusal.
pub fn trim_program(rt: &HostRuntime, dir: &str, before: u64) -> io::Result<u8>
    ensures { IfOk result (λ status. status ≤ 1) }
{
    let mut writer = BufWriter::new(rt.alloc(), io::writer(rt))?;
    let status = trim_in(rt, dir, &mut writer, before)?;
    writer.flush()?;
    Ok(status)
}

/// How many bytes the two logs of the store in a folder have together, and how many the longer one. None where they are not to be had.
pub fn log_bytes(rt: &HostRuntime, dir: &str) -> Option<(u64, u64)> {
    let Ok(mut files) = FileDisk::open_to_read(rt, dir) else {
        return None;
    };
    let Ok(log) = files.len(FileId::Log) else {
        return None;
    };
    let Ok(other) = files.len(FileId::Log2) else {
        return None;
    };
    Some((log.saturating_add(other), log.max(other)))
}

// The same, written without a flush.
fn trim_in<W: Write>(rt: &HostRuntime, dir: &str, writer: &mut W, before: u64) -> io::Result<u8>
    ensures { IfOk result (λ status. status ≤ 1) }
{
    match FileDisk::open_made(rt, dir) {
        Ok(files) => trim(rt, dir, writer, files, before),
        Err(error) => {
            print_refused_opening(writer, error.fault())?;
            tell_unread(rt, dir, &error);
            Ok(1)
        }
    }
}

// The same over its files.
fn trim<W: Write>(
    rt: &HostRuntime,
    dir: &str,
    writer: &mut W,
    files: FileDisk,
    before: u64,
) -> io::Result<u8>
    requires working { ⟦<FileDisk as Disk>⟧.failed files ≡ false }
    ensures { IfOk result (λ status. status ≤ 1) }
{
    let mut files = ScratchFiles::of(ScratchDisk::new(rt.alloc(), Some(files)));
    let spare = spare_of(rt.alloc(), &mut files);
    let disk = files.into_disk();
    if let Some(error) = disk.cause() {
        tell(rt, dir, error);
    }
    match spare {
        Ok(Some(spare)) => give_back(rt, dir, writer, disk, spare, before),
        Ok(None) => {
            if before == 0 {
                tell(rt, dir, &"there is nothing to trim");
            }
            writeln!(writer, "trimmed {before}")?;
            Ok(0)
        }
        Err(LogDamage::Unread(fault)) => {
            print_refused_opening(writer, fault)?;
            Ok(1)
        }
        Err(damage) => {
            print_refused_opening(writer, Fault::NotAStore)?;
            tell(rt, dir, &damage);
            Ok(1)
        }
    }
}

// What of the two logs no opening reads any more.
#[derive(Clone, Copy)]
struct Spare {
    current: FileId,
    // The place after the closed gate with which the current log ends, and how many bytes of its file come after that; none where it has a record: a
    // log that is in use has room there for what it gets next.
    end: u64,
    behind: u64,
    // The log that was left, how many bytes of it are kept, and how many come after these.
    left: FileId,
    kept: u64,
    bytes: u64,
}

// The log that is not this one.
fn other_log(log: FileId) -> FileId
    ensures { result ≢ Pages }
{
    match log {
        FileId::Log => FileId::Log2,
        FileId::Log2 | FileId::Pages => FileId::Log,
    }
}

// What there is to give back. None where that is no byte, or no store was made yet.
fn spare_of(alloc: Global, files: &mut ScratchFiles<FileDisk>) -> Result<Option<Spare>, LogDamage>
    ensures { IfOk result (λ found. IfSome found (λ spare. (spare.left ≢ Pages) × (spare.current ≢ Pages))) }
{
    let said = read_log(alloc, files)?;
    let left = said.log.other_file();
    let current = other_log(left);
    let kept = kept_of_left(files).map_err(LogDamage::Unread)?;
    let bytes = files
        .length(left)
        .map_err(LogDamage::Unread)?
        .saturating_sub(kept);
    let length = files.length(current).map_err(LogDamage::Unread)?;
    let end = said.end.saturating_add(1);
    let behind = if said.records == 0 {
        length.saturating_sub(end)
    } else {
        0
    };
    if said.log.start.is_none() || (bytes == 0 && behind == 0) {
        return Ok(None);
    }
    Ok(Some(Spare {
        current,
        end,
        behind,
        left,
        kept,
        bytes,
    }))
}

// Takes these bytes away. The current log is brought to the disk first: a program that was stopped may have made it a log in the system's memory
// alone, and without the other there would be none.
fn is_given_back(files: &mut FileDisk, spare: Spare) -> bool
    requires working { ⟦<FileDisk as Disk>⟧.failed files.old ≡ false }
{
    if files.sync(spare.current).is_err() {
        return false;
    }
    if spare.bytes > 0 && files.cut(spare.left, spare.kept).is_err() {
        return false;
    }
    spare.behind == 0 || files.cut(spare.current, spare.end).is_ok()
}

// Takes them away, and says how many they are.
fn give_back<W: Write>(
    rt: &HostRuntime,
    dir: &str,
    writer: &mut W,
    disk: ScratchDisk<FileDisk>,
    spare: Spare,
    before: u64,
) -> io::Result<u8>
    ensures { IfOk result (λ status. status ≤ 1) }
{
    let Some(mut files) = disk.into_base() else {
        return Ok(1);
    };
    if !files.has_failed() && is_given_back(&mut files, spare) {
        writeln!(
            writer,
            "trimmed {}",
            spare
                .bytes
                .saturating_add(spare.behind)
                .saturating_add(before)
        )?;
        return Ok(0);
    }
    writeln!(writer, "trim refused {}", Fault::Device.number())?;
    if let Some(error) = files.last_error() {
        tell(rt, dir, error);
    }
    Ok(1)
}
