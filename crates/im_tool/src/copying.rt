//! A copy of a store that is open, and of one that is not.
ghost use Rattle.std.specs.Prelude.{◌≡◌, ◌≤◌, false, IfOk};

use crate::compacting::compact;
use crate::look::check_text;
use im_base_disk::Disk;
use im_base_mirror_disk::{Mirrored, Piece};
use im_base_two_logs::{Renamed, TwoLogs};
use im_base_types::Fault;
use im_files_disk::FileDisk;
use im_files_scratch_disk::ScratchDisk;
use im_store::OpenStore;
use im_tool_files::{
    Cause, CopyDisk, NoCopy, Progress, ProgressLine, begun_copy, clear_copy, named_copy,
    print_refused_opening, tell, tell_unread,
};
use std::alloc::Global;
use std::io::{BufWriter, IsTerminal, Write};
use std::thread::Threads;
use std::{fmt, io};

/// How much is copied at once.
const PIECE: usize = 262_144;

/// How many pieces are copied between one word of it and the next.
const A_PART: u64 = 16;

const PIECES_OF_A_MIB: u64 = 4;

/// Who copies a store between two lines.
pub trait Copier<D: Disk> {
    /// Copies the store into a folder, as a stop now might leave it, and answers how many bytes the copy has. `None` where no copies are made.
    fn copy(
        &mut self,
        alloc: Global,
        store: &mut OpenStore<D>,
        folder: &str,
    ) -> Option<Result<u64, NoCopy>>;

    /// Says why there is no copy, where the reply does not.
    fn tell(&self, folder: &str, why: &NoCopy);
}

/// Makes no copies.
#[derive(Clone, Copy, Debug)]
pub struct NoCopies;

impl<D: Disk> Copier<D> for NoCopies {
    fn copy(
        &mut self,
        _alloc: Global,
        _store: &mut OpenStore<D>,
        _folder: &str,
    ) -> Option<Result<u64, NoCopy>> {
        None
    }

    fn tell(&self, _folder: &str, _why: &NoCopy) {}
}

/// The disk of a store whose copies lie in folders.
pub(crate) type Copied<'a, D> = Mirrored<Renamed<D>, Renamed<CopyDisk<'a>>>;

/// Copies a store into folders.
#[derive(Clone, Copy)]
pub(crate) struct FolderCopier<'a> {
    pub(crate) rt: &'a HostRuntime,
    /// The folder of the store, if it has one.
    pub(crate) dir: Option<&'a str>,
}

impl<'a, D: Disk + Drop> Copier<Copied<'a, D>> for FolderCopier<'a> {
    fn copy(
        &mut self,
        alloc: Global,
        store: &mut OpenStore<Copied<'a, D>>,
        folder: &str,
    ) -> Option<Result<u64, NoCopy>> {
        Some(copy_open(self.rt, alloc, self.dir, store, folder))
    }

    fn tell(&self, folder: &str, why: &NoCopy) {
        if !matches!(why, NoCopy::GivenUp) {
            tell(self.rt, folder, why);
        }
    }
}

fn copy_open<'a, D: Disk + Drop>(
    rt: &'a HostRuntime,
    alloc: Global,
    dir: Option<&str>,
    store: &mut OpenStore<Copied<'a, D>>,
    folder: &str,
) -> Result<u64, NoCopy> {
    let mut room = vec![in alloc; 0; PIECE].map_err(|_| NoCopy::Store(Fault::Memory))?;
    let to = begun_copy(rt, dir, folder)?;
    store.begin_copy(Renamed::new(to, false));
    match end_of(rt, store, &mut room) {
        Ok(to) => Ok(named_copy(rt, to.into_disk(), folder)?.0),
        Err(why) => {
            clear_copy(rt, folder);
            Err(why)
        }
    }
}

// Copies all pieces, and ends the copy.
fn end_of<'a, D: Disk + Drop>(
    rt: &HostRuntime,
    store: &mut OpenStore<Copied<'a, D>>,
    room: &mut [u8],
) -> Result<Renamed<CopyDisk<'a>>, NoCopy>
    ensures { IfOk result (λ to. ⟦<Renamed<CopyDisk<'a>> as Disk>⟧.failed to ≡ false) }
{
    let is_shown = rt.stderr().is_terminal();
    let mut progress = ProgressLine::new(rt.stderr(), is_shown, "MiB copied", rt);
    let made = all_pieces(store, room, &mut progress);
    progress.end();
    made?;
    match store.end_copy() {
        Ok(Some(to)) => Ok(to),
        Ok(None) => Err(NoCopy::GivenUp),
        Err(fault) => Err(NoCopy::Store(fault)),
    }
}

fn all_pieces<D: TwoLogs + Drop, T: TwoLogs + Drop, P: Progress>(
    store: &mut OpenStore<Mirrored<D, T>>,
    room: &mut [u8],
    progress: &mut P,
) -> Result<(), NoCopy> {
    for done in 1..u64::MAX {
        match store.copy_piece(room) {
            Ok(Piece::More) => {
                if done % A_PART == 0 {
                    progress.show(done / PIECES_OF_A_MIB, None);
                }
            }
            Ok(Piece::Last) => break,
            Ok(Piece::None) => return Err(NoCopy::GivenUp),
            Err(fault) => return Err(NoCopy::Store(fault)),
        }
    }
    Ok(())
}

/// Copies the store in a folder, which no program writes meanwhile, into another folder, byte for byte, and says what a check of the copy finds. It answers the exit
/// status: 0, or 1 where nothing was copied, or the check finds something. With `is_compact` its entries are loaded there, in place of the copy.
pub(crate) fn copy_program<T: Threads + Sync>(
    rt: &HostRuntime,
    threads: &T,
    dir: &str,
    folder: &str,
    is_compact: bool,
) -> io::Result<u8>
    ensures { IfOk result (λ status. status ≤ 1) }
{
    let mut writer = BufWriter::new(rt.alloc(), io::writer(rt))?;
    let status = copy_in(rt, threads, dir, folder, is_compact, &mut writer)?;
    writer.flush()?;
    Ok(status)
}

// The same, written without a flush.
fn copy_in<W: Write, T: Threads + Sync>(
    rt: &HostRuntime,
    threads: &T,
    dir: &str,
    folder: &str,
    is_compact: bool,
    writer: &mut W,
) -> io::Result<u8>
    ensures { IfOk result (λ status. status ≤ 1) }
{
    let files = match FileDisk::open_to_read(rt, dir) {
        Ok(files) => files,
        Err(error) => {
            print_refused_opening(writer, error.fault())?;
            tell_unread(rt, dir, &error);
            return Ok(1);
        }
    };
    let made = if is_compact {
        compact(rt, threads, dir, files, folder)
    } else {
        copy_closed(rt, dir, files, folder)
    };
    match made {
        Ok((bytes, copy)) => {
            writeln!(writer, "copied {bytes}")?;
            check_copy(rt, threads, folder, writer, copy)
        }
        Err(why) => {
            writeln!(writer, "copy refused {}", why.number())?;
            if !matches!(&why, NoCopy::GivenUp) {
                tell(rt, folder, &why);
            }
            Ok(1)
        }
    }
}

// Says what a check of a copy finds.
fn check_copy<W: Write, T: Threads + Sync>(
    rt: &HostRuntime,
    threads: &T,
    folder: &str,
    writer: &mut W,
    copy: FileDisk,
) -> io::Result<u8>
    requires { ⟦<FileDisk as Disk>⟧.failed copy ≡ false }
    ensures { IfOk result (λ status. status ≤ 1) }
{
    let mut progress = ProgressLine::new(rt.stderr(), rt.stderr().is_terminal(), "MiB read", rt);
    let disk = ScratchDisk::new(rt.alloc(), Some(copy));
    let (status, disk) = check_text(threads, rt.alloc(), writer, disk, &mut progress);
    if let Some(error) = disk.cause() {
        tell(rt, folder, error);
    }
    status
}

// Copies the files of a store that is not open.
fn copy_closed(
    rt: &HostRuntime,
    dir: &str,
    files: FileDisk,
    folder: &str,
) -> Result<(u64, FileDisk), NoCopy>
    requires { ⟦<FileDisk as Disk>⟧.failed files ≡ false }
    ensures { IfOk result (λ made. ⟦<FileDisk as Disk>⟧.failed made.1 ≡ false) }
{
    let mut room = vec![in rt.alloc(); 0; PIECE].map_err(|_| NoCopy::Store(Fault::Memory))?;
    let to = begun_copy(rt, Some(dir), folder)?;
    let mut disk = Mirrored::new(files);
    disk.begin(to);
    let is_shown = rt.stderr().is_terminal();
    let mut progress = ProgressLine::new(rt.stderr(), is_shown, "MiB copied", rt);
    let made = whole_copy(&mut disk, &mut room, &mut progress);
    progress.end();
    if let Some(error) = disk.cause() {
        tell(rt, dir, error);
    }
    match made {
        Ok(to) => named_copy(rt, to, folder),
        Err(why) => {
            clear_copy(rt, folder);
            Err(why)
        }
    }
}

// Copies all pieces of a disk, and ends the copy.
fn whole_copy<D: Disk, T: Disk + Drop, P: Progress>(
    disk: &mut Mirrored<D, T>,
    room: &mut [u8],
    progress: &mut P,
) -> Result<T, NoCopy>
    ensures { IfOk result (λ to. T.failed to ≡ false) }
{
    for done in 1..u64::MAX {
        match disk.next_piece(room) {
            Ok(Piece::More) => {
                if done % A_PART == 0 {
                    progress.show(done / PIECES_OF_A_MIB, None);
                }
            }
            Ok(Piece::Last) => break,
            Ok(Piece::None) => return Err(NoCopy::GivenUp),
            Err(fault) => return Err(NoCopy::Store(fault)),
        }
    }
    match disk.finish() {
        Ok(Some(to)) => Ok(to),
        Ok(None) => Err(NoCopy::GivenUp),
        Err(fault) => Err(NoCopy::Store(fault)),
    }
}
