//! A store of the entries of another one, loaded into a new folder.

ghost use Rattle.std.specs.Prelude.{◌≡◌, false, IfOk, OnOk};

use crate::entry_walk::EntryWalk;
use crate::recovered::opened;
use crate::tasks::tell_left_out;
use im_base_disk::Disk;
use im_base_two_logs::TwoLogs;
use im_base_types::{Fault, Key, Rid};
use im_files_disk::FileDisk;
use im_files_scratch_disk::ScratchDisk;
use im_load::Loader;
use im_store::OpenStore;
use im_tool_files::{
    Cause, CopyDisk, NoCopy, Progress, ProgressLine, ScratchFiles, begun_copy, clear_copy,
    named_copy, tell,
};
use std::alloc::Global;
use std::io::IsTerminal;
use std::thread::Threads;

/// How many parts are loaded between one word of the progress and the next.
const PARTS: u64 = 40;

/// Loads the entries that an opening of these files would find into a folder, and answers how many bytes the files there have, and them. No byte of the store is changed.
///
/// What was not committed is left out, which is told.
pub(crate) fn compact<T: Threads + Sync>(
    rt: &HostRuntime,
    threads: &T,
    dir: &str,
    files: FileDisk,
    folder: &str,
) -> Result<(u64, FileDisk), NoCopy>
    requires { ⟦<FileDisk as Disk>⟧.failed files ≡ false }
    ensures { IfOk result (λ made. ⟦<FileDisk as Disk>⟧.failed made.1 ≡ false) }
{
    let alloc = rt.alloc();
    let mut looked = ScratchFiles::of(ScratchDisk::new(alloc, Some(files)));
    tell_left_out(rt, dir, &mut looked);
    let mut store = match opened(threads, alloc, looked.into_disk()) {
        Ok(store) => store,
        Err((fault, disk)) => {
            tell_cause(rt, dir, &disk);
            return Err(NoCopy::Store(fault));
        }
    };
    let made = compacted(rt, dir, &mut store, folder);
    tell_cause(rt, dir, &store.into_disk().into_disk());
    match made {
        Ok(to) => named_copy(rt, to, folder),
        Err(why) => Err(why),
    }
}

// Tells which call of the store's disk failed, if one did.
fn tell_cause(rt: &HostRuntime, dir: &str, disk: &ScratchDisk<FileDisk>) {
    if let Some(error) = disk.cause() {
        tell(rt, dir, error);
    }
}

// Makes the files, and fills them.
fn compacted<'a, D: TwoLogs + Drop>(
    rt: &'a HostRuntime,
    dir: &str,
    store: &mut OpenStore<D>,
    folder: &str,
) -> Result<CopyDisk<'a>, NoCopy>
    ensures { IfOk result (λ to. ⟦<CopyDisk<'a> as Disk>⟧.failed to ≡ false) }
{
    let mut to = begun_copy(rt, Some(dir), folder)?;
    let is_shown = rt.stderr().is_terminal();
    let mut progress = ProgressLine::new(rt.stderr(), is_shown, "entries", rt);
    let loaded = load_all(rt.alloc(), store, &mut to, &mut progress);
    progress.end();
    match loaded {
        Ok(()) => Ok(to),
        Err(why) => {
            clear_copy(rt, folder);
            Err(why)
        }
    }
}

// Loads all entries of a store into files without bytes.
fn load_all<D: TwoLogs + Drop, T: Disk, P: Progress>(
    alloc: Global,
    store: &mut OpenStore<D>,
    to: &mut T,
    progress: &mut P,
) -> Result<(), NoCopy>
    requires working { T.failed to.old ≡ false }
    ensures working { OnOk result (T.failed to.new ≡ false) }
{
    let begun = begun_in(alloc, to)?;
    let Some(loader) = begun else {
        return Err(NoCopy::GivenUp);
    };
    let mut loader = loader;
    load_parts(alloc, store, &mut loader, to, progress)?;
    end_in(loader, to)
}

// Takes all entries of a store, a part at a time.
fn load_parts<D: TwoLogs + Drop, T: Disk, P: Progress>(
    alloc: Global,
    store: &mut OpenStore<D>,
    loader: &mut Loader,
    to: &mut T,
    progress: &mut P,
) -> Result<(), NoCopy>
    requires working { T.failed to.old ≡ false }
    ensures working { OnOk result (T.failed to.new ≡ false) }
{
    let mut walk = walk_of(alloc)?;
    let mut done = 0u64;
    for parts in 1..u64::MAX {
        let part = part_of(alloc, &mut walk, store)?;
        if part.is_empty() {
            return Ok(());
        }
        load_part(loader, to, &part)?;
        done = done.saturating_add(part.len() as u64);
        tell_parts(progress, parts, done);
    }
    Ok(())
}

fn tell_parts<P: Progress>(progress: &mut P, parts: u64, done: u64) {
    if parts % PARTS == 0 {
        progress.show(done, None);
    }
}

fn walk_of(alloc: Global) -> Result<EntryWalk, NoCopy> {
    EntryWalk::new(alloc).map_err(NoCopy::Store)
}

fn part_of<D: TwoLogs + Drop>(
    alloc: Global,
    walk: &mut EntryWalk,
    store: &mut OpenStore<D>,
) -> Result<Vec<(Key, Rid)>, NoCopy> {
    walk.next_part(alloc, store).map_err(NoCopy::Store)
}

// Takes some entries. Refused `NotAStore` where their keys do not rise, as in no sound store.
fn load_part<T: Disk>(loader: &mut Loader, to: &mut T, part: &[(Key, Rid)]) -> Result<(), NoCopy>
    requires working { T.failed to.old ≡ false }
    ensures working { OnOk result (T.failed to.new ≡ false) }
{
    for (key, rid) in part {
        let rises = put_in(loader, to, key.bytes(), *rid)?;
        if !rises {
            return Err(NoCopy::Store(Fault::NotAStore));
        }
    }
    Ok(())
}

// The calls of a load, whose refusals are those of a copy.
fn begun_in<T: Disk>(alloc: Global, to: &mut T) -> Result<Option<Loader>, NoCopy>
    requires working { T.failed to.old ≡ false }
    ensures working { OnOk result (T.failed to.new ≡ false) }
{
    match Loader::begin(alloc, to) {
        Ok(begun) => Ok(begun),
        Err(fault) => Err(why_not(fault)),
    }
}

fn put_in<T: Disk>(loader: &mut Loader, to: &mut T, key: &[u8], rid: Rid) -> Result<bool, NoCopy>
    requires working { T.failed to.old ≡ false }
    ensures working { OnOk result (T.failed to.new ≡ false) }
{
    match loader.put(to, key, rid) {
        Ok(rises) => Ok(rises),
        Err(fault) => Err(why_not(fault)),
    }
}

fn end_in<T: Disk>(loader: Loader, to: &mut T) -> Result<(), NoCopy>
    requires working { T.failed to.old ≡ false }
    ensures working { OnOk result (T.failed to.new ≡ false) }
{
    match loader.finish(to) {
        Ok(()) => Ok(()),
        Err(fault) => Err(why_not(fault)),
    }
}

// Which call of the copy's disk failed was told.
fn why_not(fault: Fault) -> NoCopy {
    match fault {
        Fault::Device => NoCopy::GivenUp,
        other => NoCopy::Store(other),
    }
}
