//! What is told of a store that is not open.

ghost use Rattle.std.specs.Prelude.{◌≤◌, IfOk};

use crate::recovered::{opened, write_changed};
use im_base_disk::Disk;
use im_files_scratch_disk::ScratchDisk;
use im_tool_files::{
    Broken, Progress, ScratchFiles, Surveyed, WatchedFiles, broken_text, numbers_text,
    survey_files, whole_text,
};
use im_tool_look::{TreeSurvey, check_pages};
use std::alloc::Global;
use std::io;
use std::io::Write;
use std::thread::Threads;

// What is told of a whole store.
#[derive(Drop)]
struct Looked {
    surveyed: Surveyed,
    tree: TreeSurvey,
}

// What the log says, how the pages go with it, and what the tree and the free list are after an opening. The disk is handed back.
fn look<D: Disk + Drop, T: Threads + Sync, P: Progress>(
    rt: &T,
    alloc: Global,
    disk: ScratchDisk<D>,
    progress: &mut P,
) -> (Result<Looked, Broken>, ScratchDisk<D>) {
    let mut files = ScratchFiles::of(disk);
    let read = survey_files(alloc, &mut WatchedFiles::new(&mut files, progress));
    let disk = files.into_disk();
    let surveyed = match read {
        Ok(surveyed) => surveyed,
        Err(broken) => {
            progress.end();
            return (Err(broken), disk);
        }
    };
    let (tree, disk) = tree_behind(rt, alloc, disk, progress);
    progress.end();
    let looked = match tree {
        Ok(tree) => Ok(Looked { surveyed, tree }),
        Err(broken) => Err(broken),
    };
    (looked, disk)
}

// The tree in the pages as an opening leaves them.
fn tree_behind<D: Disk + Drop, T: Threads + Sync, P: Progress>(
    rt: &T,
    alloc: Global,
    disk: ScratchDisk<D>,
    progress: &mut P,
) -> (Result<TreeSurvey, Broken>, ScratchDisk<D>) {
    let mut store = match opened(rt, alloc, disk) {
        Ok(store) => store,
        Err((fault, disk)) => return (Err(Broken::Opening(fault)), disk),
    };
    let written = write_changed(&mut store);
    let mut files = ScratchFiles::of(store.into_disk().into_disk());
    let tree = match written {
        Ok(()) => check_pages(alloc, &mut WatchedFiles::new(&mut files, progress)),
        Err(fault) => Err(fault),
    };
    (tree.map_err(Broken::Opening), files.into_disk())
}

/// Checks a store: the records of its current log, the file of pages beside them, the whole batches after the log's end, and the tree and the free list as an opening
/// finds them. Writes `ok`, or a line for each rule that does not hold, and answers the exit status, 0 or 1, and the disk. Whole batches after the log's end
/// are told, and are no damage as long as one put can have left them; so is a newer log that lacks nothing but its first byte, as a stop may have left that too.
pub fn check_text<D: Disk + Drop, W: Write, P: Progress, T: Threads + Sync>(
    rt: &T,
    alloc: Global,
    writer: &mut W,
    disk: ScratchDisk<D>,
    progress: &mut P,
) -> (io::Result<u8>, ScratchDisk<D>)
    ensures { IfOk result.0 (λ status. status ≤ 1) }
{
    let (looked, disk) = look(rt, alloc, disk, progress);
    let status = match looked {
        Ok(looked) => whole_text(writer, &looked.surveyed, &looked.tree),
        Err(broken) => broken_text(writer, &broken),
    };
    (status, disk)
}

/// Writes what a store has, in numbers, a line for each, or all as an object of JSON, and answers the exit status, 0, or 1 where it is broken, and the disk.
pub fn stat_text<D: Disk + Drop, W: Write, P: Progress, T: Threads + Sync>(
    rt: &T,
    alloc: Global,
    writer: &mut W,
    disk: ScratchDisk<D>,
    is_json: bool,
    progress: &mut P,
) -> (io::Result<u8>, ScratchDisk<D>)
    ensures { IfOk result.0 (λ status. status ≤ 1) }
{
    let (looked, disk) = look(rt, alloc, disk, progress);
    let status = match looked {
        Ok(looked) => numbers_text(writer, &looked.surveyed, &looked.tree, is_json),
        Err(broken) => broken_text(writer, &broken),
    };
    (status, disk)
}
