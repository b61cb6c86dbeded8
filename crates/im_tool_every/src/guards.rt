//! Whether the guards of real files take what a stop left.

ghost use Rattle.std.specs.Prelude.{◌≡◌, ◌↔◌, ◌≤◌, ◌++◌, true, length, replicate, take, IfOk};
ghost use Rattle.im_tool_every.specs.Guarded.{front_in, lsn_of_page, pages_front_in, walked_of, FilesAreTaken, AreTogether, HasOlderPages, IsGuarded};

use crate::judged_opening::left_by;
use crate::torn_disk::bytes_of;
use im_base_model_disk::ModelDisk;
use im_base_types::{FileId, PAGE_SIZE};
use im_files_belonging::{
    FIRST_BYTES, FRONT, Folder, Front, LeftLog, PagesFront, belong, is_older,
};
use std::alloc::{AllocError, Global};

/// Whether a folder would be opened that has the three files which are left of this disk: they belong together, and the pages are no older than the logs
/// say.
pub(crate) fn is_taken(alloc: Global, disk: &ModelDisk) -> Result<bool, AllocError>
    ensures { IfOk result (λ taken. IsGuarded disk.now taken) }
{
    let mut files = left_by(alloc, disk)?;
    let log = bytes_of(alloc, &mut files, FileId::Log)?;
    let log2 = bytes_of(alloc, &mut files, FileId::Log2)?;
    let pages = bytes_of(alloc, &mut files, FileId::Pages)?;
    Ok(are_taken(&log, &log2, &pages))
}

// Whether a folder of these files would be opened.
fn are_taken(log: &[u8], log2: &[u8], pages: &[u8]) -> bool
    ensures { (result ≡ true) ↔ FilesAreTaken log.now log2.now pages.now }
{
    let folder = Folder {
        log: front_of(log),
        log2: front_of(log2),
        pages: pages_front_of(pages),
        has_part: false,
    };
    is_together(&folder) && !has_older_pages(&folder, log, log2, pages)
}

// Whether the files of a folder belong together.
fn is_together(folder: &Folder) -> bool
    ensures { (result ≡ true) ↔ AreTogether folder.now }
{
    belong(folder).is_ok()
}

// The beginning of a log.
fn front_of(file: &[u8]) -> Front
    ensures { result ≡ front_in file.now }
{
    Front {
        long: file.len() as u64,
        bytes: beginning(file),
        is_there: true,
    }
}

// The first bytes of a file, zeros where it has no more.
fn beginning(file: &[u8]) -> [u8; FRONT]
    ensures { result ≡ take 65 (file.now ++ replicate 65 0) }
{
    let mut bytes = [0; FRONT];
    if file.len() < FRONT {
        bytes[..file.len()].copy_from_slice(file);
    } else {
        bytes.copy_from_slice(&file[..FRONT]);
    }
    bytes
}

// The beginning of a file of pages.
fn pages_front_of(file: &[u8]) -> PagesFront
    ensures { result ≡ pages_front_in file.now }
{
    let bytes = if file.len() >= PAGE_SIZE {
        first_bytes(file)
    } else {
        [0; FIRST_BYTES]
    };
    PagesFront {
        long: file.len() as u64,
        bytes,
        is_there: true,
    }
}

// The first bytes of a file that has so many.
fn first_bytes(file: &[u8]) -> [u8; FIRST_BYTES]
    requires { 28 ≤ length file.now }
    ensures { result ≡ take 28 file.now }
{
    let mut bytes = [0; FIRST_BYTES];
    bytes.copy_from_slice(&file[..FIRST_BYTES]);
    bytes
}

// Whether a page is older than its newest change in the log that was left.
fn has_older_pages(folder: &Folder, log: &[u8], log2: &[u8], pages: &[u8]) -> bool
    ensures { (result ≡ true) ↔ HasOlderPages log.now log2.now pages.now folder.now }
{
    let left = walked(LeftLog::begin(folder), log, log2);
    let found = walked(left.go_on(folder), log, log2);
    let many = (pages.len() / PAGE_SIZE) as u64;
    is_older(&found, many, lsn_of(pages, found.page))
}

// A walk from there on, to the end of its log.
fn walked(start: LeftLog, log: &[u8], log2: &[u8]) -> LeftLog
    ensures { result ≡ walked_of log.now log2.now start }
{
    let mut walk = start;
    let file = if walk.is_log2 { log2 } else { log };
    let place = walk.place;
    if place <= file.len() as u64 {
        walk.take(&file[place as usize..]);
    }
    walk
}

// The LSN of a page, 0 where the file has not the whole page.
fn lsn_of(pages: &[u8], page: u32) -> u64
    ensures { result ≡ lsn_of_page pages.now page }
{
    if page as usize >= pages.len() / PAGE_SIZE {
        return 0;
    }
    let at = page as usize * PAGE_SIZE;
    let mut lsn = [0; 8];
    lsn.copy_from_slice(&pages[at..at + 8]);
    u64::from_be_bytes(lsn)
}
