//! Whether the files of a folder belong together.
ghost use Rattle.std.specs.Prelude.{◌≡◌, ◌↔◌, true};
ghost use Rattle.im_files_belonging.specs.Belonging.{is_store, IsLongUnmade, IsVerdict, LacksLog, LacksLog2, LacksPages};

use crate::folder::{Folder, Front};
use crate::fronts::{is_made, is_second};
use crate::pages::{has_current_other, is_cut};
use im_base_types::FileId;

/// A stop of a creation leaves no more bytes of a log that was not made: its header, and the first gate.
const UNMADE_LOG: u64 = 48;

/// What the two logs of a folder say of it.
#[derive(Clone, Copy, Debug, PartialEq, Eq)]
pub struct Logs {
    /// One of them says that it was made.
    pub is_made: bool,
    /// `log2` is the current one.
    pub other_is_current: bool,
}

/// Why the files of a folder do not belong together.
#[derive(Clone, Copy, Debug, PartialEq, Eq)]
pub enum Apart {
    /// A copy into the folder was not finished, whatever its files hold.
    Unfinished,
    /// A log has bytes, and the other one, which was made before any byte was written, is missing.
    NoFile(FileId),
    /// A log says that it was made, and there is no file of pages, which was made before.
    NoPages,
    /// The file of pages is shorter than it was when the current log began.
    ShortPages,
    /// Neither log says that it was made, and this one is longer than a stop leaves one of which that is true.
    NotALog(FileId),
}

// One of the logs says that it was made.
fn has_store(folder: &Folder) -> bool
    ensures { result ≡ is_store folder.now }
{
    is_made(&folder.log) || is_made(&folder.log2)
}

// There is no `log` beside a `log2` with bytes.
fn lacks_log(folder: &Folder) -> bool
    ensures { (result ≡ true) ↔ LacksLog folder.now }
{
    !folder.log.is_there && folder.log2.long > 0
}

// There is no `log2` beside a `log` of the second format, which was made together with it.
fn lacks_log2(folder: &Folder) -> bool
    ensures { (result ≡ true) ↔ LacksLog2 folder.now }
{
    is_second(&folder.log) && !folder.log2.is_there
}

// There is no `pages` beside a log that was made.
fn lacks_pages(folder: &Folder) -> bool
    ensures { (result ≡ true) ↔ LacksPages folder.now }
{
    has_store(folder) && !folder.pages.is_there
}

// No log was made, and this one is longer than a creation leaves it.
fn is_long_unmade(folder: &Folder, log: &Front) -> bool
    ensures { (result ≡ true) ↔ IsLongUnmade folder.now log.now }
{
    !has_store(folder) && log.long > UNMADE_LOG
}

/// Decides whether the files of a folder belong together, by their beginnings: which log is the current one, or one of the reasons why they do not.
pub fn belong(folder: &Folder) -> Result<Logs, Apart>
    ensures { IsVerdict folder.now result }
{
    if folder.has_part {
        return Err(Apart::Unfinished);
    }
    if lacks_log(folder) {
        return Err(Apart::NoFile(FileId::Log));
    }
    if lacks_log2(folder) {
        return Err(Apart::NoFile(FileId::Log2));
    }
    if is_long_unmade(folder, &folder.log) {
        return Err(Apart::NotALog(FileId::Log));
    }
    if is_long_unmade(folder, &folder.log2) {
        return Err(Apart::NotALog(FileId::Log2));
    }
    if lacks_pages(folder) {
        return Err(Apart::NoPages);
    }
    if is_cut(folder) {
        return Err(Apart::ShortPages);
    }
    Ok(Logs {
        is_made: has_store(folder),
        other_is_current: has_current_other(folder),
    })
}
