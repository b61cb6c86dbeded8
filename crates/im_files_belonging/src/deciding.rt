//! The decision as a number, for C.
ghost use Rattle.std.specs.Prelude.{◌≡◌};
ghost use Rattle.im_files_belonging.specs.Belonging.{word_of, DecidesBelonging};

use crate::belonging::{Apart, Logs, belong};
use crate::folder::Folder;
use im_base_types::FileId;

// The number of a verdict.
fn word(verdict: Result<Logs, Apart>) -> u32
    ensures { result ≡ word_of verdict }
{
    match verdict {
        Ok(logs) => { if logs.is_made { 1 } else { 0 } }
        Err(Apart::NoFile(FileId::Log)) => 2,
        Err(Apart::NoFile(FileId::Log2)) => 3,
        Err(Apart::NoFile(FileId::Pages)) => 4,
        Err(Apart::NoPages) => 4,
        Err(Apart::ShortPages) => 5,
        Err(Apart::NotALog(FileId::Log)) => 6,
        Err(Apart::NotALog(FileId::Log2)) => 7,
        Err(Apart::NotALog(FileId::Pages)) => 8,
        Err(Apart::Unfinished) => 9,
    }
}

/// What `belong` answers of the files of a folder, as a number: 0 where they belong together and no log was made, 1 where one was; 2 where `log` is missing, 3
/// `log2`, 4 `pages`; 5 where `pages` was cut; 6 where `log` is no log, 7 where `log2` is none; 9 where a copy into
/// the folder was not finished.
pub fn decide(folder: &Folder) -> u32
    ensures { DecidesBelonging folder.now result }
{
    word(belong(folder))
}
