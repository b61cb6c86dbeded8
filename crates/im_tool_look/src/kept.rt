//! How much of the log that was left stays where it is cut.

use crate::doubt::front;
use crate::files::Files;
use im_base_types::{Fault, FileId};
use im_files_belonging::{Folder, LogCuts, PagesFront};

/// How much of the log that was left for the current one stays where it is cut, as `im_files_belonging` decides it: up to the end of its first batch. 0 where it does not begin with
/// a batch, or was not made: then no opening reads a record of it.
///
/// Refused `Device`.
pub fn kept_of_left<F: Files>(files: &mut F) -> Result<u64, Fault> {
    let folder = Folder {
        log: front(files, FileId::Log)?,
        log2: front(files, FileId::Log2)?,
        pages: PagesFront::NONE,
        has_part: false,
    };
    Ok(LogCuts::of(&folder).kept)
}
