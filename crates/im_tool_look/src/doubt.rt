//! Whether the first byte of the newer log may be damaged.

use crate::current::CurrentLog;
use crate::files::Files;
use im_base_types::{Fault, FileId};
use im_files_belonging::{FRONT, Front, may_lack_first_byte};

/// The file that is not the current log, where it may be the newer one, whose first byte is damaged: all else of a newer log stands there. No opening asks this, since
/// a stop can leave such bytes.
///
/// Refused `Device`.
pub fn doubted_log<F: Files>(files: &mut F, log: &CurrentLog) -> Result<Option<FileId>, Fault> {
    let other = front(files, log.other_file())?;
    let current = front(files, log.file)?;
    if log.start.is_some() && may_lack_first_byte(&other, &current) {
        Ok(Some(log.other_file()))
    } else {
        Ok(None)
    }
}

/// The beginning of a log.
pub(crate) fn front<F: Files>(files: &mut F, file: FileId) -> Result<Front, Fault> {
    let mut front = Front::NONE;
    front.is_there = true;
    front.long = files.length(file)?;
    let size = usize::try_from(front.long).unwrap_or(FRONT).min(FRONT);
    files.fill(file, 0, &mut front.bytes[..size])?;
    Ok(front)
}
