//! What is said of a store that was not opened.

use im_base_types::Fault;
use im_files_disk::OpenError;
use std::fmt::Display;
use std::io;
use std::io::Write;

/// Says something of the folder on standard error. Where that is closed nobody reads it.
pub fn tell<T: Display>(rt: &HostRuntime, dir: &str, words: &T) {
    let _ = eprintln!(rt; "imstore: {dir}: {words}");
}

/// Says on standard error why a store was not opened.
pub fn tell_unopened(rt: &HostRuntime, dir: &str, error: &OpenError) {
    tell(rt, dir, error);
}

/// Says on standard error why the files of a store were not opened that it has. No folder is made for that.
pub fn tell_unread(rt: &HostRuntime, dir: &str, error: &OpenError) {
    match error {
        OpenError::NoFolder(_) => tell(rt, dir, &"there is no such folder"),
        _ => tell_unopened(rt, dir, error),
    }
}

/// Writes that the opening was refused.
pub fn print_refused_opening<W: Write>(writer: &mut W, fault: Fault) -> io::Result<()> {
    writeln!(writer, "open refused {}", fault.number())?;
    writer.flush()
}
