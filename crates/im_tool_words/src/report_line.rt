//! What redo did in an opening, as text.

use im_base_types::Lsn;
use std::io;
use std::io::Write;

/// Writes what redo did in an opening, as a line: the LSN from which it went on, and how many records it applied.
pub fn report_text<W: Write>(writer: &mut W, point: Lsn, applied: u64) -> io::Result<()> {
    writeln!(writer, "redo {point} {applied}")
}
