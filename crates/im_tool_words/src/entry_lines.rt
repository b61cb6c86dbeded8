//! The entries of a store as text.

use crate::entry_text::{ENTRY_ROOM, put_entry};
use im_base_types::{Key, Rid};
use std::io;
use std::io::Write;

/// Writes the word and how many entries there are, and then each, one a line: the key in hexadecimal, and its row id.
pub fn entries_text<W: Write>(
    writer: &mut W,
    word: &str,
    entries: &[(Key, Rid)],
) -> io::Result<()> {
    writeln!(writer, "{word} {}", entries.len())?;
    let mut text = [b' '; ENTRY_ROOM];
    for (key, rid) in entries {
        let end = put_entry(&mut text, key.bytes(), *rid);
        text[end] = b'\n';
        writer.write_all(&text[1..end + 1])?;
    }
    Ok(())
}
