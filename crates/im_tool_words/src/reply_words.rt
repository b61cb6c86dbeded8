//! The words of replies.

use crate::entry_text::{ENTRY_ROOM, put_entry};
use im_base_steps::{Blocker, Reply};
use im_base_types::{Key, Rid};
use std::io;
use std::io::Write;

/// Writes the words of a reply, without a newline. Keys are in hexadecimal.
pub fn reply_text<W: Write>(writer: &mut W, reply: &Reply) -> io::Result<()> {
    match reply {
        Reply::Started(number) => write!(writer, "started {number}"),
        Reply::Found(rid) => write!(writer, "found {rid}"),
        Reply::Absent => write!(writer, "absent"),
        Reply::Entry(key, rid) => {
            write!(writer, "entry")?;
            entry_words(writer, key, *rid)
        }
        Reply::End => write!(writer, "end"),
        Reply::Entries(list) => {
            write!(writer, "entries")?;
            entries_words(writer, list)
        }
        Reply::Inserted => write!(writer, "inserted"),
        Reply::Duplicate => write!(writer, "duplicate"),
        Reply::Deleted => write!(writer, "deleted"),
        Reply::Committed => write!(writer, "committed"),
        Reply::RolledBack => write!(writer, "rolledback"),
        Reply::More => write!(writer, "more"),
        Reply::Blocked(Blocker::Lock(holder)) => write!(writer, "blocked lock {holder}"),
        Reply::Blocked(Blocker::Tree) => write!(writer, "blocked tree"),
        Reply::Die => write!(writer, "die"),
        Reply::Done => write!(writer, "done"),
        Reply::Refused(fault) => write!(writer, "refused {}", fault.number()),
    }
}

// An entry after other words, by one write.
fn entry_words<W: Write>(writer: &mut W, key: &Key, rid: Rid) -> io::Result<()> {
    let mut text = [b' '; ENTRY_ROOM];
    let end = put_entry(&mut text, key.bytes(), rid);
    writer.write_all(&text[..end])
}

// Entries after other words, each by one write.
fn entries_words<W: Write>(writer: &mut W, list: &[(Key, Rid)]) -> io::Result<()> {
    let mut text = [b' '; ENTRY_ROOM];
    for (key, rid) in list {
        let end = put_entry(&mut text, key.bytes(), *rid);
        writer.write_all(&text[..end])?;
    }
    Ok(())
}
