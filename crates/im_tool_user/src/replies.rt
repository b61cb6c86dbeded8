//! Replies in words.

use crate::manner::Manner;
use im_base_steps::{Reply, Step};
use im_base_types::{Key, MOST_ENTRIES, Rid, TxnId};
use im_tool_look::write_key;
use im_tool_words::{entries_text, reply_text};
use std::alloc::Global;
use std::io;
use std::io::Write;

/// Writes the words of a reply, its keys as they can be typed where words are wanted.
pub fn print_reply<W: Write>(
    alloc: Global,
    writer: &mut W,
    manner: Manner,
    reply: &Reply,
) -> io::Result<()> {
    if !manner.has_words {
        return reply_text(writer, reply);
    }
    match reply {
        Reply::Entry(key, rid) => {
            write!(writer, "entry ")?;
            write_key(alloc, writer, key.bytes())?;
            write!(writer, " {rid}")
        }
        Reply::Entries(list) => {
            write!(writer, "entries")?;
            for (key, rid) in list {
                write!(writer, " ")?;
                write_key(alloc, writer, key.bytes())?;
                write!(writer, " {rid}")?;
            }
            Ok(())
        }
        _ => reply_text(writer, reply),
    }
}

/// Where a scan stopped at the most entries that it lists though more were asked for, writes a line that says how to go on.
pub fn print_stop<W: Write>(
    alloc: Global,
    writer: &mut W,
    step: &Step,
    reply: &Reply,
) -> io::Result<()> {
    if let Step::Scan(number, _, _, limit) = step {
        if let Reply::Entries(list) = reply {
            if *limit > MOST_ENTRIES as u64 && list.len() >= MOST_ENTRIES {
                return print_last(alloc, writer, *number, list);
            }
        }
    }
    Ok(())
}

fn print_last<W: Write>(
    alloc: Global,
    writer: &mut W,
    number: TxnId,
    list: &[(Key, Rid)],
) -> io::Result<()> {
    let Some((key, _)) = list.last() else {
        return Ok(());
    };
    write!(
        writer,
        "stopped at {} entries; to go on: next {number} ",
        list.len()
    )?;
    write_key(alloc, writer, key.bytes())?;
    writeln!(writer)
}

/// Writes how many entries there are, and each.
pub fn print_entries<W: Write>(
    alloc: Global,
    writer: &mut W,
    manner: Manner,
    entries: &[(Key, Rid)],
) -> io::Result<()> {
    if !manner.has_words {
        return entries_text(writer, "total", entries);
    }
    writeln!(writer, "total {}", entries.len())?;
    print_keys(alloc, writer, entries)
}

/// Writes each key as it can be typed, and its row id, one a line.
pub fn print_keys<W: Write>(
    alloc: Global,
    writer: &mut W,
    entries: &[(Key, Rid)],
) -> io::Result<()> {
    for (key, rid) in entries {
        write_key(alloc, writer, key.bytes())?;
        writeln!(writer, " {rid}")?;
    }
    Ok(())
}
