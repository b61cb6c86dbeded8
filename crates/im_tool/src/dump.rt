//! The entries of a store, written as text.

use crate::entry_walk::EntryWalk;
use im_base_two_logs::TwoLogs;
use im_base_types::Fault;
use im_store::OpenStore;
use im_tool_files::Progress;
use im_tool_user::{Form, write_end, write_head, write_part};
use std::alloc::Global;
use std::io;
use std::io::Write;

/// How many entries are written between one word of the progress and the next.
const A_PART: u64 = 10_000;

/// Writes all entries of a store in a form, a part at a time, and tells how far it is. It answers the refusal of a step, if one was refused: then only a
/// part of the text may be there, and none where the entries could not be counted.
pub fn dump_text<D: TwoLogs + Drop, W: Write, P: Progress>(
    alloc: Global,
    store: &mut OpenStore<D>,
    writer: &mut W,
    form: Form,
    progress: &mut P,
) -> io::Result<Option<Fault>> {
    let all = match count_entries(alloc, store) {
        Ok(all) => all,
        Err(fault) => return Ok(Some(fault)),
    };
    write_head(writer, form, all)?;
    let walk = match EntryWalk::new(alloc) {
        Ok(walk) => walk,
        Err(fault) => return Ok(Some(fault)),
    };
    let refused = write_entries(alloc, store, writer, form, walk, all, progress)?;
    progress.end();
    if refused.is_none() {
        write_end(writer, form, all)?;
    }
    Ok(refused)
}

fn count_entries<D: TwoLogs + Drop>(alloc: Global, store: &mut OpenStore<D>) -> Result<u64, Fault> {
    let mut walk = EntryWalk::new(alloc)?;
    let mut all = 0u64;
    for _part in 0..u64::MAX {
        let part = walk.next_part(alloc, store)?;
        if part.is_empty() {
            break;
        }
        all = all.saturating_add(part.len() as u64);
    }
    Ok(all)
}

// Writes what is left of a walk, and answers the refusal of a step.
fn write_entries<D: TwoLogs + Drop, W: Write, P: Progress>(
    alloc: Global,
    store: &mut OpenStore<D>,
    writer: &mut W,
    form: Form,
    walk: EntryWalk,
    all: u64,
    progress: &mut P,
) -> io::Result<Option<Fault>> {
    let mut walk = walk;
    let mut done = 0u64;
    let mut shown = 0u64;
    for _part in 0..u64::MAX {
        let part = match walk.next_part(alloc, store) {
            Ok(part) => part,
            Err(fault) => return Ok(Some(fault)),
        };
        if part.is_empty() {
            break;
        }
        write_part(alloc, writer, form, &part)?;
        done = done.saturating_add(part.len() as u64);
        if done.saturating_sub(shown) >= A_PART || done == all {
            progress.show(done, Some(all));
            shown = done;
        }
    }
    Ok(None)
}
