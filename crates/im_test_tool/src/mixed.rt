//! Files that do not belong together, and calls of the system that fail.

use crate::copies::{Copies, FIRST_GATE, copied, said_of, taken_from};
use crate::looked::{answered, fill_within, numbers_of};
use im_base_model_disk::ModelDisk;
use im_base_two_logs::Renamed;
use im_base_types::{Fault, PAGE_SIZE};
use im_engine::{Config, Engine};
use im_files_disk::FileDisk;
use im_store::Bounds;
use im_tool_user::Manner;
use std::alloc::Global;
use std::io::Write;
use std::process::Abort;
use std::test::Fail;
use std::thread::Threads;
use std::{fs, io};

// What is done to the files of a store.
#[derive(Clone, Copy, Debug)]
enum Damage {
    // `pages` has no byte.
    Emptied,
    // `pages` has the first page alone.
    Cut,
    // Page 0 says another page count.
    Counted,
    // The log has no record.
    Unlogged,
    // `pages` is as long, and no page of it is one.
    Overwritten,
}

// What the check of a store says that was so damaged, and whether its opening is refused.
static DAMAGES: [(Damage, &str, bool); 5] = [
    (
        Damage::Emptied,
        "pages: the file has 0 whole pages, and it was synced with page ",
        true,
    ),
    (
        Damage::Cut,
        "pages: the file has 1 whole pages, and it was synced with page ",
        true,
    ),
    (Damage::Counted, "page 0: it says ", false),
    (
        Damage::Unlogged,
        "the log was cut, or is older than the page",
        true,
    ),
    (Damage::Overwritten, "page 0: ", false),
];

// Sixty keys of 255 bytes, in leaves of fifteen.
fn write_lines(lines: &mut Vec<u8>) -> io::Result<()> {
    lines.extend_from_slice(b"begin\n")?;
    for n in 10..70u32 {
        writeln!(lines, "insert 1 {n}+z*253 {n}")?;
    }
    lines.extend_from_slice(b"commit 1\n")?;
    Ok(())
}

// Makes a store in a folder, which is closed in order within bounds of a MiB.
fn make_store<R: Threads + Sync>(rt: &HostRuntime, threads: &R, folder: &str) -> Result<(), Fail> {
    let _ = fs::remove_dir_all(rt, folder);
    let mut lines = Vec::new(rt.alloc());
    write_lines(&mut lines)?;
    fill_within(rt, threads, folder, Bounds::of_bytes(1_048_576, 0), &lines)
}

fn damaged(alloc: Global, copies: &Copies, damage: Damage) -> Result<Copies, Fail> {
    let mut files = copied(alloc, copies)?;
    match damage {
        Damage::Emptied => files.pages.clear(),
        Damage::Cut => files.pages.truncate(PAGE_SIZE),
        Damage::Counted => {
            if let Some(byte) = files.pages.get_mut(24) {
                *byte = *byte ^ 1;
            }
        }
        Damage::Unlogged => {
            files.log.truncate(FIRST_GATE);
            files.log.push(0)?;
        }
        Damage::Overwritten => files.pages.fill(0x7f),
    }
    Ok(files)
}

pub(crate) fn has_part(text: &[u8], part: &str) -> bool {
    text.windows(part.len().max(1))
        .any(|words| words == part.as_bytes())
}

// Whether the check says this of the files, and the numbers are not told.
fn is_named<R: Threads + Sync>(
    rt: &R,
    alloc: Global,
    copies: &Copies,
    damage: Damage,
    name: &str,
) -> Result<bool, Fail> {
    let copies = damaged(alloc, copies, damage)?;
    let (check, printed) = said_of(rt, alloc, &copies)?;
    let (stat, numbers) = numbers_of(rt, alloc, &copies)?;
    Ok(check == 1 && stat == 1 && has_part(&printed, name) && has_part(&numbers, name))
}

// Whether the opening is refused, or the first look at page 0 is.
fn is_refused<R: Threads + Sync>(
    rt: &R,
    alloc: Global,
    copies: &Copies,
    damage: Damage,
    in_opening: bool,
) -> Result<bool, Fail> {
    let files = damaged(alloc, copies, damage)?;
    let disk = ModelDisk::with_log2(files.log, files.pages, files.log2);
    Ok(
        match Engine::open_or_create(rt, alloc, Renamed::new(disk, false), Config::default()) {
            Ok(mut engine) => {
                let looked = matches!(&engine.header(0), Err(Fault::NotAStore));
                let _disk = engine.into_disk();
                !in_opening && looked
            }
            Err((fault, _disk)) => in_opening && fault == Fault::NotAStore,
        },
    )
}

fn each_is_refused<R: Abort + Threads + Sync>(
    rt: &R,
    alloc: Global,
    copies: &Copies,
    rows: &[(Damage, &str, bool)],
) -> Result<(), Fail> {
    for (damage, name, in_opening) in rows {
        assert!(rt;
            is_named(rt, alloc, copies, *damage, name)?
                && is_refused(rt, alloc, copies, *damage, *in_opening)?,
            "{damage:?}"
        );
    }
    Ok(())
}

// A store that was closed in order is opened without a look at a page: also where none of the file's bytes is one.
#[test]
fn files_that_do_not_belong_together_are_refused_by_name(rt: HostRuntime) -> Result<(), Fail> {
    make_store(&rt, &rt, "im_tool_mixed")?;
    let copies = taken_from(&rt, "im_tool_mixed")?;
    each_is_refused(&rt, rt.alloc(), &copies, &DAMAGES)
}

// Whether a commit in a folder that is opened to be read only is refused, and its call is told.
fn is_failing<R: Threads + Sync>(
    rt: &HostRuntime,
    threads: &R,
    folder: &str,
) -> Result<bool, Fail> {
    let disk = FileDisk::open_to_read(rt, folder)?;
    let lines = b"begin\ninsert 2 a 1\ncommit 2\n";
    let (printed, told) = answered(
        threads,
        rt.alloc(),
        disk,
        Bounds::of_bytes(1_048_576, 0),
        Manner::default(),
        lines,
    )?;
    Ok(
        printed.starts_with(b"started 2\ninserted\nrefused 8\n")
            && told.starts_with(b"imstore: folder: a write to `log` at byte "),
    )
}

// The files are opened to be read only: the system refuses the first write.
#[test]
fn a_call_that_fails_is_named(rt: HostRuntime) -> Result<(), Fail> {
    make_store(&rt, &rt, "im_tool_failing")?;
    assert!(rt; is_failing(&rt, &rt, "im_tool_failing")?);
    fs::remove_dir_all(&rt, "im_tool_failing")?;
    Ok(())
}
