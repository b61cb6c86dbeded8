//! A look at a store whose log goes on in the other file, and at logs of which one is damaged.

use crate::copies::{Copies, copied, file_in, is_whole, lay, said_of, taken_from};
use crate::looked::{fill, leave, numbers_of};
use crate::mixed::has_part;
use im_base_types::{Fault, PAGE_SIZE};
use im_files_disk::FileDisk;
use std::alloc::Global;
use std::io::Write;
use std::process::Abort;
use std::test::Fail;
use std::thread::Threads;
use std::{fs, io};

// The lines of a store that goes on in its other file, so many times.
fn write_lines(lines: &mut Vec<u8>, switches: u64, keys: Keys) -> io::Result<()> {
    write_keys(lines, 0, keys)?;
    for n in 1..switches.saturating_add(1) {
        lines.extend_from_slice(b"switch\n")?;
        write_keys(lines, n, keys)?;
    }
    Ok(())
}

// Whether a store has keys in each of its logs.
#[derive(Clone, Copy)]
enum Keys {
    None,
    InEachLog,
}

// Two transactions with a key each.
fn write_keys(lines: &mut Vec<u8>, n: u64, keys: Keys) -> io::Result<()> {
    let t = n.saturating_mul(2).saturating_add(1);
    let u = t.saturating_add(1);
    match keys {
        Keys::None => Ok(()),
        Keys::InEachLog => write!(
            lines,
            "begin\ninsert {t} a{n} {t}\ncommit {t}\nbegin\ninsert {u} b{n} {u}\ncommit {u}\n"
        ),
    }
}

// Makes such a store, which is not closed: a close cuts the log that was left.
fn make_store<R: Threads + Sync>(
    rt: &HostRuntime,
    threads: &R,
    folder: &str,
    switches: u64,
    keys: Keys,
) -> Result<(), Fail> {
    let _ = fs::remove_dir_all(rt, folder);
    let mut lines = Vec::new(rt.alloc());
    write_lines(&mut lines, switches, keys)?;
    leave(rt, threads, folder, &lines)
}

// What is told of a store after so many switches: its current log, and how many commits that has.
static LOGS: [(u64, &str, &str); 4] = [
    (0, "\nlog_generation 1\nlog_base 0\n", "\nlog_file log\n"),
    (1, "\nlog_generation 2\n", "\nlog_file log2\n"),
    (2, "\nlog_generation 3\n", "\nlog_file log\n"),
    (3, "\nlog_generation 4\n", "\nlog_file log2\n"),
];

// The files of such a store with keys, whose folder goes again.
fn copies_after<R: Threads + Sync>(
    rt: &HostRuntime,
    threads: &R,
    folder: &str,
    switches: u64,
) -> Result<Copies, Fail> {
    make_store(rt, threads, folder, switches, Keys::InEachLog)?;
    taken_from(rt, folder)
}

// Whether that is told of these files.
fn is_told<R: Threads + Sync>(
    rt: &R,
    alloc: Global,
    copies: &Copies,
    said: &str,
    file: &str,
) -> Result<bool, Fault> {
    let whole = is_whole(rt, alloc, copies)?;
    let (status, numbers) = numbers_of(rt, alloc, copies)?;
    Ok(
        whole
            && status == 0
            && has_part(&numbers, said)
            && has_part(&numbers, "\ncommits 2\n")
            && has_part(&numbers, "\ntransactions_to_undo 0\n")
            && has_part(&numbers, file),
    )
}

// Whether that is told of a store after so many switches.
fn is_told_after<R: Threads + Sync>(
    rt: &HostRuntime,
    threads: &R,
    switches: u64,
    said: &str,
    file: &str,
) -> Result<bool, Fail> {
    let copies = copies_after(rt, threads, "im_tool_logs", switches)?;
    Ok(is_told(threads, rt.alloc(), &copies, said, file)?)
}

fn each_is_told<R: Abort + Threads + Sync>(
    rt: &HostRuntime,
    threads: &R,
    rows: &[(u64, &str, &str)],
) -> Result<(), Fail> {
    for (switches, said, file) in rows {
        assert!(threads;
            is_told_after(rt, threads, *switches, said, file)?,
            "{switches}"
        );
    }
    Ok(())
}

#[test]
fn a_store_is_looked_at_by_its_current_log(rt: HostRuntime) -> Result<(), Fail> {
    each_is_told(&rt, &rt, &LOGS)
}

// Where bytes of a log are changed: of `log`, which is of generation 1, or of `log2`, which is of generation 2.
#[derive(Clone, Copy, Debug, PartialEq, Eq)]
enum Log {
    Older,
    Newer,
}

// What is written at a place of a log, and what the check says of the files then.
static DAMAGES: [(Log, usize, &[u8], &str); 8] = [
    // The first record names page 4096.
    (
        Log::Newer,
        81,
        &[0, 0, 0x10, 0],
        "page 0: it says 2 pages, and the log names page 4096: a record of the log is damaged, or the page is older than the log\n",
    ),
    (
        Log::Newer,
        16,
        &[0, 0, 0, 0, 0, 0, 0, 1],
        "log, log2: both are of generation 1, so that none is the newer one\n",
    ),
    (
        Log::Newer,
        16,
        &[0; 8],
        "log2: its header is none of a store\n",
    ),
    (
        Log::Newer,
        16,
        &[0x40, 0, 0, 0, 0, 0, 0, 0],
        "log2: its header is none of a store\n",
    ),
    (
        Log::Newer,
        24,
        &[0x40, 0, 0, 0, 0, 0, 0, 1],
        "log2: its header is none of a store\n",
    ),
    // The base is 2^62, so that the first gate has a greater LSN.
    (
        Log::Newer,
        24,
        &[0x40, 0, 0, 0, 0, 0, 0, 0],
        "log2: its header is none of a store\n",
    ),
    (Log::Older, 1, b"B", "log: its header is none of a store\n"),
    (
        Log::Older,
        16,
        &[0; 8],
        "log: its header is none of a store\n",
    ),
];

fn damaged(
    alloc: Global,
    copies: &Copies,
    log: Log,
    at: usize,
    bytes: &[u8],
) -> Result<Copies, Fail> {
    let mut files = copied(alloc, copies)?;
    match log {
        Log::Older => lay(&mut files.log, at, bytes),
        Log::Newer => lay(&mut files.log2, at, bytes),
    }
    Ok(files)
}

// Whether the check says this of files whose logs are so damaged.
fn is_named<R: Threads + Sync>(
    rt: &R,
    alloc: Global,
    copies: &Copies,
    log: Log,
    at: usize,
    bytes: &[u8],
    said: &str,
) -> Result<bool, Fail> {
    let files = damaged(alloc, copies, log, at, bytes)?;
    let (status, printed) = said_of(rt, alloc, &files)?;
    Ok(status == 1 && has_part(&printed, said))
}

// The rows are lent, here and below: a proof about a function that names so long a table has all of it at each step.
fn each_is_named<R: Abort + Threads + Sync>(
    rt: &R,
    alloc: Global,
    copies: &Copies,
    rows: &[(Log, usize, &[u8], &str)],
) -> Result<(), Fail> {
    for (log, at, bytes, said) in rows {
        assert!(rt;
            is_named(rt, alloc, copies, *log, *at, bytes, said)?,
            "{log:?} {at}"
        );
    }
    Ok(())
}

#[test]
fn a_damaged_log_is_named(rt: HostRuntime) -> Result<(), Fail> {
    let copies = copies_after(&rt, &rt, "im_tool_damaged", 1)?;
    each_is_named(&rt, rt.alloc(), &copies, &DAMAGES)
}

// What is written at a place of the newer log, whose first byte is damaged, and whether the check tells that.
static DOUBTS: [(usize, &[u8], bool); 2] = [(0, &[0], true), (47, &[0], false)];

// Whether the check tells that the first byte of the newer log, which is damaged, may be so.
fn is_doubted<R: Threads + Sync>(
    rt: &R,
    alloc: Global,
    copies: &Copies,
    at: usize,
    bytes: &[u8],
) -> Result<bool, Fail> {
    let mut files = damaged(alloc, copies, Log::Newer, 0, &[0])?;
    lay(&mut files.log2, at, bytes);
    let (_, printed) = said_of(rt, alloc, &files)?;
    Ok(has_part(
        &printed,
        "log2: behind its first byte, which is not 1, stand a newer header and a record: that byte may be damaged\n",
    ))
}

// One that a stop left in the midst of its making is not told: its first gate is closed.
#[test]
fn a_damaged_first_byte_is_told(rt: HostRuntime) -> Result<(), Fail> {
    let copies = copies_after(&rt, &rt, "im_tool_doubted", 1)?;
    each_is_doubted(&rt, rt.alloc(), &copies, &DOUBTS)
}

fn each_is_doubted<R: Abort + Threads + Sync>(
    rt: &R,
    alloc: Global,
    copies: &Copies,
    rows: &[(usize, &[u8], bool)],
) -> Result<(), Fail> {
    for (at, bytes, told) in rows {
        assert!(rt; is_doubted(rt, alloc, copies, *at, bytes)? == *told, "{at}");
    }
    Ok(())
}

// How many bytes `pages` has in the place of its own, all of them 0, and what the check says then.
static BEFORE: [(usize, &str); 2] = [
    (
        0,
        "pages: the file has 0 whole pages, and it was synced with page 1: pages are missing\n",
    ),
    (
        2 * PAGE_SIZE,
        "page 1: its LSN is 0, and its file was synced with its record at 134: the page is older than the log\n",
    ),
];

// Whether the check says this where `pages` has so many bytes.
fn is_compared<R: Threads + Sync>(
    rt: &R,
    alloc: Global,
    copies: &Copies,
    size: usize,
    said: &str,
) -> Result<bool, Fail> {
    let mut files = copied(alloc, copies)?;
    files.pages.clear();
    files.pages.resize(size, 0)?;
    let (status, printed) = said_of(rt, alloc, &files)?;
    Ok(status == 1 && has_part(&printed, said))
}

// The current log names no page that was synced: the log that was left for it does.
#[test]
fn pages_are_compared_with_the_log_before(rt: HostRuntime) -> Result<(), Fail> {
    let copies = copies_after(&rt, &rt, "im_tool_before", 1)?;
    each_is_compared(&rt, rt.alloc(), &copies, &BEFORE)
}

fn each_is_compared<R: Abort + Threads + Sync>(
    rt: &R,
    alloc: Global,
    copies: &Copies,
    rows: &[(usize, &str)],
) -> Result<(), Fail> {
    for (size, said) in rows {
        assert!(rt; is_compared(rt, alloc, copies, *size, said)?, "{size}");
    }
    Ok(())
}

// What is done in turn to the files of a store in a folder.
#[derive(Clone, Copy, Debug)]
enum Act {
    // A new store goes on in its other file, so many times, with keys of each of its logs.
    Make(u64),
    // A new store without keys goes on so.
    Empty(u64),
    // Steps are made.
    Fill(&'static str),
    // Bytes of a file are written over from a place on.
    Overwrite(&'static str, usize, &'static [u8]),
    // A file that is longer gets so many bytes.
    Cut(&'static str, usize),
    Remove(&'static str),
}

// What an opening then comes to.
#[derive(Clone, Copy, Debug)]
enum Comes {
    Open,
    // It is opened, and `pages` had so many bytes.
    OpenWith(usize),
    Refused(&'static str),
    // It is not read either.
    Unread(&'static str),
}

// Writes a file of a folder.
fn put_file(rt: &HostRuntime, folder: &str, name: &str, bytes: &[u8]) -> Result<(), Fail> {
    let path = format!(in rt.alloc(); "{folder}/{name}")?;
    fs::write(rt, path.as_str(), bytes)?;
    Ok(())
}

fn overwrite(
    rt: &HostRuntime,
    folder: &str,
    name: &str,
    at: usize,
    bytes: &[u8],
) -> Result<(), Fail> {
    let mut file = file_in(rt, folder, name)?;
    lay(&mut file, at, bytes);
    put_file(rt, folder, name, &file)
}

fn shorten(rt: &HostRuntime, folder: &str, name: &str, size: usize) -> Result<(), Fail> {
    let mut file = file_in(rt, folder, name)?;
    file.truncate(size);
    put_file(rt, folder, name, &file)
}

fn take_away(rt: &HostRuntime, folder: &str, name: &str) -> Result<(), Fail> {
    let path = format!(in rt.alloc(); "{folder}/{name}")?;
    fs::remove_file(rt, path.as_str())?;
    Ok(())
}

fn act_on<R: Threads + Sync>(
    rt: &HostRuntime,
    threads: &R,
    folder: &str,
    act: Act,
) -> Result<(), Fail> {
    match act {
        Act::Make(switches) => make_store(rt, threads, folder, switches, Keys::InEachLog),
        Act::Empty(switches) => make_store(rt, threads, folder, switches, Keys::None),
        Act::Fill(lines) => fill(rt, threads, folder, lines.as_bytes()),
        Act::Overwrite(name, at, bytes) => overwrite(rt, folder, name, at, bytes),
        Act::Cut(name, size) => shorten(rt, folder, name, size),
        Act::Remove(name) => take_away(rt, folder, name),
    }
}

// Whether an opening of a folder is refused as none of a store, with these words.
fn is_refused(rt: &HostRuntime, folder: &str, words: &str) -> Result<bool, Fail> {
    match FileDisk::open(rt, folder) {
        Ok(_) => Ok(false),
        Err(error) => {
            let said = format!(in rt.alloc(); "{error}")?;
            Ok(error.fault() == Fault::NotAStore && said.as_str() == words)
        }
    }
}

fn opens(rt: &HostRuntime, folder: &str) -> bool {
    FileDisk::open(rt, folder).is_ok()
}

fn is_unread(rt: &HostRuntime, folder: &str) -> bool {
    FileDisk::open_to_read(rt, folder).is_err()
}

fn comes_to(rt: &HostRuntime, folder: &str, comes: Comes) -> Result<bool, Fail> {
    match comes {
        Comes::Open => Ok(opens(rt, folder)),
        Comes::OpenWith(size) => {
            Ok(file_in(rt, folder, "pages")?.len() == size && opens(rt, folder))
        }
        Comes::Refused(words) => is_refused(rt, folder, words),
        Comes::Unread(words) => Ok(is_refused(rt, folder, words)? && is_unread(rt, folder)),
    }
}

// Whether an opening comes to that once this is done.
fn leads_to<R: Threads + Sync>(
    rt: &HostRuntime,
    threads: &R,
    folder: &str,
    act: Act,
    comes: Comes,
) -> Result<bool, Fail> {
    act_on(rt, threads, folder, act)?;
    comes_to(rt, folder, comes)
}

static TURNS: [(Act, Comes); 20] = [
    // A log whose first byte is damaged is passed over as one that a stop left in the midst of its making: the check tells it.
    (Act::Make(1), Comes::Open),
    (Act::Overwrite("log2", 0, &[0]), Comes::Open),
    (Act::Overwrite("log2", 47, &[0]), Comes::Open),
    (
        Act::Remove("log"),
        Comes::Refused("there is no `log` in it"),
    ),
    (Act::Make(0), Comes::Open),
    (
        Act::Remove("log2"),
        Comes::Refused(
            "there is no `log2` in it: bring it back; if it was empty, as in a store that never switched, an empty file will do",
        ),
    ),
    // Both of the first two pages were written before the log went on, as the one before has keys.
    (Act::Make(1), Comes::OpenWith(2 * PAGE_SIZE)),
    (
        Act::Cut("pages", PAGE_SIZE),
        Comes::Unread("`pages` in it lacks pages that the store had when its log began"),
    ),
    (
        Act::Cut("pages", 0),
        Comes::Refused("`pages` in it lacks pages that the store had when its log began"),
    ),
    // After a switch page 1 has the newest change of the log that was left.
    (Act::Make(1), Comes::Open),
    (Act::Fill("switch\n"), Comes::OpenWith(2 * PAGE_SIZE)),
    (
        Act::Overwrite("pages", PAGE_SIZE, &[0; 8]),
        Comes::Unread(
            "`pages` in it is older than its logs: it lacks the newest change from before the last switch",
        ),
    ),
    // So it has while the current log has no full copy of it: a stop may leave any bytes of a page that has one.
    (Act::Make(1), Comes::Open),
    (
        Act::Overwrite("pages", PAGE_SIZE, &[0; 8]),
        Comes::Refused(
            "`pages` in it is older than its logs: it lacks the newest change from before the last switch",
        ),
    ),
    (Act::Make(1), Comes::Open),
    (Act::Fill("flush 1\n"), Comes::OpenWith(2 * PAGE_SIZE)),
    (Act::Overwrite("pages", PAGE_SIZE, &[0; 8]), Comes::Open),
    // A store without keys has no pages, however often its log goes on; and the first that it writes may be there alone.
    (Act::Empty(100), Comes::OpenWith(0)),
    (
        Act::Fill("begin\ninsert 1 a 1\ncommit 1\nflush 0\nflush 1\n"),
        Comes::OpenWith(2 * PAGE_SIZE),
    ),
    (Act::Cut("pages", PAGE_SIZE), Comes::OpenWith(PAGE_SIZE)),
];

fn each_leads<R: Abort + Threads + Sync>(
    rt: &HostRuntime,
    threads: &R,
    folder: &str,
    turns: &[(Act, Comes)],
) -> Result<(), Fail> {
    for (act, comes) in turns {
        assert!(threads; leads_to(rt, threads, folder, *act, *comes)?, "{act:?}");
    }
    fs::remove_dir_all(rt, folder)?;
    Ok(())
}

#[test]
fn an_opening_asks_whether_the_files_are_all_there(rt: HostRuntime) -> Result<(), Fail> {
    each_leads(&rt, &rt, "im_tool_turns", &TURNS)
}

// Bytes 1 to 47 of a log of generation 4 that begins with the LSN 65,536, and allows transactions from 7 on.
static HEADER: [u8; 47] =
    *b"ARIESIM2\0\0\x10\0\0\0\0\0\0\0\0\0\0\0\x04\0\0\0\0\0\x01\0\0\0\0\0\0\0\0\0\x07\0\0\0\0\0\0\0\0";

// Whether a store is opened whose log was left with so many bytes of that header.
fn opens_cut(rt: &HostRuntime, folder: &str, log: &[u8], size: usize) -> Result<bool, Fail> {
    let mut log = Vec::from_slice(rt.alloc(), log)?;
    lay(&mut log, 0, &[0]);
    lay(&mut log, 1, HEADER.get(..size).unwrap_or(&[]));
    put_file(rt, folder, "log2", &log)?;
    Ok(opens(rt, folder))
}

// A stop within the write of a switch's header leaves bytes of it, and after them a record of the log before the current one.
#[test]
fn a_header_that_was_cut_is_no_damage(rt: HostRuntime) -> Result<(), Fail> {
    make_store(&rt, &rt, "im_tool_header", 2, Keys::InEachLog)?;
    let other = first_unopened(&rt, "im_tool_header")?;
    assert!(rt; other.is_none(), "{other:?}");
    fs::remove_dir_all(&rt, "im_tool_header")?;
    Ok(())
}

// The first length of that header with which the store in a folder is not opened.
fn first_unopened(rt: &HostRuntime, folder: &str) -> Result<Option<usize>, Fail> {
    let log = file_in(rt, folder, "log2")?;
    for size in 0..HEADER.len() {
        if !opens_cut(rt, folder, &log, size)? {
            return Ok(Some(size));
        }
    }
    Ok(None)
}
