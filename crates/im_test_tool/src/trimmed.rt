//! The log that a store has left, cut to its first batch, and the current one, which has no record, to its closed gate: by a trim, and by a close.

use crate::copies::{Copies, copies_in, file_in, is_whole};
use crate::looked::{answered, fill, leave, numbers_of};
use crate::mixed::has_part;
use im_files_disk::FileDisk;
use im_store::Bounds;
use im_tool::store_program;
use im_tool_user::Manner;
use std::alloc::{AllocError, Global};
use std::fs;
use std::process::Abort;
use std::test::Fail;
use std::thread::Threads;

const TRIMMED: &str = "im_tool_trimmed";

const CLOSED: &str = "im_tool_cut";

fn strings_of(alloc: Global, words: &[&str]) -> Result<Vec<String>, AllocError> {
    let mut strings = Vec::new(alloc);
    for word in words {
        strings.push(String::from_str(alloc, word)?)?;
    }
    Ok(strings)
}

// The exit status of a trim of a folder.
fn trimmed<R: Threads + Sync>(rt: &HostRuntime, threads: &R, folder: &str) -> Result<u8, Fail> {
    let words = strings_of(rt.alloc(), &["imstore", "--trim", folder])?;
    Ok(store_program(rt, threads, &words)?)
}

// The lengths of the logs.
fn lengths(rt: &HostRuntime, folder: &str) -> Result<(usize, usize), Fail> {
    let log = file_in(rt, folder, "log")?.len();
    let log2 = file_in(rt, folder, "log2")?.len();
    Ok((log, log2))
}

// Whether a store has so many keys.
fn is_counted<R: Threads + Sync>(
    rt: &R,
    alloc: Global,
    copies: &Copies,
    count: u64,
) -> Result<bool, Fail> {
    let said = format!(in alloc; "entries {count}\n")?;
    let (status, numbers) = numbers_of(rt, alloc, copies)?;
    Ok(status == 0 && has_part(&numbers, said.as_str()))
}

// Whether the store is whole, and has so many keys.
fn has_keys<R: Threads + Sync>(
    rt: &HostRuntime,
    threads: &R,
    folder: &str,
    count: u64,
) -> Result<bool, Fail> {
    let copies = copies_in(rt, folder)?;
    Ok(is_counted(threads, rt.alloc(), &copies, count)? && is_whole(threads, rt.alloc(), &copies)?)
}

// The status of a trim while the store is open elsewhere.
fn trimmed_meanwhile<R: Threads + Sync>(rt: &HostRuntime, threads: &R) -> Result<u8, Fail> {
    let _disk = FileDisk::open(rt, TRIMMED)?;
    trimmed(rt, threads, TRIMMED)
}

// Which log is cut: of a store whose log never went on none.
#[derive(Clone, Copy)]
enum Left {
    Nothing,
    First,
    Second,
    // The first one, which is the current one and has no record.
    Current,
}

// Where the first batch of a log ends that began with one insert of a key of one byte, and its commit.
const FIRST_BATCH: usize = 128;

// How long a log is that has no record.
const EMPTY: usize = 48;

// The lengths that a trim leaves of these.
fn left_of(left: Left, lengths: (usize, usize)) -> (usize, usize) {
    match left {
        Left::Nothing => lengths,
        Left::First => (FIRST_BATCH, lengths.1),
        Left::Second => (lengths.0, FIRST_BATCH),
        Left::Current => (EMPTY, lengths.1),
    }
}

// Lines in turn for one folder, which no close cuts, how many keys the store then has, and what a trim cuts.
static TURNS: [(&str, u64, Left); 3] = [
    ("begin\ninsert 1 a 1\ncommit 1\n", 1, Left::Nothing),
    ("switch\nbegin\ninsert 2 b 2\ncommit 2\n", 2, Left::First),
    ("switch\nbegin\ninsert 3 c 3\ncommit 3\n", 3, Left::Second),
];

// Whether the logs are as long as one that was left is cut.
fn is_cut(left: Left, lengths: (usize, usize)) -> bool {
    match left {
        Left::Nothing => lengths.0 > FIRST_BATCH,
        Left::First => lengths.0 == FIRST_BATCH && lengths.1 > FIRST_BATCH,
        Left::Second => lengths.0 > FIRST_BATCH && lengths.1 == FIRST_BATCH,
        Left::Current => lengths.0 == EMPTY,
    }
}

// Whether a trim is refused, and does nothing, while the store is open, and whether two then cut that, and no key goes.
fn is_trimmed<R: Threads + Sync>(
    rt: &HostRuntime,
    threads: &R,
    count: u64,
    left: Left,
) -> Result<bool, Fail> {
    let before = lengths(rt, TRIMMED)?;
    if trimmed_meanwhile(rt, threads)? != 1 || lengths(rt, TRIMMED)? != before {
        return Ok(false);
    }
    if is_cut(Left::First, before) || is_cut(Left::Second, before) {
        return Ok(false);
    }
    for _time in 0..2u8 {
        if trimmed(rt, threads, TRIMMED)? != 0 || lengths(rt, TRIMMED)? != left_of(left, before) {
            return Ok(false);
        }
    }
    has_keys(rt, threads, TRIMMED, count)
}

// The rows are lent, here and below: a proof about a function that names a table has all of it at each step.
fn each_is_trimmed<R: Abort + Threads + Sync>(
    rt: &HostRuntime,
    threads: &R,
    turns: &[(&str, u64, Left)],
) -> Result<(), Fail> {
    for (lines, count, left) in turns {
        leave(rt, threads, TRIMMED, lines.as_bytes())?;
        assert!(threads; is_trimmed(rt, threads, *count, *left)?, "{count}");
    }
    fs::remove_dir_all(rt, TRIMMED)?;
    Ok(())
}

#[test]
fn the_log_that_a_store_left_is_cut_to_its_first_batch(rt: HostRuntime) -> Result<(), Fail> {
    let _ = fs::remove_dir_all(&rt, TRIMMED);
    assert!(rt; trimmed(&rt, &rt, TRIMMED)? == 1 && !fs::exists(&rt, TRIMMED)?);
    each_is_trimmed(&rt, &rt, &TURNS)
}

// How a life ends.
#[derive(Clone, Copy)]
enum End {
    // It is closed in order.
    Closed,
    // It is left as a stop leaves it.
    Stopped,
    // It is closed over files that the system lets no program cut.
    Refused,
}

// Lives in turn of one folder: their lines, how each ends, how many keys the store then has, and which log is cut by then.
static LIVES: [(&str, End, u64, Left); 7] = [
    (
        "begin\ninsert 1 a 1\ncommit 1\n",
        End::Closed,
        1,
        Left::Nothing,
    ),
    (
        "switch\nbegin\ninsert 2 b 2\ncommit 2\n",
        End::Stopped,
        2,
        Left::Nothing,
    ),
    ("", End::Refused, 2, Left::Nothing),
    ("", End::Closed, 2, Left::First),
    ("", End::Closed, 2, Left::First),
    (
        "switch\nbegin\ninsert 3 c 3\ncommit 3\n",
        End::Closed,
        3,
        Left::Second,
    ),
    ("switch\nswitch\n", End::Closed, 3, Left::Current),
];

// Whether a close that may not cut says so, and of which file.
fn is_refused<R: Threads + Sync>(
    rt: &HostRuntime,
    threads: &R,
    lines: &[u8],
) -> Result<bool, Fail> {
    let disk = FileDisk::open_to_read(rt, CLOSED)?;
    let (printed, told) = answered(
        threads,
        rt.alloc(),
        disk,
        Bounds::of_bytes(0, 0),
        Manner::default(),
        lines,
    )?;
    Ok(
        printed.as_slice() == b"close refused 8\n".as_slice()
            && told.starts_with(b"imstore: folder: `log` was not cut to 128 bytes: "),
    )
}

// Makes a life. Whether it ends as it should.
fn ends<R: Threads + Sync>(
    rt: &HostRuntime,
    threads: &R,
    lines: &[u8],
    end: End,
) -> Result<bool, Fail> {
    match end {
        End::Closed => fill(rt, threads, CLOSED, lines)?,
        End::Stopped => leave(rt, threads, CLOSED, lines)?,
        End::Refused => return is_refused(rt, threads, lines),
    }
    Ok(true)
}

fn each_ends<R: Abort + Threads + Sync>(
    rt: &HostRuntime,
    threads: &R,
    lives: &[(&str, End, u64, Left)],
) -> Result<(), Fail> {
    for (lines, end, count, left) in lives {
        assert!(threads;
            ends(rt, threads, lines.as_bytes(), *end)?
                && is_cut(*left, lengths(rt, CLOSED)?)
                && has_keys(rt, threads, CLOSED, *count)?,
            "{lines}"
        );
    }
    fs::remove_dir_all(rt, CLOSED)?;
    Ok(())
}

#[test]
fn a_close_cuts_the_log_that_was_left(rt: HostRuntime) -> Result<(), Fail> {
    let _ = fs::remove_dir_all(&rt, CLOSED);
    each_ends(&rt, &rt, &LIVES)
}
