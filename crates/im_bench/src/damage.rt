//! One store of three levels whose files are damaged, byte by byte: what no contract can say of it. It prints whether enough bytes were damaged, and
//! whether each came to what it may.
//!
//! Every call is proved to return on any bytes, and what it then means is proved of sound files alone. This run shows what comes of damage.
//! The store has 140 keys of 255 bytes, in leaves under two inner pages and a root, a free page, and a transaction that never committed.
//!
//! A page's bytes are damaged beside a sound log: the log has a full copy of each page at or after its redo point, so an opening has to find
//! just what was committed. Then bytes of the log are damaged. No checksum tells that, so an opening may find other keys; but it opens, or says that
//! there is no store, and each step answers and each file stays below a bound. Bytes of the page numbers of records are left out.
//!
//! At last each bit of the page count in page 0 is changed, where all pages are written and a Checkpoint is after them, so that no full copy
//! restores it: a page that is then taken by that count would bring a write of all pages before it along.

mod damaged;

use crate::damage::damaged::{Damaged, Outcomes, closed, founded, judged, pages_taken};
use anyhow::Result;
use im_base_types::{FileId, MOST_FRAMES};
use im_bench_layers::bounded::Files;
use im_bench_layers::places::{is_in_page_number, page_numbers};
use std::cmp::max;
use std::thread::Threads;

/// Which bytes of a file are damaged in turn.
#[derive(Clone, Copy)]
struct Part {
    name: &'static str,
    file: FileId,
    end: usize,
    /// How far it is from one of them to the next.
    stride: usize,
}

/// Does it, and prints what came of it: with some bytes, by strides, or with each where the first word is `--all`.
pub fn run<R: Threads + Sync>(rt: &HostRuntime, threads: &R, words: &[String]) -> Result<()> {
    let each = !words.is_empty() && words[0].as_str() == "--all";
    let files = founded(threads, rt.alloc())?;
    show_parts(
        rt,
        threads,
        &files,
        if each { [1, 1, 1] } else { [409, 5, 2_801] },
    )?;
    show_count(rt, threads, &closed(threads, rt.alloc(), &files)?)
}

/// Where the page count stands in page 0, and so in the file.
const COUNT: usize = 24;

/// More pages than the steps take.
const MANY: u64 = 64;

// Changes each bit of the page count, and says whether a page is taken by one that was not changed, and by one that was.
fn show_count<R: Threads + Sync>(rt: &HostRuntime, threads: &R, files: &Files) -> Result<()> {
    let sound = pages_taken(threads, rt.alloc(), files.copy(rt.alloc())?)?;
    let mut most = 0u64;
    for bit in 0..32u32 {
        let mut changed = files.copy(rt.alloc())?;
        change(&mut changed.pages, bit);
        most = max(most, pages_taken(threads, rt.alloc(), changed)?);
    }
    println!(rt;
        "the page count: a page is taken by it {}, by none of 32 others {}",
        sound > 0 && sound < MANY,
        most == 0
    )?;
    Ok(())
}

// Changes a bit of the page count.
fn change(pages: &mut Vec<u8>, bit: u32) {
    let at = COUNT.saturating_add((bit / 8) as usize);
    if at < pages.len() {
        pages[at] = pages[at] ^ 1u8.wrapping_shl(bit % 8);
    }
}

// Damages bytes of each part, by these strides.
fn show_parts<R: Threads + Sync>(
    rt: &HostRuntime,
    threads: &R,
    files: &Files,
    strides: [usize; 3],
) -> Result<()> {
    let log = files.size(FileId::Log);
    let pages = files.size(FileId::Pages);
    let parts = [
        bytes_of("pages", FileId::Pages, pages, strides[0]),
        bytes_of(
            "the log's first 1,024 bytes",
            FileId::Log,
            MOST_FRAMES,
            strides[1],
        ),
        bytes_of("the log", FileId::Log, log, strides[2]),
    ];
    let numbers = page_numbers(rt.alloc(), &files.log)?;
    for part in parts {
        show(rt, threads, files, &numbers, part)?;
    }
    Ok(())
}

fn bytes_of(name: &'static str, file: FileId, end: usize, stride: usize) -> Part {
    Part {
        name,
        file,
        end,
        stride,
    }
}

// Damages the bytes of a part, one at a time, and says what comes of them.
fn show<R: Threads + Sync>(
    rt: &HostRuntime,
    threads: &R,
    files: &Files,
    numbers: &[usize],
    part: Part,
) -> Result<()> {
    let mut outcomes = Outcomes::default();
    let mut at = 0usize;
    for _ in 0..part.end {
        if at >= part.end {
            break;
        }
        if part.file == FileId::Pages || !is_in_page_number(numbers, at) {
            let damaged = Damaged {
                file: part.file,
                at,
            };
            outcomes.add(judged(threads, rt.alloc(), files, damaged)?);
        }
        at = at.saturating_add(part.stride);
    }
    let is_many = outcomes.all >= 100;
    let is_good = match part.file {
        FileId::Pages => outcomes.right == outcomes.all,
        FileId::Log | FileId::Log2 => outcomes.bad == 0,
    };
    println!(rt;
        "{}: 100 bytes or more {is_many}, each as it may be {is_good}",
        part.name
    )?;
    Ok(())
}
