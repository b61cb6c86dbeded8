//! The calls of a page, over leaves of 150 and of 200 entries with keys of eight bytes.
//!
//! Without words it does each work once and prints what came out, the same each run, and whether a search halves what it
//! searches. With `--time` it prints the nanoseconds of each call. `crates/im_bench/peer/page.c` does the same work in C over the same bytes and
//! prints the same lines for each leaf, so that the two can be compared: `cc -O2 -o page crates/im_bench/peer/page.c && ./page --time`, in the same
//! minute.

mod numbers;
mod work;

use crate::figures::{is_timed, show};
use anyhow::Result;
use im_page::Page;
use std::time::Instant;
use work::{edited, filled, found, read, split};

/// Leaves of both sizes, and whether a search halves.
pub fn run(rt: &HostRuntime, words: &[String]) -> Result<()> {
    let timed = is_timed(words);
    leaf(rt, 150, timed)?;
    leaf(rt, 200, timed)?;
    if timed { Ok(()) } else { halves(rt) }
}

/// How many searches are timed at once.
const SEARCHES: u64 = 1_600;

/// Whether a search among 200 entries takes less than six times one among 8. One that halves what it searches makes some seven
/// comparisons there and three here, and one that goes from entry to entry a hundred and four. No contract counts them.
fn halves(rt: &HostRuntime) -> Result<()> {
    let many = quickest(rt, 200)?;
    let few = quickest(rt, 8)?;
    let is_less = many < few.saturating_mul(6);
    println!(rt; "a search of 200 entries takes less than six times one of 8: {is_less}")?;
    Ok(())
}

/// The nanoseconds of so many searches in a leaf of this many entries, the least of a hundred times.
fn quickest(rt: &HostRuntime, count: u64) -> Result<u128> {
    let mut page = Page::initial(1);
    filled(&mut page, count);
    let mut least = u128::MAX;
    let mut sum = 0u64;
    for _ in 0..100 {
        // What came out before decides on a round more, so that no two times are one.
        let rounds = (SEARCHES / count.max(1)).saturating_add(sum % 2);
        let start = Instant::now(rt)?;
        sum = sum.wrapping_add(found(&page, count, rounds));
        let nanos = start.elapsed(rt)?.as_nanos();
        least = least.min(nanos);
    }
    Ok(least)
}

/// Each work over a leaf of so many entries.
fn leaf(rt: &HostRuntime, count: u64, timed: bool) -> Result<()> {
    let rounds = if timed { 20_000 } else { 1 };
    let mut page = Page::initial(1);
    let kept = filled(&mut page, count);
    println!(rt; "leaf {count} entries {kept}")?;
    show_found(rt, &page, count, rounds, timed)?;
    let start = Instant::now(rt)?;
    let sum = edited(&mut page, count, rounds);
    let nanos = start.elapsed(rt)?.as_nanos();
    show(rt, "edit", sum, nanos, rounds.wrapping_mul(count), timed)?;
    show_read(rt, &page, rounds, timed)?;
    let mut left = Page::initial(1);
    let mut right = Page::initial(1);
    let start = Instant::now(rt)?;
    let sum = split(&page, &mut left, &mut right, rounds);
    let nanos = start.elapsed(rt)?.as_nanos();
    show(rt, "split", sum, nanos, rounds, timed)
}

fn show_found(rt: &HostRuntime, page: &Page, count: u64, rounds: u64, timed: bool) -> Result<()> {
    let start = Instant::now(rt)?;
    let sum = found(page, count, rounds);
    let nanos = start.elapsed(rt)?.as_nanos();
    show(rt, "find", sum, nanos, rounds.wrapping_mul(count), timed)
}

fn show_read(rt: &HostRuntime, page: &Page, rounds: u64, timed: bool) -> Result<()> {
    let mut source = Page::initial(1);
    source.load(page.bytes())?;
    let start = Instant::now(rt)?;
    let sum = read(&mut source, rounds);
    let nanos = start.elapsed(rt)?.as_nanos();
    show(rt, "read", sum, nanos, rounds, timed)
}
