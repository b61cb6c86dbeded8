//! A tree of pages: look-ups in one whose pages are made at once (`look_ups`), and a store that is filled, searched and emptied key by key.
//!
//! Without words it prints how many steps came out as they should and how many device calls they took, the same each run. With
//! `--time` it prints the nanoseconds of each step beside them. Keys have eight bytes. The disk is in memory, the pool has 1,024
//! frames, the most that it can have, and a transaction makes 1,000 steps, its Commit among what is timed.
//!
//! # Figures
//!
//! Nanoseconds of a look-up, with nothing else running:
//!
//! | Tree | Look-up | in C |
//! |---|---|---|
//! | 100,107 keys in 681 leaves, each page held | 337 | 438 |
//! | 1,000,041 keys in 6,803 leaves, one page in seven held | 1,228 to 1,358 | 1,496 to 1,586 |
//! | the same, memory in pages of 2 MiB | 1,188 to 1,316 | |
//!
//! The first row is the least of ten runs, and of a plain walk in C (`cc -O2`) of pages of the same bytes that all stand in memory, with no
//! pool and no checks, in turn with them. The second is fourteen runs, four of them (1,228 to 1,311) in turn with
//! `crates/im_bench/peer/pool.c`: a pool of 1,024 frames by use in arrays, with a table of the pages' frames, one copy for a page that is not
//! held, and a test of what comes in, by flags; with no test it took 738 to 813. The third is ten runs with
//! `GLIBC_TUNABLES=glibc.malloc.hugetlb=1`, in turn with ten of the second. Half an hour before, the same host gave half of itself: sixteen runs
//! took 1,474 to 2,180, and C in turn with eight of them 1,874 to 2,261.
//!
//! A look-up goes through three pages. Leaves seven tenths full of such keys fit into the pool up to some 149,000 keys. In the second
//! tree most look-ups read their leaf. By samples of all that `--time` does here, the copy from the memory of the disk into a frame takes a
//! third of the time, the test of its form 15 %, the search of pages 21 %, the pool's maps 15 %.
//!
//! These leaves are filled in order. Of a store that was filled with 1,000,000 keys in scattered order (`im_bench store --time --keys 1000000
//! --frames 1024`), a look-up by the engine's step, with its lock, took 1,564 and 1,592 for a key that is there.
//!
//! With its lock, and the locks of each thousand given back, a look-up in the first tree took 1.28 times what the same took without, in the
//! middle of ten pairs (0.95 to 1.58; the least of each 428 and 337), and in the second 1.16 times.
//!
//! Nanoseconds of a step on a store that is filled with 100,000 keys, searched and emptied, each the least of some runs, beside a tree in C of
//! pages of the same bytes, which logs nothing, has no pool and keeps empty leaves; its figures are the least and the most of the runs:
//!
//! | Order of the keys | Insert | in C | Look-up | in C | Delete | in C |
//! |---|---|---|---|---|---|---|
//! | rising | 1,000 | 120 to 260 | 207 | 132 to 203 | 1,100 | 180 to 380 |
//! | scattered | 1,300 | 310 to 500 | 369 | 310 to 497 | 1,500 | 520 to 730 |

use crate::look_ups::look_up;
use crate::opened::opened;
use anyhow::Result;
use im_base_model_disk::ModelDisk;
use im_base_two_logs::Renamed;
use im_base_types::MOST_FRAMES;
use im_bench_layers::figures::{is_timed, show_of};
use im_bench_layers::works::{Order, Part, Work, worked};
use im_engine::Engine;
use std::thread::Threads;
use std::time::Instant;

/// How many steps a transaction makes.
const STEPS: u64 = 1_000;

/// What is done with a store, in turn, and its line's name.
const WORKS: [(Work, &str); 3] = [
    (Work::Insert, "insert"),
    (Work::Present, "look-up"),
    (Work::Delete, "delete"),
];

/// Look-ups in made trees, and stores that are filled, searched and emptied.
pub fn run<R: Threads + Sync>(rt: &HostRuntime, threads: &R, words: &[String]) -> Result<()> {
    let timed = is_timed(words);
    let shapes = if timed { [681, 6_803] } else { [400, 1_400] };
    for leaves in shapes {
        look_up(rt, leaves, timed)?;
    }
    fill(rt, threads, Order::Rising, timed)?;
    fill(rt, threads, Order::Scattered, timed)
}

/// Each work over a store, with its keys in this order.
fn fill<R: Threads + Sync>(rt: &HostRuntime, threads: &R, order: Order, timed: bool) -> Result<()> {
    let alloc = rt.alloc();
    let disk = ModelDisk::new(Vec::new(alloc), Vec::new(alloc));
    let mut engine = opened(threads, alloc, disk, MOST_FRAMES)?;
    each_done(rt, &mut engine, order, timed)
}

/// Each work in turn over a new store.
fn each_done(
    rt: &HostRuntime,
    engine: &mut Engine<Renamed<ModelDisk>>,
    order: Order,
    timed: bool,
) -> Result<()> {
    let keys = if timed { 100_000 } else { 2_000 };
    println!(rt; "{keys} keys, {}", name_of(order))?;
    for (work, name) in WORKS {
        let part = Part {
            work,
            order,
            first: 0,
            keys,
            each: STEPS,
        };
        let before = engine.disk().disk().calls();
        let start = Instant::now(rt)?;
        let sum = worked(rt.alloc(), engine, part)?;
        let nanos = start.elapsed(rt)?.as_nanos();
        let calls = engine.disk().disk().calls().wrapping_sub(before);
        show_of(rt, name, sum, keys, nanos, timed)?;
        println!(rt; "device calls {calls}")?;
    }
    Ok(())
}

fn name_of(order: Order) -> &'static str {
    match order {
        Order::Rising => "rising",
        Order::Scattered => "scattered",
    }
}
