//! One long run of a store: what no contract can say of it, as counts that are the same each run.
//!
//! A step may always be refused for want of memory, so a contract is met by a store that gives up at some size, and no clause counts
//! device calls. This run shows both. It fills a store with ten thousand keys of 255 bytes, until the root has split at its fourth level,
//! which changes a page or two on each level at once; opens it again, which redoes all these changes in eight frames; reads every key while no
//! page is changed; lists all; has three transactions that never commit taken back by openings, two after splits and one that deleted
//! pages; and deletes all keys, through which leaves go whose pages above have no other child. Of each part it prints how many steps had the
//! reply that they should have, and how many had another one; the device calls of each kind; what the pages are for; and how long the
//! files are.
//!
//! Then it stops a life at each of its device calls in turn, one whose transaction never commits and stands after splits on two levels and
//! after a page deletion, and in the same way the opening that takes this transaction back, and counts after how many stops the next
//! opening finds just what was committed.

mod looks;
mod stops;

ghost use Rattle.std.specs.Prelude.{◌≡◌, false};

use crate::long::looks::{listed, pages_by_kind};
use crate::long::stops::{Doubt, Life, founded, losing, stopped_at_each};
use crate::opened::opened;
use anyhow::Result;
use im_base_disk::Disk;
use im_base_model_disk::ModelDisk;
use im_base_two_logs::Renamed;
use im_base_types::{FileId, MOST_FRAMES, PAGE_SIZE};
use im_bench_layers::counted::{Counted, show_calls};
use im_bench_layers::memory::MemoryDisk;
use im_bench_layers::page_kinds::{Kinds, show_kinds};
use im_bench_layers::spans::{Order, Span, Work, all_committed, worked_and_forced};
use im_bench_layers::tally::{Tally, show_tally};
use im_engine::Engine;
use std::thread::Threads;

/// How many keys the store has.
const KEYS: u64 = 10_000;

/// No page that the run takes has this number or a greater one.
const PAGES: u32 = 2_048;

/// Does it, and prints its counts.
pub fn run<R: Threads + Sync>(rt: &HostRuntime, threads: &R) -> Result<()> {
    let mut disk = MemoryDisk::new(rt.alloc());
    for opening in &OPENINGS {
        disk = lived(rt, threads, disk.at_rest(), opening)?;
    }
    stopped(rt, threads)
}

/// An opening of the store, by its name, in so many frames, and what is done then.
struct Opening {
    frames: usize,
    name: &'static str,
    parts: &'static [Part],
}

/// A part of what is done.
enum Part {
    /// Every key is inserted.
    Fill,
    /// Every key is read, and then all are listed, while no page is changed.
    Read,
    /// What the store has is printed.
    Show,
    /// A transaction does this, and the store ends before it commits; the next opening takes it back.
    Lose(Losing),
    /// All keys go, in rising order.
    Empty,
}

const OPENINGS: [Opening; 6] = [
    Opening {
        frames: MOST_FRAMES,
        name: "created",
        parts: &[Part::Fill],
    },
    Opening {
        frames: 8,
        name: "opened again",
        parts: &[Part::Read, Part::Lose(FALLING)],
    },
    Opening {
        frames: 64,
        name: "taken back",
        parts: &[Part::Show, Part::Lose(SCATTERED)],
    },
    Opening {
        frames: 64,
        name: "taken back",
        parts: &[Part::Show, Part::Lose(DELETES)],
    },
    Opening {
        frames: 64,
        name: "taken back",
        parts: &[Part::Show, Part::Empty],
    },
    Opening {
        frames: 64,
        name: "opened empty",
        parts: &[Part::Show],
    },
];

/// What a transaction does that never commits.
#[derive(Clone, Copy)]
struct Losing {
    name: &'static str,
    work: Work,
    span: Span,
}

/// Keys above those that are there, in falling order. Their leaves split, so that most of them lie on other pages than their records
/// name, and their undo leaves each such leaf empty.
const FALLING: Losing = Losing {
    name: "inserts of a loser, falling",
    work: Work::Insert,
    span: Span {
        first: 20_001,
        keys: 400,
        order: Order::Falling,
    },
};

/// Keys above those that are there, in scattered order, whose leaves split as well.
const SCATTERED: Losing = Losing {
    name: "inserts of a loser, scattered",
    work: Work::Insert,
    span: Span {
        first: 30_001,
        keys: 600,
        order: Order::Scattered,
    },
};

/// Keys that are there, so many that pages go on each level.
const DELETES: Losing = Losing {
    name: "deletes of a loser",
    work: Work::Delete,
    span: Span {
        first: 0,
        keys: 1_500,
        order: Order::Rising,
    },
};

// A life of the store: its opening, and what is done then.
fn lived<R: Threads + Sync>(
    rt: &HostRuntime,
    threads: &R,
    disk: MemoryDisk,
    opening: &Opening,
) -> Result<MemoryDisk>
    requires { ⟦<MemoryDisk as Disk>⟧.failed disk ≡ false }
{
    let mut engine = opened(threads, rt.alloc(), Counted::new(disk), opening.frames)?;
    each_done(rt, &mut engine, opening)?;
    Ok(engine.into_disk().into_disk().into_disk())
}

// Says what the opening took, and does the parts.
fn each_done(
    rt: &HostRuntime,
    engine: &mut Engine<Renamed<Counted<MemoryDisk>>>,
    opening: &Opening,
) -> Result<()> {
    println!(rt; "{} in {} frames", opening.name, opening.frames)?;
    show_calls(rt, engine.disk().disk().calls())?;
    for part in opening.parts {
        done(rt, engine, part)?;
    }
    Ok(())
}

fn done(
    rt: &HostRuntime,
    engine: &mut Engine<Renamed<Counted<MemoryDisk>>>,
    part: &Part,
) -> Result<()> {
    match part {
        Part::Fill => {
            each_transaction(rt, engine, "filled", Work::Insert, Order::Rising)?;
            show_pages(rt, engine)
        }
        Part::Read => {
            each_transaction(rt, engine, "read", Work::Fetch, Order::Scattered)?;
            show_entries(rt, engine)
        }
        Part::Show => show_all(rt, engine),
        Part::Lose(losing) => lose(rt, engine, losing),
        Part::Empty => {
            each_transaction(rt, engine, "emptied", Work::Delete, Order::Rising)?;
            show_all(rt, engine)
        }
    }
}

// The steps of a transaction that never commits, and a force after them.
fn lose(
    rt: &HostRuntime,
    engine: &mut Engine<Renamed<Counted<MemoryDisk>>>,
    losing: &Losing,
) -> Result<()> {
    let tally = worked_and_forced(rt.alloc(), engine, losing.work, losing.span)?;
    println!(rt; "{}", losing.name)?;
    show_tally(rt, tally)?;
    show_calls(rt, engine.disk().disk().calls())
}

// Makes a work of all keys, by transactions that commit.
fn each_transaction(
    rt: &HostRuntime,
    engine: &mut Engine<Renamed<Counted<MemoryDisk>>>,
    name: &str,
    work: Work,
    order: Order,
) -> Result<()> {
    let tally = all_committed(rt.alloc(), engine, work, KEYS, order)?;
    println!(rt; "{name}")?;
    show_tally(rt, tally)?;
    show_calls(rt, engine.disk().disk().calls())
}

// Stops of a life whose transaction never commits, and of the opening that takes it back.
fn stopped<R: Threads + Sync>(rt: &HostRuntime, threads: &R) -> Result<()> {
    let base = founded(threads, rt.alloc())?;
    stopped_on(rt, threads, &base)
}

// The same on copies of a disk that has what is committed.
fn stopped_on<R: Threads + Sync>(rt: &HostRuntime, threads: &R, base: &ModelDisk) -> Result<()> {
    let (tally, kinds, lost) = losing(threads, rt.alloc(), base)?;
    show_losing(rt, tally, kinds)?;
    show_all_stops(rt, threads, base, &lost)
}

// ---- lines

// What the store has, and what its pages are for.
fn show_all(rt: &HostRuntime, engine: &mut Engine<Renamed<Counted<MemoryDisk>>>) -> Result<()> {
    show_entries(rt, engine)?;
    show_pages(rt, engine)
}

fn show_entries(rt: &HostRuntime, engine: &mut Engine<Renamed<Counted<MemoryDisk>>>) -> Result<()> {
    let (entries, right) = listed(rt.alloc(), engine)?;
    println!(rt; "  entries: {entries}, right {right}")?;
    Ok(())
}

fn show_pages(rt: &HostRuntime, engine: &mut Engine<Renamed<Counted<MemoryDisk>>>) -> Result<()> {
    let kinds = pages_by_kind(engine, PAGES)?;
    let pages = engine.disk().disk().disk().size(FileId::Pages) / PAGE_SIZE;
    let log = engine.disk().disk().disk().size(FileId::Log);
    show_kinds(rt, kinds)?;
    println!(rt; "  files: {pages} pages, log {log} bytes")?;
    Ok(())
}

fn show_losing(rt: &HostRuntime, tally: Tally, kinds: Kinds) -> Result<()> {
    println!(rt; "a loser behind splits on two levels and a page deletion")?;
    show_tally(rt, tally)?;
    show_kinds(rt, kinds)
}

fn show_all_stops<R: Threads + Sync>(
    rt: &HostRuntime,
    threads: &R,
    base: &ModelDisk,
    lost: &ModelDisk,
) -> Result<()> {
    show_stops(rt, threads, "its life", base, Life::Losing)?;
    show_stops(rt, threads, "its opening", lost, Life::TakingBack)
}

fn show_stops<R: Threads + Sync>(
    rt: &HostRuntime,
    threads: &R,
    name: &str,
    disk: &ModelDisk,
    life: Life,
) -> Result<()> {
    for doubt in [Doubt::Written, Doubt::Byte(0), Doubt::Short(255)] {
        let stops = stopped_at_each(threads, rt.alloc(), disk, life, doubt)?;
        println!(rt;
            "  {name}, {doubt:?}: stops {}, right {}",
            stops.calls, stops.right
        )?;
    }
    Ok(())
}
