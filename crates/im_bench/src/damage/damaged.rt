//! Openings of damaged files, and what they come to.

use crate::opened::opened;
use im_base_steps::Step;
use im_base_two_logs::Renamed;
use im_base_types::{Fault, FileId, Key, PAGE_SIZE, Rid};
use im_bench_layers::bounded::{BoundedDisk, Files};
use im_bench_layers::founding::{are_committed, found, make_each};
use im_bench_layers::spans::{Order, Span, Work, committed};
use im_bench_layers::tally::Tally;
use im_engine::Engine;
use std::alloc::Global;
use std::thread::Threads;

/// In how few frames the store is opened, so that pages are written on the way.
const FRAMES: usize = 8;

/// Which byte is damaged.
#[derive(Clone, Copy)]
pub struct Damaged {
    pub file: FileId,
    pub at: usize,
}

/// What comes of one damaged byte.
#[derive(Clone, Copy)]
pub enum Outcome {
    /// The opening finds just what was committed.
    Right,
    /// It finds other entries, or the entries cannot be listed as the pages are no tree.
    Others,
    /// There is no store.
    NoStore,
    /// Anything else: another refusal, or the disk came to its bound.
    Bad,
}

/// How often each came.
#[derive(Clone, Copy, Default)]
pub struct Outcomes {
    pub all: u64,
    pub right: u64,
    pub others: u64,
    pub refused: u64,
    pub bad: u64,
}

impl Outcomes {
    /// One more.
    pub fn add(&mut self, outcome: Outcome) {
        self.all = self.all.wrapping_add(1);
        match outcome {
            Outcome::Right => self.right = self.right.wrapping_add(1),
            Outcome::Others => self.others = self.others.wrapping_add(1),
            Outcome::NoStore => self.refused = self.refused.wrapping_add(1),
            Outcome::Bad => self.bad = self.bad.wrapping_add(1),
        }
    }
}

/// Opens the files with one byte damaged, lists the entries, and then makes steps of each kind and writes each page.
pub fn judged<R: Threads + Sync>(
    rt: &R,
    alloc: Global,
    files: &Files,
    damaged: Damaged,
) -> Result<Outcome, Fault> {
    let mut files = files.copy(alloc).map_err(|_| Fault::Memory)?;
    files.damage(damaged.file, damaged.at);
    match opened(rt, alloc, BoundedDisk::new(files), FRAMES) {
        Ok(mut engine) => used(alloc, &mut engine),
        Err(Fault::NotAStore) => Ok(Outcome::NoStore),
        Err(_) => Ok(Outcome::Bad),
    }
}

// What the entries, and the steps after them, come to.
fn used(alloc: Global, engine: &mut Engine<Renamed<BoundedDisk>>) -> Result<Outcome, Fault> {
    let outcome = listed(alloc, engine)?;
    make_each(alloc, engine)?;
    Ok(if engine.disk().disk().is_at_bound() {
        Outcome::Bad
    } else {
        outcome
    })
}

// What the list of the entries comes to.
fn listed(alloc: Global, engine: &mut Engine<Renamed<BoundedDisk>>) -> Result<Outcome, Fault> {
    match engine.entries(alloc) {
        Ok(entries) => judged_by(alloc, &entries),
        Err(Fault::NotAStore) => Ok(Outcome::Others),
        Err(_) => Ok(Outcome::Bad),
    }
}

// What entries that were listed come to.
fn judged_by(alloc: Global, entries: &[(Key, Rid)]) -> Result<Outcome, Fault> {
    Ok(if are_committed(alloc, entries)? {
        Outcome::Right
    } else {
        Outcome::Others
    })
}

/// The files of the store, in which a third transaction has changed keys that it never committed.
pub fn founded<R: Threads + Sync>(rt: &R, alloc: Global) -> Result<Files, Fault> {
    let files = Files {
        log: Vec::new(alloc),
        pages: Vec::new(alloc),
        log2: Vec::new(alloc),
    };
    let mut engine = opened(rt, alloc, BoundedDisk::new(files), FRAMES)?;
    found(alloc, &mut engine)?;
    Ok(engine.into_disk().into_disk().into_files())
}

// More pages than the store has.
const PAGES: u32 = 64;

// Writes each page, and takes a Checkpoint after that.
fn write_all(engine: &mut Engine<Renamed<BoundedDisk>>) {
    for page in 0..PAGES {
        let _reply = engine.step(&Step::FlushPage(page));
    }
    let _reply = engine.step(&Step::Checkpoint);
}

/// The same files after an opening that takes the third transaction back, with all pages written and a Checkpoint after them.
pub fn closed<R: Threads + Sync>(rt: &R, alloc: Global, files: &Files) -> Result<Files, Fault> {
    let files = files.copy(alloc).map_err(|_| Fault::Memory)?;
    let mut engine = opened(rt, alloc, BoundedDisk::new(files), FRAMES)?;
    write_all(&mut engine);
    Ok(engine.into_disk().into_disk().into_files())
}

// Keys after all others, by which leaves split.
const MORE: Span = Span {
    first: 400,
    keys: 60,
    order: Order::Rising,
};

/// By how many pages the file grows where keys are inserted until leaves split, and all pages written. 0 where the opening is refused.
pub fn pages_taken<R: Threads + Sync>(rt: &R, alloc: Global, files: Files) -> Result<u64, Fault> {
    let before = files.size(FileId::Pages);
    let disk = BoundedDisk::new(files);
    let Ok(mut engine) = opened(rt, alloc, disk, FRAMES) else {
        return Ok(0);
    };
    let mut tally = Tally::default();
    committed(alloc, &mut engine, Work::Insert, MORE, &mut tally)?;
    write_all(&mut engine);
    let behind = engine
        .into_disk()
        .into_disk()
        .into_files()
        .size(FileId::Pages);
    Ok((behind.saturating_sub(before) / PAGE_SIZE) as u64)
}
