//! A round of redo by several workers: their pages and their count, and that two are at work at once.
ghost use Rattle.std.specs.Prelude.{◌<◌, OnOk};
ghost use Rattle.im_page_writer.specs.PageWriter.{IsReadyWriter};

use crate::page_writer::change_each;
use crate::writers::{end, new_disk, open};
use im_base_disk::Disk;
use im_base_model_disk::ModelDisk;
use im_base_types::{Fault, Lsn, PageNo, StartAtOnce, WorkerStart};
use im_log_record::Record;
use im_page_rounds::workers_for;
use im_page_writer::PageWriter;
use std::alloc::Global;
use std::collections::BTreeMap;
use std::sync::atomic::{AtomicBool, Ordering};
use std::test::Fail;
use std::thread;
use std::thread::Threads;

// The pages of the round.
const PAGES: [PageNo; 6] = [2, 3, 4, 5, 6, 7];

// Where its part of the log begins.
const FROM: Lsn = 500;

// The records of a round: their LSNs, and their part of the log.
#[derive(Drop)]
struct Round {
    lsns: Vec<Lsn>,
    span: Vec<u8>,
}

// Adds an insert of a key of one byte into a page.
fn add(round: &mut Round, page: PageNo, key: u8) -> Result<(), Fault> {
    let mut bytes = [0; 64];
    let key = [key];
    let record = Record::InsertKey {
        transaction: 1,
        prev: 0,
        page,
        key: &key,
        rid: 7,
    };
    let size = record.encode(&mut bytes, 0);
    let lsn = FROM.saturating_add(round.span.len() as u64);
    round.lsns.push(lsn).map_err(|_| Fault::Memory)?;
    round
        .span
        .extend_from_slice(&bytes[..size])
        .map_err(|_| Fault::Memory)
}

// Adds an insert of a key into each page.
fn add_each(round: &mut Round, key: u8) -> Result<(), Fault> {
    for page in 2..8 {
        add(round, page, key)?;
    }
    Ok(())
}

// Three keys for each page, page after page.
fn three_keys(alloc: Global) -> Result<Round, Fault> {
    let mut round = Round {
        lsns: Vec::new(alloc),
        span: Vec::new(alloc),
    };
    add_each(&mut round, 1)?;
    add_each(&mut round, 2)?;
    add_each(&mut round, 3)?;
    Ok(round)
}

// Adds the bytes of the round's pages to a list.
fn add_pages<D: Disk>(
    writer: &mut PageWriter,
    disk: &mut D,
    found: &mut Vec<u8>,
) -> Result<(), Fault>
    requires ready { IsReadyWriter D.Disk writer.old disk.old }
    ensures ready { OnOk result (IsReadyWriter D.Disk writer.new disk.new) }
{
    for page in 2..8 {
        let frame = writer.get(disk, page)?;
        found
            .extend_from_slice(writer.page(frame).bytes())
            .map_err(|_| Fault::Memory)?;
    }
    Ok(())
}

// Redoes the round by so many workers, over pages that are empty leaves, and answers how many records were applied. The pages' bytes are
// added to a list. Refused `NotAStore` where the pages were not all held.
fn redo<D: Disk, R: Threads + Sync, T: WorkerStart + Sync>(
    rt: &R,
    alloc: Global,
    at_start: &T,
    writer: &mut PageWriter,
    disk: &mut D,
    workers: usize,
    found: &mut Vec<u8>,
) -> Result<u64, Fault>
    requires some { 0 < workers }
    requires ready { IsReadyWriter D.Disk writer.old disk.old }
{
    let round = three_keys(alloc)?;
    let mut workers = workers_for(alloc, workers, 6)?;
    change_each(writer, disk, 2, 8)?;
    let applied = writer.redo_round(
        rt,
        at_start,
        disk,
        36,
        &BTreeMap::new(alloc),
        &PAGES,
        &mut workers,
        &round.lsns,
        FROM,
        &round.span,
    )?;
    add_pages(writer, disk, found)?;
    applied.ok_or(Fault::NotAStore)
}

// The same over a store of its own.
fn redo_by<R: Threads + Sync, T: WorkerStart + Sync>(
    rt: &R,
    alloc: Global,
    at_start: &T,
    workers: usize,
    found: &mut Vec<u8>,
) -> Result<u64, Fault>
    requires some { 0 < workers }
{
    let mut disk = new_disk(alloc);
    let mut writer = open(alloc, &mut disk)?;
    let applied = redo(rt, alloc, at_start, &mut writer, &mut disk, workers, found);
    end(writer, disk);
    applied
}

#[test]
fn workers_leave_the_pages_that_one_leaves(rt: HostRuntime) -> Result<(), Fail> {
    let alloc = rt.alloc();
    let mut one = Vec::new(alloc);
    assert!(rt; redo_by(&rt, alloc, &StartAtOnce, 1, &mut one)? == 18);
    for workers in [2, 3, 16] {
        let mut found = Vec::new(alloc);
        assert!(rt; redo_by(&rt, alloc, &StartAtOnce, workers, &mut found)? == 18);
        assert!(rt; found.as_slice() == one.as_slice());
    }
    Ok(())
}

// Two workers that wait for one another, each for a while.
#[derive(Drop)]
struct Meet {
    came: [AtomicBool; 2],
    met: [AtomicBool; 2],
}

impl WorkerStart for Meet {
    fn worker_starts(&self, worker: u64) {
        let (mine, other) = if worker == 0 { (0, 1) } else { (1, 0) };
        self.came[mine].store(true, Ordering::SeqCst);
        for _look in 0..2_000_000_000u64 {
            if self.came[other].load(Ordering::SeqCst) {
                self.met[mine].store(true, Ordering::SeqCst);
                break;
            }
            thread::yield_now();
        }
    }
}

#[test]
fn redo_two_at_once(rt: HostRuntime) -> Result<(), Fail> {
    let alloc = rt.alloc();
    let meet = Meet {
        came: [AtomicBool::new(false), AtomicBool::new(false)],
        met: [AtomicBool::new(false), AtomicBool::new(false)],
    };
    let mut found = Vec::new(alloc);
    assert!(rt; redo_by(&rt, alloc, &meet, 2, &mut found)? == 18);
    assert!(rt; meet.met[0].load(Ordering::SeqCst) && meet.met[1].load(Ordering::SeqCst));
    Ok(())
}
