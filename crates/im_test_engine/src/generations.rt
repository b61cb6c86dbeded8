//! A log that goes on over a tree that has split.

use crate::lives::short_key;
use crate::said::{Said, created, end, make, opened, opened_after_stop};
use im_base_disk::read_vec;
use im_base_model_disk::ModelDisk;
use im_base_steps::Step;
use im_base_two_logs::{Renamed, TwoLogs};
use im_base_types::{Fault, FileId};
use im_engine::{Config, Engine};
use std::alloc::Global;
use std::process::Abort;
use std::test::Fail;
use std::thread::Threads;

// A log of the second format with no batch. Its first byte has LSN 2^20, and the numbers of its transactions begin at 2.
static SECOND: [u8; 48] =
    *b"\x01ARIESIM2\0\0\x10\0\0\0\0\0\0\0\0\0\0\0\x02\0\0\0\0\0\x10\0\0\0\0\0\0\0\0\0\x02\0\0\0\0\0\0\0\0";

// Inserts a key in a transaction of its own, and answers what was said of the insert and of the Commit.
fn insert<D: TwoLogs>(
    alloc: Global,
    engine: &mut Engine<D>,
    t: u64,
    number: u32,
) -> Result<(Said, Said), Fail> {
    let key = short_key(alloc, number)?;
    let _ = make(engine, Step::Begin);
    let said = make(engine, Step::Insert(t, key, number as u64));
    Ok((said, make(engine, Step::Commit(t))))
}

// The bytes of the pages of a store with three hundred keys, all of them written.
fn pages_of_many<R: Threads + Sync>(rt: &R, alloc: Global) -> Result<Vec<u8>, Fail> {
    let mut engine = created(rt, alloc, Config::default())?;
    let _ = make(&mut engine, Step::Begin);
    for number in 0..300u32 {
        let key = short_key(alloc, number)?;
        let _ = make(&mut engine, Step::Insert(1, key, number as u64));
    }
    let _ = make(&mut engine, Step::Commit(1));
    for page in 0..4u32 {
        let _ = make(&mut engine, Step::FlushPage(page));
    }
    let mut left = engine.into_disk().into_disk().after_stop(alloc)?;
    let long = left.end(FileId::Pages) as usize;
    Ok(read_vec(alloc, &mut left, FileId::Pages, 0, long)?)
}

// A store whose log goes on over these pages.
fn goes_on<R: Threads + Sync>(
    rt: &R,
    alloc: Global,
    pages: Vec<u8>,
) -> Result<Engine<Renamed<ModelDisk>>, Fail> {
    let log = Vec::from_slice(alloc, &SECOND)?;
    Ok(opened(rt, alloc, ModelDisk::new(log, pages), Config::default())?)
}

#[test]
fn a_log_goes_on_over_a_tree_that_has_split(rt: HostRuntime) -> Result<(), Fail> {
    let alloc = rt.alloc();
    let pages = pages_of_many(&rt, alloc)?;
    assert!(rt; pages.len() == 4 * 4096);
    let mut engine = goes_on(&rt, alloc, pages)?;
    let next = opened_with_one_more(&rt, alloc, &mut engine);
    end(engine);
    let mut again = next?;
    let told = look_again(&rt, alloc, &mut again);
    end(again);
    told
}

// What an opening makes of a stop after the last insert.
fn opened_with_one_more<R: Abort + Threads + Sync>(
    rt: &R,
    alloc: Global,
    engine: &mut Engine<Renamed<ModelDisk>>,
) -> Result<Engine<Renamed<ModelDisk>>, Fail> {
    insert_last(rt, alloc, engine)?;
    Ok(opened_after_stop(rt, alloc, engine, Config::default())?)
}

// The new key lies in a page that neither the log nor its header says that there is.
fn insert_last<D: TwoLogs>(
    rt: &impl Abort,
    alloc: Global,
    engine: &mut Engine<D>,
) -> Result<(), Fail> {
    assert!(rt; insert(alloc, engine, 2, 300)? == (Said::Inserted, Said::Committed));
    Ok(())
}

fn look_again<D: TwoLogs>(
    rt: &impl Abort,
    alloc: Global,
    engine: &mut Engine<D>,
) -> Result<(), Fail> {
    assert!(rt; engine.entries(alloc)?.len() == 301);
    assert!(rt; insert(alloc, engine, 3, 301)? == (Said::Inserted, Said::Committed));
    Ok(())
}

// The place in that log of the page that its first record names.
const NAMED: usize = 81;

// What an opening is refused for of these files, where the first record of their log names this page.
fn refused_with<R: Threads + Sync>(
    rt: &R,
    alloc: Global,
    log: &[u8],
    pages: &[u8],
    page: u32,
) -> Result<Option<Fault>, Fail> {
    let mut log = Vec::from_slice(alloc, log)?;
    let pages = Vec::from_slice(alloc, pages)?;
    for (byte, new) in log.iter_mut().skip(NAMED).zip(page.to_be_bytes()) {
        *byte = new;
    }
    Ok(opened(rt, alloc, ModelDisk::new(log, pages), Config::default()).err())
}

// Page 0 of the file says four pages, the record names the last of them, and no record of the log says a page count.
#[test]
fn a_page_that_no_page_count_has_is_refused(rt: HostRuntime) -> Result<(), Fail> {
    let alloc = rt.alloc();
    let pages = pages_of_many(&rt, alloc)?;
    let mut engine = goes_on(&rt, alloc, pages)?;
    let told = insert(alloc, &mut engine, 2, 300);
    let disk = engine.into_disk().into_disk();
    assert!(rt; told? == (Said::Inserted, Said::Committed));
    let mut left = disk.after_stop(alloc)?;
    let long = left.end(FileId::Log) as usize;
    let log = read_vec(alloc, &mut left, FileId::Log, 0, long)?;
    let long = left.end(FileId::Pages) as usize;
    let pages = read_vec(alloc, &mut left, FileId::Pages, 0, long)?;
    assert!(rt; refused_with(&rt, alloc, &log, &pages, 3)?.is_none());
    assert!(rt; refused_with(&rt, alloc, &log, &pages, 4)? == Some(Fault::NotAStore));
    assert!(rt; refused_with(&rt, alloc, &log, &pages, 1 << 31)? == Some(Fault::NotAStore));
    Ok(())
}
