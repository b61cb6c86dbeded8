//! Lives of a store on the model disk.

use crate::said::{Said, are_said, created, end, make};
use im_base_disk::Disk;
use im_base_model_disk::ModelDisk;
use im_base_steps::Step;
use im_base_two_logs::{Renamed, TwoLogs};
use im_base_types::{FileId, PageKind, PageNo};
use im_engine::{BufferSize, Config, Engine, MoreFrames, live};
use std::alloc::Global;
use std::process::Abort;
use std::test::Fail;

fn key_of(alloc: Global, byte: u8) -> Result<Vec<u8>, Fail> {
    let mut key = Vec::new(alloc);
    key.push(byte)?;
    Ok(key)
}

// Begin, an insert and a Commit.
fn one_insert(alloc: Global, byte: u8, rid: u64) -> Result<Vec<Step>, Fail> {
    let mut steps = Vec::new(alloc);
    let key = key_of(alloc, byte)?;
    steps.push(Step::Begin)?;
    steps.push(Step::Insert(1, key, rid))?;
    steps.push(Step::Commit(1))?;
    Ok(steps)
}

// How many entries there are, the first byte of the first key, and its row id; zeros where there are none.
fn found<D: Disk>(alloc: Global, engine: &mut Engine<D>) -> Result<(usize, u8, u64), Fail> {
    let entries = engine.entries(alloc)?;
    match entries.get(0) {
        None => Ok((entries.len(), 0, 0)),
        Some(entry) => Ok((entries.len(), entry.0.bytes()[0], entry.1)),
    }
}

// Whether a life of one insert is answered so.
fn insert_is_said<D: TwoLogs>(
    alloc: Global,
    engine: &mut Engine<D>,
    said: &[Said],
) -> Result<bool, Fail> {
    let steps = one_insert(alloc, b'a', 7)?;
    let replies = engine.life(alloc, &steps)?;
    Ok(are_said(&replies, said))
}

// How many calls were made of a disk, and how long the log's file is.
fn left_on(disk: ModelDisk) -> (u64, u64) {
    (disk.calls(), disk.end(FileId::Log))
}

#[test]
fn one_insert_is_committed(rt: HostRuntime) -> Result<(), Fail> {
    let alloc = rt.alloc();
    let mut engine = created(&rt, alloc, Config::default())?;
    let told = commit_one(&rt, alloc, &mut engine);
    let left = left_on(engine.into_disk().into_disk());
    told?;
    // The log is 129 bytes; its first batch makes the file longer by the room of a batch, from after its gate on.
    assert!(rt; left == (10, 48 + 16_389));
    Ok(())
}

fn commit_one(
    rt: &impl Abort,
    alloc: Global,
    engine: &mut Engine<Renamed<ModelDisk>>,
) -> Result<(), Fail> {
    assert!(rt; engine.disk().disk().calls() == 6);
    let said = [Said::Started(1), Said::Inserted, Said::Committed];
    assert!(rt; insert_is_said(alloc, engine, &said)?);
    assert!(rt; found(alloc, engine)? == (1, b'a', 7));
    assert!(rt; engine.active() == 0);
    Ok(())
}

#[test]
fn a_life_gives_its_disk_back(rt: HostRuntime) -> Result<(), Fail> {
    let alloc = rt.alloc();
    let disk = Renamed::new(ModelDisk::new(Vec::new(alloc), Vec::new(alloc)), false);
    let steps = one_insert(alloc, b'a', 7)?;
    let (replies, disk) = live(&rt, alloc, disk, Config::default(), &steps);
    let (calls, _) = left_on(disk.into_disk());
    assert!(rt; (replies?.len(), calls) == (3, 10));
    Ok(())
}

// A page's kind, its level, and how many entries it has.
type Shape = (PageKind, u8, usize);

// What a page is for.
fn shape_of<D: Disk>(engine: &mut Engine<D>, page: PageNo) -> Result<Shape, Fail> {
    let header = engine.header(page)?;
    Ok((header.kind, header.level, header.count))
}

// The key of four digits.
pub(crate) fn short_key(alloc: Global, number: u32) -> Result<Vec<u8>, Fail> {
    let mut key = Vec::new(alloc);
    key.push(b'0' + (number / 1000 % 10) as u8)?;
    key.push(b'0' + (number / 100 % 10) as u8)?;
    key.push(b'0' + (number / 10 % 10) as u8)?;
    key.push(b'0' + (number % 10) as u8)?;
    Ok(key)
}

// How many steps of a thousand, each on the next key, are answered so.
fn count_of<D: TwoLogs>(
    alloc: Global,
    engine: &mut Engine<D>,
    insert: bool,
    wanted: Said,
) -> Result<u32, Fail> {
    let mut count = 0;
    for number in 0..1000u32 {
        let key = short_key(alloc, number * 7 % 1000)?;
        let reply = if insert {
            make(engine, Step::Insert(1, key, number as u64))
        } else {
            make(engine, Step::Delete(1, key))
        };
        if reply == wanted && count < number + 1 {
            count += 1;
        }
    }
    Ok(count)
}

// What there is after a thousand inserts, how many of them put a key, and what a Fetch finds.
fn a_thousand_come<D: TwoLogs>(
    alloc: Global,
    engine: &mut Engine<D>,
) -> Result<(u32, (usize, u8, u64), Said), Fail> {
    let _ = make(engine, Step::Begin);
    let count = count_of(alloc, engine, true, Said::Inserted)?;
    let entries = found(alloc, engine)?;
    let key = short_key(alloc, 7)?;
    Ok((count, entries, make(engine, Step::Fetch(1, key))))
}

// What there is after a thousand deletes, how many of them took a key out, and what page 1 is for.
fn a_thousand_go<D: TwoLogs>(
    alloc: Global,
    engine: &mut Engine<D>,
) -> Result<(u32, (usize, u8, u64), Shape), Fail> {
    let count = count_of(alloc, engine, false, Said::Deleted)?;
    let entries = found(alloc, engine)?;
    let root = shape_of(engine, 1)?;
    Ok((count, entries, root))
}

#[test]
fn a_thousand_keys_come_and_go(rt: HostRuntime) -> Result<(), Fail> {
    let alloc = rt.alloc();
    let config = Config {
        frames: 8,
        more: MoreFrames::NONE,
        max_pages: 100,
        buffer: BufferSize::ONE,
        stepped: false,
        dense: false,
        group: false,
        workers: 1,
    };
    let mut engine = created(&rt, alloc, config)?;
    let told = come_and_go(&rt, alloc, &mut engine);
    end(engine);
    told
}

fn come_and_go<D: TwoLogs>(
    rt: &impl Abort,
    alloc: Global,
    engine: &mut Engine<D>,
) -> Result<(), Fail> {
    assert!(rt; a_thousand_come(alloc, engine)? == (1000, (1000, b'0', 0), Said::Found(1)));
    assert!(rt; a_thousand_go(alloc, engine)? == (1000, (0, 0, 0), (PageKind::Leaf, 0, 0)));
    Ok(())
}
