//! Loads onto the model disk, and openings of what they leave.

ghost use Rattle.std.specs.Prelude.{◌≡◌, false, true, Ok, OnOk};
ghost use Rattle.im_base_disk.specs.Runs.{IsSynced};

use im_base_disk::Disk;
use im_base_model_disk::{Fill, Length, ModelDisk, Stop};
use im_base_two_logs::Renamed;
use im_base_types::{Fault, FileId, Key, Rid};
use im_engine::{Config, Engine};
use im_load::{Ending, Loader, load as load_all};
use std::alloc::Global;
use std::process::Abort;
use std::test::Fail;

// A disk without bytes.
fn empty_disk(alloc: Global) -> ModelDisk
    ensures working { ⟦<ModelDisk as Disk>⟧.failed result ≡ false }
    ensures synced { IsSynced ⟦<ModelDisk as Disk>⟧ result }
{
    ModelDisk::new(Vec::new(alloc), Vec::new(alloc))
}

// The key of a number: its four bytes, the highest first, and letters up to a length.
fn key_of(alloc: Global, number: u32, len: usize) -> Result<Vec<u8>, Fail> {
    let mut key = Vec::from_slice(alloc, &number.to_be_bytes())?;
    for _ in 4..len {
        key.push(b'k')?;
    }
    Ok(key)
}

// Puts the keys of so many numbers, each with its number.
fn put_all<D: Disk>(
    alloc: Global,
    loader: &mut Loader,
    disk: &mut D,
    entries: u32,
    len: usize,
) -> Result<(), Fail>
    requires working { D.failed disk.old ≡ false }
    ensures works { OnOk result (D.failed disk.new ≡ false) }
{
    for number in 0..entries {
        let key = key_of(alloc, number, len)?;
        loader.put(disk, &key, number as u64)?;
    }
    Ok(())
}

// Loads so many keys of a length.
fn load<D: Disk>(alloc: Global, disk: &mut D, entries: u32, len: usize) -> Result<(), Fail>
    requires working { D.failed disk.old ≡ false }
{
    let Some(mut loader) = Loader::begin(alloc, disk)? else {
        return Err(Fault::NotAStore)?;
    };
    put_all(alloc, &mut loader, disk, entries, len)?;
    loader.finish(disk)?;
    Ok(())
}

// Opens the store of a disk.
fn open<D: Disk + Drop>(alloc: Global, disk: D) -> Result<Engine<Renamed<D>>, Fault>
    requires working { D.failed disk ≡ false }
    requires synced { IsSynced D.Disk disk }
{
    match Engine::open_alone(alloc, Renamed::new(disk, false), Config::default()) {
        Ok(engine) => Ok(engine),
        Err((fault, _disk)) => Err(fault),
    }
}

// Opens what a stop now leaves.
fn opened(alloc: Global, disk: &ModelDisk) -> Result<Engine<Renamed<ModelDisk>>, Fault> {
    let left = disk.after_stop(alloc)?;
    open(alloc, left)
}

fn end(_engine: Engine<Renamed<ModelDisk>>) {}

// How an opening is refused, if it is.
fn refusal(alloc: Global, disk: &ModelDisk) -> Option<Fault> {
    match opened(alloc, disk) {
        Ok(engine) => {
            end(engine);
            None
        },
        Err(fault) => Some(fault),
    }
}

// The entries are those of a load.
fn are_loaded(alloc: Global, found: &[(Key, Rid)], entries: u32, len: usize) -> Result<bool, Fail> {
    for number in 0..entries {
        let wanted = key_of(alloc, number, len)?;
        match found.get(number as usize) {
            Some(entry) => {
                if entry.0.bytes() != wanted.as_slice() || entry.1 != number as u64 {
                    return Ok(false);
                }
            },
            None => return Ok(false),
        }
    }
    Ok(found.len() == entries as usize)
}

// How many entries there are, and whether they are those of a load.
fn found<D: Disk>(
    alloc: Global,
    engine: &mut Engine<D>,
    entries: u32,
    len: usize,
) -> Result<(usize, bool), Fail> {
    let found = engine.entries(alloc)?;
    Ok((found.len(), are_loaded(alloc, &found, entries, len)?))
}

// What an engine finds after a load.
fn found_after(
    alloc: Global,
    disk: &ModelDisk,
    entries: u32,
    len: usize,
) -> Result<(usize, bool), Fail> {
    let mut engine = opened(alloc, disk)?;
    let told = found(alloc, &mut engine, entries, len);
    end(engine);
    told
}

fn check(rt: &impl Abort, alloc: Global, entries: u32, len: usize) -> Result<(), Fail> {
    let mut disk = empty_disk(alloc);
    load(alloc, &mut disk, entries, len)?;
    assert!(rt; found_after(alloc, &disk, entries, len)? == (entries as usize, true));
    Ok(())
}

#[test]
fn none(rt: HostRuntime) -> Result<(), Fail> {
    check(&rt, rt.alloc(), 0, 4)
}

#[test]
fn one(rt: HostRuntime) -> Result<(), Fail> {
    check(&rt, rt.alloc(), 1, 255)
}

#[test]
fn ten(rt: HostRuntime) -> Result<(), Fail> {
    check(&rt, rt.alloc(), 10, 12)
}

#[test]
fn a_thousand(rt: HostRuntime) -> Result<(), Fail> {
    check(&rt, rt.alloc(), 1_000, 12)
}

#[test]
fn long_keys(rt: HostRuntime) -> Result<(), Fail> {
    check(&rt, rt.alloc(), 20_000, 255)
}

#[test]
fn a_hundred_thousand(rt: HostRuntime) -> Result<(), Fail> {
    check(&rt, rt.alloc(), 100_000, 12)
}

// Puts two keys that rise, and between them two that do not.
fn put_falling<D: Disk>(rt: &impl Abort, alloc: Global, disk: &mut D) -> Result<(), Fail>
    requires working { D.failed disk.old ≡ false }
{
    let Some(mut loader) = Loader::begin(alloc, disk)? else {
        return Err(Fault::NotAStore)?;
    };
    assert!(rt; loader.put(disk, b"b", 1)?);
    assert!(rt; !loader.put(disk, b"b", 2)?);
    assert!(rt; !loader.put(disk, b"a", 3)?);
    assert!(rt; loader.put(disk, b"c", 4)?);
    loader.finish(disk)?;
    Ok(())
}

// A key that is not above the last is not taken, and changes nothing: the load goes on.
#[test]
fn keys_that_do_not_rise(rt: HostRuntime) -> Result<(), Fail> {
    let alloc = rt.alloc();
    let mut disk = empty_disk(alloc);
    put_falling(&rt, alloc, &mut disk)?;
    assert!(&rt; found_after(alloc, &disk, 0, 0)? == (2, false));
    Ok(())
}

// Files that have bytes are left alone.
#[test]
fn files_with_bytes(rt: HostRuntime) -> Result<(), Fail> {
    let alloc = rt.alloc();
    let mut disk = ModelDisk::new(Vec::new(alloc), Vec::from_slice(alloc, b"x")?);
    assert!(&rt; Loader::begin(alloc, &mut disk)?.is_none());
    assert!(&rt; disk.calls() == 0);
    Ok(())
}

// Begins a load of a thousand keys.
fn load_half<D: Disk>(alloc: Global, disk: &mut D) -> Result<(), Fail>
    requires working { D.failed disk.old ≡ false }
{
    let Some(mut loader) = Loader::begin(alloc, disk)? else {
        return Err(Fault::NotAStore)?;
    };
    put_all(alloc, &mut loader, disk, 1_000, 12)
}

// Before it is ended a load has made no log: an opening of its files is refused, once they have a page.
#[test]
fn a_half(rt: HostRuntime) -> Result<(), Fail> {
    let alloc = rt.alloc();
    let mut disk = empty_disk(alloc);
    load_half(alloc, &mut disk)?;
    assert!(&rt; disk.end(FileId::Log) == 0);
    assert!(&rt; refusal(alloc, &disk) == Some(Fault::NotAStore));
    Ok(())
}

// Entries of one letter each.
fn letters(alloc: Global, keys: &[u8]) -> Result<Vec<(Key, Rid)>, Fail> {
    let mut entries = Vec::new(alloc);
    for key in keys {
        entries.push((Key::new(&[*key])?, 7))?;
    }
    Ok(entries)
}

// How a load of such entries ends onto what a stop now leaves of a disk, and what it leaves.
fn loaded(alloc: Global, disk: &ModelDisk, keys: &[u8]) -> Result<(Ending, ModelDisk), Fail> {
    let entries = letters(alloc, keys)?;
    let mut left = disk.after_stop(alloc)?;
    let ending = load_all(alloc, &mut left, &entries)?;
    Ok((ending, left))
}

// Entries that are all at hand, in one call.
#[test]
fn at_once(rt: HostRuntime) -> Result<(), Fail> {
    let alloc = rt.alloc();
    let empty = empty_disk(alloc);
    let (ending, disk) = loaded(alloc, &empty, b"abc")?;
    assert!(&rt; ending == Ending::Loaded);
    assert!(&rt; found_after(alloc, &disk, 0, 0)?.0 == 3);
    let (again, _same) = loaded(alloc, &disk, b"d")?;
    assert!(&rt; again == Ending::NotEmpty);
    let (falls, other) = loaded(alloc, &empty, b"acb")?;
    assert!(&rt; falls == Ending::NotRising);
    assert!(&rt; found_after(alloc, &other, 0, 0)?.0 == 0);
    Ok(())
}

// The stop within this call, of one of six kinds: all of what was not synced is left, or none, or other bytes in its place, up to its long end or its short one.
fn stop_at(alloc: Global, call: u64, kind: u8) -> Result<Stop, Fail> {
    let length = if kind % 2 == 0 {
        Length::Long
    } else {
        Length::Short
    };
    let fill = match kind / 2 {
        0 => Fill::Written,
        1 => Fill::Bytes(vec![in alloc; 0u8; 1]?),
        _ => Fill::Bytes(vec![in alloc; 1u8; 1]?),
    };
    Ok(Stop { call, length, fill })
}

// What an opening of what a load left finds.
#[derive(Clone, Copy, PartialEq, Eq)]
enum Shown {
    // No store, or files without bytes, of which it makes an empty one.
    None,
    // All entries.
    Whole,
    Other,
}

fn what_shows(alloc: Global, disk: &ModelDisk, entries: u32, len: usize) -> Result<Shown, Fail> {
    let mut engine = match opened(alloc, disk) {
        Ok(engine) => engine,
        Err(Fault::NotAStore) => return Ok(Shown::None),
        Err(_other) => return Ok(Shown::Other),
    };
    let told = found(alloc, &mut engine, entries, len);
    end(engine);
    Ok(match told? {
        (_, true) => Shown::Whole,
        (0, false) => Shown::None,
        (_, false) => Shown::Other,
    })
}

// Puts the keys of so many numbers, up to the first that is refused, and says whether none was.
fn are_put<D: Disk>(
    alloc: Global,
    loader: &mut Loader,
    disk: &mut D,
    entries: u32,
    len: usize,
) -> Result<bool, Fail>
    requires working { D.failed disk.old ≡ false }
    ensures works { result ≡ Ok true → D.failed disk.new ≡ false }
{
    for number in 0..entries {
        let key = key_of(alloc, number, len)?;
        if loader.put(disk, &key, number as u64).is_err() {
            return Ok(false);
        }
    }
    Ok(true)
}

// Loads so many keys, and says whether nothing was refused.
fn is_loaded<D: Disk>(alloc: Global, disk: &mut D, entries: u32, len: usize) -> Result<bool, Fail>
    requires working { D.failed disk.old ≡ false }
{
    let Ok(Some(mut loader)) = Loader::begin(alloc, disk) else {
        return Ok(false);
    };
    if !are_put(alloc, &mut loader, disk, entries, len)? {
        return Ok(false);
    }
    Ok(loader.finish(disk).is_ok())
}

// How a load ends, whose disk stops, or fails, as was told, and what it leaves.
fn shown_after(
    alloc: Global,
    disk: ModelDisk,
    entries: u32,
    len: usize,
) -> Result<(bool, Shown), Fail>
    requires working { ⟦<ModelDisk as Disk>⟧.failed disk ≡ false }
{
    let mut disk = disk;
    let is_ended = is_loaded(alloc, &mut disk, entries, len)?;
    Ok((is_ended, what_shows(alloc, &disk, entries, len)?))
}

// How many calls a whole load makes, in how many of its stops no store is left, and in how many all of it.
#[derive(Clone, Copy, Debug, Default, PartialEq, Eq)]
struct Left {
    none: u64,
    whole: u64,
    bad: u64,
}

impl Left {
    fn count(&mut self, told: (bool, Shown)) {
        match told {
            (_, Shown::Whole) => self.whole = self.whole.wrapping_add(1),
            (false, Shown::None) => self.none = self.none.wrapping_add(1),
            (true, Shown::None) | (_, Shown::Other) => self.bad = self.bad.wrapping_add(1),
        }
    }
}

// How many calls a whole load makes.
fn calls_of(alloc: Global, entries: u32, len: usize) -> Result<u64, Fail> {
    let mut disk = empty_disk(alloc);
    load(alloc, &mut disk, entries, len)?;
    Ok(disk.calls())
}

// What a load leaves that is stopped within this call.
fn stopped_at(
    alloc: Global,
    call: u64,
    kind: u8,
    entries: u32,
    len: usize,
) -> Result<(bool, Shown), Fail> {
    let mut disk = empty_disk(alloc);
    disk.arm(stop_at(alloc, call, kind)?);
    shown_after(alloc, disk, entries, len)
}

// What a load leaves whose call of that number fails.
fn failed_at(alloc: Global, call: u64, entries: u32, len: usize) -> Result<(bool, Shown), Fail> {
    let mut disk = empty_disk(alloc);
    disk.fail_call(call);
    shown_after(alloc, disk, entries, len)
}

// Stops a load within each of its calls, in each way, and lets each of them fail.
fn every_stop(alloc: Global, entries: u32, len: usize) -> Result<Left, Fail> {
    let mut left = Left::default();
    for call in 0..calls_of(alloc, entries, len)? {
        let call = call.wrapping_add(1);
        for kind in 0..6u8 {
            left.count(stopped_at(alloc, call, kind, entries, len)?);
        }
        left.count(failed_at(alloc, call, entries, len)?);
    }
    Ok(left)
}

// After a stop within any call there is no store, or all of it.
#[test]
fn a_stop_leaves_no_store_or_all_of_it(rt: HostRuntime) -> Result<(), Fail> {
    let alloc = rt.alloc();
    for (entries, len) in [(1, 4), (40, 255)] {
        let left = every_stop(alloc, entries, len)?;
        assert!(&rt;
            left.bad == 0 && left.none > 0 && left.whole > 0,
            "{entries} {left:?}"
        );
    }
    Ok(())
}
