//! Stores over the model disk. Each test makes its store, lends it to a function with the steps, and hands it to one end.

ghost use Rattle.std.specs.Prelude.{◌≡◌, false};
ghost use Rattle.im_base_disk.specs.Runs.{IsSynced};

use im_base_disk::{Disk, read_vec};
use im_base_model_disk::ModelDisk;
use im_base_steps::{Reply, Step};
use im_base_two_logs::{Renamed, TwoLogs};
use im_base_types::{Fault, FileId};
use im_engine::Config;
use im_store::{Bounds, Due, OpenStore};
use std::alloc::{AllocError, Global};
use std::process::Abort;
use std::test::Fail;
use std::thread::Threads;

/// A store over the model disk.
pub(crate) type Store = OpenStore<Renamed<ModelDisk>>;

/// A log of the first format, in which transaction 1 inserted `a` and committed: the vector of the formats.
pub(crate) static FIRST: [u8; 113] =
    *b"\x01ARIESIM1\0\0\x10\0\0\0\0\0\0\0\0\0\0\0\0\0\0\0\0\0\0\0\x01\0\0\0\x4c\0\0\0\x2b\x01\0\0\0\0\0\0\0\x01\0\0\0\0\0\0\0\0\0\0\0\0\0\0\0\0\0\0\0\x01\x01a\0\0\0\0\0\0\0\x07\0\0\0\x21\x08\0\0\0\0\0\0\0\x01\0\0\0\0\0\0\0\x24\0\0\0\0\0\0\0\0\0\0\0\0\0";

// What a reply says, as far as these tests ask.
#[derive(Clone, Copy, PartialEq, Eq)]
enum Said {
    Made,
    Refused(Fault),
    Other,
}

// Makes a step, and says what was answered.
fn make<D: TwoLogs + Drop>(store: &mut OpenStore<D>, step: &Step) -> Said {
    match store.step(step) {
        Reply::Refused(fault) => Said::Refused(fault),
        Reply::Started(_) | Reply::Inserted | Reply::Committed => Said::Made,
        _ => Said::Other,
    }
}

/// Begins transaction `t`, inserts so many keys of four bytes, and leaves it open. It answers whether all was made.
pub(crate) fn begun<D: TwoLogs + Drop>(
    alloc: Global,
    store: &mut OpenStore<D>,
    t: u16,
    keys: u16,
) -> Result<bool, AllocError> {
    let mut all = make(store, &Step::Begin) == Said::Made;
    let [high, low] = t.to_be_bytes();
    for number in 0..keys {
        let [first, last] = number.to_be_bytes();
        let key = Vec::from_slice(alloc, &[high, low, first, last])?;
        all = all && make(store, &Step::Insert(u64::from(t), key, 7)) == Said::Made;
    }
    Ok(all)
}

/// Puts one key in by transaction `t`, and commits it. Whether all of that was made.
pub(crate) fn is_put<D: TwoLogs + Drop>(
    alloc: Global,
    store: &mut OpenStore<D>,
    t: u16,
) -> Result<bool, AllocError> {
    Ok(begun(alloc, store, t, 1)? && commit(store, t) == Said::Made)
}

fn commit<D: TwoLogs + Drop>(store: &mut OpenStore<D>, t: u16) -> Said {
    make(store, &Step::Commit(u64::from(t)))
}

/// Commits transaction `t`, and goes on in the other log. Whether both was done.
pub(crate) fn is_switched<D: TwoLogs + Drop>(store: &mut OpenStore<D>, t: u16) -> bool {
    commit(store, t) == Said::Made && matches!(store.step(&Step::Switch), Reply::Done)
}

// The store of such a log, of which the device call of this number fails, or none with 0.
fn opened<R: Threads + Sync>(
    rt: &R,
    alloc: Global,
    log: &[u8],
    failing: u64,
    bounds: Bounds,
) -> Result<Store, Fail> {
    let log = Vec::from_slice(alloc, log)?;
    let mut disk = ModelDisk::new(log, Vec::new(alloc));
    disk.fail_call(failing);
    Ok(store_of(rt, alloc, disk, bounds)?)
}

/// The store of a disk.
pub(crate) fn store_of<D: Disk + Drop, R: Threads + Sync>(
    rt: &R,
    alloc: Global,
    disk: D,
    bounds: Bounds,
) -> Result<OpenStore<Renamed<D>>, Fault>
    requires working { D.failed disk ≡ false }
    requires synced { IsSynced D.Disk disk }
{
    match OpenStore::open(
        rt,
        alloc,
        Renamed::new(disk, false),
        Config::default(),
        bounds,
    ) {
        Ok(store) => Ok(store),
        Err((fault, _disk)) => Err(fault),
    }
}

/// Ends a store with no call of its disk.
pub(crate) fn end<D: Disk + Drop>(_store: OpenStore<D>) {}

// How many entries an opening finds after a stop now.
fn entries_left<R: Threads + Sync>(
    rt: &R,
    alloc: Global,
    disk: &ModelDisk,
) -> Result<usize, Fault> {
    let left = disk.after_stop(alloc)?;
    let mut store = store_of(rt, alloc, left, Bounds::default())?;
    let entries = store.entries(alloc);
    end(store);
    Ok(entries?.len())
}

/// The last byte of the name of a log's format: 49 of the first, 50 of the second, and 0 where the file is too short for one.
pub(crate) fn format_of(log: &[u8]) -> u8 {
    match log.get(8) {
        Some(last) => *last,
        None => 0,
    }
}

// The format of each log.
fn formats(alloc: Global, store: &Store) -> Result<(u8, u8), Fail> {
    let mut left = store.engine().disk().disk().after_stop(alloc)?;
    let long = left.end(FileId::Log) as usize;
    let log = read_vec(alloc, &mut left, FileId::Log, 0, long)?;
    let long = left.end(FileId::Log2) as usize;
    let other = read_vec(alloc, &mut left, FileId::Log2, 0, long)?;
    Ok((format_of(&log), format_of(&other)))
}

// How many calls of the disk were made.
fn calls(store: &Store) -> u64 {
    store.engine().disk().disk().calls()
}

// Whether nothing of upkeep was refused.
fn is_kept(store: &Store) -> bool {
    store.unkept().is_none()
}

// A log of the first format is left for the other file when that is asked, or after the first step that is followed by upkeep; and the store works on.
fn leaves(rt: &impl Abort, alloc: Global, store: &mut Store, is_asked: bool) -> Result<(), Fail> {
    assert!(rt; formats(alloc, store)? == (49, 50));
    if is_asked {
        store.keep();
        assert!(rt; formats(alloc, store)? == (50, 50));
    }
    assert!(rt; is_put(alloc, store, 2)?);
    assert!(rt; is_kept(store));
    assert!(rt; formats(alloc, store)? == (50, 50));
    Ok(())
}

#[test]
fn a_log_of_the_first_format_is_left(rt: HostRuntime) -> Result<(), Fail> {
    let alloc = rt.alloc();
    for is_asked in [true, false] {
        let mut store = opened(&rt, alloc, &FIRST, 0, Bounds::default())?;
        let told = leaves(&rt, alloc, &mut store, is_asked);
        let left = entries_left(&rt, alloc, store.engine().disk().disk());
        end(store);
        told?;
        assert!(rt; left? == 2);
    }
    Ok(())
}

// The second of two commits fails, and no step is made after it.
fn fails(rt: &impl Abort, alloc: Global, store: &mut Store) -> Result<(), Fail> {
    assert!(rt; is_put(alloc, store, 1)?);
    assert!(rt; begun(alloc, store, 2, 1)?);
    assert!(rt; commit(store, 2) == Said::Refused(Fault::Device));
    assert!(rt; make(store, &Step::Begin) == Said::Refused(Fault::Failed));
    assert!(rt; is_kept(store));
    Ok(())
}

// What the end of a store answers, and how many entries an opening finds after it.
fn closed<R: Threads + Sync>(
    rt: &R,
    alloc: Global,
    store: Store,
) -> Result<(Result<(), Fault>, usize), Fault> {
    let (closed, disk) = store.close();
    Ok((closed, entries_left(rt, alloc, disk.disk())?))
}

#[test]
fn a_step_after_one_that_failed_is_refused(rt: HostRuntime) -> Result<(), Fail> {
    let alloc = rt.alloc();
    // Six calls make a new log, four the first commit; the next writes the batch of the second.
    let mut store = opened(&rt, alloc, &[], 11, Bounds::default())?;
    let told = fails(&rt, alloc, &mut store);
    let left = closed(&rt, alloc, store);
    told?;
    assert!(rt; left? == (Err(Fault::Failed), 1));
    Ok(())
}

// A Switch that is due after the commit fails: the commit is answered, what was refused is told, and no step is made after it.
fn switch_fails(rt: &impl Abort, alloc: Global, store: &mut Store) -> Result<(), Fail> {
    assert!(rt; is_put(alloc, store, 2)?);
    let Some(unkept) = store.unkept() else {
        return Err(Fail::from(Fault::BadScript));
    };
    assert!(rt; unkept.due == Due::Switch);
    assert!(rt; unkept.fault == Fault::Device);
    assert!(rt; make(store, &Step::Begin) == Said::Refused(Fault::Failed));
    Ok(())
}

#[test]
fn upkeep_that_is_refused_is_told(rt: HostRuntime) -> Result<(), Fail> {
    let alloc = rt.alloc();
    let mut store = opened(&rt, alloc, &FIRST, 0, Bounds::default())?;
    let made = calls(&store);
    end(store);
    // The four calls of the commit come after those of the opening.
    store = opened(
        &rt,
        alloc,
        &FIRST,
        made.saturating_add(5),
        Bounds::default(),
    )?;
    let told = switch_fails(&rt, alloc, &mut store);
    let left = closed(&rt, alloc, store);
    told?;
    assert!(rt; left? == (Err(Fault::Failed), 2));
    Ok(())
}

// A transaction of three keys is active when the store ends.
#[test]
fn what_is_active_at_the_end_is_taken_back(rt: HostRuntime) -> Result<(), Fail> {
    let alloc = rt.alloc();
    let mut store = opened(&rt, alloc, &FIRST, 0, Bounds::default())?;
    let begun = begun(alloc, &mut store, 2, 3);
    let left = closed(&rt, alloc, store);
    assert!(rt; begun?);
    assert!(rt; left? == (Ok(()), 1));
    Ok(())
}

// Keys of one transaction make the log longer than its bound, and its commit has it cut.
fn is_cut(rt: &impl Abort, alloc: Global, store: &mut Store) -> Result<(), Fail> {
    assert!(rt; begun(alloc, store, 1, 1_600)?);
    assert!(rt; store.is_held_up());
    assert!(rt; commit(store, 1) == Said::Made);
    assert!(rt; !store.is_held_up());
    assert!(rt; store.engine().log_length() == 47);
    Ok(())
}

#[test]
fn a_long_log_is_cut_at_the_commit(rt: HostRuntime) -> Result<(), Fail> {
    let alloc = rt.alloc();
    let mut store = opened(&rt, alloc, &[], 0, Bounds::of_bytes(0, 65_536))?;
    let told = is_cut(&rt, alloc, &mut store);
    end(store);
    told
}
