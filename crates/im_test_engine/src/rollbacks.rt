//! Devices that fail in the middle of a rollback.

use crate::said::{Said, created, end, make, opened, opened_after_stop};
use im_base_disk::Disk;
use im_base_model_disk::ModelDisk;
use im_base_steps::Step;
use im_base_two_logs::{Renamed, TwoLogs};
use im_base_types::LONGEST_KEY;
use im_engine::{BufferSize, Config, Engine, MoreFrames};
use std::alloc::Global;
use std::test::Fail;
use std::thread::Threads;

// How many keys the first transaction commits, and the second inserts between them.
const KEYS: u64 = 40;

// The key of a number below 100: its two digits, and 253 bytes after them, so that a page has room for fifteen.
fn key_of(alloc: Global, number: u64) -> Result<Vec<u8>, Fail> {
    let mut key = Vec::new(alloc);
    key.push(b'0' + (number / 10 % 10) as u8)?;
    key.push(b'0' + (number % 10) as u8)?;
    key.resize(LONGEST_KEY, b'z')?;
    Ok(key)
}

// Transaction t inserts every second key from this one on, in no order of theirs, so that a rollback goes from leaf to leaf; the reply to the last.
fn insert_keys<D: TwoLogs>(
    alloc: Global,
    engine: &mut Engine<D>,
    t: u64,
    first: u64,
) -> Result<Said, Fail> {
    let mut last = make(engine, Step::Begin);
    for i in 0..KEYS {
        let number = first.wrapping_add(i * 7 % KEYS * 2);
        let key = key_of(alloc, number)?;
        last = make(engine, Step::Insert(t, key, number));
    }
    Ok(last)
}

// Transaction 1 commits keys, and 2 inserts as many between them, forces the log, and begins to roll back.
fn many_to_undo<D: TwoLogs>(alloc: Global, engine: &mut Engine<D>) -> Result<Said, Fail> {
    let _ = insert_keys(alloc, engine, 1, 0)?;
    let _ = make(engine, Step::Commit(1));
    if insert_keys(alloc, engine, 2, 1)? != Said::Inserted {
        return Ok(Said::Die);
    }
    let _ = make(engine, Step::Force);
    Ok(make(engine, Step::Rollback(2)))
}

// How often transaction 2 goes on and has more to take back, and what ends that.
fn go_on<D: TwoLogs>(engine: &mut Engine<D>) -> (u64, Said) {
    let mut times = 0;
    for _ in 0..KEYS {
        let said = make(engine, Step::Continue(2));
        if said != Said::More {
            return (times, said);
        }
        if times < KEYS {
            times += 1;
        }
    }
    (times, Said::More)
}

// Eight frames, which are fewer than the tree has pages.
fn few_frames() -> Config {
    Config {
        frames: 8,
        more: MoreFrames::NONE,
        max_pages: 1_000,
        buffer: BufferSize::ONE,
        stepped: false,
        dense: false,
        group: false,
        workers: 1,
    }
}

// What there is in the end: how many entries, and whether they are those of the first transaction.
fn are_committed<D: Disk>(alloc: Global, engine: &mut Engine<D>) -> Result<(usize, bool), Fail> {
    let entries = engine.entries(alloc)?;
    let mut is_same = true;
    let mut number = 0;
    for entry in entries.as_slice() {
        let key = key_of(alloc, number)?;
        is_same = is_same && entry.1 == number && entry.0.bytes() == key.as_slice();
        if number < 100 {
            number += 2;
        }
    }
    Ok((entries.len(), is_same))
}

// What came of a disk that fails: whether the rollback began, whether it failed after its first key record and in front of its last, the reply
// to the step within which it failed, and to two after it, and what the next opening finds.
#[derive(Clone, Copy, PartialEq, Eq)]
struct Came {
    begun: Said,
    within: bool,
    failing: Said,
    behind: (Said, Said),
    found: (usize, bool),
    next: Said,
}

// What is to come of it.
fn taken_back() -> Came {
    Came {
        begun: Said::More,
        within: true,
        failing: Said::Refused(8),
        behind: (Said::Refused(10), Said::Refused(10)),
        found: (KEYS as usize, true),
        next: Said::Started(3),
    }
}

// What comes where the device call of one number fails, and the read of another; a number that is never reached fails none.
fn came_of<R: Threads + Sync>(rt: &R, alloc: Global, call: u64, read: u64) -> Result<Came, Fail> {
    let mut disk = ModelDisk::new(Vec::new(alloc), Vec::new(alloc));
    disk.fail_call(call);
    disk.fail_read(read);
    let mut engine = opened(rt, alloc, disk, few_frames())?;
    let came = roll_back(rt, alloc, &mut engine);
    end(engine);
    came
}

// What comes of this engine.
fn roll_back<R: Threads + Sync>(
    rt: &R,
    alloc: Global,
    engine: &mut Engine<Renamed<ModelDisk>>,
) -> Result<Came, Fail> {
    let begun = many_to_undo(alloc, engine)?;
    let (times, failing) = go_on(engine);
    let behind = (make(engine, Step::Continue(2)), make(engine, Step::Begin));
    let (found, next) = found_after_stop(rt, alloc, engine)?;
    Ok(Came {
        begun,
        within: 0 < times && times < KEYS - 1,
        failing,
        behind,
        found,
        next,
    })
}

// What there is after a stop, and the reply to a Begin then.
fn found_after_stop<R: Threads + Sync>(
    rt: &R,
    alloc: Global,
    engine: &Engine<Renamed<ModelDisk>>,
) -> Result<((usize, bool), Said), Fail> {
    let mut next = opened_after_stop(rt, alloc, engine, few_frames())?;
    let found = are_committed(alloc, &mut next);
    let said = make(&mut next, Step::Begin);
    end(next);
    Ok((found?, said))
}

// How many device calls there are before the first Continue, and after the last, where none fails.
fn calls_within<R: Threads + Sync>(rt: &R, alloc: Global) -> Result<(u64, u64), Fail> {
    let mut engine = created(rt, alloc, few_frames())?;
    let begun = many_to_undo(alloc, &mut engine);
    let before = engine.disk().disk().calls();
    let _ = go_on(&mut engine);
    let behind = engine.disk().disk().calls();
    end(engine);
    let _ = begun?;
    Ok((before, behind))
}

#[test]
fn a_failed_write_ends_a_rollback_and_the_next_opening_takes_the_rest_back(
    rt: HostRuntime,
) -> Result<(), Fail> {
    let alloc = rt.alloc();
    let (before, behind) = calls_within(&rt, alloc)?;
    let third = behind.wrapping_sub(before) / 3;
    assert!(rt; third >= 10 && third <= 1_000, "{third}");
    for places in 0..3u64 {
        let call = before
            .wrapping_add(1)
            .wrapping_add(places.wrapping_mul(third));
        assert!(rt; came_of(&rt, alloc, call, u64::MAX)? == taken_back());
    }
    Ok(())
}

#[test]
fn a_failed_read_ends_a_rollback_and_the_next_opening_takes_the_rest_back(
    rt: HostRuntime,
) -> Result<(), Fail> {
    let alloc = rt.alloc();
    for read in [150u64, 250, 350] {
        assert!(rt; came_of(&rt, alloc, u64::MAX, read)? == taken_back());
    }
    Ok(())
}
