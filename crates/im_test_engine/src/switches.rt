//! A log that goes on in the other file: a stop within any device call of a switch, of a second one, or of the opening of a log of the first format leaves the entries as they were.

ghost use Rattle.std.specs.Prelude.{◌≡◌, false};
ghost use Rattle.im_base_disk.specs.Runs.{IsSynced};

use crate::lives::short_key;
use crate::said::{Said, end, make, opened};
use im_base_disk::Disk;
use im_base_model_disk::{Fill, Length, ModelDisk, Stop};
use im_base_steps::Step;
use im_base_two_logs::{Renamed, TwoLogs};
use im_base_types::{Fault, FileId};
use im_engine::{Config, Engine};
use std::alloc::Global;
use std::process::Abort;
use std::test::Fail;
use std::thread::Threads;

// A log of the first format: transaction 1 inserts the key `a` with row id 7, and commits.
static FIRST: [u8; 113] =
    *b"\x01ARIESIM1\0\0\x10\0\0\0\0\0\0\0\0\0\0\0\0\0\0\0\0\0\0\0\x01\0\0\0\x4c\0\0\0\x2b\x01\0\0\0\0\0\0\0\x01\0\0\0\0\0\0\0\0\0\0\0\0\0\0\0\0\0\0\0\x01\x01a\0\0\0\0\0\0\0\x07\0\0\0\x21\x08\0\0\0\0\0\0\0\x01\0\0\0\0\0\0\0\x24\0\0\0\0\0\0\0\0\0\0\0\0\0";

// The same without the Commit.
static LOSER: [u8; 80] =
    *b"\x01ARIESIM1\0\0\x10\0\0\0\0\0\0\0\0\0\0\0\0\0\0\0\0\0\0\0\x01\0\0\0\x2b\0\0\0\x2b\x01\0\0\0\0\0\0\0\x01\0\0\0\0\0\0\0\0\0\0\0\0\0\0\0\0\0\0\0\x01\x01a\0\0\0\0\0\0\0\x07\0";

// A store's log at first: none, or one of the first format, with how many entries it has and the number of its next transaction.
#[derive(Clone, Copy)]
struct First {
    log: &'static [u8],
    entries: usize,
    next: u64,
}

const NEW: First = First {
    log: &[],
    entries: 0,
    next: 1,
};

// Commits a key in a transaction of its own, and switches, so many times. It answers how many device calls were made before the last of these switches.
fn switch_often(
    alloc: Global,
    engine: &mut Engine<Renamed<ModelDisk>>,
    times: u32,
) -> Result<u64, Fail> {
    let mut calls = 0;
    for number in 0..times {
        if let Said::Started(t) = make(engine, Step::Begin) {
            let key = short_key(alloc, number)?;
            let _ = make(engine, Step::Insert(t, key, u64::from(number)));
            let _ = make(engine, Step::Commit(t));
        }
        calls = engine.disk().disk().calls();
        let _ = make(engine, Step::Switch);
    }
    Ok(calls)
}

// A disk whose store was opened and switched so many times, and how many device calls were made before the last switch: none where there is none.
fn switched<R: Threads + Sync>(
    rt: &R,
    alloc: Global,
    disk: ModelDisk,
    times: u32,
) -> Result<(ModelDisk, u64), Fail>
    requires working { ⟦<ModelDisk as Disk>⟧.failed disk ≡ false }
    requires synced { IsSynced ⟦<ModelDisk as Disk>⟧ disk }
{
    match Engine::open_or_create(rt, alloc, Renamed::new(disk, false), Config::default()) {
        Ok(mut engine) => {
            let calls = switch_often(alloc, &mut engine, times);
            let disk = engine.into_disk().into_disk();
            Ok((disk, calls?))
        }
        Err((_fault, named)) => Ok((named.into_disk(), 0)),
    }
}

// How a stop in a store's last switch, or in its opening, was: whether it came, how many entries there are, and the number of the next transaction.
#[derive(Clone, Copy, PartialEq, Eq)]
struct Left {
    stopped: bool,
    entries: usize,
    next: Said,
}

fn left_by<R: Threads + Sync>(
    rt: &R,
    alloc: Global,
    first: First,
    times: u32,
    stop: Stop,
) -> Result<Left, Fail> {
    let log = Vec::from_slice(alloc, first.log)?;
    let mut disk = ModelDisk::new(log, Vec::new(alloc));
    disk.arm(stop);
    let (disk, _calls) = switched(rt, alloc, disk, times)?;
    let mut engine = opened(rt, alloc, disk.after_stop(alloc)?, Config::default())?;
    let entries = engine.entries(alloc);
    let next = make(&mut engine, Step::Begin);
    end(engine);
    Ok(Left {
        stopped: disk.stopped(),
        entries: entries?.len(),
        next,
    })
}

// The stop within this call, of one of four kinds.
fn stop_at(alloc: Global, call: u64, kind: u8) -> Result<Stop, Fail> {
    let length = if kind % 2 == 0 {
        Length::Long
    } else {
        Length::Short
    };
    let byte = if kind < 2 { 0 } else { 1 };
    let fill = Fill::Bytes(vec![in alloc; byte; 1]?);
    Ok(Stop { call, length, fill })
}

// Stops the last of so many switches within each of its calls, or the opening where there is none: the entries are there, and numbers go on. It answers how many calls there are.
fn every_stop<R: Abort + Threads + Sync>(
    rt: &R,
    alloc: Global,
    first: First,
    times: u32,
) -> Result<u64, Fail> {
    let want = Left {
        stopped: true,
        entries: first.entries.wrapping_add(times as usize),
        next: Said::Started(first.next.wrapping_add(u64::from(times))),
    };
    let log = Vec::from_slice(alloc, first.log)?;
    let (disk, from) = switched(rt, alloc, ModelDisk::new(log, Vec::new(alloc)), times)?;
    let calls = disk.calls();
    for call in from..calls {
        for kind in 0..4u8 {
            let stop = stop_at(alloc, call.wrapping_add(1), kind)?;
            assert!(rt;
                left_by(rt, alloc, first, times, stop)? == want,
                "{call} {kind}"
            );
        }
    }
    Ok(calls.wrapping_sub(from))
}

#[test]
fn a_stop_in_a_switch_leaves_the_entries(rt: HostRuntime) -> Result<(), Fail> {
    // Two pages are logged, forced and written, and the file of pages is synced; then the other log is made.
    assert!(rt; every_stop(&rt, rt.alloc(), NEW, 1)? == 4 + 2 + 1 + 6);
    // The page of the meta data has not changed since.
    assert!(rt; every_stop(&rt, rt.alloc(), NEW, 2)? == 4 + 1 + 1 + 6);
    assert!(rt; every_stop(&rt, rt.alloc(), NEW, 3)? == 4 + 1 + 1 + 6);
    Ok(())
}

#[test]
fn a_stop_in_an_upgrade_leaves_the_entries(rt: HostRuntime) -> Result<(), Fail> {
    let first = First {
        log: &FIRST,
        entries: 1,
        next: 2,
    };
    assert!(rt; every_stop(&rt, rt.alloc(), first, 0)? == 4 + 2 + 1 + 6);
    assert!(rt; every_stop(&rt, rt.alloc(), first, 2)? == 4 + 1 + 1 + 6);
    Ok(())
}

// What an opening of these logs, without a page, is refused for.
fn refused<R: Threads + Sync>(
    rt: &R,
    alloc: Global,
    log: &[u8],
    other: &[u8],
) -> Result<Option<Fault>, Fail> {
    let log = Vec::from_slice(alloc, log)?;
    let other = Vec::from_slice(alloc, other)?;
    Ok(opened(
        rt,
        alloc,
        ModelDisk::with_log2(log, Vec::new(alloc), other),
        Config::default(),
    )
    .err())
}

#[test]
fn logs_of_which_none_is_current_are_no_store(rt: HostRuntime) -> Result<(), Fail> {
    let alloc = rt.alloc();
    let mut damaged = FIRST;
    damaged[3] = b'X';
    assert!(rt; refused(&rt, alloc, &FIRST, &LOSER)? == Some(Fault::NotAStore));
    assert!(rt; refused(&rt, alloc, &FIRST, &damaged)? == Some(Fault::NotAStore));
    assert!(rt; refused(&rt, alloc, &damaged, &FIRST)? == Some(Fault::NotAStore));
    // A log that was not made says nothing, whatever it has.
    damaged[0] = 0;
    assert!(rt; refused(&rt, alloc, &FIRST, &damaged)?.is_none());
    assert!(rt; refused(&rt, alloc, &damaged, &FIRST)?.is_none());
    Ok(())
}

// What an opening made of a log of the first format: how many entries there are, where the gate of the second stands, and the number of the next transaction.
fn look<D: TwoLogs>(alloc: Global, engine: &mut Engine<D>) -> Result<(usize, u64, Said), Fail> {
    let entries = engine.entries(alloc)?.len();
    let length = engine.log_length();
    Ok((entries, length, make(engine, Step::Begin)))
}

#[test]
fn a_loser_of_the_first_format_is_taken_back(rt: HostRuntime) -> Result<(), Fail> {
    let alloc = rt.alloc();
    let log = Vec::from_slice(alloc, &LOSER)?;
    let mut engine = opened(
        &rt,
        alloc,
        ModelDisk::new(log, Vec::new(alloc)),
        Config::default(),
    )?;
    let found = look(alloc, &mut engine);
    let other = engine.disk().disk().end(FileId::Log2);
    end(engine);
    assert!(rt; found? == (0, 47, Said::Started(2)));
    assert!(rt; other == 48);
    Ok(())
}

// Numbers go on after a switch, which nobody who is active may be there for.
fn numbers_of<D: TwoLogs>(alloc: Global, engine: &mut Engine<D>) -> Result<[Said; 6], Fail> {
    let begun = make(engine, Step::Begin);
    let key = short_key(alloc, 1)?;
    let _ = make(engine, Step::Insert(1, key, 7));
    let busy = make(engine, Step::Switch);
    let committed = make(engine, Step::Commit(1));
    let done = make(engine, Step::Switch);
    let next = make(engine, Step::Begin);
    let key = short_key(alloc, 1)?;
    Ok([
        begun,
        busy,
        committed,
        done,
        next,
        make(engine, Step::Fetch(2, key)),
    ])
}

#[test]
fn numbers_go_on_after_a_switch(rt: HostRuntime) -> Result<(), Fail> {
    let alloc = rt.alloc();
    let disk = ModelDisk::new(Vec::new(alloc), Vec::new(alloc));
    let mut engine = opened(&rt, alloc, disk, Config::default())?;
    let told = numbers_of(alloc, &mut engine);
    end(engine);
    assert!(rt;
        told?
            == [
                Said::Started(1),
                Said::Refused(15),
                Said::Committed,
                Said::Done,
                Said::Started(2),
                Said::Found(7),
            ]
    );
    Ok(())
}
