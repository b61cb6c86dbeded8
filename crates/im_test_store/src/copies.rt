//! Copies that are made between the steps of several transactions: each has the entries that a stop of the store then would leave it, and, where no Commit waits for
//! a force, just those that were committed.
ghost use Rattle.std.specs.Prelude.{◌≡◌, [], false, IfOk, IfSome};
ghost use Rattle.im_base_types.specs.declared.file_id.FileId.{FileId};
ghost use Rattle.im_base_disk.specs.Runs.{IsSynced};

use crate::keys::are_same;
use crate::work::{Done, Work, run};
use im_base_disk::Disk;
use im_base_mirror_disk::{Mirrored, Piece};
use im_base_model_disk::ModelDisk;
use im_base_two_logs::{Renamed, TwoLogs};
use im_base_types::{Fault, Key, Rid};
use im_engine::{BufferSize, Config, Engine, MoreFrames};
use std::alloc::Global;
use std::test::Fail;
use std::thread::Threads;

type Memory = Mirrored<Renamed<ModelDisk>, Renamed<ModelDisk>>;

/// How many stores there are, and how often each is copied.
const STORES: u64 = 50;

const COPIES: u32 = 4;

/// So many steps before a copy begins, and beside it: 100,000 of all.
const BEFORE: u64 = 100;

const BESIDE: u64 = 400;

// Files without bytes, by either names of the logs.
fn empty(alloc: Global, swapped: bool) -> Renamed<ModelDisk>
    ensures working { ⟦<Renamed<ModelDisk> as Disk>⟧.failed result ≡ false }
    ensures empty { (file : FileId) → ⟦<Renamed<ModelDisk> as Disk>⟧.seen result file ≡ [] }
{
    let disk = ModelDisk::new(Vec::new(alloc), Vec::new(alloc));
    Renamed::new(disk, swapped)
}

// How the store of a seed is opened: with few frames, and in one of two stores a Commit waits for a force, in one of three a structure change takes several steps.
fn config(seed: u64) -> Config {
    Config {
        frames: 8 + (seed % 13) as usize,
        more: MoreFrames::NONE,
        max_pages: 1_000_000,
        buffer: BufferSize::ONE,
        stepped: seed % 3 == 0,
        dense: seed % 5 == 0,
        group: seed % 2 == 0,
        workers: 1,
    }
}

fn end<D: Disk + Drop>(_engine: Engine<D>) {}

// What the store of a disk has.
fn entries_of<D: TwoLogs + Drop, R: Threads + Sync>(
    rt: &R,
    alloc: Global,
    disk: D,
) -> Result<Vec<(Key, Rid)>, Fault>
    requires working { D.failed disk ≡ false }
    requires synced { IsSynced D.Disk disk }
{
    match Engine::open_or_create(rt, alloc, disk, Config::default()) {
        Ok(mut engine) => {
            let entries = engine.entries(alloc);
            end(engine);
            entries
        }
        Err((fault, _disk)) => Err(fault),
    }
}

// The same, where the logs have their own names.
fn entries_of_files<D: Disk + Drop, R: Threads + Sync>(
    rt: &R,
    alloc: Global,
    disk: D,
) -> Result<Vec<(Key, Rid)>, Fault>
    requires working { D.failed disk ≡ false }
    requires synced { IsSynced D.Disk disk }
{
    entries_of(rt, alloc, Renamed::new(disk, false))
}

// Copies what is left, and ends the copy.
fn finish<D: TwoLogs, T: TwoLogs + Drop>(
    engine: &mut Engine<Mirrored<D, T>>,
    room: &mut [u8],
) -> Result<Option<T>, Fault>
    ensures working { IfOk result (λ o. IfSome o (λ t. T.failed t ≡ false)) }
    ensures synced { IfOk result (λ o. IfSome o (λ t. IsSynced T.Disk t)) }
{
    for _ in 0..1_000_000 {
        match engine.copy_piece(room) {
            Ok(Piece::More) => {}
            Ok(_) => break,
            Err(fault) => return Err(fault),
        }
    }
    let Some(copy) = engine.end_copy()? else {
        return Ok(None);
    };
    Ok(Some(copy))
}

// Copies a store between its steps.
fn copied<D: TwoLogs, T: TwoLogs + Drop>(
    alloc: Global,
    engine: &mut Engine<Mirrored<D, T>>,
    work: &mut Work,
    to: T,
) -> Result<Option<T>, Fault>
    requires working { T.failed to ≡ false }
    requires empty { T.tells → (file : FileId) → T.seen to file ≡ [] }
    ensures working { IfOk result (λ o. IfSome o (λ t. T.failed t ≡ false)) }
    ensures synced { IfOk result (λ o. IfSome o (λ t. IsSynced T.Disk t)) }
{
    let mut room = [0; 512];
    engine.begin_copy(to);
    run(alloc, engine, work, BESIDE, &mut room)?;
    finish(engine, &mut room)
}

// Copies a store, and opens the copy: whether it has what it has to.
fn is_copied<R: Threads + Sync>(
    rt: &R,
    alloc: Global,
    engine: &mut Engine<Memory>,
    work: &mut Work,
    waits: bool,
) -> Result<bool, Fault> {
    run(alloc, engine, work, BEFORE, &mut [])?;
    let to = empty(alloc, work.dice.below(2) == 0);
    let Some(copy) = copied(alloc, engine, work, to)? else {
        return Ok(false);
    };
    let found = entries_of(rt, alloc, copy)?;
    let left = entries_of_files(rt, alloc, engine.disk().disk().disk().after_stop(alloc)?)?;
    Ok(are_same(&found, &left) && (waits || work.keys.are(&found)))
}

// Copies a store several times: how many of the copies are right.
fn count<R: Threads + Sync>(
    rt: &R,
    alloc: Global,
    engine: &mut Engine<Memory>,
    work: &mut Work,
    waits: bool,
) -> Result<u32, Fault> {
    let mut right = 0;
    for copy in 0..COPIES {
        if is_copied(rt, alloc, engine, work, waits)? && right <= copy {
            right += 1;
        }
    }
    Ok(right)
}

// Opens the store of a disk that is to be copied.
fn opened<D: Disk + Drop, T: TwoLogs + Drop, R: Threads + Sync>(
    rt: &R,
    alloc: Global,
    disk: D,
    config: Config,
) -> Result<Engine<Mirrored<Renamed<D>, T>>, Fault>
    requires working { D.failed disk ≡ false }
    requires synced { IsSynced D.Disk disk }
{
    let disk = Mirrored::new(Renamed::new(disk, false));
    match Engine::open_or_create(rt, alloc, disk, config) {
        Ok(engine) => Ok(engine),
        Err((fault, _disk)) => Err(fault),
    }
}

// The store of a seed: how many of its copies are right.
fn count_of<R: Threads + Sync>(
    rt: &R,
    alloc: Global,
    seed: u64,
    work: &mut Work,
) -> Result<u32, Fault> {
    let disk = ModelDisk::new(Vec::new(alloc), Vec::new(alloc));
    let mut engine = opened(rt, alloc, disk, config(seed))?;
    let right = count(rt, alloc, &mut engine, work, seed % 2 == 0);
    end(engine);
    right
}

#[test]
fn a_copy_has_what_a_stop_would_leave(rt: HostRuntime) -> Result<(), Fail> {
    let mut done = Done::NONE;
    for seed in 0..STORES {
        let mut work = Work::new(rt.alloc(), seed)?;
        let right = count_of(&rt, rt.alloc(), seed, &mut work)?;
        assert!(rt; right == COPIES, "{seed}");
        done = done.and(work.done);
    }
    assert!(rt; done.commits > 3_000 && done.rollbacks > 3_000);
    assert!(rt; done.switches > 500 && done.pieces > 5_000);
    Ok(())
}
