//! Commits that wait for a force.

use crate::said::{Said, created, end, make};
use im_base_model_disk::ModelDisk;
use im_base_steps::Step;
use im_base_two_logs::Renamed;
use im_engine::{BufferSize, Config, Engine, MoreFrames};
use std::alloc::Global;
use std::process::Abort;
use std::test::Fail;
use std::thread::Threads;

fn key_of(alloc: Global, byte: u8) -> Result<Vec<u8>, Fail> {
    let mut key = Vec::new(alloc);
    key.push(byte)?;
    Ok(key)
}

// A new store in which Commits wait.
fn grouped<R: Threads + Sync>(rt: &R, alloc: Global) -> Result<Engine<Renamed<ModelDisk>>, Fail> {
    let config = Config {
        frames: 64,
        more: MoreFrames::NONE,
        max_pages: 1_000,
        buffer: BufferSize::ONE,
        stepped: false,
        dense: false,
        group: true,
        workers: 1,
    };
    Ok(created(rt, alloc, config)?)
}

// A transaction of this number begins, and inserts a key.
fn insert_one(
    alloc: Global,
    engine: &mut Engine<Renamed<ModelDisk>>,
    number: u64,
    byte: u8,
) -> Result<Said, Fail> {
    let key = key_of(alloc, byte)?;
    let _ = make(engine, Step::Begin);
    Ok(make(engine, Step::Insert(number, key, number)))
}

// Two Commits wait, and call no device; then neither is active for a step, and a third transaction waits for the lock of one.
fn two_wait(
    rt: &impl Abort,
    alloc: Global,
    engine: &mut Engine<Renamed<ModelDisk>>,
) -> Result<(), Fail> {
    let _ = insert_one(alloc, engine, 1, b'a')?;
    let _ = insert_one(alloc, engine, 2, b'b')?;
    assert!(rt; make(engine, Step::Commit(1)) == Said::More);
    assert!(rt; make(engine, Step::Commit(2)) == Said::More);
    assert!(rt; engine.disk().disk().calls() == 6 && engine.active() == 2);
    assert!(rt; make(engine, Step::Commit(1)) == Said::Refused(1));
    Ok(())
}

// One force commits both, and frees who is blocked.
fn both_are_committed(
    rt: &impl Abort,
    alloc: Global,
    engine: &mut Engine<Renamed<ModelDisk>>,
) -> Result<(), Fail> {
    assert!(rt; insert_one(alloc, engine, 3, b'a')? == Said::Die);
    assert!(rt; make(engine, Step::Force) == Said::Done);
    assert!(rt; engine.disk().disk().calls() == 10 && engine.active() == 1);
    assert!(rt; make(engine, Step::Rollback(3)) == Said::RolledBack);
    assert!(rt; insert_one(alloc, engine, 4, b'a')? == Said::Duplicate);
    Ok(())
}

fn wait_and_force(
    rt: &impl Abort,
    alloc: Global,
    engine: &mut Engine<Renamed<ModelDisk>>,
) -> Result<(), Fail> {
    two_wait(rt, alloc, engine)?;
    both_are_committed(rt, alloc, engine)
}

#[test]
fn force_finishes_both(rt: HostRuntime) -> Result<(), Fail> {
    let alloc = rt.alloc();
    let mut engine = grouped(&rt, alloc)?;
    let told = wait_and_force(&rt, alloc, &mut engine);
    end(engine);
    told
}
