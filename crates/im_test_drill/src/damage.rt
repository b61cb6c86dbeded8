//! A log of one insert that was committed, cut and with bytes replaced.

ghost use Rattle.std.specs.Prelude.{◌≡◌, false};
ghost use Rattle.im_base_disk.specs.Runs.{IsSynced};

use im_base_disk::Disk;
use im_base_model_disk::ModelDisk;
use im_base_steps::{Reply, Step};
use im_base_two_logs::Renamed;
use im_base_types::Fault;
use im_engine::{Config, Engine};
use im_tool_lines::StoreScript;
use std::alloc::{AllocError, Global};
use std::process::Abort;
use std::test::Fail;
use std::thread::Threads;

const SCRIPT: &str =
    "set log 014152494553494d3100001000000000000000000000000000000000000000010000004c0000002b01000000000000000100000000000000000000000000000000000000010161000000000000000700000021080000000000000001000000000000002400000000000000000000000000\nlife\n";

fn whole_log(alloc: Global) -> Vec<u8> {
    match StoreScript::parse(alloc, SCRIPT.as_bytes()) {
        Ok(script) => {
            let StoreScript {
                log,
                pages: _pages,
                log2: _log2,
                lives: _lives,
            } = script;
            log
        }
        Err(_) => Vec::new(alloc),
    }
}

// What an opening of these files answers: 0, or the refusal's number. Where it succeeds, steps of each kind are made.
fn answer_of<R: Threads + Sync>(
    rt: &R,
    alloc: Global,
    log: Vec<u8>,
    pages: Vec<u8>,
) -> Result<u8, AllocError> {
    match open(rt, alloc, ModelDisk::new(log, pages)) {
        Ok(mut engine) => {
            let made = make_steps(alloc, &mut engine);
            let _disk = engine.into_disk();
            match made {
                Ok(()) => Ok(0),
                Err(error) => Err(error),
            }
        }
        Err(fault) => Ok(fault.number()),
    }
}

fn open<R: Threads + Sync>(
    rt: &R,
    alloc: Global,
    disk: ModelDisk,
) -> Result<Engine<Renamed<ModelDisk>>, Fault>
    requires working { ⟦<ModelDisk as Disk>⟧.failed disk ≡ false }
    requires synced { IsSynced ⟦<ModelDisk as Disk>⟧ disk }
{
    match Engine::open_or_create(rt, alloc, Renamed::new(disk, false), Config::default()) {
        Ok(engine) => Ok(engine),
        Err((fault, _disk)) => Err(fault),
    }
}

// A step of the one transaction, by the byte of its key.
#[derive(Clone, Copy)]
enum Ask {
    Fetch(u8),
    Insert(u8, u64),
    Delete(u8),
    FlushPage(u32),
    Force,
    Commit,
}

static STEPS: [Ask; 6] = [
    Ask::Fetch(b'a'),
    Ask::Insert(b'b', 8),
    Ask::Delete(b'a'),
    Ask::FlushPage(1),
    Ask::Force,
    Ask::Commit,
];

fn make_steps(alloc: Global, engine: &mut Engine<Renamed<ModelDisk>>) -> Result<(), AllocError> {
    let number = match engine.step(&Step::Begin) {
        Reply::Started(number) => number,
        _ => 1,
    };
    for ask in &STEPS {
        let _reply = engine.step(&step_of(alloc, number, *ask)?);
    }
    Ok(())
}

fn step_of(alloc: Global, number: u64, ask: Ask) -> Result<Step, AllocError> {
    Ok(match ask {
        Ask::Fetch(byte) => Step::Fetch(number, key(alloc, byte)?),
        Ask::Insert(byte, rid) => Step::Insert(number, key(alloc, byte)?, rid),
        Ask::Delete(byte) => Step::Delete(number, key(alloc, byte)?),
        Ask::FlushPage(page) => Step::FlushPage(page),
        Ask::Force => Step::Force,
        Ask::Commit => Step::Commit(number),
    })
}

fn key(alloc: Global, byte: u8) -> Result<Vec<u8>, AllocError> {
    let mut key = Vec::new(alloc);
    key.push(byte)?;
    Ok(key)
}

// A file of pages of so many bytes, each 0xFF.
fn ones(alloc: Global, len: usize) -> Result<Vec<u8>, AllocError> {
    vec![in alloc; 0xFF; len]
}

// A log of no bytes or one was never made. One that is cut elsewhere is none.
#[test]
fn a_log_that_is_cut_is_no_store(rt: HostRuntime) -> Result<(), Fail> {
    each_cut(&rt, rt.alloc(), &whole_log(rt.alloc()))
}

fn each_cut<R: Abort + Threads + Sync>(rt: &R, alloc: Global, log: &[u8]) -> Result<(), Fail> {
    assert!(rt; log.len() == 113, "{}", log.len());
    for size in 0..log.len() {
        let cut = Vec::from_slice(alloc, &log[..size])?;
        let answer = answer_of(rt, alloc, cut, Vec::new(alloc))?;
        let want = if size < 2 { 0 } else { 11 };
        assert!(rt; answer == want, "{size}: {answer}");
    }
    Ok(())
}

// A byte of the log is replaced, beside a file of pages that is none: the store opens, or is none, and each step answers.
#[test]
fn a_replaced_byte_is_refused_or_read(rt: HostRuntime) -> Result<(), Fail> {
    let alloc = rt.alloc();
    for len in [0, 4096, 8192] {
        for byte in [0x00, 0x01, 0xFF] {
            let others = others_with(&rt, alloc, byte, len)?;
            assert!(rt; others == 0, "{byte} {len}: {others}");
        }
    }
    Ok(())
}

// With each byte replaced in turn by this one: how many openings answer anything but that the store opens or is none.
fn others_with<R: Threads + Sync>(
    rt: &R,
    alloc: Global,
    byte: u8,
    len: usize,
) -> Result<usize, AllocError> {
    others_of(rt, alloc, &whole_log(alloc), byte, len)
}

fn others_of<R: Threads + Sync>(
    rt: &R,
    alloc: Global,
    log: &[u8],
    byte: u8,
    len: usize,
) -> Result<usize, AllocError> {
    let mut others = 0usize;
    for at in 0..log.len() {
        let damaged = replaced(alloc, log, at, byte)?;
        let answer = answer_of(rt, alloc, damaged, ones(alloc, len)?)?;
        if answer != 0 && answer != 11 {
            others = others.wrapping_add(1);
        }
    }
    Ok(others)
}

fn replaced(alloc: Global, log: &[u8], at: usize, byte: u8) -> Result<Vec<u8>, AllocError> {
    let mut damaged = Vec::from_slice(alloc, log)?;
    if let Some(found) = damaged.get_mut(at) {
        *found = byte;
    }
    Ok(damaged)
}
