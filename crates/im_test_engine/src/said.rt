//! Replies, as tests compare them, and engines, as tests open and end them.
//! Each test lends its engine to the steps: what a function owns is dropped at each of its exits, which takes a proof each.

ghost use Rattle.std.specs.Prelude.{◌≡◌, false};
ghost use Rattle.im_base_disk.specs.Runs.{IsSynced};

use im_base_disk::Disk;
use im_base_model_disk::ModelDisk;
use im_base_steps::{Blocker, Reply, Step};
use im_base_two_logs::{Renamed, TwoLogs};
use im_base_types::Fault;
use im_engine::{Config, Engine};
use std::alloc::Global;
use std::test::Fail;
use std::thread::Threads;

/// What a reply says: of an entry its key's first byte and its row id, of entries how many, of a refusal its number.
#[derive(Clone, Copy, PartialEq, Eq)]
pub enum Said {
    Started(u64),
    Found(u64),
    Absent,
    Entry(u8, u64),
    End,
    Entries(usize),
    Inserted,
    Duplicate,
    Deleted,
    Committed,
    RolledBack,
    More,
    BlockedBy(u64),
    BlockedByTree,
    Die,
    Done,
    Refused(u8),
}

/// What a reply says.
pub fn as_said(reply: &Reply) -> Said {
    match reply {
        Reply::Started(t) => Said::Started(*t),
        Reply::Found(rid) => Said::Found(*rid),
        Reply::Absent => Said::Absent,
        Reply::Entry(key, rid) => Said::Entry(key.bytes()[0], *rid),
        Reply::End => Said::End,
        Reply::Entries(list) => Said::Entries(list.len()),
        Reply::Inserted => Said::Inserted,
        Reply::Duplicate => Said::Duplicate,
        Reply::Deleted => Said::Deleted,
        Reply::Committed => Said::Committed,
        Reply::RolledBack => Said::RolledBack,
        Reply::More => Said::More,
        Reply::Blocked(Blocker::Lock(holder)) => Said::BlockedBy(*holder),
        Reply::Blocked(Blocker::Tree) => Said::BlockedByTree,
        Reply::Die => Said::Die,
        Reply::Done => Said::Done,
        Reply::Refused(fault) => Said::Refused(fault.number()),
    }
}

/// Whether these replies say this.
pub fn are_said(replies: &[Reply], said: &[Said]) -> bool {
    if replies.len() != said.len() {
        return false;
    }
    for i in 0..replies.len() {
        if as_said(&replies[i]) != said[i] {
            return false;
        }
    }
    true
}

/// Makes a step, and says what was answered.
pub fn make<D: TwoLogs>(engine: &mut Engine<D>, step: Step) -> Said {
    let reply = engine.step(&step);
    as_said(&reply)
}

/// Opens the store of a disk.
pub fn opened<D: Disk + Drop, R: Threads + Sync>(
    rt: &R,
    alloc: Global,
    disk: D,
    config: Config,
) -> Result<Engine<Renamed<D>>, Fault>
    requires working { D.failed disk ≡ false }
    requires synced { IsSynced D.Disk disk }
{
    match Engine::open_or_create(rt, alloc, Renamed::new(disk, false), config) {
        Ok(engine) => Ok(engine),
        Err((fault, _disk)) => Err(fault),
    }
}

/// Opens a new store.
pub fn created<R: Threads + Sync>(
    rt: &R,
    alloc: Global,
    config: Config,
) -> Result<Engine<Renamed<ModelDisk>>, Fault> {
    let disk = ModelDisk::new(Vec::new(alloc), Vec::new(alloc));
    opened(rt, alloc, disk, config)
}

/// Opens what a stop now leaves of an engine's disk.
pub fn opened_after_stop<R: Threads + Sync>(
    rt: &R,
    alloc: Global,
    engine: &Engine<Renamed<ModelDisk>>,
    config: Config,
) -> Result<Engine<Renamed<ModelDisk>>, Fault> {
    let left = engine.disk().disk().after_stop(alloc)?;
    opened(rt, alloc, left, config)
}

/// Ends an engine, and its disk.
pub fn end(_engine: Engine<Renamed<ModelDisk>>) {}
