//! How threads share one store in a folder: a front over the engine, threads that insert keys of their own, one that keeps the log short, and what is there when
//! the store is opened again.
//!
//! A Switch is refused `Busy` while any transaction is active, and where many threads work some always is. So each of them holds `Quiet` to read from `Begin` to the
//! end of its transaction, and the keeper takes it to write for one Switch: that waits for the transactions that are under way, and those that come wait for it.

use im_base_steps::{Reply, Step};
use im_base_types::{Fault, TxnId};
use im_engine::{Config, Engine};
use im_front::{Left, Open, Stats};
use im_open::{Files, open};
use im_store::{Bounds, OpenStore};
use im_theory_store_trait::Store;
use std::alloc::Global;
use std::sync::{RwLock, Wait};
use std::thread::{Threads, map_vec};

/// How many threads there are.
const THREADS: u8 = 4;

/// How many keys each thread inserts.
const KEYS: u8 = 25;

/// How often the keeper lets the log go on in the other file.
const ROUNDS: u8 = 3;

/// What one thread is for.
#[derive(Clone, Copy, Debug, PartialEq, Eq)]
enum Part {
    /// It inserts keys that begin with this byte.
    Worker(u8),
    /// It keeps the log short.
    Keeper,
}

/// Held to read while a transaction is active, and to write where none may be.
#[derive(Drop)]
struct Quiet {
    lock: RwLock<()>,
}

/// What the threads did: the counts of the front, and how often the log went on in the other file.
#[derive(Drop)]
pub struct Done {
    stats: Stats,
    switched: u64,
}

/// What is left of a front that was closed: the counts, and what the store in its folder has when it is opened again.
pub fn show<R: Threads + Sync>(
    rt: &HostRuntime,
    threads: &R,
    done: Done,
    left: Left<Engine<Files>>,
    folder: &str,
) -> anyhow::Result<()> {
    close(left)?;
    println!(rt; "committed {}", done.stats.committed)?;
    println!(rt; "went on in the other file {}", done.switched)?;
    println!(rt;
        "entries when opened again: {}",
        count(rt, threads, folder)?
    )?;
    Ok(())
}

// Closes the store, of which one thread has the engine again.
fn close(left: Left<Engine<Files>>) -> Result<(), Fault> {
    let Left { engine, .. } = left;
    im_open::close(OpenStore::over(engine, Bounds::default()))
}

// How many entries the store in a folder has.
fn count<R: Threads + Sync>(rt: &HostRuntime, threads: &R, folder: &str) -> anyhow::Result<usize> {
    let mut engine = open(rt, threads, folder, Config::default())?.into_engine();
    let entries = engine.entries(rt.alloc());
    let (closed, _disk) = engine.close();
    closed?;
    Ok(entries?.len())
}

/// All threads at work, to the end of each; and what they did then.
pub fn insert_all<E: Store + Send, R: Threads + Wait + Sync>(
    rt: &R,
    alloc: Global,
    front: &Open<E>,
) -> Result<Done, Fault> {
    let mut reader = front.share(rt)?;
    let quiet = Quiet {
        lock: RwLock::new(()),
    };
    let parts = parts_of(alloc)?;
    let Ok(done) = map_vec(rt, parts, &|part| play(rt, alloc, front, &quiet, part)) else {
        return Err(Fault::Memory);
    };
    let mut switched: u64 = 0;
    for told in done {
        switched = switched.saturating_add(u64::from(told?));
    }
    Ok(Done {
        stats: front.stats(&mut reader),
        switched,
    })
}

// The workers, and the keeper.
fn parts_of(alloc: Global) -> Result<Vec<Part>, Fault> {
    let mut parts = Vec::new(alloc);
    let Ok(()) = parts.push(Part::Keeper) else {
        return Err(Fault::Memory);
    };
    for thread in 0..THREADS {
        let Ok(()) = parts.push(Part::Worker(b'a' + thread)) else {
            return Err(Fault::Memory);
        };
    }
    Ok(parts)
}

// What a thread does. It answers how often it let the log go on in the other file.
fn play<E: Store, R: Wait>(
    rt: &R,
    alloc: Global,
    front: &Open<E>,
    quiet: &Quiet,
    part: Part,
) -> Result<u8, Fault> {
    match part {
        Part::Worker(thread) => {
            work(rt, alloc, front, quiet, thread)?;
            Ok(0)
        }
        Part::Keeper => keep(rt, front, quiet),
    }
}

// What a keeper does, here so many times one after another. A program waits in between, until so many more transactions are committed as `stats` tells, or for a time. It
// answers how often the log went on in the other file.
fn keep<E: Store, R: Wait>(rt: &R, front: &Open<E>, quiet: &Quiet) -> Result<u8, Fault> {
    for _round in 0..ROUNDS {
        match front.call(rt, Step::Switch) {
            Reply::Done => {}
            Reply::Refused(Fault::Busy) => switch_in_quiet(rt, front, quiet)?,
            other => return Err(fault_of(other)),
        }
    }
    Ok(ROUNDS)
}

// Lets the log go on in the other file at a moment when nobody is active.
fn switch_in_quiet<E: Store, R: Wait>(rt: &R, front: &Open<E>, quiet: &Quiet) -> Result<(), Fault> {
    let _quiet = quiet.lock.write(rt);
    match front.call(rt, Step::Switch) {
        Reply::Done => Ok(()),
        other => Err(fault_of(other)),
    }
}

// What a worker does: it inserts its keys, each in a transaction of its own.
fn work<E: Store, R: Wait>(
    rt: &R,
    alloc: Global,
    front: &Open<E>,
    quiet: &Quiet,
    thread: u8,
) -> Result<(), Fault> {
    for number in 0..KEYS {
        insert(rt, alloc, front, quiet, thread, number)?;
    }
    Ok(())
}

// Inserts a key and commits: it is durable then. Where the transaction must die it is rolled back, and a new one tries again once those
// that wait for a force are committed: one of them may have what this one wants.
fn insert<E: Store, R: Wait>(
    rt: &R,
    alloc: Global,
    front: &Open<E>,
    quiet: &Quiet,
    thread: u8,
    number: u8,
) -> Result<(), Fault> {
    for _attempt in rt.forever() {
        if is_inserted(rt, alloc, front, quiet, thread, number)? {
            return Ok(());
        }
        front.settle(rt)?;
    }
    unreachable!()
}

// One transaction, within which nothing is switched: whether it inserted the key, or had to die.
fn is_inserted<E: Store, R: Wait>(
    rt: &R,
    alloc: Global,
    front: &Open<E>,
    quiet: &Quiet,
    thread: u8,
    number: u8,
) -> Result<bool, Fault> {
    let _active = quiet.lock.read(rt);
    let t = begin(rt, front)?;
    let key = key_of(alloc, thread, number)?;
    match front.call(rt, Step::Insert(t, key, u64::from(number))) {
        Reply::Inserted => {
            front.commit(rt, t)?;
            Ok(true)
        }
        Reply::Die => {
            roll_back(rt, front, t)?;
            Ok(false)
        }
        other => Err(fault_of(other)),
    }
}

// A transaction that begins.
fn begin<E: Store, R: Wait>(rt: &R, front: &Open<E>) -> Result<TxnId, Fault> {
    match front.call(rt, Step::Begin) {
        Reply::Started(t) => Ok(t),
        other => Err(fault_of(other)),
    }
}

// Rolls a transaction back, to its end.
fn roll_back<E: Store, R: Wait>(rt: &R, front: &Open<E>, t: TxnId) -> Result<(), Fault> {
    let mut reply = front.call(rt, Step::Rollback(t));
    for _step in rt.forever() {
        match reply {
            Reply::RolledBack => return Ok(()),
            Reply::More => reply = front.call(rt, Step::Continue(t)),
            other => return Err(fault_of(other)),
        }
    }
    unreachable!()
}

// Why a reply is not the one that was hoped for.
fn fault_of(reply: Reply) -> Fault {
    match reply {
        Reply::Refused(fault) => fault,
        _ => Fault::Failed,
    }
}

// The key of a thread of this number.
fn key_of(alloc: Global, thread: u8, number: u8) -> Result<Vec<u8>, Fault> {
    match Vec::from_slice(alloc, &[thread, number]) {
        Ok(key) => Ok(key),
        Err(_) => Err(Fault::Memory),
    }
}
