//! A stored trace that has no memory for a step: the step is refused `Memory` and is not made, and succeeds when it is made again.
//!
//! Nothing is refused where the tests run alone. `examples/refused_trace` runs this one with each request for memory refused in turn: so what the test takes
//! itself, it asks for twice.

ghost use Rattle.std.specs.Prelude.{◌≡◌, IfErr};

use crate::stores::{NEVER, are_bytes, key_of, new_store, stop_at};
use im_base_model_disk::ModelDisk;
use im_base_steps::{Reply, Step};
use im_base_two_logs::Renamed;
use im_base_types::{Fault, Key, Rid};
use im_engine::Engine;
use im_front::{Closed, Front, Recorded, Share, Told};
use im_theory_store_trait::Store;
use std::alloc::Global;
use std::marker::Brand;
use std::sync::Wait;
use std::sync::ledger::{Blank, Ledger};
use std::test::Fail;
use std::thread::Threads;

type Kept = Engine<Renamed<ModelDisk>>;

/// How many steps are made.
const STEPS: u64 = 16;

// What came of the steps: how many were refused for want of memory, and of how many of these the trace has the refusal, as the store gave it; whether it has
// the other replies as they have to be; and whether the entries are those of the one that was committed.
#[derive(Clone, Copy)]
struct Came {
    lacked: u64,
    recorded: u64,
    is_whole: bool,
    is_kept: bool,
}

// The step of this number: one transaction commits an entry, the next takes that away and another one in, and is rolled back.
fn step_of(alloc: Global, number: u64) -> Result<Step, Fault> {
    let a = key_of(alloc, b'a')?;
    let b = key_of(alloc, b'b')?;
    Ok(match number {
        1 => Step::Insert(1, a, 97),
        2 => Step::Scan(1, a, b, 9),
        3 => Step::Prev(1, b),
        4 => Step::Commit(1),
        6 => Step::Delete(2, a),
        7 => Step::Insert(2, b, 98),
        8 => Step::Rollback(2),
        9 | 10 => Step::Continue(2),
        11 => Step::Checkpoint,
        12 => Step::Switch,
        14 => Step::Fetch(3, b),
        15 => Step::Commit(3),
        _ => Step::Begin,
    })
}

// What it has to be answered.
fn is_wanted(number: u64, told: &Told) -> bool {
    match told {
        Told::Started(t) => (number, *t) == (0, 1)
            || (number, *t) == (5, 2)
            || (number, *t) == (13, 3),
        Told::Inserted => number == 1 || number == 7,
        Told::Entries(list) => number == 2 && are_bytes(list, b"a"),
        Told::Entry(key, rid) => number == 3 && key.as_slice() == b"a".as_slice() && *rid == 97,
        Told::Committed => number == 4 || number == 15,
        Told::Deleted => number == 6,
        Told::More => number == 8 || number == 9,
        Told::RolledBack => number == 10,
        Told::Done => number == 11 || number == 12,
        Told::Absent => number == 14,
        _ => false,
    }
}

fn asked_again(alloc: Global, number: u64) -> Result<Step, Fault> {
    match step_of(alloc, number) {
        Ok(step) => Ok(step),
        Err(_) => step_of(alloc, number),
    }
}

// Makes each step, and once more where it was refused for want of memory. It answers how many were.
fn make_all<L: Ledger, R: Wait>(
    rt: &R,
    alloc: Global,
    front: &Front<Kept, L>,
    mine: &mut Share<L>,
) -> Result<u64, Fault> {
    let mut lacked = 0u64;
    for number in 0..STEPS {
        let step = asked_again(alloc, number)?;
        if matches!(front.call(rt, mine, step), Reply::Refused(Fault::Memory)) {
            lacked = lacked.wrapping_add(1);
            let step = asked_again(alloc, number)?;
            let _ = front.call(rt, mine, step);
        }
    }
    Ok(lacked)
}

// How many refusals for want of memory the trace has, and whether the rest of it is as it has to be.
fn recorded_in(trace: &[Recorded]) -> (u64, bool) {
    let mut recorded = 0u64;
    let mut number = 0u64;
    for made in trace {
        if matches!(made.reply, Told::Refused(Fault::Memory)) {
            recorded = recorded.wrapping_add(1);
        } else if is_wanted(number, &made.reply) {
            number = number.wrapping_add(1);
        } else {
            return (recorded, false);
        }
    }
    (recorded, number == STEPS)
}

fn entries_of(alloc: Global, engine: Kept) -> Result<Vec<(Key, Rid)>, Fault> {
    let mut engine = engine;
    match engine.entries(alloc) {
        Ok(entries) => Ok(entries),
        Err(_) => engine.entries(alloc),
    }
}

// A front over a new store, or why there is none, and the blank.
fn front_of<L: Ledger, R: Threads + Sync>(
    rt: &R,
    alloc: Global,
    blank: Blank,
) -> Result<Front<Kept, L>, (Fault, Blank)>
    requires blank { (blank.name ≡ L.name) × (blank.parts ≡ L.parts) × (blank.parts ≡ 1024) }
    ensures blank { IfErr result (λ e. e.1 ≡ blank) }
{
    let engine = match new_store(rt, alloc, false, stop_at(NEVER), NEVER) {
        Ok(engine) => engine,
        Err(fault) => return Err((fault, blank)),
    };
    match Front::new(alloc, engine, blank) {
        Ok(front) => Ok(front),
        Err((fault, _engine, blank)) => Err((fault, blank)),
    }
}

fn share_of<L: Ledger, R: Wait>(rt: &R, front: &Front<Kept, L>) -> Result<Share<L>, Fault> {
    match front.share(rt) {
        Ok(mine) => Ok(mine),
        Err(_) => front.share(rt),
    }
}

fn room_for_one<L: Ledger>(alloc: Global) -> Result<Vec<Share<L>>, Fault> {
    if let Ok(room) = Vec::with_capacity(alloc, 1) {
        return Ok(room);
    }
    match Vec::with_capacity(alloc, 1) {
        Ok(room) => Ok(room),
        Err(_) => Err(Fault::Memory),
    }
}

// The steps on a new store, and what came of them.
fn came_over<L: Ledger, R: Wait>(
    rt: &R,
    alloc: Global,
    front: Front<Kept, L>,
) -> Result<Came, Fault>
    requires { L.parts ≡ 1024 }
{
    let mut shares = room_for_one(alloc)?;
    let mut mine = share_of(rt, &front)?;
    let lacked = make_all(rt, alloc, &front, &mut mine)?;
    let Ok(()) = shares.push(mine) else {
        return Err(Fault::Memory);
    };
    let Closed {
        engine,
        trace,
        sum,
        ..
    } = front.close(shares);
    let (recorded, is_whole) = recorded_in(&trace);
    let is_counted = sum == Some(trace.len() as u64);
    let entries = entries_of(alloc, engine)?;
    Ok(Came {
        lacked,
        recorded,
        is_whole: is_whole && is_counted,
        is_kept: are_bytes(&entries, b"a"),
    })
}

// The same, where the front is asked for twice.
fn came_of<L: Ledger, R: Wait + Threads + Sync>(
    rt: &R,
    alloc: Global,
    blank: Blank,
) -> Result<Came, Fault>
    requires blank { (blank.name ≡ L.name) × (blank.parts ≡ L.parts) × (blank.parts ≡ 1024) }
{
    match front_of::<L, R>(rt, alloc, blank) {
        Ok(front) => came_over(rt, alloc, front),
        Err((_, blank)) => match front_of::<L, R>(rt, alloc, blank) {
            Ok(front) => came_over(rt, alloc, front),
            Err((fault, _)) => Err(fault),
        },
    }
}

#[test]
fn a_trace_without_memory_makes_no_step(rt: HostRuntime) -> Result<(), Fail> {
    let came = came_of::<Brand, HostRuntime>(&rt, rt.alloc(), Blank::new(1024))?;
    let Came {
        lacked,
        recorded,
        ..
    } = came;
    let _ = eprintln!(rt; "refused {lacked} recorded {recorded}");
    assert!(rt; came.is_whole && came.is_kept);
    Ok(())
}
