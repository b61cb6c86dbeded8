//! Threads that share one store on a model disk which stops within one of its calls: what the trace acknowledged is there afterwards.

ghost use Rattle.std.specs.Prelude.{◌≡◌, false};
ghost use Rattle.im_base_disk.specs.Runs.{IsSynced};
ghost use Rattle.im_front.specs.Held.{IsResting};

use crate::stores::CREATION;
use crate::threads::both_shares;
use crate::traced_stores::{Memory, default_store, front_over};
use im_base_disk::Disk;
use im_base_model_disk::{Fill, Length, ModelDisk, Stop};
use im_base_steps::{Reply, Step};
use im_base_two_logs::Renamed;
use im_base_types::{Fault, Key, Rid, TxnId};
use im_engine::{Config, look};
use im_front::{Closed, Front, Recorded, Share, Told};
use im_theory_store_trait::Store;
use std::alloc::Global;
use std::marker::Brand;
use std::sync::Wait;
use std::sync::ledger::{Blank, Ledger};
use std::test::Fail;
use std::thread::{Threads, join};

/// How many transactions each of the two threads makes.
const TXNS: u64 = 40;

/// How many stops are tried: one within each of the first calls of the disk after those of a creation.
const STOPS: u64 = 100;

// The trace, the entries that were found after the stop, and whether it came.
#[derive(Drop)]
struct Left {
    trace: Vec<Recorded>,
    entries: Vec<(Key, Rid)>,
    stopped: bool,
}

// A stop within a call, of one of four kinds.
fn stop_at(alloc: Global, call: u64) -> Result<Stop, Fault> {
    let mut bytes = Vec::new(alloc);
    let Ok(()) = bytes.push((call % 251) as u8) else {
        return Err(Fault::Memory);
    };
    Ok(Stop {
        call,
        length: if call % 2 == 0 {
            Length::Long
        } else {
            Length::Short
        },
        fill: if call % 4 < 2 {
            Fill::Bytes(bytes)
        } else {
            Fill::Written
        },
    })
}

// The key of a thread's transaction. The keys of both threads stand in turn.
fn key_of(alloc: Global, thread: u8, number: u64) -> Result<Vec<u8>, Fault> {
    let mut key = Vec::new(alloc);
    match key.extend_from_slice(&[(number % 256) as u8, thread]) {
        Ok(()) => Ok(key),
        Err(_) => Err(Fault::Memory),
    }
}

// The row id of a thread's transaction.
fn rid_of(thread: u8, number: u64) -> Rid {
    number.wrapping_mul(2).wrapping_add(u64::from(thread))
}

// Makes transactions that insert a key each, until a step is refused.
fn work<E: Store, L: Ledger, R: Wait>(
    rt: &R,
    alloc: Global,
    front: &Front<E, L>,
    share: Share<L>,
    thread: u8,
) -> Result<Share<L>, Fault> {
    let mut mine = share;
    for number in 0..TXNS {
        let key = key_of(alloc, thread, number)?;
        if !one_insert(rt, front, &mut mine, key, rid_of(thread, number)) {
            break;
        }
    }
    Ok(mine)
}

// One transaction, which is committed, or rolled back where it must die. Whether the store goes on.
fn one_insert<E: Store, L: Ledger, R: Wait>(
    rt: &R,
    front: &Front<E, L>,
    mine: &mut Share<L>,
    key: Vec<u8>,
    rid: Rid,
) -> bool {
    let Reply::Started(t) = front.call(rt, mine, Step::Begin) else {
        return false;
    };
    match front.call(rt, mine, Step::Insert(t, key, rid)) {
        Reply::Inserted => matches!(front.call(rt, mine, Step::Commit(t)), Reply::Committed),
        Reply::Die => roll_back(rt, front, mine, t),
        _ => false,
    }
}

// Rolls a transaction back, to its end.
fn roll_back<E: Store, L: Ledger, R: Wait>(
    rt: &R,
    front: &Front<E, L>,
    mine: &mut Share<L>,
    t: TxnId,
) -> bool {
    let mut reply = front.call(rt, mine, Step::Rollback(t));
    for _round in rt.forever() {
        if !matches!(reply, Reply::More) {
            return matches!(reply, Reply::RolledBack);
        }
        reply = front.call(rt, mine, Step::Continue(t));
    }
    unreachable!()
}

// Both threads at work on one store, to the end of it.
fn both<E: Store + Send, L: Ledger + Send + Sync, R: Threads + Wait + Sync>(
    rt: &R,
    alloc: Global,
    engine: E,
    blank: Blank,
) -> Result<Closed<E>, Fault>
    requires resting { IsResting E.Store engine }
    requires blank { (blank.name ≡ L.name) × (blank.parts ≡ L.parts) × (blank.parts ≡ 1024) }
{
    let front = front_over::<E, L>(alloc, engine, blank)?;
    let shares = work_at_once(rt, alloc, &front)?;
    Ok(front.close(shares))
}

// Both threads at work, and their shares then.
fn work_at_once<E: Store + Send, L: Ledger + Send + Sync, R: Threads + Wait + Sync>(
    rt: &R,
    alloc: Global,
    front: &Front<E, L>,
) -> Result<Vec<Share<L>>, Fault> {
    let first = front.share(rt)?;
    let second = front.share(rt)?;
    let (first, second) = join(
        rt,
        || work(rt, alloc, front, first, 0),
        || work(rt, alloc, front, second, 1),
    );
    both_shares(alloc, first?, second?)
}

// What the stop left, opened again.
fn reopened<R: Threads + Sync>(
    rt: &R,
    alloc: Global,
    closed: Closed<Memory>,
) -> Result<Left, Fault> {
    let Closed { engine, trace, .. } = closed;
    let (stopped, entries) = left_on(rt, alloc, engine.into_disk().into_disk());
    Ok(Left {
        trace,
        entries: entries?,
        stopped,
    })
}

// Whether a disk has stopped, and the entries that it left.
fn left_on<R: Threads + Sync>(
    rt: &R,
    alloc: Global,
    disk: ModelDisk,
) -> (bool, Result<Vec<(Key, Rid)>, Fault>) {
    (disk.stopped(), entries_left(rt, alloc, &disk))
}

// The entries that a stop leaves of a disk, opened again.
fn entries_left<R: Threads + Sync>(
    rt: &R,
    alloc: Global,
    disk: &ModelDisk,
) -> Result<Vec<(Key, Rid)>, Fault> {
    let Ok(left) = disk.after_stop(alloc) else {
        return Err(Fault::Memory);
    };
    entries_on(rt, alloc, left)
}

// The entries of the store of a disk.
fn entries_on<D: Disk + Drop, R: Threads + Sync>(
    rt: &R,
    alloc: Global,
    disk: D,
) -> Result<Vec<(Key, Rid)>, Fault>
    requires working { D.failed disk ≡ false }
    requires synced { IsSynced D.Disk disk }
{
    let (entries, _disk) = look(rt, alloc, Renamed::new(disk, false), Config::default());
    match entries {
        Ok(entries) => Ok(entries),
        Err(_) => Err(Fault::NotAStore),
    }
}

// The life of a store that stops within this call, and what it leaves.
fn stopped_at<L: Ledger + Send + Sync, R: Threads + Wait + Sync>(
    rt: &R,
    alloc: Global,
    blank: Blank,
    call: u64,
) -> Result<Left, Fault>
    requires blank { (blank.name ≡ L.name) × (blank.parts ≡ L.parts) × (blank.parts ≡ 1024) }
{
    let engine = default_store(rt, alloc, stop_at(alloc, call)?)?;
    let closed = both::<Memory, L, R>(rt, alloc, engine, blank)?;
    reopened(rt, alloc, closed)
}

// Whether the Commit of a transaction stands in the trace; and if it does, whether it was acknowledged.
fn committed(trace: &[Recorded], transaction: TxnId) -> Option<bool> {
    for recorded in trace {
        if let Step::Commit(t) = recorded.step {
            if t == transaction {
                return Some(matches!(recorded.reply, Told::Committed));
            }
        }
    }
    None
}

// Whether there is an entry of this key with this row id.
fn has_entry(entries: &[(Key, Rid)], key: &[u8], rid: Rid) -> bool {
    entries
        .iter()
        .any(|entry| entry.0.bytes() == key && entry.1 == rid)
}

// How many inserts were acknowledged by a Commit; none where one of these is not among the entries.
fn kept(left: &Left) -> Option<usize> {
    let mut count = 0usize;
    for recorded in left.trace.as_slice() {
        if let (Step::Insert(t, key, rid), Told::Inserted) = (&recorded.step, &recorded.reply) {
            if committed(left.trace.as_slice(), *t) == Some(true) {
                if !has_entry(left.entries.as_slice(), key.as_slice(), *rid) {
                    return None;
                }
                count = count.saturating_add(1);
            }
        }
    }
    Some(count)
}

// Whether a transaction inserted this entry and asked for its Commit.
fn was_asked(trace: &[Recorded], entry: &(Key, Rid)) -> bool {
    for recorded in trace {
        if let (Step::Insert(t, key, rid), Told::Inserted) = (&recorded.step, &recorded.reply) {
            if key.as_slice() == entry.0.bytes() && *rid == entry.1 {
                return committed(trace, *t).is_some();
            }
        }
    }
    false
}

// Whether all entries are such.
fn all_asked(left: &Left) -> bool {
    left.entries
        .as_slice()
        .iter()
        .all(|entry| was_asked(left.trace.as_slice(), entry))
}

// The same, with a ledger of its own.
fn one_stop<R: Threads + Wait + Sync>(rt: &R, alloc: Global, call: u64) -> Result<Left, Fault> {
    stopped_at::<Brand, R>(rt, alloc, Blank::new(1024), call)
}

#[test]
fn a_stop_within_threads_keeps_what_was_acknowledged(rt: HostRuntime) -> Result<(), Fail> {
    let mut acknowledged = 0usize;
    for stop in 1..=STOPS {
        let left = one_stop(&rt, rt.alloc(), CREATION.saturating_add(stop))?;
        assert!(rt; left.stopped);
        assert!(rt; all_asked(&left));
        let kept = kept(&left);
        assert!(rt; kept.is_some());
        acknowledged = acknowledged.saturating_add(kept.unwrap_or(0));
    }
    assert!(rt; acknowledged > 0);
    Ok(())
}
