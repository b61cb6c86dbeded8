//! Threads that meet, and what one caller reads back.

ghost use Rattle.std.specs.Prelude.{◌≡◌};
ghost use Rattle.im_front.specs.Held.{IsResting};

use crate::traced_stores::{Memory, fresh, front_over};
use im_base_steps::{Reply, Step};
use im_base_types::{Fault, WorkerStart};
use im_front::{Closed, Front, LoadArgs, Share, Stats};
use im_front_load::load_text;
use im_theory_store_trait::Store;
use std::alloc::Global;
use std::marker::Brand;
use std::sync::Wait;
use std::sync::atomic::{AtomicBool, Ordering};
use std::sync::ledger::{Blank, Ledger};
use std::test::Fail;
use std::thread;
use std::thread::{Threads, join};

// Two workers that wait for one another, each for a while.
#[derive(Drop)]
struct Meet {
    came: [AtomicBool; 2],
    met: [AtomicBool; 2],
}

impl WorkerStart for Meet {
    fn worker_starts(&self, worker: u64) {
        let (mine, other) = if worker == 0 { (0, 1) } else { (1, 0) };
        self.came[mine].store(true, Ordering::SeqCst);
        for _look in 0..2_000_000_000u64 {
            if self.came[other].load(Ordering::SeqCst) {
                self.met[mine].store(true, Ordering::SeqCst);
                break;
            }
            thread::yield_now();
        }
    }
}

#[test]
fn load_two_at_once(rt: HostRuntime) -> Result<(), Fail> {
    let meet = Meet {
        came: [AtomicBool::new(false), AtomicBool::new(false)],
        met: [AtomicBool::new(false), AtomicBool::new(false)],
    };
    let mut text = Vec::new(rt.alloc());
    let args = LoadArgs::new(2, 3, 0).expect(&rt, "in their ranges");
    let store = fresh(&rt, rt.alloc())?;
    let status = load_text(&rt, rt.alloc(), store, args, &meet, &mut text)?;
    assert_eq!(rt; status, 0);
    assert!(rt; meet.met[0].load(Ordering::SeqCst) && meet.met[1].load(Ordering::SeqCst));
    assert!(rt; text.as_slice().ends_with(b"\ntrace 18\n"));
    Ok(())
}

// What one caller sees of a store within its steps.
#[derive(Clone, Copy)]
struct Within {
    found: bool,
    stats: Stats,
    busy: bool,
    cut: bool,
}

// What one caller sees of a store.
#[derive(Clone, Copy)]
struct Seen {
    within: Within,
    steps: u64,
    kept: usize,
    sum: Option<u64>,
}

// Makes a step, whatever is answered.
fn make<E: Store, L: Ledger, R: Wait>(
    rt: &R,
    front: &Front<E, L>,
    mine: &mut Share<L>,
    step: Step,
) {
    let _ = front.call(rt, mine, step);
}

// Whether a Fetch finds a key, with the row id 7.
fn is_there<E: Store, L: Ledger, R: Wait>(
    rt: &R,
    front: &Front<E, L>,
    mine: &mut Share<L>,
    t: u64,
    key: Vec<u8>,
) -> bool {
    matches!(front.call(rt, mine, Step::Fetch(t, key)), Reply::Found(7))
}

/// Two shares, as a front is closed with them.
pub fn both_shares<L: Ledger>(
    alloc: Global,
    first: Share<L>,
    second: Share<L>,
) -> Result<Vec<Share<L>>, Fault> {
    let mut shares = Vec::new(alloc);
    let Ok(()) = shares.push(first) else {
        return Err(Fault::Memory);
    };
    let Ok(()) = shares.push(second) else {
        return Err(Fault::Memory);
    };
    Ok(shares)
}

// One transaction inserts a key and the next one looks for it.
fn insert_and_look<E: Store, L: Ledger, R: Wait>(
    rt: &R,
    alloc: Global,
    front: &Front<E, L>,
    mine: &mut Share<L>,
) -> Result<Within, Fault> {
    make(rt, front, mine, Step::Begin);
    make(rt, front, mine, Step::Insert(1, key(alloc)?, 7));
    make(rt, front, mine, Step::Commit(1));
    make(rt, front, mine, Step::Begin);
    let found = is_there(rt, front, mine, 2, key(alloc)?);
    let stats = front.stats(mine);
    let busy = matches!(front.cut_trace(rt), Err(Fault::Busy));
    make(rt, front, mine, Step::Commit(2));
    let cut = front.cut_trace(rt).is_ok();
    make(rt, front, mine, Step::Force);
    Ok(Within {
        found,
        stats,
        busy,
        cut,
    })
}

// The same by a share of its own. A second share makes no step.
fn look_by_share<E: Store, L: Ledger, R: Wait>(
    rt: &R,
    alloc: Global,
    front: &Front<E, L>,
) -> Result<(Within, Vec<Share<L>>), Fault> {
    let mut mine = front.share(rt)?;
    let other = front.share(rt)?;
    let within = insert_and_look(rt, alloc, front, &mut mine);
    let shares = both_shares(alloc, mine, other)?;
    Ok((within?, shares))
}

// The same on a new store. The second share does not come back where it is not asked for.
fn one_caller<E: Store, L: Ledger, R: Wait>(
    rt: &R,
    alloc: Global,
    store: E,
    blank: Blank,
    both: bool,
) -> Result<Seen, Fault>
    requires resting { IsResting E.Store store }
    requires blank { (blank.name ≡ L.name) × (blank.parts ≡ L.parts) × (blank.parts ≡ 1024) }
{
    let front = front_over::<E, L>(alloc, store, blank)?;
    let (within, mut shares) = look_by_share(rt, alloc, &front)?;
    let _away = if both { None } else { shares.pop() };
    let Closed {
        cut: steps,
        trace,
        sum,
        ..
    } = front.close(shares);
    Ok(Seen {
        within,
        steps,
        kept: trace.len(),
        sum,
    })
}

// The key a.
fn key(alloc: Global) -> Result<Vec<u8>, Fault> {
    let mut key = Vec::new(alloc);
    match key.push(b'a') {
        Ok(()) => Ok(key),
        Err(_) => Err(Fault::Memory),
    }
}

#[test]
fn read_back(rt: HostRuntime) -> Result<(), Fail> {
    let store = fresh(&rt, rt.alloc())?;
    let seen = one_caller::<Memory, Brand, HostRuntime>(
        &rt,
        rt.alloc(),
        store,
        Blank::new(1024),
        true,
    )?;
    let within = seen.within;
    assert!(rt; within.found && within.busy && within.cut);
    assert_eq!(rt;
        within.stats,
        Stats {
            started: 2,
            committed: 1,
            rolled_back: 0
        }
    );
    assert_eq!(rt; (seen.steps, seen.kept, seen.sum), (6, 1, Some(7)));
    Ok(())
}

#[test]
fn a_share_that_stays_away_leaves_no_sum(rt: HostRuntime) -> Result<(), Fail> {
    let store = fresh(&rt, rt.alloc())?;
    let seen = one_caller::<Memory, Brand, HostRuntime>(
        &rt,
        rt.alloc(),
        store,
        Blank::new(1024),
        false,
    )?;
    assert_eq!(rt; seen.sum, None);
    Ok(())
}

// An older transaction fetches the key that a younger one has inserted, while that one commits. Whether the first has found the key.
fn found_behind_another<E: Store + Send, L: Ledger + Send + Sync, R: Threads + Wait + Sync>(
    rt: &R,
    alloc: Global,
    store: E,
    blank: Blank,
) -> Result<bool, Fault>
    requires resting { IsResting E.Store store }
    requires blank { (blank.name ≡ L.name) × (blank.parts ≡ L.parts) × (blank.parts ≡ 1024) }
{
    let front = front_over::<E, L>(alloc, store, blank)?;
    older_finds(rt, alloc, &front)
}

// The same on a front.
fn older_finds<E: Store + Send, L: Ledger + Send + Sync, R: Threads + Wait + Sync>(
    rt: &R,
    alloc: Global,
    front: &Front<E, L>,
) -> Result<bool, Fault> {
    let mut older = front.share(rt)?;
    let mut younger = front.share(rt)?;
    let wanted = begin_both(rt, alloc, front, &mut older, &mut younger)?;
    let (found, committed) = join(
        rt,
        || is_found(rt, front, older, wanted),
        || is_committed(rt, front, younger),
    );
    Ok(found && committed)
}

// Both begin, and the younger one inserts the key that is answered.
fn begin_both<E: Store, L: Ledger, R: Wait>(
    rt: &R,
    alloc: Global,
    front: &Front<E, L>,
    older: &mut Share<L>,
    younger: &mut Share<L>,
) -> Result<Vec<u8>, Fault> {
    make(rt, front, older, Step::Begin);
    make(rt, front, younger, Step::Begin);
    make(rt, front, younger, Step::Insert(2, key(alloc)?, 7));
    key(alloc)
}

fn is_found<E: Store, L: Ledger, R: Wait>(
    rt: &R,
    front: &Front<E, L>,
    mine: Share<L>,
    key: Vec<u8>,
) -> bool {
    let mut mine = mine;
    is_there(rt, front, &mut mine, 1, key)
}

// It lets the other thread run first, for a while.
fn is_committed<E: Store, L: Ledger, R: Wait>(rt: &R, front: &Front<E, L>, mine: Share<L>) -> bool {
    let mut mine = mine;
    for _turn in 0..1000u64 {
        thread::yield_now();
    }
    matches!(front.call(rt, &mut mine, Step::Commit(2)), Reply::Committed)
}

#[test]
fn a_blocked_call_goes_on(rt: HostRuntime) -> Result<(), Fail> {
    let store = fresh(&rt, rt.alloc())?;
    let found = found_behind_another::<Memory, Brand, HostRuntime>(
        &rt,
        rt.alloc(),
        store,
        Blank::new(1024),
    )?;
    assert!(rt; found);
    Ok(())
}
