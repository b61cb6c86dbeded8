//! A stored trace that is full while a transaction waits: the Commit of another one and the force for both are made all the same.

ghost use Rattle.std.specs.Prelude.{◌≡◌};
ghost use Rattle.im_front.specs.Held.{IsResting};

use crate::stores::{NEVER, key_of, new_store, stop_at};
use im_base_steps::{Reply, Step};
use im_base_types::Fault;
use im_front::{Front, Share};
use im_theory_store_trait::Store;
use std::alloc::Global;
use std::marker::Brand;
use std::sync::Wait;
use std::sync::ledger::{Blank, Ledger};
use std::test::Fail;
use std::thread::Threads;

/// More than a trace takes steps.
const MANY: u64 = 70_000;

// What a caller is told: whether the trace was full, what the commit and a further force are answered then, how many were committed, and whether the trace
// is cut.
#[derive(Clone, Copy)]
struct Told {
    full: bool,
    begins: bool,
    committed: Result<(), Fault>,
    forces: bool,
    count: u64,
    cut: bool,
}

// Two transactions that insert a key each; the Commit of the first one waits.
fn begin_both<E: Store, L: Ledger, R: Wait>(
    rt: &R,
    alloc: Global,
    front: &Front<E, L>,
    mine: &mut Share<L>,
) -> Result<bool, Fault> {
    let _ = front.call(rt, mine, Step::Begin);
    let _ = front.call(rt, mine, Step::Begin);
    let _ = front.call(rt, mine, Step::Insert(1, key_of(alloc, b'a')?, 1));
    let _ = front.call(rt, mine, Step::Insert(2, key_of(alloc, b'b')?, 2));
    Ok(matches!(front.call(rt, mine, Step::Commit(1)), Reply::More))
}

// Asks for a transaction that is not there, until the trace is full.
fn fill<E: Store, L: Ledger, R: Wait>(
    rt: &R,
    alloc: Global,
    front: &Front<E, L>,
    mine: &mut Share<L>,
) -> Result<bool, Fault> {
    for _ in 0..MANY {
        if is_full(front.call(rt, mine, Step::Fetch(9, key_of(alloc, b'b')?))) {
            return Ok(true);
        }
    }
    Ok(false)
}

fn is_full(reply: Reply) -> bool {
    matches!(reply, Reply::Refused(Fault::TraceFull))
}

fn fill_and_commit<E: Store, L: Ledger, R: Wait>(
    rt: &R,
    alloc: Global,
    front: &Front<E, L>,
    mine: &mut Share<L>,
) -> Result<Told, Fault> {
    let waits = begin_both(rt, alloc, front, mine)?;
    let full = fill(rt, alloc, front, mine)? && waits;
    let begins = !is_full(front.call(rt, mine, Step::Begin));
    let committed = front.commit(rt, mine, 2);
    let forces = !is_full(front.call(rt, mine, Step::Force));
    let count = front.stats(mine).committed;
    let cut = front.cut_trace(rt).is_ok();
    Ok(Told {
        full,
        begins,
        committed,
        forces,
        count,
        cut,
    })
}

// The same on a front.
fn told_by_front<E: Store, L: Ledger, R: Wait>(
    rt: &R,
    alloc: Global,
    front: &Front<E, L>,
) -> Result<Told, Fault> {
    let mut mine = front.share(rt)?;
    fill_and_commit(rt, alloc, front, &mut mine)
}

// The same on a new store.
fn told_by_a_full_trace<L: Ledger, R: Wait + Threads + Sync>(
    rt: &R,
    alloc: Global,
    blank: Blank,
) -> Result<Told, Fault>
    requires blank { (blank.name ≡ L.name) × (blank.parts ≡ L.parts) × (blank.parts ≡ 1024) }
{
    let engine = new_store(rt, alloc, true, stop_at(NEVER), NEVER)?;
    told_over::<_, L, R>(rt, alloc, engine, blank)
}

fn told_over<E: Store, L: Ledger, R: Wait>(
    rt: &R,
    alloc: Global,
    engine: E,
    blank: Blank,
) -> Result<Told, Fault>
    requires resting { IsResting E.Store engine }
    requires blank { (blank.name ≡ L.name) × (blank.parts ≡ L.parts) × (blank.parts ≡ 1024) }
{
    match Front::<E, L>::new(alloc, engine, blank) {
        Ok(front) => told_by_front(rt, alloc, &front),
        Err(refused) => Err(refused.0),
    }
}

#[test]
fn a_full_trace_takes_the_force_for_those_that_wait(rt: HostRuntime) -> Result<(), Fail> {
    let told = told_by_a_full_trace::<Brand, HostRuntime>(&rt, rt.alloc(), Blank::new(1024))?;
    assert!(rt; told.full && !told.begins);
    assert!(rt; told.committed.is_ok() && told.count == 2);
    assert!(rt; !told.forces && told.cut);
    Ok(())
}
