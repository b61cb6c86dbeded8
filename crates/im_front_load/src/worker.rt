//! A worker.

ghost use Rattle.std.specs.Prelude.{◌≡◌, ◌≤◌, ◌+◌, ◌*◌, ◌++◌, IfErr, IfOk, OnOk};
ghost use Rattle.std.specs.Int.{w32, to_be_bytes};
ghost use Rattle.im_front_load.specs.Refusals.{IsStopped};

use crate::stepping::made;
use im_base_steps::{Reply, Step};
use im_base_types::{Fault, Rid, TxnId};
use im_front::{Front, Share};
use im_theory_store_trait::Store;
use std::alloc::{AllocError, Global};
use std::sync::Wait;
use std::sync::ledger::Ledger;

/// Makes so many transactions, each of three steps or more: number i inserts the key of the worker and i, with row id i, and commits,
/// or rolls back where it must die. It stops where a step is refused.
pub(crate) fn work<E: Store, L: Ledger, R: Wait>(
    rt: &R,
    alloc: Global,
    front: &Front<E, L>,
    mine: &mut Share<L>,
    worker: u32,
    txns: u32,
) -> Result<(), Fault>
    ensures steps { OnOk result (mine.old.made.amount + 3 * txns ≤ mine.new.made.amount) }
    ensures causes { IfErr result (IsStopped E.Store) }
{
    for i in 0..txns {
        let Ok(key) = key_of(alloc, worker, i) else {
            return Err(Fault::Memory);
        };
        one_insert(rt, front, mine, key, Rid::from(i))?;
    }
    Ok(())
}

// One transaction, which inserts a key.
fn one_insert<E: Store, L: Ledger, R: Wait>(
    rt: &R,
    front: &Front<E, L>,
    mine: &mut Share<L>,
    key: Vec<u8>,
    rid: Rid,
) -> Result<(), Fault>
    ensures steps { OnOk result (mine.old.made.amount + 3 ≤ mine.new.made.amount) }
    ensures causes { IfErr result (IsStopped E.Store) }
{
    let t = begun(rt, front, mine)?;
    let reply = made(rt, front, mine, Step::Insert(t, key, rid))?;
    if matches!(reply, Reply::Die) {
        return roll_back(rt, front, mine, t);
    }
    go_on(rt, front, mine, t, reply)?;
    commit(rt, front, mine, t)
}

// Begins a transaction.
fn begun<E: Store, L: Ledger, R: Wait>(
    rt: &R,
    front: &Front<E, L>,
    mine: &mut Share<L>,
) -> Result<TxnId, Fault>
    ensures steps { OnOk result (mine.new.made.amount ≡ mine.old.made.amount + 1) }
    ensures causes { IfErr result (IsStopped E.Store) }
{
    match made(rt, front, mine, Step::Begin)? {
        Reply::Started(t) => Ok(t),
        _ => unreachable!(),
    }
}

// Commits a transaction, with a force of its own where its Commit is to wait for one.
fn commit<E: Store, L: Ledger, R: Wait>(
    rt: &R,
    front: &Front<E, L>,
    mine: &mut Share<L>,
    t: TxnId,
) -> Result<(), Fault>
    ensures steps { OnOk result (mine.old.made.amount + 1 ≤ mine.new.made.amount) }
    ensures causes { IfErr result (IsStopped E.Store) }
{
    let reply = made(rt, front, mine, Step::Commit(t))?;
    if matches!(reply, Reply::More) {
        made(rt, front, mine, Step::Force)?;
    }
    Ok(())
}

// Rolls a transaction back, to its end.
fn roll_back<E: Store, L: Ledger, R: Wait>(
    rt: &R,
    front: &Front<E, L>,
    mine: &mut Share<L>,
    t: TxnId,
) -> Result<(), Fault>
    ensures steps { OnOk result (mine.old.made.amount + 1 ≤ mine.new.made.amount) }
    ensures causes { IfErr result (IsStopped E.Store) }
{
    let reply = made(rt, front, mine, Step::Rollback(t))?;
    go_on(rt, front, mine, t, reply)
}

// Goes on with a transaction after this reply, as long as there is more to do: of a rollback, or of an insert's structure change.
fn go_on<E: Store, L: Ledger, R: Wait>(
    rt: &R,
    front: &Front<E, L>,
    mine: &mut Share<L>,
    t: TxnId,
    first: Reply,
) -> Result<(), Fault>
    ensures steps { OnOk result (mine.old.made.amount ≤ mine.new.made.amount) }
    ensures causes { IfErr result (IsStopped E.Store) }
{
    let mut reply = first;
    for _round in rt.forever() {
        if !matches!(reply, Reply::More) {
            return Ok(());
        }
        reply = made(rt, front, mine, Step::Continue(t))?;
    }
    unreachable!()
}

/// The key of a worker's transaction: both numbers, four bytes each, the greatest byte first. Refused where there is no memory.
pub fn key_of(alloc: Global, worker: u32, number: u32) -> Result<Vec<u8>, AllocError>
    ensures { IfOk result (λ key. key.items ≡ to_be_bytes w32 worker ++ to_be_bytes w32 number) }
{
    let mut key = Vec::with_capacity(alloc, 8)?;
    key.extend_from_slice(&worker.to_be_bytes())?;
    key.extend_from_slice(&number.to_be_bytes())?;
    Ok(key)
}
