//! What the threads do.

use crate::asked::{Asked, Mode};
use im_base_steps::{Reply, Step};
use im_base_types::{Fault, TxnId};
use im_front::Open;
use im_theory_store_trait::Store;
use std::alloc::Global;
use std::sync::Wait;
use std::thread::{Threads, map_vec};

/// How many transactions were committed, and how many steps were asked for, forces among them.
#[derive(Clone, Copy)]
pub struct Spent {
    pub commits: u64,
    pub steps: u64,
    pub forces: u64,
}

impl Spent {
    fn nothing() -> Spent {
        Spent {
            commits: 0,
            steps: 0,
            forces: 0,
        }
    }

    fn add(&mut self, other: Spent) {
        self.commits = self.commits.saturating_add(other.commits);
        self.steps = self.steps.saturating_add(other.steps);
        self.forces = self.forces.saturating_add(other.forces);
    }
}

/// All threads at work, to the end of each.
pub fn work_all<E: Store + Send, R: Threads + Wait + Sync>(
    rt: &R,
    alloc: Global,
    front: &Open<E>,
    asked: Asked,
) -> Result<Spent, Fault> {
    let mut threads = Vec::new(alloc);
    for thread in 0..asked.threads {
        let Ok(()) = threads.push(thread) else {
            return Err(Fault::Memory);
        };
    }
    let Ok(done) = map_vec(rt, threads, &|thread| work(rt, alloc, front, asked, thread)) else {
        return Err(Fault::Memory);
    };
    let mut spent = Spent::nothing();
    for one in done {
        spent.add(one?);
    }
    Ok(spent)
}

// The transactions of one thread.
fn work<E: Store, R: Wait>(
    rt: &R,
    alloc: Global,
    front: &Open<E>,
    asked: Asked,
    thread: u64,
) -> Result<Spent, Fault> {
    let mut spent = Spent::nothing();
    for number in 0..asked.commits {
        let t = insert(rt, alloc, front, &mut spent, thread, number)?;
        commit(rt, front, asked.mode, &mut spent, t)?;
    }
    Ok(spent)
}

// Makes a step, and counts it.
fn make<E: Store, R: Wait>(rt: &R, front: &Open<E>, spent: &mut Spent, step: Step) -> Reply {
    spent.steps = spent.steps.saturating_add(1);
    front.call(rt, step)
}

// A transaction that has inserted a key. Where it must die it is rolled back, and a new one tries again.
fn insert<E: Store, R: Wait>(
    rt: &R,
    alloc: Global,
    front: &Open<E>,
    spent: &mut Spent,
    thread: u64,
    number: u64,
) -> Result<TxnId, Fault> {
    for _attempt in rt.forever() {
        let Reply::Started(t) = make(rt, front, spent, Step::Begin) else {
            return Err(Fault::Failed);
        };
        let key = key_of(alloc, thread, number)?;
        match make(rt, front, spent, Step::Insert(t, key, number)) {
            Reply::Inserted => return Ok(t),
            Reply::Die => roll_back(rt, front, spent, t)?,
            other => return Err(fault_of(other)),
        }
        front.settle(rt)?;
    }
    unreachable!()
}

// Rolls a transaction back, to its end.
fn roll_back<E: Store, R: Wait>(
    rt: &R,
    front: &Open<E>,
    spent: &mut Spent,
    t: TxnId,
) -> Result<(), Fault> {
    let mut reply = make(rt, front, spent, Step::Rollback(t));
    for _step in rt.forever() {
        match reply {
            Reply::RolledBack => return Ok(()),
            Reply::More => reply = make(rt, front, spent, Step::Continue(t)),
            other => return Err(fault_of(other)),
        }
    }
    unreachable!()
}

// Commits a transaction: it is durable then.
fn commit<E: Store, R: Wait>(
    rt: &R,
    front: &Open<E>,
    mode: Mode,
    spent: &mut Spent,
    t: TxnId,
) -> Result<(), Fault> {
    match mode {
        Mode::Own => commit_by_own_force(rt, front, spent, t)?,
        Mode::Group | Mode::Alone => {
            spent.steps = spent.steps.saturating_add(1);
            front.commit(rt, t)?;
        }
    }
    spent.commits = spent.commits.saturating_add(1);
    Ok(())
}

// The Commit, and a force after it, also where another one has committed it meanwhile.
fn commit_by_own_force<E: Store, R: Wait>(
    rt: &R,
    front: &Open<E>,
    spent: &mut Spent,
    t: TxnId,
) -> Result<(), Fault> {
    if let Reply::Refused(fault) = make(rt, front, spent, Step::Commit(t)) {
        return Err(fault);
    }
    spent.forces = spent.forces.saturating_add(1);
    match make(rt, front, spent, Step::Force) {
        Reply::Done => Ok(()),
        other => Err(fault_of(other)),
    }
}

// Why a reply is not the one that was hoped for.
fn fault_of(reply: Reply) -> Fault {
    match reply {
        Reply::Refused(fault) => fault,
        _ => Fault::Failed,
    }
}

// The key of a thread's transaction: both numbers, eight bytes each, the greatest byte first.
fn key_of(alloc: Global, thread: u64, number: u64) -> Result<Vec<u8>, Fault> {
    let mut key = Vec::new(alloc);
    let Ok(()) = key.extend_from_slice(&thread.to_be_bytes()) else {
        return Err(Fault::Memory);
    };
    match key.extend_from_slice(&number.to_be_bytes()) {
        Ok(()) => Ok(key),
        Err(_) => Err(Fault::Memory),
    }
}
