//! A force that lacks memory: who makes it is told so and waits still, and the others are committed all the same.

ghost use Rattle.std.specs.Prelude.{◌≤◌};
ghost use Rattle.im_front.specs.Held.{IsResting};

use crate::stores::{begin, opened};
use im_base_steps::{Reply, Step};
use im_base_types::{Fault, Key, Rid, TxnId};
use im_front::{Open, Rested};
use im_theory_store_trait::Store;
use std::alloc::Global;
use std::sync::Wait;
use std::test::Fail;
use std::thread::{Threads, map_vec};

/// A store of no keys, in which each Commit waits for a force. Its first force is refused for want of memory.
#[derive(Drop)]
struct Lacking {
    next: TxnId,
    active: u64,
    waiting: u64,
    lacks: bool,
    ghost few_wait: { waiting ≤ active },
    ghost few_active: { active ≤ 64 },
}

impl Lacking {
    fn new() -> Lacking
        ensures { IsResting ⟦<Lacking as Store>⟧ result }
    {
        Lacking {
            next: 1,
            active: 0,
            waiting: 0,
            lacks: true,
        }
    }
}

impl Store for Lacking {
    ghost tells = { ⊥ };

    ghost life = { λ _ _ _ _. ⊥ };

    ghost leaves = { λ _ _. ⊥ };

    ghost actives = { λ e. e.active };

    ghost waiting = { λ e. e.waiting };

    ghost refuses = { λ _ _ _. Unit {0} };

    ghost looked = { λ _ _. Unit {0} };

    ghost broken = { λ _. ⊥ };

    ghost made = { λ _ _ _ _. Unit {0} };

    fn step(&mut self, step: &Step) -> Reply {
        match step {
            Step::Begin if self.active < 64 => {
                let t = self.next;
                self.next = t.wrapping_add(1);
                self.active += 1;
                Reply::Started(t)
            }
            Step::Commit(_) if self.waiting < self.active => {
                self.waiting += 1;
                Reply::More
            }
            Step::Force if self.lacks => {
                self.lacks = false;
                Reply::Refused(Fault::Memory)
            }
            Step::Force => {
                let still = self.active - self.waiting;
                self.waiting = 0;
                self.active = still;
                Reply::Done
            }
            _ => Reply::Refused(Fault::NoTransaction),
        }
    }

    fn entries(&mut self, alloc: Global) -> Result<Vec<(Key, Rid)>, Fault> {
        Ok(Vec::new(alloc))
    }

    fn active(&self) -> usize {
        self.active as usize
    }

    fn failed(&self) -> bool {
        false
    }

    ghost few = { λ e. e.few_wait };

    ghost stops = { λ _ _ _ _ none. absurd none };

    ghost settles = { λ _ _ _ _ none. absurd none };
}

/// How many commit at once.
const THREADS: u64 = 4;

// What one caller is told, and `settle` then.
fn commit_alone<R: Wait>(
    rt: &R,
    front: &Open<Lacking>,
) -> Result<(Result<(), Fault>, Result<(), Fault>), Fault> {
    let t = begin(rt, front)?;
    Ok((front.commit(rt, t), front.settle(rt)))
}

#[test]
fn a_force_without_memory_may_be_made_again(rt: HostRuntime) -> Result<(), Fail> {
    let front = opened(rt.alloc(), Rested::new(Lacking::new()))?;
    let mut reader = front.share(&rt)?;
    let (told, settled) = commit_alone(&rt, &front)?;
    assert!(rt; told == Err(Fault::Memory) && settled.is_ok());
    assert!(rt; front.stats(&mut reader).committed == 1);
    Ok(())
}

// What all are told, each in a thread of its own.
fn all_told<R: Threads + Wait + Sync>(
    rt: &R,
    alloc: Global,
    front: &Open<Lacking>,
) -> Result<Vec<Result<(), Fault>>, Fault> {
    let mut all = Vec::new(alloc);
    for _ in 0..THREADS {
        let Ok(()) = all.push(begin(rt, front)?) else {
            return Err(Fault::Memory);
        };
    }
    match map_vec(rt, all, &|t| front.commit(rt, t)) {
        Ok(told) => Ok(told),
        Err(_) => Err(Fault::Memory),
    }
}

#[test]
fn the_others_are_committed_all_the_same(rt: HostRuntime) -> Result<(), Fail> {
    let front = opened(rt.alloc(), Rested::new(Lacking::new()))?;
    let mut reader = front.share(&rt)?;
    let told = all_told(&rt, rt.alloc(), &front)?;
    let lack = told
        .iter()
        .filter(|one| **one == Err(Fault::Memory))
        .count();
    let done = told.iter().filter(|one| one.is_ok()).count();
    assert!(rt; lack == 1 && done == 3);
    assert!(rt; front.settle(&rt).is_ok());
    assert!(rt; front.stats(&mut reader).committed == THREADS);
    Ok(())
}
