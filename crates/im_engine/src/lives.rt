//! Steps in turn, and one life of a store.

ghost use Rattle.std.specs.Prelude.{◌≡◌, ◌≢◌, false, length, List, IfOk, IfErr};
ghost use Rattle.std.specs.FinMap.{empty};
ghost use Rattle.im_base_types.specs.Changes.{Effect, apply_all};
ghost use Rattle.im_base_types.specs.declared.fault.Fault.TheVariants.{NotAStore};
ghost use Rattle.im_base_disk.specs.Runs.{IsSynced};
ghost use Rattle.im_engine.specs.Stands.{StandsFor};
ghost use Rattle.im_engine.specs.Promise.{IsAsAlone, answered_by};
ghost use Rattle.im_engine.specs.Turns.{IsRunFrom};
ghost use Rattle.im_engine.specs.Lived.{IsLived, IsUnlived};

use crate::config::Config;
use crate::engine::Engine;
use im_base_disk::Disk;
use im_base_steps::{Reply, Step};
use im_base_two_logs::TwoLogs;
use im_base_types::Fault;
use std::alloc::Global;
use std::thread::Threads;

impl<D: TwoLogs> Engine<D> {
    ghost use Rattle.im_base_types.specs.Changes.{Effect};
    ghost use Rattle.im_base_types.specs.Lives.{Shown};
    ghost use Rattle.im_base_types.specs.declared.fault.Fault.TheVariants.{Memory};
    ghost use Rattle.im_base_two_logs.specs.Runs.{LeavesNamed};
    ghost use Rattle.im_theory_machine.specs.View.{View};
    ghost use Rattle.im_engine.specs.Running.{IsLife};
    ghost use Rattle.im_engine.specs.Promise.{answered_by};
    ghost use Rattle.im_engine.specs.Turns.{LivesOn, AreSteps, IsCutOff};

    /// Makes steps in turn, of any transactions in any order, and answers their replies: they are a run of the machine of transactions.
    /// Refused `Memory`, with no step made, where there is no room for the replies.
    pub fn life(&mut self, alloc: Global, steps: &[Step]) -> Result<Vec<Reply>, Fault>
        ensures kept { IfOk result (λ replies. (before : List Effect) (s : Shown) (v : View) → IsLife D.Disk before s v self.old → LivesOn D.Disk before s v (answered_by steps.now replies.items) self.new) }
        ensures each { IfOk result (λ replies. length replies.items ≡ length steps.now) }
        ensures turns { IfOk result (λ replies. AreSteps D.Disk steps.now replies.items self.old self.new) }
        ensures stops { IfOk result (λ replies. (before : List Effect) (s : Shown) (v : View) → IsLife D.Disk before s v self.old → LeavesNamed D.Disk self.old.disk self.new.disk (IsCutOff before s steps.now replies.items)) }
        ensures sizes { (self.new.max_pages ≡ self.old.max_pages) × (self.new.writer.pool.frames ≡ self.old.writer.pool.frames) }
        ensures refused { IfErr result (λ e. (e ≡ Memory) × (self.new ≡ self.old)) }
    {
        let mut replies = Vec::with_capacity(alloc, steps.len()).map_err(|_| Fault::Memory)?;
        for step in steps {
            let reply = self.step(step);
            match replies.push(reply) {
                Ok(()) => {}
                Err(_) => return Err(Fault::Memory),
            }
        }
        Ok(replies)
    }
}

/// One life: opens the store of a disk, makes the steps in turn, and hands the disk on with their replies. A stop that falls when the first
/// n replies have been handed out takes the files to what a life may make of them that was cut off there or later (`since`), for every n;
/// and where it falls no later than the reply to the m-th step, nothing is there of what was asked only after that (`within`). The first is
/// what a list of lives is made of (`law_every_list_of_lives`), the second what the promise asks of a life (`run`, `the_promise`). The steps with their
/// replies are a run of the machine of transactions from the map of the effects that the files stood for (`isolated`): each transaction has the
/// replies that it would get alone (`alone`).
///
/// Refused as an opening is, and for its causes, with no step made, and `Memory` where there is no room for the replies: then the files
/// stand for what they stood for.
pub fn live<D: TwoLogs, R: Threads + Sync>(
    rt: &R,
    alloc: Global,
    disk: D,
    config: Config,
    steps: &[Step],
) -> (Result<Vec<Reply>, Fault>, D)
    requires working { D.failed disk ≡ false }
    requires synced { IsSynced D.Disk disk }
    ensures lived { IfOk result.0 (λ replies. IsLived D.Disk config steps.now replies.items disk result.1) }
    ensures refused { IfErr result.0 (λ e. IsUnlived D.Disk config disk e result.1) }
    ensures isolated { IfOk result.0 (λ replies. (before : List Effect) → D.tells → StandsFor before (D.seen disk) → IsRunFrom (apply_all empty before) (answered_by steps.now replies.items)) }
    ensures alone { IfOk result.0 (λ replies. (before : List Effect) → D.tells → StandsFor before (D.seen disk) → IsAsAlone (apply_all empty before) (answered_by steps.now replies.items)) }
    ensures each { IfOk result.0 (λ replies. length replies.items ≡ length steps.now) }
    ensures never { IfErr result.0 (λ e. (before : List Effect) → D.tells → StandsFor before (D.seen disk) → e ≢ NotAStore) }
{
    match Engine::open_or_create(rt, alloc, disk, config) {
        Err((fault, disk)) => (Err(fault), disk),
        Ok(opened) => {
            let mut engine = opened;
            let replies = engine.life(alloc, steps);
            (replies, engine.into_disk())
        }
    }
}
