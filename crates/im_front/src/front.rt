//! The lock.

ghost use Rattle.std.specs.Prelude.{◌≡◌, ◌≤◌, ◌+◌, ◌⊎◌, List, true, false, length, IfOk, IfErr, IfSome};
ghost use Rattle.std.specs.List.{sum_by, All};
ghost use Rattle.im_base_types.specs.Changes.{Effect};
ghost use Rattle.im_base_types.specs.Lives.{Shown};
ghost use Rattle.im_theory_machine.specs.View.{View};
ghost use Rattle.im_base_types.specs.Answers.{Force};
ghost use Rattle.im_front_stats.specs.Counts.{NoLess};
ghost use Rattle.im_base_types.specs.declared.fault.Fault.TheVariants.{Memory, TooMany};
ghost use Rattle.im_base_steps.specs.Calls.{asked_by, told_by, is_blocked};
ghost use Rattle.im_front.specs.Traces.{trace_of, counts_of};
ghost use Rattle.im_base_steps.specs.Replies.{is_full, lacks_memory, IsReply, Suits};
ghost use Rattle.im_theory_store_trait.specs.Store.{LookKept};
ghost use Rattle.im_front.specs.Held.{IsResting, IsRun, StopKeeps};
ghost use Rattle.im_front.specs.Cuts.{WasCut, WasNotCut};
ghost use Rattle.im_front.specs.Acknowledged.{IsAcknowledged, IsForced, IsFullFor, IsNotAcknowledged, IsNotForced, IsSettled, IsStepOf};

use crate::callers::{Behind, Callers};
use crate::held::{Closed, Held};
use crate::outcome::Outcome;
use crate::share::Share;
use crate::stats::Stats;
use im_base_steps::{Reply, Step};
use im_base_types::{Fault, TxnId};
use im_theory_store_trait::Store;
use std::alloc::Global;
use std::sync::ledger::{Blank, Ledger};
use std::sync::{Mutex, MutexGuard, Wait};

/// An engine that threads share. Each call takes the lock, and waits for its turn.
#[derive(Drop)]
pub struct Front<E: Store, L: Ledger> {
    held: Mutex<Held<E, L>>,
    callers: Callers,
}

impl<E: Store, L: Ledger> Front<E, L> {
    /// A front over an engine at rest: no transaction is active, and where it tells what it holds it works. The blank is of a ledger of 1,024 parts, one for each
    /// share. Refused as `entries` is, and `Memory`; engine and blank come back then.
    pub fn new(alloc: Global, engine: E, blank: Blank) -> Result<Front<E, L>, (Fault, E, Blank)>
        requires resting { IsResting E.Store engine }
        requires blank { (blank.name ≡ L.name) × (blank.parts ≡ L.parts) × (blank.parts ≡ 1024) }
        ensures engine { IfErr result (λ e. (before : List Effect) (s : Shown) (v : View) → E.life before s v engine → LookKept E.life before s v e.1) }
        ensures blank { IfErr result (λ e. e.2 ≡ blank) }
        ensures cause { IfErr result (λ e. (e.0 ≡ Memory) ⊎ E.refuses engine e.1 e.0) }
    {
        let held = Held::new(alloc, engine, blank)?;
        Ok(Front {
            held: Mutex::new(held),
            callers: Callers::new(),
        })
    }

    /// A share, which has made no step: one for each thread. Refused `TooMany` after the 1,024th, and `Memory`.
    pub fn share<R: Wait>(&self, rt: &R) -> Result<Share<L>, Fault>
        ensures none { IfOk result (λ s. s.made.amount ≡ 0) }
        ensures causes { IfErr result (λ fault. (fault ≡ TooMany) ⊎ (fault ≡ Memory)) }
    {
        self.held.lock(rt).share()
    }

    /// Makes a step as `Held::step` does, and makes it again each time that a transaction has ended while it is `Blocked`. The last
    /// reply is recorded, and counted in the share.
    pub fn call<R: Wait>(&self, rt: &R, mine: &mut Share<L>, step: Step) -> Reply
        ensures unblocked { is_blocked (told_by result) ≡ false }
        ensures made { is_full (told_by result) ≡ false → lacks_memory (told_by result) ≡ false → IsStepOf E.made step result }
        ensures suits { is_full (told_by result) ≡ false → lacks_memory (told_by result) ≡ false → Suits (asked_by step) (told_by result) }
        ensures spent { is_full (told_by result) ≡ true → IsFullFor E.Store (asked_by step) }
        ensures counted { is_full (told_by result) ≡ false → lacks_memory (told_by result) ≡ false → mine.new.made.amount ≡ mine.old.made.amount + 1 }
        ensures full { is_full (told_by result) ≡ true → mine.new.made.amount ≡ mine.old.made.amount }
        ensures once { (mine.new.made.amount ≡ mine.old.made.amount + 1) ⊎ (mine.new.made.amount ≡ mine.old.made.amount) }
    {
        self.callers.come();
        let mut held = self.held.lock(rt);
        for _ in rt.forever() {
            let reply = held.step(rt, mine, &step);
            if !reply.is_blocked() {
                held.law_holds_always();
                self.callers.tell(&step, &reply);
                self.callers.go(held.pace());
                return reply;
            }
            held = self.callers.sleep_blocked(rt, held);
        }
        unreachable!()
    }

    /// Commits a transaction, and returns once all that it did is durable. In a store with group commit the Commit waits for a force: the last
    /// caller awake in the front makes one for all that wait, as a step of its own, and the others sleep until it is made. In another store it
    /// is the step `Commit` alone.
    ///
    /// Refused as the Commit is. `Device` or `Failed` where the force failed: whether it is committed shows when the store is opened again.
    /// `Memory` where the trace has no room for one of the two steps: a second call is refused `NoTransaction` where the transaction waits, and
    /// then `settle` makes it durable.
    pub fn commit<R: Wait>(&self, rt: &R, mine: &mut Share<L>, t: TxnId) -> Result<(), Fault>
        ensures made { IfOk result (λ _. mine.old.made.amount + 1 ≤ mine.new.made.amount) }
        ensures acknowledged { IfOk result (λ _. IsAcknowledged E.Store t) }
        ensures causes { IfErr result (λ fault. IsNotAcknowledged E.Store (IsFullFor E.Store Force) t fault ⊎ (fault ≡ Memory)) }
        ensures few { (mine.old.made.amount ≤ mine.new.made.amount) × (mine.new.made.amount ≤ mine.old.made.amount + 2) }
    {
        self.callers.come();
        let mut held = self.held.lock(rt);
        match held.make_commit(rt, &self.callers, mine, t) {
            Outcome::Done => {
                self.callers.go(held.pace());
                Ok(())
            }
            Outcome::Waits(forces) => {
                self.settle_all(rt, mine, held, forces)?;
                Ok(())
            }
            Outcome::Refused(fault) => {
                self.callers.go(held.pace());
                Err(fault)
            }
        }
    }

    /// Returns once every Commit that was answered `More` before is durable: it waits for a force, or makes it. It makes no step where none
    /// waits. `Failed` where the store has failed, else refused as the force is.
    pub fn settle<R: Wait>(&self, rt: &R, mine: &mut Share<L>) -> Result<(), Fault>
        ensures settled { IfOk result (λ _. IsSettled E.Store) }
        ensures causes { IfErr result (λ fault. IsNotForced E.Store (IsFullFor E.Store Force) fault ⊎ (fault ≡ Memory)) }
        ensures few { (mine.old.made.amount ≤ mine.new.made.amount) × (mine.new.made.amount ≤ mine.old.made.amount + 1) }
    {
        self.callers.come();
        let held = self.held.lock(rt);
        match held.look() {
            Outcome::Done => {
                self.callers.go(held.pace());
                Ok(())
            }
            Outcome::Waits(forces) => {
                self.settle_all(rt, mine, held, forces)?;
                Ok(())
            }
            Outcome::Refused(fault) => {
                self.callers.go(held.pace());
                Err(fault)
            }
        }
    }

    // Waits for the next force, or makes it and sees that it is made, and goes. It makes one at most.
    fn settle_all<R: Wait>(
        &self,
        rt: &R,
        mine: &mut Share<L>,
        held: MutexGuard<'_, Held<E, L>>,
        forces: u64,
    ) -> Result<(), Fault>
        ensures forced { IfOk result (λ _. IsForced E.Store forces) }
        ensures causes { IfErr result (λ fault. IsNotForced E.Store (IsFullFor E.Store Force) fault ⊎ (fault ≡ Memory)) }
        ensures few { (mine.old.made.amount ≤ mine.new.made.amount) × (mine.new.made.amount ≤ mine.old.made.amount + 1) }
    {
        let mut held = held;
        let mut is_made = false;
        for _ in rt.forever() {
            held = self.callers.sleep_until_due(rt, held, forces);
            held.law_holds_always();
            if held.is_settled(forces) {
                self.callers.go(held.pace());
                return Ok(());
            }
            if held.pace().failed {
                self.callers.go(held.pace());
                return Err(Fault::Failed);
            }
            if is_made {
                continue;
            }
            let reply = held.step(rt, mine, &Step::Force);
            held.law_holds_always();
            self.callers.tell(&Step::Force, &reply);
            if let Reply::Refused(fault) = reply {
                self.callers.go(held.pace());
                return Err(fault);
            }
            is_made = true;
        }
        unreachable!()
    }

    /// Makes what is committed the base of the trace, and empties it. Refused `Failed`, then `Busy` while a transaction is active,
    /// then `TraceFull` where the steps cut would pass 2^62, then as `entries` is.
    pub fn cut_trace<R: Wait>(&self, rt: &R) -> Result<(), Fault>
        ensures cut { IfOk result (λ _. WasCut E.Store) }
        ensures causes { IfErr result (WasNotCut E.Store) }
    {
        let mut held = self.held.lock(rt);
        held.law_holds_always();
        let done = held.cut_trace();
        held.law_holds_always();
        done
    }

    /// Started, committed and rolled back: as they were at one moment, and never less than this share read before. It takes no lock
    /// and never waits.
    pub fn stats(&self, share: &mut Share<L>) -> Stats
        ensures sound { result.committed + result.rolled_back ≤ result.started }
        ensures rises { NoLess share.old.read (counts_of result) }
        ensures read { (share.new.read ≡ counts_of result) × (share.new.made ≡ share.old.made) }
    {
        share.stats()
    }

    /// Ends the front. There is a sum where as many shares came back as were handed out, and it is the number of all steps.
    pub fn close(self, shares: Vec<Share<L>>) -> Closed<E>
        requires { L.parts ≡ 1024 }
        ensures run { E.tells → IsRun E.life result.base.items (trace_of result.trace.items) result.engine }
        ensures stops { E.tells → StopKeeps E.leaves result.base.items (trace_of result.trace.items) result.engine }
        ensures replies { All (λ e. IsReply e.0 e.1) (trace_of result.trace.items) }
        ensures sum { IfSome result.sum (λ n. (n ≡ result.cut + length result.trace.items) × (n ≡ sum_by (λ s. s.made.amount) shares.items)) }
    {
        let Front { held, callers: _ } = self;
        held.into_inner().close(shares)
    }
}
