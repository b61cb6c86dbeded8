//! The front of programs. It keeps its trace for proofs alone, and its callers need no parts of a ledger.

ghost use Rattle.std.specs.Prelude.{◌≡◌, ◌<◌, ◌≤◌, ◌^◌, ◌+◌, ◌↔◌, ◌⊎◌, true, false, [], ◌∷◌, ◌++◌, length, Err, IfOk, IfErr, OnErr};
ghost use Rattle.std.specs.List.{All};
ghost use Rattle.std.specs.Arc.{arc_value};
ghost use Rattle.crossbeam_utils.specs.Seq.{cell_view};
ghost use Rattle.im_front_stats.specs.Counts.{writer, NoLess};
ghost use Rattle.im_base_types.specs.declared.fault.Fault.TheVariants.{TooMany, Memory};
ghost use Rattle.im_base_steps.specs.Calls.{asked_by, told_by, is_blocked};
ghost use Rattle.im_front.specs.Traces.{counts_of};
ghost use Rattle.im_base_steps.specs.Replies.{is_full, IsReply, Suits};
ghost use Rattle.im_front.specs.Held.{IsCounted};
ghost use Rattle.im_front.specs.Line.{Asks, asker_of};
ghost use Rattle.im_base_admission.specs.Admission.{MayBegin};
ghost use Rattle.im_front.specs.Locked.{none, seen_of, GoesOn, IsKeptFrom};
ghost use Rattle.im_front.specs.Outcomes.{ComesTo};
ghost use Rattle.im_front.specs.Acknowledged.{point_of, IsAcknowledged, IsForced, IsHeld, IsNotAcknowledged, IsNotForced, IsSettled, IsSpent, IsStepOf};

use crate::callers::{Behind, Callers, Pace};
use crate::held::{counted, forces_after, passed_after, publish};
use crate::line::{Line, Turn};
use crate::outcome::Outcome;
use crate::seat::{Rested, Seat};
use crate::stats::Stats;
use crate::trace::Trace;
use im_base_steps::{Reply, Step};
use im_base_types::{Fault, TxnId};
use im_front_stats::{Pass, StatsCell};
use im_theory_store_trait::Store;
use std::alloc::Global;
use std::marker::Model;
use std::sync::{Arc, Mutex, MutexGuard, Wait};

/// The most steps that a front ever makes.
const MOST: u64 = 1 << 62;

/// The value behind the lock: an engine, and for proofs alone the trace of its steps.
#[derive(Drop)]
pub struct Kept<E: Store> {
    engine: E,
    trace: Trace,
    made: u64,
    counts: [u64; 3],
    // How many transactions wait for a force.
    waiting: u64,
    // How many forces were made.
    forces: u64,
    // How many steps were made since the first of those that wait came to.
    passed: u64,
    cell: Arc<StatsCell, Global>,
    pass: Pass,
    // Who waits to begin, and for whom.
    line: Line,
}

impl<E: Store> Model for Kept<E> {
    ghost use Rattle.std.specs.Prelude.{◌≡◌, ◌≤◌, length};
    ghost use Rattle.std.specs.Arc.{arc_value};
    ghost use Rattle.crossbeam_utils.specs.Seq.{cell_view};
    ghost use Rattle.im_front_stats.specs.Counts.{writer};
    ghost use Rattle.im_front.specs.Made.{WereMade};
    ghost use Rattle.im_front.specs.Held.{IsTallied, forces_in};
    ghost use Rattle.im_front.specs.Locked.{LockedState, StandsFrom, none, seen_of};

    ghost Value = { LockedState E };

    ghost view = { λ h. record { engine = h.engine; trace = h.trace.steps; counts = (cell_view h.pass).seen; waiting = h.waiting; forces = h.forces; line = h.line } };

    ghost invariant = { λ h. (E.tells → StandsFrom E.life h.trace.steps h.engine) × IsTallied (seen_of h.trace.steps) (E.actives h.engine) (E.waiting h.engine) 0 none h.counts × (h.made ≡ length h.trace.steps) × (h.pass.table_id ≡ (arc_value h.cell).table.shared.table_id) × (cell_view h.pass ≡ writer h.counts) × (h.waiting ≡ E.waiting h.engine) × (h.forces ≡ forces_in (seen_of h.trace.steps)) × (h.forces ≤ length h.trace.steps) × WereMade E.Store h.trace.steps h.engine };
}

/// What is left of a front.
#[derive(Drop)]
pub struct Left<E: Store> {
    /// The engine.
    pub engine: E,
    /// The steps that were made, for proofs alone.
    pub trace: Trace,
    /// How many.
    pub made: u64,
}

impl<E: Store> Kept<E> {
    /// An engine at rest, with an empty trace. Refused `Memory`; the engine comes back then.
    pub fn new(alloc: Global, at_rest: Rested<E>) -> Result<Kept<E>, (Fault, Rested<E>)>
        ensures ok { IfOk result (λ h. (h.engine ≡ at_rest) × (h.trace ≡ []) × (h.counts ≡ none)) }
        ensures err { IfErr result (λ e. (e.0 ≡ Memory) × (e.1 ≡ at_rest)) }
    {
        let Ok((cell, pass)) = StatsCell::new(alloc) else {
            return Err((Fault::Memory, at_rest));
        };
        let Ok(cell) = Arc::new(alloc, cell) else {
            return Err((Fault::Memory, at_rest));
        };
        let engine = at_rest.into_engine();
        Ok(Kept {
            engine,
            trace: Trace::new(),
            made: 0,
            counts: [0; 3],
            waiting: 0,
            forces: 0,
            passed: 0,
            cell,
            pass,
            line: Line::new(),
        })
    }

    /// What always holds of the value behind the lock. It does nothing: its contract says so.
    pub fn law_holds_always(&self)
        ensures held { IsHeld E.Store (point_of self.now) }
        ensures kept { E.tells → IsKeptFrom E.life E.leaves self.now.trace self.now.engine }
        ensures counted { IsCounted (seen_of self.now.trace) (E.actives self.now.engine) none self.now.counts }
    {
        let _made = self.made;
    }

    /// A share, which has made no step and read the counts as they are. Refused `Memory`.
    pub fn share(&mut self) -> Result<Seat, Fault>
        ensures ok { IfOk result (λ s. self.new ≡ self.old) }
        ensures none { IfOk result (λ s. s.read ≡ self.old.counts) }
        ensures err { OnErr result (self.new ≡ self.old) }
        ensures causes { IfErr result (λ e. e ≡ Memory) }
    {
        let Kept {
            counts,
            cell,
            pass,
            ..
        } = self;
        let Ok(cell) = Arc::try_clone(cell) else {
            return Err(Fault::Memory);
        };
        let pass = cell.reader(pass);
        Ok(Seat {
            cell,
            pass,
            read: *counts,
        })
    }

    /// How many forces were made: steps `Force` that were answered `Done`. What waited before one of them is committed by it.
    pub fn forces(&self) -> u64
        ensures { result ≡ self.now.forces }
    {
        self.forces
    }

    /// Whether a force was made since so many were.
    pub fn is_settled(&self, at: u64) -> bool
        ensures { result ≡ true ↔ (at < self.now.forces) }
    {
        at < self.forces
    }

    /// Ends the front.
    pub fn close(self) -> Left<E>
        ensures kept { E.tells → IsKeptFrom E.life E.leaves result.trace.steps result.engine }
        ensures replies { All (λ e. IsReply e.0 e.1) (seen_of result.trace.steps) }
        ensures same { (result.trace.steps ≡ self.trace) × (result.engine ≡ self.engine) }
        ensures made { result.made ≡ length self.trace }
    {
        let Kept {
            engine,
            trace,
            made,
            ..
        } = self;
        Left {
            engine,
            trace,
            made,
        }
    }

    /// Makes a step of the engine, and answers what it answers. Refused `TraceFull` where 2^62 steps were made; it is not made then.
    pub fn step<R: Wait>(&mut self, rt: &R, step: &Step) -> Reply
        ensures adds { is_blocked (told_by result) ≡ false → is_full (told_by result) ≡ false → self.new.trace ≡ self.old.trace ++ (step.now, result) ∷ [] }
        ensures blocked { is_blocked (told_by result) ≡ true → self.new.trace ≡ self.old.trace }
        ensures same { is_full (told_by result) ≡ true → self.new ≡ self.old }
        ensures run { GoesOn E.life self.old self.new }
        ensures suits { is_full (told_by result) ≡ false → Suits (asked_by step.now) (told_by result) }
        ensures full { is_full (told_by result) ≡ true ↔ (2 ^ 62 ≤ length self.old.trace) }
        ensures made { is_full (told_by result) ≡ false → E.made self.old.engine step.now result self.new.engine }
    {
        if is_spent(self.made) {
            return Reply::Refused(Fault::TraceFull);
        }
        let Kept {
            engine,
            trace,
            made,
            counts,
            waiting,
            forces,
            passed,
            cell,
            pass,
            line,
            ..
        } = self;
        let reply = engine.step(step);
        if reply.is_blocked() {
            return reply;
        }
        line.note(step, &reply);
        let now = counted(*waiting, *counts, step, &reply);
        *waiting = step.waits_after(*waiting, &reply);
        *forces = forces_after(*forces, step, &reply);
        *passed = passed_after(*passed, *waiting);
        *trace = trace.with(step, &reply);
        *made += 1;
        publish(rt, cell, pass, *counts, now);
        *counts = now;
        reply
    }
}

impl<E: Store> Kept<E> {
    /// Makes the step `Commit`, and tells of it.
    pub(crate) fn make_commit<R: Wait>(&mut self, rt: &R, callers: &Callers, t: TxnId) -> Outcome
        ensures { ComesTo (IsAcknowledged E.Store t) (λ n. IsForced E.Store n → IsAcknowledged E.Store t) (IsNotAcknowledged E.Store (IsSpent E.Store) t) result }
    {
        let step = Step::Commit(t);
        let reply = self.step(rt, &step);
        self.law_holds_always();
        callers.tell(&step, &reply);
        match reply {
            Reply::Committed => Outcome::Done,
            Reply::More => Outcome::Waits(self.forces()),
            Reply::Refused(fault) => Outcome::Refused(fault),
            _ => unreachable!(),
        }
    }

    /// Whether all that was answered `More` is durable.
    pub(crate) fn look(&self) -> Outcome
        ensures { ComesTo (IsSettled E.Store) (λ n. IsForced E.Store n → IsSettled E.Store) (IsNotForced E.Store (IsSpent E.Store)) result }
    {
        self.law_holds_always();
        let pace = self.pace();
        if pace.failed {
            return Outcome::Refused(Fault::Failed);
        }
        if pace.waiting == 0 {
            return Outcome::Done;
        }
        Outcome::Waits(self.forces())
    }

    /// A turn for one that begins a transaction for the first time.
    pub(crate) fn come(&mut self) -> Turn
        ensures same { self.new ≡ record self.old { line = self.new.line } }
    {
        self.line.come()
    }

    /// Whether the one with this turn may begin now: who waits no longer where the store has failed.
    pub(crate) fn may_begin(&mut self, turn: &Turn) -> bool
        ensures same { self.new ≡ record self.old { line = self.new.line } }
        ensures goes { result ≡ true ↔ (MayBegin self.old.line.going self.new.line.first (asker_of turn.now self.old.line.tick) ⊎ E.broken self.old.engine) }
        ensures asks { Asks turn.now self.old.line self.new.line }
    {
        self.line.ask(turn) || self.engine.failed()
    }

    /// One begins with this turn: its transaction has this number.
    pub(crate) fn begin(&mut self, turn: &Turn, number: TxnId)
        ensures same { self.new ≡ record self.old { line = self.new.line } }
    {
        self.line.begin(turn, number);
    }

    /// The turn of one that gave way and has rolled back the transaction of this number.
    pub(crate) fn come_again(&mut self, turn: &Turn, number: TxnId) -> Turn
        ensures same { self.new ≡ record self.old { line = self.new.line } }
    {
        let was_first = self.line.is_first(turn);
        self.line.leave(turn);
        self.line.come_again(turn, number, was_first)
    }

    /// One with this turn is first no longer.
    pub(crate) fn leave(&mut self, turn: &Turn)
        ensures same { self.new ≡ record self.old { line = self.new.line } }
    {
        self.line.leave(turn);
    }

    /// The tick that it is now.
    pub(crate) fn tick(&self) -> u64 {
        self.line.now()
    }

    /// A hundredth of a second has passed since this tick.
    pub(crate) fn pass(&mut self, since: u64)
        ensures same { self.new ≡ record self.old { line = self.new.line } }
    {
        self.line.pass(since);
    }
}

impl<E: Store> Behind for Kept<E> {
    fn pace(&self) -> Pace
        ensures waiting { result.waiting ≡ self.now.waiting }
        ensures failed { result.failed ≡ true ↔ E.broken self.now.engine }
    {
        Pace {
            waiting: self.waiting,
            passed: self.passed,
            forces: self.forces,
            failed: self.engine.failed(),
        }
    }
}

// Whether so many steps are all that are ever made.
fn is_spent(made: u64) -> bool
    ensures { result ≡ true ↔ (2 ^ 62 ≤ made) }
{
    made >= MOST
}

/// An engine that threads share, for as long as they like. Each call takes the lock, and waits for its turn.
#[derive(Drop)]
pub struct Open<E: Store> {
    pub(crate) held: Mutex<Kept<E>>,
    pub(crate) callers: Callers,
}

impl<E: Store> Open<E> {
    /// A front over an engine at rest. Refused `Memory`; the engine comes back then.
    pub fn new(alloc: Global, at_rest: Rested<E>) -> Result<Open<E>, (Fault, Rested<E>)>
        ensures err { IfErr result (λ e. (e.0 ≡ Memory) × (e.1 ≡ at_rest)) }
    {
        let held = Kept::new(alloc, at_rest)?;
        Ok(Open {
            held: Mutex::new(held),
            callers: Callers::new(),
        })
    }

    /// A share, which has made no step: one for each thread. Refused `Memory`.
    pub fn share<R: Wait>(&self, rt: &R) -> Result<Seat, Fault>
        ensures causes { IfErr result (λ fault. fault ≡ Memory) }
    {
        self.held.lock(rt).share()
    }

    /// Makes a step as `Kept::step` does, and makes it again each time that a transaction has ended while it is `Blocked`.
    pub fn call<R: Wait>(&self, rt: &R, step: Step) -> Reply
        ensures unblocked { is_blocked (told_by result) ≡ false }
        ensures made { is_full (told_by result) ≡ false → IsStepOf E.made step result }
        ensures suits { is_full (told_by result) ≡ false → Suits (asked_by step) (told_by result) }
        ensures full { is_full (told_by result) ≡ true → IsSpent E.Store }
    {
        self.callers.come();
        let mut held = self.held.lock(rt);
        for _ in rt.forever() {
            let reply = held.step(rt, &step);
            if !reply.is_blocked() {
                held.law_holds_always();
                self.callers.tell(&step, &reply);
                self.callers.go(held.pace());
                return reply;
            }
            held = self.callers.sleep_blocked(rt, held);
        }
        unreachable!()
    }

    /// Commits a transaction, and returns once all that it did is durable. In a store with group commit the Commit waits for a force: the last
    /// caller awake in the front makes one for all that wait, as a step of its own, and the others sleep until it is made. In another store it
    /// is the step `Commit` alone.
    ///
    /// Refused as the Commit is. `Device` or `Failed` where the force failed: whether it is committed shows when the store is opened again.
    pub fn commit<R: Wait>(&self, rt: &R, t: TxnId) -> Result<(), Fault>
        ensures acknowledged { IfOk result (λ _. IsAcknowledged E.Store t) }
        ensures causes { IfErr result (IsNotAcknowledged E.Store (IsSpent E.Store) t) }
    {
        self.callers.come();
        let mut held = self.held.lock(rt);
        match held.make_commit(rt, &self.callers, t) {
            Outcome::Done => {
                self.callers.go(held.pace());
                Ok(())
            }
            Outcome::Waits(forces) => {
                self.settle_all(rt, held, forces)?;
                Ok(())
            }
            Outcome::Refused(fault) => {
                self.callers.go(held.pace());
                Err(fault)
            }
        }
    }

    /// Returns once every Commit that was answered `More` before is durable: it waits for a force, or makes it. It makes no step where none
    /// waits. `Failed` where the store has failed, else refused as the force is.
    pub fn settle<R: Wait>(&self, rt: &R) -> Result<(), Fault>
        ensures settled { IfOk result (λ _. IsSettled E.Store) }
        ensures causes { IfErr result (IsNotForced E.Store (IsSpent E.Store)) }
    {
        self.callers.come();
        let held = self.held.lock(rt);
        match held.look() {
            Outcome::Done => {
                self.callers.go(held.pace());
                Ok(())
            }
            Outcome::Waits(forces) => {
                self.settle_all(rt, held, forces)?;
                Ok(())
            }
            Outcome::Refused(fault) => {
                self.callers.go(held.pace());
                Err(fault)
            }
        }
    }

    // Waits for the next force, or makes it and sees that it is made, and goes.
    fn settle_all<R: Wait>(
        &self,
        rt: &R,
        held: MutexGuard<'_, Kept<E>>,
        forces: u64,
    ) -> Result<(), Fault>
        ensures forced { IfOk result (λ _. IsForced E.Store forces) }
        ensures causes { IfErr result (IsNotForced E.Store (IsSpent E.Store)) }
    {
        let mut held = held;
        for _ in rt.forever() {
            held = self.callers.sleep_until_due(rt, held, forces);
            held.law_holds_always();
            if held.is_settled(forces) {
                self.callers.go(held.pace());
                return Ok(());
            }
            if held.pace().failed {
                self.callers.go(held.pace());
                return Err(Fault::Failed);
            }
            let reply = held.step(rt, &Step::Force);
            held.law_holds_always();
            self.callers.tell(&Step::Force, &reply);
            if let Reply::Refused(fault) = reply {
                self.callers.go(held.pace());
                return Err(fault);
            }
        }
        unreachable!()
    }

    /// Started, committed and rolled back, as they were at one moment.
    pub fn stats(&self, share: &mut Seat) -> Stats
        ensures sound { result.committed + result.rolled_back ≤ result.started }
        ensures rises { NoLess share.old.read (counts_of result) }
        ensures read { (share.new.read ≡ counts_of result) }
    {
        share.stats()
    }

    /// Ends the front.
    pub fn close(self) -> Left<E>
        ensures kept { E.tells → IsKeptFrom E.life E.leaves result.trace.steps result.engine }
        ensures replies { All (λ e. IsReply e.0 e.1) (seen_of result.trace.steps) }
        ensures made { result.made ≡ length result.trace.steps }
    {
        let Open { held, callers: _ } = self;
        held.into_inner().close()
    }
}
