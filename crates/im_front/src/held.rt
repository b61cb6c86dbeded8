//! What lies under the lock.

ghost use Rattle.std.specs.Prelude.{◌≡◌, ◌<◌, ◌≤◌, ◌^◌, ◌+◌, ◌↔◌, ◌⊎◌, List, true, false, [], ◌∷◌, ◌++◌, length, vec_len, vec_capacity, slice_index, Err, IfOk, IfErr, OnErr, IfSome, IsSome};
ghost use Rattle.std.specs.List.{sum_by, All};
ghost use Rattle.std.specs.Arc.{arc_value};
ghost use Rattle.std.specs.FinMap.{entries};
ghost use Rattle.crossbeam_utils.specs.Seq.{cell_view};
ghost use Rattle.im_base_types.specs.Changes.{Effect};
ghost use Rattle.im_base_types.specs.Lives.{Shown};
ghost use Rattle.im_theory_machine.specs.View.{View};
ghost use Rattle.im_front_stats.specs.Counts.{nothing, writer, IsSound, NoLess};
ghost use Rattle.im_base_types.specs.declared.fault.Fault.TheVariants.{Failed, Busy, TooMany, TraceFull, Memory};
ghost use Rattle.im_base_steps.specs.Calls.{asked_by, told_by, is_blocked, may_end, most_entries, most_key};
ghost use Rattle.im_front.specs.Traces.{trace_of};
ghost use Rattle.im_base_types.specs.Answers.{Force};
ghost use Rattle.im_front.specs.Line.{one_more};
ghost use Rattle.im_front.specs.Outcomes.{ComesTo, UnlessRefused};
ghost use Rattle.im_front.specs.Acknowledged.{IsAcknowledged, IsForced, IsFullFor, IsNotAcknowledged, IsNotForced, IsSettled, IsWaiting, WasIn};
ghost use Rattle.im_base_steps.specs.Replies.{is_full, lacks_memory, IsReply, Suits};
ghost use Rattle.im_theory_store_trait.specs.Store.{LookKept};
ghost use Rattle.im_front.specs.Cuts.{ComesFirst};
ghost use Rattle.im_front.specs.Held.{IsResting, Records, IsRun, StopKeeps, IsCut, WhyNotCut, after_reply, force_of};

use crate::callers::{Behind, Callers, Pace};
use crate::outcome::Outcome;
use crate::recorded::Recorded;
use crate::share::Share;
use crate::told::{Room, Told};
use crate::trace::Trace;
use im_base_steps::{Reply, Step};
use im_base_types::{Fault, Key, Rid, TxnId};
use im_front_stats::{Pass, StatsCell};
use im_theory_machine::law_isolation;
use im_theory_store_trait::Store;
use std::alloc::Global;
use std::marker::Model;
use std::sync::ledger::{Blank, Book, Ledger, Share as Part};
use std::sync::{Arc, Wait};

/// The most steps that the trace takes before it is cut.
const FULL: usize = 65_536;

/// The most steps that are ever cut.
const MOST_CUT: u64 = 1 << 62;

/// How many shares there are.
pub(crate) const SHARES: u64 = 1024;

/// The value behind the lock: an engine, and the trace of its steps from the base entries on.
#[derive(Drop)]
pub struct Held<E: Store, L: Ledger> {
    alloc: Global,
    engine: E,
    base: Vec<(Key, Rid)>,
    trace: Vec<Recorded>,
    cut: u64,
    kept: [u64; 3],
    counts: [u64; 3],
    // How many transactions wait for a force
    waiting: u64,
    // How many forces were made
    forces: u64,
    // Every step that was made, for proofs alone
    history: Trace,
    // How many steps were made since the first of those that wait came to
    passed: u64,
    book: Book<L>,
    rest: Part<L>,
    handed: u64,
    cell: Arc<StatsCell, Global>,
    pass: Pass,
}

impl<E: Store, L: Ledger> Model for Held<E, L> {
    ghost use Rattle.std.specs.Prelude.{◌≡◌, ◌≤◌, ◌+◌, length};
    ghost use Rattle.std.specs.Arc.{arc_value};
    ghost use Rattle.crossbeam_utils.specs.Seq.{cell_view};
    ghost use Rattle.im_front_stats.specs.Counts.{writer};
    ghost use Rattle.im_front.specs.Traces.{trace_of};
    ghost use Rattle.im_front.specs.Made.{WereMade};
    ghost use Rattle.im_front.specs.Locked.{StandsFrom, seen_of};
    ghost use Rattle.im_front.specs.Held.{State, IsTallied, Stands, WereKept, forces_in, waits_in};

    ghost Value = { State E };

    ghost view = { λ h. record { engine = h.engine; base = h.base.items; trace = h.trace.items; cut = h.cut; kept = h.kept; counts = (cell_view h.pass).seen; waiting = h.waiting; forces = h.forces; history = h.history.steps; handed = h.handed } };

    ghost invariant = { λ h. (E.tells → Stands E.life h.base.items (trace_of h.trace.items) h.engine) × IsTallied (trace_of h.trace.items) (E.actives h.engine) (E.waiting h.engine) h.cut h.kept h.counts × (h.book.total ≡ h.cut + length h.trace.items) × (h.rest.parts + h.handed ≡ 1024) × (h.rest.amount ≡ 0) × (h.pass.table_id ≡ (arc_value h.cell).table.shared.table_id) × (cell_view h.pass ≡ writer h.counts) × (h.waiting ≡ E.waiting h.engine) × (h.forces ≡ forces_in (seen_of h.history.steps)) × (h.forces ≤ h.cut + length h.trace.items) × WereMade E.Store h.history.steps h.engine × (E.tells → StandsFrom E.life h.history.steps h.engine) × WereKept (seen_of h.history.steps) h.cut h.kept (trace_of h.trace.items) × (h.waiting ≡ waits_in 0 (seen_of h.history.steps)) };
}

/// What is left of a front.
#[derive(Drop)]
pub struct Closed<E: Store> {
    /// The engine.
    pub engine: E,
    /// The entries from which the trace begins.
    pub base: Vec<(Key, Rid)>,
    /// How many steps were cut before.
    pub cut: u64,
    /// The steps with their replies.
    pub trace: Vec<Recorded>,
    /// How many steps the shares made in all, where every share came back.
    pub sum: Option<u64>,
}

impl<E: Store, L: Ledger> Held<E, L> {
    /// An engine at rest, with an empty trace that begins from its entries. Refused as `entries` is, and `Memory`; engine and
    /// blank come back then.
    pub fn new(alloc: Global, engine: E, blank: Blank) -> Result<Held<E, L>, (Fault, E, Blank)>
        requires resting { IsResting E.Store engine }
        requires blank { (blank.name ≡ L.name) × (blank.parts ≡ L.parts) × (blank.parts ≡ 1024) }
        ensures ok { IfOk result (λ h. (h.trace ≡ []) × (h.cut ≡ 0) × (h.handed ≡ 0) × (h.counts ≡ nothing)) }
        ensures engine { IfErr result (λ e. (before : List Effect) (s : Shown) (v : View) → E.life before s v engine → LookKept E.life before s v e.1) }
        ensures blank { IfErr result (λ e. e.2 ≡ blank) }
        ensures cause { IfErr result (λ e. (e.0 ≡ Memory) ⊎ E.refuses engine e.1 e.0) }
    {
        let mut engine = engine;
        let base = match engine.entries(alloc) {
            Ok(base) => base,
            Err(fault) => return Err((fault, engine, blank)),
        };
        let Ok((cell, pass)) = StatsCell::new(alloc) else {
            return Err((Fault::Memory, engine, blank));
        };
        let Ok(cell) = Arc::new(alloc, cell) else {
            return Err((Fault::Memory, engine, blank));
        };
        let (book, rest) = blank.open::<L>();
        Ok(Held {
            alloc,
            engine,
            base,
            trace: Vec::new(alloc),
            cut: 0,
            kept: [0; 3],
            counts: [0; 3],
            waiting: 0,
            forces: 0,
            history: Trace::new(),
            passed: 0,
            book,
            rest,
            handed: 0,
            cell,
            pass,
        })
    }

    /// What always holds of the value behind the lock. Over an engine that tells what it holds the trace is a run that ends in it,
    /// and a stop keeps what the trace acknowledged. Over any engine every step was made, one after the other, and the trace has the last of them;
    /// each reply of the trace suits its step, the counts that were written last to the cell are those of the trace, added to those of the steps
    /// cut, those wait for a force whose Commit was answered `More` since the last force, as many forces were made as were answered `Done`, and
    /// what was started has ended or is active. It does nothing: its contract says so.
    pub fn law_holds_always(&self)
        ensures was { WasIn E.Store self.now }
        ensures stops { E.tells → StopKeeps E.leaves self.now.base (trace_of self.now.trace) self.now.engine }
        ensures handed { self.now.handed ≤ 1024 }
    {
        let _handed = self.handed;
    }

    /// A share, which has made no step and read the counts as they are. Refused `TooMany` after the 1,024th, and `Memory`.
    pub fn share(&mut self) -> Result<Share<L>, Fault>
        ensures ok { IfOk result (λ s. self.new ≡ record self.old { handed = self.old.handed + 1 }) }
        ensures none { IfOk result (λ s. (s.made.amount ≡ 0) × (s.read ≡ self.old.counts)) }
        ensures err { OnErr result (self.new ≡ self.old) }
        ensures many { result ≡ Err TooMany ↔ (self.old.handed ≡ 1024) }
        ensures causes { IfErr result (λ e. (e ≡ TooMany) ⊎ (e ≡ Memory)) }
    {
        if self.handed >= SHARES {
            return Err(Fault::TooMany);
        }
        let Held {
            rest,
            handed,
            counts,
            cell,
            pass,
            ..
        } = self;
        let Ok(cell) = Arc::try_clone(cell) else {
            return Err(Fault::Memory);
        };
        let made = rest.split_off(1, 0);
        let pass = cell.reader(pass);
        *handed += 1;
        Ok(Share {
            made,
            cell,
            pass,
            read: *counts,
        })
    }

    /// Makes what is committed the base entries, and empties the trace. Refused `Failed` where the engine has failed, then `Busy`
    /// while a transaction is active, then `TraceFull` where the steps cut would pass 2^62, then as `entries` is; the trace and
    /// its base stay then.
    pub fn cut_trace(&mut self) -> Result<(), Fault>
        ensures ok { IfOk result (λ _. (self.new.trace ≡ []) × (self.new.cut ≡ self.old.cut + length self.old.trace) × (self.new.kept ≡ self.old.counts)) }
        ensures base { IfOk result (λ _. E.tells → IsCut self.old.base self.new.base (trace_of self.old.trace)) }
        ensures same { (self.new.counts ≡ self.old.counts) × (self.new.waiting ≡ self.old.waiting) × (self.new.forces ≡ self.old.forces) × (self.new.history ≡ self.old.history) × (self.new.handed ≡ self.old.handed) }
        ensures err { OnErr result ((self.new.trace ≡ self.old.trace) × (self.new.base ≡ self.old.base) × (self.new.cut ≡ self.old.cut) × (self.new.kept ≡ self.old.kept)) }
        ensures cause { IfErr result (λ fault. WhyNotCut E.Store self.old self.new fault) }
        ensures first { ComesFirst E.Store self.old.engine result }
    {
        if self.engine.failed() {
            return Err(Fault::Failed);
        }
        if is_busy(self.engine.active()) {
            return Err(Fault::Busy);
        }
        if self.trace.len() as u64 > MOST_CUT - self.cut {
            return Err(Fault::TraceFull);
        }
        law_isolation();
        let Held {
            alloc,
            engine,
            base,
            trace,
            cut,
            kept,
            counts,
            ..
        } = self;
        *base = engine.entries(*alloc)?;
        *cut += trace.len() as u64;
        *kept = *counts;
        trace.clear();
        Ok(())
    }

    /// How many forces were made: steps `Force` that were answered `Done`. What waited before one of them is committed by it.
    pub fn forces(&self) -> u64
        ensures { result ≡ self.now.forces }
    {
        self.forces
    }

    /// Whether a force was made since so many were.
    pub fn is_settled(&self, at: u64) -> bool
        ensures { result ≡ true ↔ (at < self.now.forces) }
    {
        at < self.forces
    }

    /// Ends the front. There is a sum where as many shares came back as were handed out, and it is the number of all steps.
    pub fn close(self, shares: Vec<Share<L>>) -> Closed<E>
        requires { L.parts ≡ 1024 }
        ensures run { E.tells → IsRun E.life result.base.items (trace_of result.trace.items) result.engine }
        ensures stops { E.tells → StopKeeps E.leaves result.base.items (trace_of result.trace.items) result.engine }
        ensures replies { All (λ e. IsReply e.0 e.1) (trace_of result.trace.items) }
        ensures same { (result.base.items ≡ self.base) × (result.trace.items ≡ self.trace) × (result.cut ≡ self.cut) × (result.engine ≡ self.engine) }
        ensures sum { IfSome result.sum (λ n. (n ≡ self.cut + length self.trace) × (n ≡ sum_by (λ s. s.made.amount) shares.items)) }
        ensures all { IsSome result.sum ↔ (length shares.items ≡ self.handed) }
    {
        let Held {
            engine,
            base,
            trace,
            cut,
            mut book,
            mut rest,
            handed,
            ..
        } = self;
        let back = gather(&mut rest, shares);
        let sum = if back == handed {
            book.audit(&mut rest);
            Some(cut + trace.len() as u64)
        } else {
            None
        };
        Closed {
            engine,
            base,
            cut,
            trace,
            sum,
        }
    }

    /// Makes a step, and puts it with its reply at the end of the trace. The room for both is made first.
    ///
    /// Refused `TraceFull` where the trace holds 65,536 steps or more and the step ends no transaction (`Step::may_end`), then `Memory` where
    /// there is no room; the step is not made then. Every other reply is the engine's.
    pub fn step<R: Wait>(&mut self, rt: &R, mine: &mut Share<L>, step: &Step) -> Reply
        ensures records { Records (asked_by step.now) (told_by result) self.old self.new mine.old.made.amount mine.new.made.amount }
        ensures adds { is_blocked (told_by result) ≡ false → is_full (told_by result) ≡ false → lacks_memory (told_by result) ≡ false → self.new.history ≡ self.old.history ++ (step.now, result) ∷ [] }
        ensures full { is_full (told_by result) ≡ true ↔ ((65536 ≤ length self.old.trace) × (may_end self.old.waiting (asked_by step.now) ≡ false)) }
        ensures made { is_full (told_by result) ≡ false → lacks_memory (told_by result) ≡ false → E.made self.old.engine step.now result self.new.engine }
        ensures same { is_full (told_by result) ≡ true → self.new ≡ self.old }
        ensures suits { is_full (told_by result) ≡ false → lacks_memory (told_by result) ≡ false → Suits (asked_by step.now) (told_by result) }
    {
        if is_refused(self.trace.len(), self.waiting, step) {
            return Reply::Refused(Fault::TraceFull);
        }
        let Held {
            alloc,
            engine,
            trace,
            counts,
            waiting,
            forces,
            history,
            passed,
            book,
            cell,
            pass,
            ..
        } = self;
        let Some((asked, room)) = room_for(*alloc, trace, step) else {
            return Reply::Refused(Fault::Memory);
        };
        let reply = engine.step(step);
        if reply.is_blocked() {
            return reply;
        }
        let told = Told::of(&reply, room);
        let now = counted(*waiting, *counts, step, &reply);
        *waiting = step.waits_after(*waiting, &reply);
        *forces = forces_after(*forces, step, &reply);
        *passed = passed_after(*passed, *waiting);
        *history = history.with(step, &reply);
        trace.push_reserved(Recorded {
            step: asked,
            reply: told,
        });
        book.add(&mut mine.made, 1);
        publish(rt, cell, pass, *counts, now);
        *counts = now;
        reply
    }
}

impl<E: Store, L: Ledger> Held<E, L> {
    /// Makes the step `Commit`, and tells of it.
    pub(crate) fn make_commit<R: Wait>(
        &mut self,
        rt: &R,
        callers: &Callers,
        mine: &mut Share<L>,
        t: TxnId,
    ) -> Outcome
        ensures comes { ComesTo (IsAcknowledged E.Store t) (IsWaiting E.Store t) (λ fault. IsNotAcknowledged E.Store (IsFullFor E.Store Force) t fault ⊎ (fault ≡ Memory)) result }
        ensures made { UnlessRefused result (mine.new.made.amount ≡ mine.old.made.amount + 1) }
        ensures few { (mine.old.made.amount ≤ mine.new.made.amount) × (mine.new.made.amount ≤ mine.old.made.amount + 1) }
    {
        let step = Step::Commit(t);
        let reply = self.step(rt, mine, &step);
        self.law_holds_always();
        callers.tell(&step, &reply);
        match reply {
            Reply::Committed => Outcome::Done,
            Reply::More => Outcome::Waits(self.forces()),
            Reply::Refused(fault) => Outcome::Refused(fault),
            _ => unreachable!(),
        }
    }

    /// Whether all that was answered `More` is durable.
    pub(crate) fn look(&self) -> Outcome
        ensures { ComesTo (IsSettled E.Store) (λ n. IsForced E.Store n → IsSettled E.Store) (IsNotForced E.Store (IsFullFor E.Store Force)) result }
    {
        self.law_holds_always();
        let pace = self.pace();
        if pace.failed {
            return Outcome::Refused(Fault::Failed);
        }
        if pace.waiting == 0 {
            return Outcome::Done;
        }
        Outcome::Waits(self.forces())
    }
}

impl<E: Store, L: Ledger> Behind for Held<E, L> {
    fn pace(&self) -> Pace
        ensures waiting { result.waiting ≡ self.now.waiting }
        ensures failed { result.failed ≡ true ↔ E.broken self.now.engine }
    {
        Pace {
            waiting: self.waiting,
            passed: self.passed,
            forces: self.forces,
            failed: self.engine.failed(),
        }
    }
}

// Writes the counts to the cell of statistics, where they are not those that it has.
pub(crate) fn publish<R: Wait>(
    rt: &R,
    cell: &Arc<StatsCell, Global>,
    pass: &mut Pass,
    old: [u64; 3],
    now: [u64; 3],
)
    requires cell { pass.old.table_id ≡ (arc_value cell.now).table.shared.table_id }
    requires whole { length now ≡ 3 }
    requires writes { cell_view pass.old ≡ writer old }
    requires sound { IsSound now }
    requires rises { NoLess old now }
    ensures cell { pass.new.table_id ≡ pass.old.table_id }
    ensures wrote { cell_view pass.new ≡ writer now }
{
    if now != old {
        cell.store(rt, pass, now);
    }
}

// Whether so many active transactions keep the trace from being cut.
fn is_busy(active: usize) -> bool
    ensures busy { result ≡ true → 0 < active }
    ensures free { result ≡ false → active ≡ 0 }
{
    active > 0
}

// Whether a step is refused for a trace of this length, where so many wait for a force: a step that may end a transaction never is.
fn is_refused(len: usize, waiting: u64, step: &Step) -> bool
    ensures { result ≡ true ↔ ((65536 ≤ len) × (may_end waiting (asked_by step.now) ≡ false)) }
{
    len >= FULL && !step.may_end(waiting)
}

// Room for a step and its reply: one place more in the trace, a copy of the step, and room for what it may be answered.
fn room_for(alloc: Global, trace: &mut Vec<Recorded>, step: &Step) -> Option<(Step, Room)>
    ensures kept { trace.new.items ≡ trace.old.items }
    ensures place { IfSome result (λ r. vec_len trace.new < vec_capacity trace.new) }
    ensures step { IfSome result (λ r. asked_by r.0 ≡ asked_by step.now) }
    ensures key { IfSome result (λ r. most_key (asked_by step.now) ≤ vec_capacity r.1.key) }
    ensures entries { IfSome result (λ r. most_entries (asked_by step.now) ≤ vec_capacity r.1.entries) }
{
    trace.reserve(1).ok()?;
    let copy = step.try_clone(alloc).ok()?;
    let room = Room::of(alloc, step)?;
    Some((copy, room))
}

// Puts the shares together, and says how many there were.
pub(crate) fn gather<L: Ledger>(rest: &mut Part<L>, shares: Vec<Share<L>>) -> u64
    ensures count { result ≡ length shares.items }
    ensures parts { rest.new.parts ≡ rest.old.parts + length shares.items }
    ensures amount { rest.new.amount ≡ rest.old.amount + sum_by (λ s. s.made.amount) shares.items }
{
    let back = shares.len() as u64;
    for share in shares {
        let Share { made, .. } = share;
        rest.merge(made);
    }
    back
}

// The counts after a step with this reply, before which so many waited for a force.
pub(crate) fn counted(waiting: u64, counts: [u64; 3], step: &Step, reply: &Reply) -> [u64; 3]
    requires { (slice_index counts 0 < 2 ^ 63) × (slice_index counts 1 + waiting < 2 ^ 63) × (slice_index counts 2 < 2 ^ 63) × (length counts ≡ 3) }
    ensures { result ≡ after_reply waiting counts (asked_by step.now) (told_by reply.now) }
{
    match (step, reply) {
        (_, Reply::Started(_)) => [counts[0] + 1, counts[1], counts[2]],
        (_, Reply::Committed) => [counts[0], counts[1] + 1, counts[2]],
        (_, Reply::RolledBack) => [counts[0], counts[1], counts[2] + 1],
        (Step::Force, Reply::Done) => [counts[0], counts[1] + waiting, counts[2]],
        _ => [counts[0], counts[1], counts[2]],
    }
}

// How many forces were made after a step with this reply, before which so many were.
pub(crate) fn forces_after(forces: u64, step: &Step, reply: &Reply) -> u64
    requires { forces < 2 ^ 63 }
    ensures count { result ≡ forces + force_of (asked_by step.now) (told_by reply.now) }
    ensures few { result ≤ forces + 1 }
{
    match (step, reply) {
        (Step::Force, Reply::Done) => forces + 1,
        _ => forces,
    }
}

// How many steps were made since the first of so many came to wait, where so many were made before this one.
pub(crate) fn passed_after(passed: u64, waiting: u64) -> u64
    ensures none { waiting ≡ 0 → result ≡ 0 }
    ensures some { 0 < waiting → result ≡ one_more passed }
{
    if waiting == 0 {
        0
    } else {
        passed.saturating_add(1)
    }
}
