//! What the lines and replies of a life show, read off them by the definition of lives.

ghost use Rattle.std.specs.Prelude.{◌≡◌, ◌⊎◌, ◌||◌, ◌==◌, ◌≤◌, ◌<◌, ℕ, IfOk, OnOk};
ghost use Rattle.im_base_types.specs.Answers.{Force, Commit};
ghost use Rattle.im_base_types.specs.Answers as answers;
ghost use Rattle.im_base_types.specs.Changes as changes;
ghost use Rattle.im_base_types.specs.Lives.{Shown, nothing_shown, idle, adds, all_acked, answered, asks, breaks, cut_off, refused, with_running};
ghost use Rattle.im_base_types.specs.Refusals.{memory, unfinished};
ghost use Rattle.im_base_steps.specs.Calls.{asked_by, told_by};
ghost use Rattle.im_base_types.specs.Faults.{number_of};
ghost use Rattle.im_tool_lines.specs.declared.store_life.StoreLine.TheVariants as lines;
ghost use Rattle.im_tool_lines.specs.StoreShown.{shown_after, shown_by_lines};
ghost use Rattle.im_tool_judge.specs.Judged.{asked_in, change_of};
ghost use Rattle.im_tool_judge.specs.Shows.{KeepsShown, IsFound, transaction_of_access, behind, running_from};

use crate::change::{AskedEffect, Change};
use crate::happened::{Event, Found, Happened, find};
use im_base_steps::{Reply, Step};
use im_base_types::{Fault, Rid, TxnId};
use im_tool_lines::{StoreLine, StoreReply};
use std::alloc::{AllocError, Global};
use std::mem;

/// The effects whose Commit a life asked, in the order of the Commits, each with whether it was acknowledged: those that its lines and
/// replies show.
pub fn effects_asked(
    alloc: Global,
    lines: &[StoreLine],
    replies: &[StoreReply],
) -> Result<Vec<AskedEffect>, AllocError>
    ensures { IfOk result (λ asked. asked_in asked.items ≡ (shown_by_lines nothing_shown lines.now replies.now).asked) }
{
    let mut showing = Showing::new(alloc);
    let count = shorter(lines.len(), replies.len());
    for i in 0..count {
        showing.add(&lines[i], &replies[i])?;
    }
    let Showing {
        alloc: _alloc,
        failed: _failed,
        events: _events,
        asked,
    } = showing;
    Ok(asked)
}

fn shorter(first: usize, second: usize) -> usize
    ensures within_first { result ≤ first }
    ensures within_second { result ≤ second }
    ensures one { (first ≤ result) ⊎ (second ≤ result) }
{
    if first < second { first } else { second }
}

/// What is shown so far: whether the engine has failed, what happened to the transactions, the oldest first, and the effects whose Commit was asked.
#[derive(Drop)]
pub(crate) struct Showing {
    alloc: Global,
    failed: bool,
    events: Vec<Event>,
    asked: Vec<AskedEffect>,
}

impl Showing {
    fn new(alloc: Global) -> Showing
        ensures { KeepsShown result nothing_shown }
    {
        Showing {
            alloc,
            failed: false,
            events: Vec::new(alloc),
            asked: Vec::new(alloc),
        }
    }

    // What is shown once a line was answered.
    fn add(&mut self, line: &StoreLine, reply: &StoreReply) -> Result<(), AllocError>
        ensures { OnOk result ((s : Shown) → KeepsShown self.old s → KeepsShown self.new (shown_after s line.now reply.now)) }
    {
        match line {
            StoreLine::Step(step) => self.step(step, reply),
            StoreLine::Calls => Ok(()),
            StoreLine::Redo => Ok(()),
            StoreLine::Log => Ok(()),
            StoreLine::Changes(_) => Ok(()),
            StoreLine::Page(_) => {
                self.look(reply);
                Ok(())
            }
        }
    }

    fn look(&mut self, reply: &StoreReply)
        ensures { (s : Shown) (page : ℕ) → KeepsShown self.old s → KeepsShown self.new (shown_after s (lines.Page page) reply.now) }
    {
        if let StoreReply::Refused(fault) = reply {
            self.failed = breaks(*fault);
        }
    }

    fn step(&mut self, step: &Step, reply: &StoreReply) -> Result<(), AllocError>
        ensures { OnOk result ((s : Shown) → KeepsShown self.old s → KeepsShown self.new (shown_after s (lines.Step step.now) reply.now)) }
    {
        match reply {
            StoreReply::Step(reply) => self.answer(step, reply),
            StoreReply::Stopped => self.cut_off(step),
            StoreReply::Calls(_) => Ok(()),
            StoreReply::Page(_, _) => Ok(()),
            StoreReply::Redo(_) => Ok(()),
            StoreReply::Log(_) => Ok(()),
            StoreReply::Changes(_) => Ok(()),
            StoreReply::Refused(_) => Ok(()),
        }
    }

    // The stop fell within a step.
    fn cut_off(&mut self, step: &Step) -> Result<(), AllocError>
        ensures { OnOk result ((s : Shown) → KeepsShown self.old s → KeepsShown self.new (cut_off (asked_by step.now) s)) }
    {
        match step {
            Step::Commit(txn) => self.cut_commit(*txn),
            _ => Ok(()),
        }
    }

    fn cut_commit(&mut self, txn: TxnId) -> Result<(), AllocError>
        ensures { OnOk result ((s : Shown) → KeepsShown self.old s → KeepsShown self.new (cut_off (answers.Commit txn) s)) }
    {
        if self.failed {
            return Ok(());
        }
        self.ask(txn, false)
    }

    fn answer(&mut self, step: &Step, reply: &Reply) -> Result<(), AllocError>
        ensures { OnOk result ((s : Shown) → KeepsShown self.old s → KeepsShown self.new (answered (asked_by step.now) (told_by reply.now) s)) }
    {
        match reply {
            Reply::Refused(fault) => self.refuse(step, *fault),
            Reply::Started(txn) => self.start(step, *txn),
            Reply::Inserted => self.insert(step),
            Reply::Deleted => self.delete(step),
            Reply::Committed => self.commit(step),
            Reply::RolledBack => self.roll_back(step),
            Reply::More => self.take_more(step),
            Reply::Die => self.die(step),
            Reply::Done => self.finish(step),
            Reply::Found(_) => Ok(()),
            Reply::Absent => Ok(()),
            Reply::Entry(_, _) => Ok(()),
            Reply::End => Ok(()),
            Reply::Entries(_) => Ok(()),
            Reply::Duplicate => Ok(()),
            Reply::Blocked(_) => Ok(()),
        }
    }

    fn refuse(&mut self, step: &Step, fault: Fault) -> Result<(), AllocError>
        ensures { OnOk result ((s : Shown) → KeepsShown self.old s → KeepsShown self.new (refused (number_of fault) (asked_by step.now) s)) }
    {
        match step {
            Step::Commit(txn) => self.refuse_commit(*txn, fault),
            _ => {
                let broken = breaks(fault);
                self.failed = either(self.failed, broken);
                Ok(())
            }
        }
    }

    fn refuse_commit(&mut self, txn: TxnId, fault: Fault) -> Result<(), AllocError>
        ensures { OnOk result ((s : Shown) → KeepsShown self.old s → KeepsShown self.new (refused (number_of fault) (answers.Commit txn) s)) }
    {
        if is_unasked(self.failed, fault) {
            return Ok(());
        }
        self.ask(txn, false)?;
        self.failed = breaks(fault);
        Ok(())
    }

    fn start(&mut self, step: &Step, txn: TxnId) -> Result<(), AllocError>
        ensures { OnOk result ((s : Shown) → KeepsShown self.old s → KeepsShown self.new (answered (asked_by step.now) (answers.Started txn) s)) }
    {
        match step {
            Step::Begin => {
                self.happen(txn, Happened::Began)?;
                Ok(())
            }
            _ => Ok(()),
        }
    }

    fn insert(&mut self, step: &Step) -> Result<(), AllocError>
        ensures { OnOk result ((s : Shown) → KeepsShown self.old s → KeepsShown self.new (answered (asked_by step.now) answers.Inserted s)) }
    {
        match step {
            Step::Insert(txn, key, rid) => {
                let one = insertion(self.alloc, key, *rid)?;
                self.change(*txn, one)?;
                Ok(())
            }
            Step::Continue(txn) => {
                self.happen(*txn, Happened::InsertEnded)?;
                Ok(())
            }
            _ => Ok(()),
        }
    }

    fn delete(&mut self, step: &Step) -> Result<(), AllocError>
        ensures { OnOk result ((s : Shown) → KeepsShown self.old s → KeepsShown self.new (answered (asked_by step.now) answers.Deleted s)) }
    {
        match step {
            Step::Delete(txn, key) => {
                let one = deletion(self.alloc, key)?;
                self.change(*txn, one)?;
                Ok(())
            }
            Step::Continue(txn) => {
                self.happen(*txn, Happened::DeleteEnded)?;
                Ok(())
            }
            _ => Ok(()),
        }
    }

    fn commit(&mut self, step: &Step) -> Result<(), AllocError>
        ensures { OnOk result ((s : Shown) → KeepsShown self.old s → KeepsShown self.new (answered (asked_by step.now) answers.Committed s)) }
    {
        match step {
            Step::Commit(txn) => {
                self.ask(*txn, true)?;
                self.happen(*txn, Happened::Ended)?;
                Ok(())
            }
            _ => Ok(()),
        }
    }

    fn roll_back(&mut self, step: &Step) -> Result<(), AllocError>
        ensures { OnOk result ((s : Shown) → KeepsShown self.old s → KeepsShown self.new (answered (asked_by step.now) answers.RolledBack s)) }
    {
        match step {
            Step::Rollback(txn) => {
                self.happen(*txn, Happened::Ended)?;
                Ok(())
            }
            Step::Continue(txn) => {
                self.happen(*txn, Happened::Ended)?;
                Ok(())
            }
            _ => Ok(()),
        }
    }

    // Something is left to be done: a rollback or a return has begun, a Commit waits for a force, or an insert or a delete goes on.
    fn take_more(&mut self, step: &Step) -> Result<(), AllocError>
        ensures { OnOk result ((s : Shown) → KeepsShown self.old s → KeepsShown self.new (answered (asked_by step.now) answers.More s)) }
    {
        match step {
            Step::Commit(txn) => {
                self.ask(*txn, false)?;
                self.happen(*txn, Happened::Waited)?;
                Ok(())
            }
            Step::Rollback(txn) => {
                self.happen(*txn, Happened::Turned)?;
                Ok(())
            }
            Step::RollTo(txn, left) => {
                self.happen(*txn, Happened::Returned(*left))?;
                Ok(())
            }
            Step::Insert(txn, key, rid) => {
                let one = insertion(self.alloc, key, *rid)?;
                self.happen(*txn, Happened::GoesOn(one))?;
                Ok(())
            }
            Step::Delete(txn, key) => {
                let one = deletion(self.alloc, key)?;
                self.happen(*txn, Happened::GoesOn(one))?;
                Ok(())
            }
            _ => Ok(()),
        }
    }

    // Any access may be answered that its transaction has to roll back.
    fn die(&mut self, step: &Step) -> Result<(), AllocError>
        ensures { OnOk result ((s : Shown) → KeepsShown self.old s → KeepsShown self.new (answered (asked_by step.now) answers.Die s)) }
    {
        match access_of(step) {
            Some(txn) => {
                self.happen(txn, Happened::Died)?;
                Ok(())
            }
            None => Ok(()),
        }
    }

    // What was asked is done: a force was made, or a transaction has no more changes than it returned to.
    fn finish(&mut self, step: &Step) -> Result<(), AllocError>
        ensures { OnOk result ((s : Shown) → KeepsShown self.old s → KeepsShown self.new (answered (asked_by step.now) answers.Done s)) }
    {
        match step {
            Step::Force => self.acknowledge(),
            Step::RollTo(txn, _) => {
                self.happen(*txn, Happened::Resumed)?;
                Ok(())
            }
            Step::Continue(txn) => {
                self.happen(*txn, Happened::Resumed)?;
                Ok(())
            }
            _ => Ok(()),
        }
    }

    // All that was asked is durable.
    fn acknowledge(&mut self) -> Result<(), AllocError>
        ensures { OnOk result ((s : Shown) → KeepsShown self.old s → KeepsShown self.new (record s { asked = all_acked s.asked })) }
    {
        let asked = mem::replace(&mut self.asked, Vec::new(self.alloc));
        self.asked = acknowledged(self.alloc, asked)?;
        Ok(())
    }

    // A change joins the effect of its transaction.
    fn change(&mut self, txn: TxnId, change: Change) -> Result<(), AllocError>
        ensures { OnOk result ((s : Shown) → KeepsShown self.old s → KeepsShown self.new (adds txn (change_of change) s)) }
    {
        self.happen(txn, Happened::Changed(change))?;
        Ok(())
    }

    // Something happens to a transaction.
    fn happen(&mut self, txn: TxnId, what: Happened) -> Result<(), AllocError>
        ensures { OnOk result ((s : Shown) → KeepsShown self.old s → KeepsShown self.new (with_running txn (behind what (s.running txn)) s)) }
    {
        self.events.push(Event { txn, what })?;
        Ok(())
    }

    // A Commit is asked.
    fn ask(&mut self, txn: TxnId, acked: bool) -> Result<(), AllocError>
        ensures { OnOk result ((s : Shown) → KeepsShown self.old s → KeepsShown self.new (asks txn acked s)) }
    {
        let found = find(self.alloc, &self.events, txn)?;
        self.ask_found(txn, acked, found)
    }

    // It is asked of a transaction that is going and has changes.
    fn ask_found(&mut self, txn: TxnId, acked: bool, found: Found) -> Result<(), AllocError>
        ensures { OnOk result ((s : Shown) → KeepsShown self.old s → IsFound found (running_from txn idle self.old.events.items) → KeepsShown self.new (asks txn acked s)) }
    {
        let Found {
            going,
            changes,
            pending: _pending,
        } = found;
        if !going {
            return Ok(());
        }
        if changes.is_empty() {
            return Ok(());
        }
        self.asked.push(AskedEffect {
            txn,
            changes,
            acked,
        })?;
        Ok(())
    }
}

// The same, each acknowledged.
#[tactic(auto, using(crate::proofs::Shows::acked_push))]
fn acknowledged(alloc: Global, asked: Vec<AskedEffect>) -> Result<Vec<AskedEffect>, AllocError>
    ensures { IfOk result (λ all. asked_in all.items ≡ all_acked (asked_in asked.items)) }
{
    let mut all = Vec::new(alloc);
    for effect in asked {
        let AskedEffect {
            txn,
            changes,
            acked: _acked,
        } = effect;
        all.push(AskedEffect {
            txn,
            changes,
            acked: true,
        })?;
    }
    Ok(all)
}

// The transaction of an access.
fn access_of(step: &Step) -> Option<TxnId>
    ensures { result ≡ transaction_of_access (asked_by step.now) }
{
    match step {
        Step::Fetch(txn, _) => Some(*txn),
        Step::Seek(txn, _) => Some(*txn),
        Step::Next(txn, _) => Some(*txn),
        Step::Prev(txn, _) => Some(*txn),
        Step::Scan(txn, _, _, _) => Some(*txn),
        Step::Insert(txn, _, _) => Some(*txn),
        Step::Delete(txn, _) => Some(*txn),
        Step::Begin => None,
        Step::Commit(_) => None,
        Step::Rollback(_) => None,
        Step::Continue(_) => None,
        Step::RollTo(_, _) => None,
        Step::FlushPage(_) => None,
        Step::Force => None,
        Step::Checkpoint => None,
        Step::Switch => None,
    }
}

fn insertion(alloc: Global, key: &[u8], rid: Rid) -> Result<Change, AllocError>
    ensures { IfOk result (λ change. change_of change ≡ changes.Put key.now rid) }
{
    Ok(Change::Insertion(Vec::from_slice(alloc, key)?, rid))
}

fn deletion(alloc: Global, key: &[u8]) -> Result<Change, AllocError>
    ensures { IfOk result (λ change. change_of change ≡ changes.Drop key.now 0) }
{
    Ok(Change::Deletion(Vec::from_slice(alloc, key)?))
}

fn either(first: bool, second: bool) -> bool
    ensures { result ≡ (first || second) }
{
    first || second
}

// A Commit that is refused so was not asked: of a failed engine, for want of memory, or within a structure change.
fn is_unasked(failed: bool, fault: Fault) -> bool
    ensures { result ≡ (failed || number_of fault == memory || number_of fault == unfinished) }
{
    let number = fault.number();
    failed || number == 9 || number == 17
}

// The refusals after which an engine has failed.
fn breaks(fault: Fault) -> bool
    ensures { result ≡ breaks (number_of fault) }
{
    match fault {
        Fault::Capacity => true,
        Fault::LogFull => true,
        Fault::Device => true,
        Fault::Failed => true,
        Fault::NotAStore => true,
        _ => false,
    }
}
