//! The engine: a store that is open, and its steps.

ghost use Rattle.std.specs.Prelude.{◌≡◌, ◌≤◌, length, false, is_some, None, Some, Option};
ghost use Rattle.std.proofs.Props.{props};
ghost use Rattle.im_log.proofs.Waiting.{sealed_prop};
ghost use Rattle.im_page_writer.specs.PageWriter.{IsReadyWriter};

use crate::engine::checks::{has_length, owns, to_access, to_commit, to_continue, to_rollback};
use crate::stepped::Under;
use crate::transactions::Transactions;
use im_base_disk::Disk;
use im_base_steps::{Reply, Step};
use im_base_two_logs::TwoLogs;
use im_base_types::{Fault, PageNo, RedoReport};
use im_engine_locks::LockTable;
use im_page_writer::PageWriter;
use std::alloc::Global;

mod checks;

/// A store that is open, for up to 64 transactions at once.
#[derive(Drop)]
pub struct Engine<D: Disk> {
    pub(crate) alloc: Global,
    pub(crate) writer: PageWriter,
    pub(crate) disk: D,
    pub(crate) max_pages: PageNo,
    // whether the last leaf keeps nearly all of its room where it is split
    pub(crate) dense: bool,
    // what redo did in this opening
    pub(crate) report: RedoReport,
    // whether one of the two logs was of the first format in front of it
    pub(crate) had_first: bool,
    pub(crate) txns: Transactions,
    pub(crate) locks: LockTable,
    // where records are read again for a rollback
    pub(crate) room: Vec<u8>,
    pub(crate) failed: bool,
    // whether a structure change is made page by page, and the one under way
    pub(crate) stepped: bool,
    pub(crate) under: Option<Under>,
    ghost ready: { IsReadyWriter D.Disk writer disk } by { Prim.hlevel (props, sealed_prop) },
    ghost working: { failed ≡ false → writer.failed ≡ false },
    ghost numbered: { 1 ≤ txns.next },
    ghost sized: { length room.items ≡ 16384 },
    ghost whole: { stepped ≡ false → is_some under ≡ false },
}

impl<D: Disk> Engine<D> {
    ghost use Rattle.im_theory_machine.specs.Machine.{first_check, mark_for};
    ghost use Rattle.im_base_steps.specs.Calls.{asked_by};
    ghost use Rattle.im_theory_machine.specs.View.{owns_in};
    ghost use Rattle.im_theory_steps.specs.Checks.{marks_in};
    ghost use Rattle.im_engine.specs.Aims.{under_of};
    ghost use Rattle.im_engine.specs.Kept.{numbered};

    // The first refusal that a check gives to a step.
    fn refusal(&self, step: &Step) -> Option<Fault>
        ensures { numbered result ≡ first_check self.now.failed (length self.now.txns.rows) (mark_for (marks_in self.now.txns.rows) (asked_by step.now)) (owns_in (under_of self.now.under) (asked_by step.now)) (asked_by step.now) }
    {
        if self.failed {
            return Some(Fault::Failed);
        }
        match step {
            Step::Begin => {
                if self.txns.len() < 64 {
                    None
                } else {
                    Some(Fault::TooMany)
                }
            }
            Step::Fetch(t, key) => to_access(
                self.txns.find(*t),
                owns(&self.under, *t),
                has_length(key),
            ),
            Step::Seek(t, key) => to_access(
                self.txns.find(*t),
                owns(&self.under, *t),
                has_length(key),
            ),
            Step::Next(t, key) => to_access(
                self.txns.find(*t),
                owns(&self.under, *t),
                has_length(key),
            ),
            Step::Prev(t, key) => to_access(
                self.txns.find(*t),
                owns(&self.under, *t),
                has_length(key),
            ),
            Step::Scan(t, lo, hi, _) => to_access(
                self.txns.find(*t),
                owns(&self.under, *t),
                has_length(lo) && has_length(hi),
            ),
            Step::Insert(t, key, _) => to_access(
                self.txns.find(*t),
                owns(&self.under, *t),
                has_length(key),
            ),
            Step::Delete(t, key) => to_access(
                self.txns.find(*t),
                owns(&self.under, *t),
                has_length(key),
            ),
            Step::Commit(t) => to_commit(self.txns.find(*t), owns(&self.under, *t)),
            Step::Rollback(t) => to_rollback(self.txns.find(*t), owns(&self.under, *t)),
            Step::Continue(t) => to_continue(self.txns.find(*t), owns(&self.under, *t)),
            Step::RollTo(t, _) => to_rollback(self.txns.find(*t), owns(&self.under, *t)),
            Step::FlushPage(_) => None,
            Step::Force => None,
            Step::Checkpoint => None,
            Step::Switch => {
                if self.txns.len() > 0 {
                    Some(Fault::Busy)
                } else {
                    None
                }
            }
        }
    }

    /// How many transactions are active.
    pub fn active(&self) -> usize
        ensures { result ≡ length self.now.txns.rows }
    {
        self.txns.len()
    }

    /// What redo did in the opening that made this engine: where it began, and how many records it applied.
    pub fn redo_report(&self) -> RedoReport
        ensures { result ≡ self.now.report }
    {
        self.report
    }

    /// Whether one of the two logs was one of the first format in front of the opening that made this engine. That log is the other one now, as it was:
    /// a program of the first format would open what it says of the store as it was before.
    pub fn had_first_format(&self) -> bool
        ensures { result ≡ self.now.had_first }
    {
        self.had_first
    }

    /// Whether an earlier call broke it.
    pub fn failed(&self) -> bool
        ensures { result ≡ self.now.failed }
    {
        self.failed
    }
}

impl<D: TwoLogs> Engine<D> {
    ghost use Rattle.im_engine.specs.Told.{IsStep};

    /// Makes a step, and answers it. A step by a key reads the pages on the key's way, which makes device calls where the pool does not
    /// hold them; what is read needs a frame, so a page that was changed may be written to make one free. A Commit of a transaction that
    /// has changes that stand forces the log, once where its record fits into the buffer and twice at most; with `Config.group` it is only logged and
    /// answered `More`, and its transaction keeps its locks up to the next `Force` that is answered `Done`, which commits all that wait.
    /// `Force` forces the log where records are buffered, and `FlushPage` writes a page that was changed. `Checkpoint` syncs the file of
    /// pages, logs one record with the active transactions and the pages that lack changes in their file, and forces the log: redo of a
    /// restart begins at the least of that record's LSN and the LSNs that it lists of pages. The record has room for 1,024 pages: where more
    /// were changed since their last write, pages are written first until no more are left. `Switch` writes every page that was changed,
    /// forces the log, syncs the file of pages, and makes the other log file one of the next generation, with no record: a restart reads
    /// nothing of the log from before.
    ///
    /// With `Config.stepped` a structure change is made page by page: the Insert or Delete that needs it is answered `More`, and each
    /// Continue of its transaction makes a page, up to the one that is answered `Inserted` or `Deleted`; a rollback does so within its own
    /// Continues. Meanwhile a step of another is answered `Blocked` by the tree where it would read a page that is made, change one that is
    /// to be made, or needs a change of its own.
    ///
    /// `RollTo` names how many changes of its transaction are to stand: its replies `Inserted` and `Deleted`, but for those taken back. Where no more
    /// stand it is answered `Done`, and the transaction is going, also where it had been answered `Die`. Else it is answered `More`, and each Continue
    /// takes the newest change back, as in a rollback, up to the one that is answered `Done`: then so many stand, and it is going. It keeps its locks,
    /// and nothing is logged for it but the compensations. One that has records and no change that stands ends with an End, and no force.
    ///
    /// Refused by the first of these that holds: `Failed` where an earlier step broke the engine; `TooMany` at Begin where 64 transactions
    /// are active; `Busy` at Switch where one is, or waits for a force; `NoTransaction` where none of that number is active or it waits for
    /// a force, or at Continue where it has nothing to go on with; `MustRollBack` where it was answered `Die`, but at Rollback and RollTo;
    /// `RollingBack` where it takes changes back, but at Continue; `Unfinished` where an Insert or a Delete of it goes on, but at Continue; `KeyLength`; `PagesFull` where an insert needs
    /// pages past the limit; `Capacity` where page numbers, levels, transaction numbers or generations of the log are used up. In between
    /// come `LogFull` where the log has no room below LSN 2^62, `Device`, `NotAStore` where a page's bytes are none, `Memory`, and `Failed`
    /// where memory was wanted too late. `LogFull`, `Capacity`, `Device`, `NotAStore` and `Failed` break the engine; after every other
    /// refusal the entries, the locks and the transactions are as they were.
    pub fn step(&mut self, step: &Step) -> Reply
        ensures { IsStep D.Disk step.now result self.old self.new }
    {
        if let Some(fault) = self.refusal(step) {
            return Reply::Refused(fault);
        }
        match step {
            Step::Begin => self.begin(),
            Step::Fetch(t, key) => self.fetch(*t, key),
            Step::Seek(t, key) => self.seek(*t, key, true),
            Step::Next(t, key) => self.seek(*t, key, false),
            Step::Prev(t, key) => self.prev(*t, key),
            Step::Scan(t, lo, hi, limit) => self.scan(*t, lo, hi, *limit),
            Step::Commit(t) => self.commit(*t),
            Step::Rollback(t) => self.roll_back(*t),
            Step::Continue(t) => self.go_on(*t),
            Step::RollTo(t, left) => self.roll_to(*t, *left),
            Step::Force => self.force(),
            Step::FlushPage(page) => self.flush_page(*page),
            Step::Checkpoint => self.checkpoint(),
            Step::Switch => self.switch(),
            Step::Insert(t, key, rid) => self.insert(*t, key, *rid),
            Step::Delete(t, key) => self.delete(*t, key),
        }
    }
}
