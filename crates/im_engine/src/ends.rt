//! Transactions that begin and end.

ghost use Rattle.std.specs.Prelude.{◌≡◌, ◌≤◌, find, None, Some, false};
ghost use Rattle.im_base_txn.specs.Rows.{is_of, waiting_numbers};
ghost use Rattle.im_theory_machine.specs.Table.{AreReleased};
ghost use Rattle.im_theory_machine.specs.View.{is_among};

use crate::accesses::told;
use crate::engine::Engine;
use im_base_disk::Disk;
use im_base_steps::Reply;
use im_base_txn::{Mark, Transaction};
use im_base_types::{Fault, PageNo, TxnId};
use im_engine_locks::LockTable;
use im_log_record::Record;

impl<D: Disk> Engine<D> {
    ghost use Rattle.im_base_types.specs.Answers as answers;
    ghost use Rattle.im_theory_machine.specs.View.{owns_in};
    ghost use Rattle.im_theory_steps.specs.Checks.{checked_by};
    ghost use Rattle.im_engine.specs.Aims.{under_of};
    ghost use Rattle.im_engine.specs.Told.{IsMade};

    // Begins a transaction (`begins_are_served`; numbers that are used up break the engine).
    pub(crate) fn begin(&mut self) -> Reply
        requires works { self.old.failed ≡ false }
        requires checked { checked_by self.old.txns.rows false answers.Begin ≡ None }
        ensures { IsMade D.Disk answers.Begin result self.old self.new }
    {
        match self.txns.begin() {
            Some(number) => Reply::Started(number),
            None => {
                self.failed = true;
                Reply::Refused(Fault::Capacity)
            }
        }
    }

    // Ends a transaction, all of which is then durable: its locks go after the force, and not before. Or its record is logged, and it waits
    // for the next force with its locks. One of which no change stands needs no force.
    pub(crate) fn commit(&mut self, t: TxnId) -> Reply
        requires works { self.old.failed ≡ false }
        requires checked { checked_by self.old.txns.rows (owns_in (under_of self.old.under) (answers.Commit t)) (answers.Commit t) ≡ None }
        ensures { IsMade D.Disk (answers.Commit t) result self.old self.new }
    {
        let Some(row) = self.txns.find(t) else {
            return Reply::Refused(Fault::NoTransaction);
        };
        if row.last == 0 {
            self.locks.release_all(t);
            self.txns.end(t);
            return Reply::Committed;
        }
        if row.changes == 0 {
            return self.commit_emptied(t, row);
        }
        self.failed = true;
        let commit = Record::Commit {
            transaction: t,
            prev: row.last,
        };
        if let Err(fault) = self.writer.log_only(&mut self.disk, &commit) {
            return Reply::Refused(told(fault));
        }
        if self.txns.group() {
            self.failed = false;
            self.txns.wait(t);
            return Reply::More;
        }
        if let Err(fault) = self.writer.force(&mut self.disk) {
            return Reply::Refused(told(fault));
        }
        self.txns.law_are_counted();
        self.locks.release_all(t);
        self.txns.end(t);
        self.failed = false;
        Reply::Committed
    }

    // Begins to take a transaction back (`turns_are_served`), or ends one of which nothing is to be taken back (`drops_are_served`).
    pub(crate) fn roll_back(&mut self, t: TxnId) -> Reply
        requires works { self.old.failed ≡ false }
        requires checked { checked_by self.old.txns.rows (owns_in (under_of self.old.under) (answers.Rollback t)) (answers.Rollback t) ≡ None }
        ensures { IsMade D.Disk (answers.Rollback t) result self.old self.new }
    {
        let Some(row) = self.txns.find(t) else {
            return Reply::Refused(Fault::NoTransaction);
        };
        if row.changes != 0 {
            self.txns.set_mark(t, Mark::RollingBack);
            return Reply::More;
        }
        if row.last != 0 {
            return self.drop_emptied(t, row);
        }
        self.locks.release_all(t);
        self.txns.end(t);
        Reply::RolledBack
    }

    // Ends a transaction that has records, but no change that stands, with an End (`empty_commits_are_served`). No force is made.
    fn commit_emptied(&mut self, t: TxnId, row: Transaction) -> Reply
        requires works { self.old.failed ≡ false }
        requires found { find (is_of t) self.old.txns.rows ≡ Some row }
        requires emptied { row.changes ≡ 0 }
        requires some { 1 ≤ row.last }
        requires owned { 1 ≤ t }
        requires checked { checked_by self.old.txns.rows (owns_in (under_of self.old.under) (answers.Commit t)) (answers.Commit t) ≡ None }
        ensures { IsMade D.Disk (answers.Commit t) result self.old self.new }
    {
        self.failed = true;
        let end = Record::End {
            transaction: t,
            prev: row.last,
        };
        if let Err(fault) = self.writer.log_only(&mut self.disk, &end) {
            return Reply::Refused(told(fault));
        }
        self.failed = false;
        self.locks.release_all(t);
        self.txns.end(t);
        Reply::Committed
    }

    // Ends such a one by its Rollback (`empty_rollbacks_are_served`).
    fn drop_emptied(&mut self, t: TxnId, row: Transaction) -> Reply
        requires works { self.old.failed ≡ false }
        requires found { find (is_of t) self.old.txns.rows ≡ Some row }
        requires emptied { row.changes ≡ 0 }
        requires some { 1 ≤ row.last }
        requires owned { 1 ≤ t }
        requires checked { checked_by self.old.txns.rows (owns_in (under_of self.old.under) (answers.Rollback t)) (answers.Rollback t) ≡ None }
        ensures { IsMade D.Disk (answers.Rollback t) result self.old self.new }
    {
        self.failed = true;
        let end = Record::End {
            transaction: t,
            prev: row.last,
        };
        if let Err(fault) = self.writer.log_only(&mut self.disk, &end) {
            return Reply::Refused(told(fault));
        }
        self.failed = false;
        self.locks.release_all(t);
        self.txns.end(t);
        Reply::RolledBack
    }

    // Begins to take the newest changes of a transaction back, up to so many (`returns_turn`); one that has no more goes on, also where it was
    // told to die (`returns_stay`).
    pub(crate) fn roll_to(&mut self, t: TxnId, left: u64) -> Reply
        requires works { self.old.failed ≡ false }
        requires checked { checked_by self.old.txns.rows (owns_in (under_of self.old.under) (answers.RollTo t left)) (answers.RollTo t left) ≡ None }
        ensures { IsMade D.Disk (answers.RollTo t left) result self.old self.new }
    {
        let Some(row) = self.txns.find(t) else {
            return Reply::Refused(Fault::NoTransaction);
        };
        if row.changes <= left {
            self.txns.set_mark(t, Mark::Going);
            return Reply::Done;
        }
        self.txns.set_mark(t, Mark::Returning(left));
        Reply::More
    }

    // Makes every record durable, and ends all that wait (`forces_are_served`, `commits_stand.acked`).
    pub(crate) fn force(&mut self) -> Reply
        requires works { self.old.failed ≡ false }
        ensures { IsMade D.Disk answers.Force result self.old self.new }
    {
        self.failed = true;
        match self.writer.force(&mut self.disk) {
            Ok(()) => {
                self.failed = false;
                self.txns.law_are_counted();
                release_waiting(&mut self.locks, self.txns.rows());
                self.txns.end_waiting();
                Reply::Done
            }
            Err(fault) => Reply::Refused(told(fault)),
        }
    }

    // Writes a page, where something of it is left to be written (`flushes_are_served`). Where the log is forced for it, and its buffer holds several batches, the
    // flushes of other pages are spared a force.
    pub(crate) fn flush_page(&mut self, page: PageNo) -> Reply
        requires works { self.old.failed ≡ false }
        ensures { IsMade D.Disk (answers.FlushPage page) result self.old self.new }
    {
        self.failed = true;
        match self.writer.flush_in_company(&mut self.disk, page) {
            Ok(()) => {
                self.failed = false;
                Reply::Done
            }
            Err(fault) => Reply::Refused(told(fault)),
        }
    }
}

// Gives back the locks of those that wait for a force.
fn release_waiting(locks: &mut LockTable, rows: &[Transaction])
    ensures { AreReleased locks.old (λ t. is_among t (waiting_numbers rows.now)) locks.new }
{
    for row in rows {
        if row.mark.is_committing() {
            locks.release_all(row.number);
        }
    }
}
