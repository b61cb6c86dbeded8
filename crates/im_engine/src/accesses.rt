//! Accesses that change nothing, beside a structure change that goes on or beside none, and what a step makes of the calls below.

ghost use Rattle.std.specs.Prelude.{◌≡◌, find, None, false};
ghost use Rattle.im_base_txn.specs.Rows.{is_of, waits_at};
ghost use Rattle.im_engine.specs.Faults.{told_as, told_look, ends_engine};
ghost use Rattle.im_engine.specs.Accesses.{answer_in, as_seen, failed_in, rest_of, rows_in};

use crate::engine::Engine;
use crate::stepped::beside_of;
use im_base_disk::Disk;
use im_base_steps::{Blocker, Reply};
use im_base_txn::Mark;
use im_base_types::{Fault, TxnId};
use im_engine_access::{LockAnswer, fetch, prev, scan, seek};
use im_tree_search::Sight;

// A refusal of the calls below, as a store answers it.
pub(crate) fn told(fault: Fault) -> Fault
    ensures { result ≡ told_as fault }
{
    match fault {
        Fault::PagesFull => Fault::PagesFull,
        Fault::Capacity => Fault::Capacity,
        Fault::LogFull => Fault::LogFull,
        Fault::Device => Fault::Device,
        Fault::Memory => Fault::Memory,
        Fault::NotAStore => Fault::NotAStore,
        _ => Fault::Failed,
    }
}

// The same of a call that only looks.
pub(crate) fn told_look(fault: Fault) -> Fault
    ensures { result ≡ told_look fault }
{
    match fault {
        Fault::Unfinished => Fault::Unfinished,
        fault => told(fault),
    }
}

// Whether the engine has failed after it.
pub(crate) fn breaks(fault: Fault) -> bool
    ensures { result ≡ ends_engine fault }
{
    !matches!(fault, Fault::PagesFull | Fault::Memory)
}

// What a call came to that goes on beside no structure change: from it nothing is hidden.
pub(crate) fn as_seen<T: Drop>(came: Result<T, Fault>) -> Result<Sight<T>, Fault>
    ensures { result ≡ as_seen came }
{
    match came {
        Ok(answer) => Ok(Sight::Seen(answer)),
        Err(fault) => Err(fault),
    }
}

impl<D: Disk> Engine<D> {
    ghost use Rattle.im_base_types.specs.Answers as answers;
    ghost use Rattle.im_engine_access.specs.LockAnswers.{seek_at};
    ghost use Rattle.im_theory_machine.specs.View.{owns_in};
    ghost use Rattle.im_theory_steps.specs.Checks.{checked_by};
    ghost use Rattle.im_engine.specs.Aims.{under_of};
    ghost use Rattle.im_engine.specs.Told.{IsMade};

    // What a step makes of the call below it, which asks its locks: it has the value that was granted, or it is answered. Where it must die,
    // its transaction is marked. The engine works on, unless a refusal of the call breaks it; of all else nothing is changed.
    pub(crate) fn answered<T: Drop>(
        &mut self,
        t: TxnId,
        came: Result<Sight<LockAnswer<T>>, Fault>,
    ) -> Result<T, Reply>
        requires working { failed_in came ≡ false → self.old.writer.failed ≡ false }
        requires free { waits_at (find (is_of t) self.old.txns.rows) ≡ false }
        ensures answer { result ≡ answer_in came }
        ensures failed { self.new.failed ≡ failed_in came }
        ensures table { self.new.txns ≡ record self.old.txns { rows = rows_in t came self.old.txns.rows } }
        ensures under { self.new.under ≡ self.old.under }
        ensures rest { rest_of D.Disk self.new ≡ rest_of D.Disk self.old }
    {
        self.failed = false;
        match came {
            Ok(Sight::Seen(LockAnswer::Granted(value))) => Ok(value),
            Ok(Sight::Seen(LockAnswer::Wait(holder))) => {
                Err(Reply::Blocked(Blocker::Lock(holder)))
            }
            Ok(Sight::Seen(LockAnswer::Die)) => {
                self.txns.set_mark(t, Mark::MustRollBack);
                Err(Reply::Die)
            }
            Ok(Sight::Hidden) => Err(Reply::Blocked(Blocker::Tree)),
            Err(fault) => {
                self.failed = breaks(fault);
                Err(Reply::Refused(told(fault)))
            }
        }
    }

    // The row id of a key. The law of its answer is `reads_are_served`, of one that waits, dies or finds the tree blocked `waits_are_served`,
    // `dies_are_served` and `trees_block`, and of a refusal `lacks_are_served` or, where it broke the engine, `lives_go_on`.
    pub(crate) fn fetch(&mut self, t: TxnId, key: &[u8]) -> Reply
        requires works { self.old.failed ≡ false }
        requires checked { checked_by self.old.txns.rows (owns_in (under_of self.old.under) (answers.Do t (answers.Fetch key.now))) (answers.Do t (answers.Fetch key.now)) ≡ None }
        ensures { IsMade D.Disk (answers.Do t (answers.Fetch key.now)) result self.old self.new }
    {
        self.failed = true;
        let came = fetch(
            &mut self.writer,
            &mut self.disk,
            &mut self.locks,
            t,
            key,
            beside_of(&self.under),
        );
        match self.answered(t, came) {
            Ok(Some(rid)) => Reply::Found(rid),
            Ok(None) => Reply::Absent,
            Err(reply) => reply,
        }
    }

    // The first entry at or above a key (`inclusive`), or above it.
    pub(crate) fn seek(&mut self, t: TxnId, key: &[u8], inclusive: bool) -> Reply
        requires works { self.old.failed ≡ false }
        requires checked { checked_by self.old.txns.rows (owns_in (under_of self.old.under) (answers.Do t (seek_at inclusive key.now))) (answers.Do t (seek_at inclusive key.now)) ≡ None }
        ensures { IsMade D.Disk (answers.Do t (seek_at inclusive key.now)) result self.old self.new }
    {
        self.failed = true;
        let came = seek(
            self.alloc,
            &mut self.writer,
            &mut self.disk,
            &mut self.locks,
            t,
            key,
            inclusive,
            beside_of(&self.under),
        );
        match self.answered(t, came) {
            Ok(Some((key, rid))) => Reply::Entry(key, rid),
            Ok(None) => Reply::End,
            Err(reply) => reply,
        }
    }

    // The last entry below a key.
    pub(crate) fn prev(&mut self, t: TxnId, key: &[u8]) -> Reply
        requires works { self.old.failed ≡ false }
        requires checked { checked_by self.old.txns.rows (owns_in (under_of self.old.under) (answers.Do t (answers.Prev key.now))) (answers.Do t (answers.Prev key.now)) ≡ None }
        ensures { IsMade D.Disk (answers.Do t (answers.Prev key.now)) result self.old self.new }
    {
        self.failed = true;
        let came = prev(
            self.alloc,
            &mut self.writer,
            &mut self.disk,
            &mut self.locks,
            t,
            key,
            beside_of(&self.under),
        );
        match self.answered(t, came) {
            Ok(Some((key, rid))) => Reply::Entry(key, rid),
            Ok(None) => Reply::End,
            Err(reply) => reply,
        }
    }

    // The first entries of a range, up to a limit.
    pub(crate) fn scan(&mut self, t: TxnId, lo: &[u8], hi: &[u8], limit: u64) -> Reply
        requires works { self.old.failed ≡ false }
        requires checked { checked_by self.old.txns.rows (owns_in (under_of self.old.under) (answers.Do t (answers.Scan lo.now hi.now limit))) (answers.Do t (answers.Scan lo.now hi.now limit)) ≡ None }
        ensures { IsMade D.Disk (answers.Do t (answers.Scan lo.now hi.now limit)) result self.old self.new }
    {
        self.failed = true;
        let came = scan(
            self.alloc,
            &mut self.writer,
            &mut self.disk,
            &mut self.locks,
            t,
            lo,
            hi,
            limit as usize,
            beside_of(&self.under),
        );
        match self.answered(t, came) {
            Ok(list) => Reply::Entries(list),
            Err(reply) => reply,
        }
    }
}
