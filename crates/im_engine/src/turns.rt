//! Changes that are taken back, one at a time.

ghost use Rattle.std.specs.Prelude.{◌≡◌, None, false};
ghost use Rattle.im_engine.specs.Numbered.{ends_back};

use crate::accesses::{breaks, told};
use crate::engine::Engine;
use im_base_disk::Disk;
use im_base_steps::Reply;
use im_base_txn::{Mark, Transaction};
use im_base_types::{Fault, TxnId};
use im_engine_rollback::{Undone, undo_next};

// Whether a transaction rolls back whole, so that it ends with its last change.
pub(crate) fn ends_back(row: &Transaction) -> bool
    ensures { result ≡ ends_back row.now }
{
    matches!(row.mark, Mark::RollingBack)
}

impl<D: Disk> Engine<D> {
    ghost use Rattle.im_base_types.specs.Answers as answers;
    ghost use Rattle.im_theory_machine.specs.View.{owns_in};
    ghost use Rattle.im_theory_steps.specs.Checks.{checked_by};
    ghost use Rattle.im_engine.specs.Aims.{under_of};
    ghost use Rattle.im_engine.specs.Told.{IsMade};

    // Goes on with what a transaction has under way: its structure change, or its rollback or return.
    pub(crate) fn go_on(&mut self, t: TxnId) -> Reply
        requires works { self.old.failed ≡ false }
        requires checked { checked_by self.old.txns.rows (owns_in (under_of self.old.under) (answers.Continue t)) (answers.Continue t) ≡ None }
        ensures { IsMade D.Disk (answers.Continue t) result self.old self.new }
    {
        if self.stepped {
            self.go_on_stepped(t)
        } else {
            self.go_on_at_once(t)
        }
    }

    // Takes back the newest change that a transaction has left (`undone_changes_are_served`, `returns_go_on`). One that rolls back ends where that
    // was the last (`last_undone_changes_are_served`), and its locks stay up to the End; one that has returned goes on with them (`returns_end`). For
    // want of memory in front of the first record all is as it was.
    pub(crate) fn go_on_at_once(&mut self, t: TxnId) -> Reply
        requires works { self.old.failed ≡ false }
        requires plain { self.old.stepped ≡ false }
        requires checked { checked_by self.old.txns.rows (owns_in (under_of self.old.under) (answers.Continue t)) (answers.Continue t) ≡ None }
        ensures { IsMade D.Disk (answers.Continue t) result self.old self.new }
    {
        let Some(row) = self.txns.find(t) else {
            return Reply::Refused(Fault::NoTransaction);
        };
        self.failed = true;
        match undo_next(
            self.alloc,
            &mut self.writer,
            &mut self.disk,
            t,
            row.last,
            row.undo_next,
            self.room.as_mut_slice(),
            ends_back(&row),
        ) {
            Ok(Undone::More { last, undo_next }) => {
                self.failed = false;
                self.txns.note_undone(t, last, undo_next);
                if self.txns.end_return(t) {
                    return Reply::Done;
                }
                Reply::More
            }
            Ok(Undone::Ended) => {
                self.failed = false;
                self.locks.release_all(t);
                self.txns.end(t);
                Reply::RolledBack
            }
            Err(fault) => {
                self.failed = breaks(fault);
                Reply::Refused(told(fault))
            }
        }
    }
}
