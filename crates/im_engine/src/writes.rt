//! Keys that go.

ghost use Rattle.std.specs.Prelude.{◌≡◌, None, false};

use crate::accesses::as_seen;
use crate::engine::Engine;
use im_base_disk::Disk;
use im_base_steps::Reply;
use im_base_types::{Fault, TxnId};

impl<D: Disk> Engine<D> {
    ghost use Rattle.im_base_types.specs.Answers as answers;
    ghost use Rattle.im_theory_machine.specs.View.{owns_in};
    ghost use Rattle.im_theory_steps.specs.Checks.{checked_by};
    ghost use Rattle.im_engine.specs.Aims.{under_of};
    ghost use Rattle.im_engine.specs.Told.{IsMade};

    // Drops a key: with the deletion of the leaf that it leaves empty, or only with that deletion's first page.
    pub(crate) fn delete(&mut self, t: TxnId, key: &[u8]) -> Reply
        requires works { self.old.failed ≡ false }
        requires checked { checked_by self.old.txns.rows (owns_in (under_of self.old.under) (answers.Do t (answers.Delete key.now))) (answers.Do t (answers.Delete key.now)) ≡ None }
        ensures { IsMade D.Disk (answers.Do t (answers.Delete key.now)) result self.old self.new }
    {
        if self.stepped {
            self.delete_stepped(t, key)
        } else {
            self.delete_at_once(t, key)
        }
    }

    // Drops a key (`deletes_are_served`), and takes the leaf out of the tree that it leaves empty. For want of memory before its locks are
    // granted all is as it was; after the grant the engine fails.
    pub(crate) fn delete_at_once(&mut self, t: TxnId, key: &[u8]) -> Reply
        requires works { self.old.failed ≡ false }
        requires plain { self.old.stepped ≡ false }
        requires checked { checked_by self.old.txns.rows (owns_in (under_of self.old.under) (answers.Do t (answers.Delete key.now))) (answers.Do t (answers.Delete key.now)) ≡ None }
        ensures { IsMade D.Disk (answers.Do t (answers.Delete key.now)) result self.old self.new }
    {
        let Some(row) = self.txns.find(t) else {
            return Reply::Refused(Fault::NoTransaction);
        };
        self.failed = true;
        let came = im_engine_access::delete(
            self.alloc,
            &mut self.writer,
            &mut self.disk,
            &mut self.locks,
            &row,
            key,
        );
        match self.answered(t, as_seen(came)) {
            Ok(Some(taken)) => {
                self.txns.note_made(t, taken.undo_next);
                self.txns.note_record(t, taken.last, taken.undo_next);
                Reply::Deleted
            }
            Ok(None) => Reply::Absent,
            Err(reply) => reply,
        }
    }
}
