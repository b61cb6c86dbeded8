//! Keys that go, beside a structure change that goes on, or with one that begins.

ghost use Rattle.std.specs.Prelude.{◌≡◌, None, false, true};

use crate::engine::Engine;
use crate::stepped::{Aim, Under, beside_of};
use im_base_disk::Disk;
use im_base_steps::Reply;
use im_base_types::{Fault, Key, TxnId};
use im_engine_access::{Deleting, delete_beside};

impl<D: Disk> Engine<D> {
    ghost use Rattle.im_base_types.specs.Answers as answers;
    ghost use Rattle.im_theory_machine.specs.View.{owns_in};
    ghost use Rattle.im_theory_steps.specs.Checks.{checked_by};
    ghost use Rattle.im_engine.specs.Aims.{under_of};
    ghost use Rattle.im_engine.specs.Told.{IsMade};

    // Takes a key out (`deletes_are_served`). Where that leaves its leaf empty, and no structure change is under way, the one begins that takes
    // the leaf out of the tree (`deletes_begin`), and Continue goes on with it. For want of memory before its locks are granted all is as
    // it was; after the grant the engine fails.
    pub(crate) fn delete_stepped(&mut self, t: TxnId, key: &[u8]) -> Reply
        requires works { self.old.failed ≡ false }
        requires stepped { self.old.stepped ≡ true }
        requires checked { checked_by self.old.txns.rows (owns_in (under_of self.old.under) (answers.Do t (answers.Delete key.now))) (answers.Do t (answers.Delete key.now)) ≡ None }
        ensures { IsMade D.Disk (answers.Do t (answers.Delete key.now)) result self.old self.new }
    {
        let Some(row) = self.txns.find(t) else {
            return Reply::Refused(Fault::NoTransaction);
        };
        self.failed = true;
        let came = delete_beside(
            self.alloc,
            &mut self.writer,
            &mut self.disk,
            &mut self.locks,
            &row,
            key,
            beside_of(&self.under),
        );
        match self.answered(t, came) {
            Ok(Deleting::Gone) => Reply::Absent,
            Ok(Deleting::Taken(lsn)) => {
                self.txns.note_made(t, lsn);
                Reply::Deleted
            }
            Ok(Deleting::Dropping(begun)) => {
                let Ok(key) = Key::new(key) else {
                    self.failed = true;
                    return Reply::Refused(Fault::Failed);
                };
                let last = begun.change().last();
                self.txns.note_made(t, last);
                let aim = Aim::Drops(key);
                self.under = Some(Under { begun, aim });
                Reply::More
            }
            Err(reply) => reply,
        }
    }
}
