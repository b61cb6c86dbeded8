//! The end of a structure change that goes on for an Insert or a Delete.

ghost use Rattle.std.specs.Prelude.{◌≡◌, None, false};

use crate::accesses::{breaks, told};
use crate::engine::Engine;
use crate::stepped::Aim;
use im_base_disk::Disk;
use im_base_steps::Reply;
use im_base_types::{Fault, TxnId};
use im_engine_access::insert_end;

impl<D: Disk> Engine<D> {
    ghost use Rattle.im_base_types.specs.Answers as answers;
    ghost use Rattle.im_theory_machine.specs.View.{owns_in};
    ghost use Rattle.im_theory_steps.specs.Checks.{checked_by};
    ghost use Rattle.im_engine.specs.Aims.{under_of};
    ghost use Rattle.im_engine.specs.OwnSteps.{EndsDelete, EndsInsert};
    ghost use Rattle.im_engine.specs.Told.{IsMade};

    // Closes the structure change of an Insert, all of whose pages are logged, and puts its key (`inserts_end`); its lock on the next name falls
    // back. It wants no memory: a refusal breaks the engine.
    pub(crate) fn end_insert(&mut self, t: TxnId) -> Reply
        requires works { self.old.failed ≡ false }
        requires owned { EndsInsert t self.old.under }
        requires checked { checked_by self.old.txns.rows (owns_in (under_of self.old.under) (answers.Continue t)) (answers.Continue t) ≡ None }
        ensures { IsMade D.Disk (answers.Continue t) result self.old self.new }
    {
        let Some(under) = &self.under else {
            return Reply::Refused(Fault::Failed);
        };
        let Aim::Puts(key, rid, leaf) = &under.aim else {
            return Reply::Refused(Fault::Failed);
        };
        self.failed = true;
        match insert_end(
            &mut self.writer,
            &mut self.disk,
            under.begun.change(),
            *leaf,
            key.bytes(),
            *rid,
        ) {
            Ok(lsn) => {
                self.failed = false;
                self.txns.note_made(t, lsn);
                self.locks.fall_back(t);
                self.under = None;
                Reply::Inserted
            }
            Err(fault) => {
                self.failed = breaks(fault);
                Reply::Refused(told(fault))
            }
        }
    }

    // Closes the structure change of a Delete, all of whose pages are logged (`deletes_end`). It wants no memory: a refusal breaks the engine.
    pub(crate) fn end_delete(&mut self, t: TxnId) -> Reply
        requires works { self.old.failed ≡ false }
        requires owned { EndsDelete t self.old.under }
        requires checked { checked_by self.old.txns.rows (owns_in (under_of self.old.under) (answers.Continue t)) (answers.Continue t) ≡ None }
        ensures { IsMade D.Disk (answers.Continue t) result self.old self.new }
    {
        let Some(under) = &self.under else {
            return Reply::Refused(Fault::Failed);
        };
        self.failed = true;
        let change = under.begun.change();
        match change.close(&mut self.writer, &mut self.disk) {
            Ok(lsn) => {
                self.failed = false;
                self.txns.note_record(t, lsn, change.undo_next());
                self.under = None;
                Reply::Deleted
            }
            Err(fault) => {
                self.failed = breaks(fault);
                Reply::Refused(told(fault))
            }
        }
    }
}
