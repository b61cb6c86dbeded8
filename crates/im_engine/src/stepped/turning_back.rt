//! The end of a structure change for a change that is taken back.

ghost use Rattle.std.specs.Prelude.{◌≡◌, None, false};

use crate::accesses::{breaks, told};
use crate::engine::Engine;
use crate::turns::ends_back;
use im_base_disk::Disk;
use im_base_steps::Reply;
use im_base_types::{Fault, TxnId};
use im_engine_rollback::{Undone, close_back};

impl<D: Disk> Engine<D> {
    ghost use Rattle.im_base_types.specs.Answers as answers;
    ghost use Rattle.im_theory_machine.specs.View.{owns_in};
    ghost use Rattle.im_theory_steps.specs.Checks.{checked_by};
    ghost use Rattle.im_engine.specs.Aims.{under_of};
    ghost use Rattle.im_engine.specs.TurningBack.{EndsBack};
    ghost use Rattle.im_engine.specs.Told.{IsMade};

    // Ends the structure change of a rollback or a return: closes it, and takes back the change for which a split was made. Where nothing is left to
    // take back then, a transaction that rolls back ends; one that has returned goes on (`returns_end`, `returns_drop`).
    pub(crate) fn end_back(&mut self, t: TxnId, splits: bool) -> Reply
        requires works { self.old.failed ≡ false }
        requires end { EndsBack splits t self.old.under }
        requires checked { checked_by self.old.txns.rows (owns_in (under_of self.old.under) (answers.Continue t)) (answers.Continue t) ≡ None }
        ensures { IsMade D.Disk (answers.Continue t) result self.old self.new }
    {
        let Some(row) = self.txns.find(t) else {
            return Reply::Refused(Fault::NoTransaction);
        };
        let Some(under) = &self.under else {
            return Reply::Refused(Fault::NoTransaction);
        };
        self.failed = true;
        match close_back(
            self.alloc,
            &mut self.writer,
            &mut self.disk,
            under.begun.change(),
            splits,
            self.room.as_mut_slice(),
            ends_back(&row),
        ) {
            Ok(Undone::More { last, undo_next }) => {
                self.failed = false;
                self.under = None;
                self.txns.note_back(t, last, undo_next, splits);
                if self.txns.end_return(t) {
                    return Reply::Done;
                }
                Reply::More
            }
            Ok(Undone::Ended) => {
                self.failed = false;
                self.under = None;
                self.locks.release_all(t);
                self.txns.end(t);
                Reply::RolledBack
            }
            Err(fault) => {
                self.failed = breaks(fault);
                Reply::Refused(told(fault))
            }
        }
    }
}
