//! Changes that are taken back beside a structure change.

ghost use Rattle.std.specs.Prelude.{◌≡◌, ◌≢◌, None, Some, false, true};

use crate::accesses::{breaks, told};
use crate::engine::Engine;
use crate::stepped::{Aim, Under, beside_of};
use crate::turns::ends_back;
use im_base_disk::Disk;
use im_base_steps::{Blocker, Reply};
use im_base_types::{Fault, TxnId};
use im_engine_rollback::{Undone, UndoneInSteps, undo_in_steps};
use im_tree_search::Sight;

impl<D: Disk> Engine<D> {
    ghost use Rattle.im_base_types.specs.Answers as answers;
    ghost use Rattle.im_theory_machine.specs.View.{owner_of, owns_in};
    ghost use Rattle.im_theory_steps.specs.Checks.{checked_by};
    ghost use Rattle.im_engine.specs.Aims.{under_of};
    ghost use Rattle.im_engine.specs.Told.{IsMade};

    // Takes back the newest change that a transaction has left, so far as one step goes; one that rolls back ends where that was the last, and one
    // that has returned goes on. A split that comes first begins with its first page (`turns_begin`), a deletion after it with none (`turns_empty`);
    // the structure change of another may stand in the way (`trees_halt`).
    pub(crate) fn take_back(&mut self, t: TxnId) -> Reply
        requires works { self.old.failed ≡ false }
        requires stepped { self.old.stepped ≡ true }
        requires other { owner_of (under_of self.old.under) ≢ Some t }
        requires checked { checked_by self.old.txns.rows (owns_in (under_of self.old.under) (answers.Continue t)) (answers.Continue t) ≡ None }
        ensures { IsMade D.Disk (answers.Continue t) result self.old self.new }
    {
        let Some(row) = self.txns.find(t) else {
            return Reply::Refused(Fault::NoTransaction);
        };
        self.failed = true;
        match undo_in_steps(
            self.alloc,
            &mut self.writer,
            &mut self.disk,
            t,
            row.last,
            row.undo_next,
            self.room.as_mut_slice(),
            beside_of(&self.under),
            ends_back(&row),
        ) {
            Ok(Sight::Seen(UndoneInSteps::Made(Undone::More { last, undo_next }))) => {
                self.failed = false;
                self.txns.note_undone(t, last, undo_next);
                if self.txns.end_return(t) {
                    return Reply::Done;
                }
                Reply::More
            }
            Ok(Sight::Seen(UndoneInSteps::Made(Undone::Ended))) => {
                self.failed = false;
                self.locks.release_all(t);
                self.txns.end(t);
                Reply::RolledBack
            }
            Ok(Sight::Seen(UndoneInSteps::Splitting(begun))) => {
                self.failed = false;
                let last = begun.change().last();
                self.txns.note_record(t, last, last);
                let aim = Aim::TakesBack;
                self.under = Some(Under { begun, aim });
                Reply::More
            }
            Ok(Sight::Seen(UndoneInSteps::Dropping(begun))) => {
                self.failed = false;
                let change = begun.change();
                self.txns.note_undone(t, change.last(), change.undo_next());
                let aim = Aim::TookBack;
                self.under = Some(Under { begun, aim });
                Reply::More
            }
            Ok(Sight::Hidden) => {
                self.failed = false;
                Reply::Blocked(Blocker::Tree)
            }
            Err(fault) => {
                self.failed = breaks(fault);
                Reply::Refused(told(fault))
            }
        }
    }
}
