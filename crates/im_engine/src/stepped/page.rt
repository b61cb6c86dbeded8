//! The pages of a structure change that goes on.

ghost use Rattle.std.specs.Prelude.{◌≡◌, None, false};

use crate::accesses::{breaks, told};
use crate::engine::Engine;
use crate::stepped::Under;
use im_base_disk::Disk;
use im_base_steps::Reply;
use im_base_types::{Fault, TxnId};

impl<D: Disk> Engine<D> {
    ghost use Rattle.im_base_types.specs.Answers as answers;
    ghost use Rattle.im_theory_machine.specs.View.{owns_in};
    ghost use Rattle.im_theory_steps.specs.Checks.{checked_by};
    ghost use Rattle.im_engine.specs.Aims.{under_of};
    ghost use Rattle.im_engine.specs.OwnSteps.{OwnsPage};
    ghost use Rattle.im_engine.specs.Told.{IsMade};

    // Logs the next page of its owner's structure change, whatever it is for (`pages_are_served`). For want of memory before its record all is as
    // it was.
    pub(crate) fn log_page(&mut self, t: TxnId) -> Reply
        requires works { self.old.failed ≡ false }
        requires owned { OwnsPage t self.old.under }
        requires checked { checked_by self.old.txns.rows (owns_in (under_of self.old.under) (answers.Continue t)) (answers.Continue t) ≡ None }
        ensures { IsMade D.Disk (answers.Continue t) result self.old self.new }
    {
        let Some(under) = self.under.take() else {
            return Reply::Refused(Fault::Failed);
        };
        let Under { mut begun, aim } = under;
        self.failed = true;
        match begun.step(&mut self.writer, &mut self.disk) {
            Ok(()) => {
                self.failed = false;
                let last = begun.change().last();
                self.under = Some(Under { begun, aim });
                self.txns.note_record(t, last, last);
                Reply::More
            }
            Err(fault) => {
                self.failed = breaks(fault);
                self.under = Some(Under { begun, aim });
                Reply::Refused(told(fault))
            }
        }
    }
}
