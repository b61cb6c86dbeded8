//! The log goes on in the other file.

ghost use Rattle.std.specs.Prelude.{◌≡◌, None, false};

use crate::accesses::told;
use crate::engine::Engine;
use im_base_steps::Reply;
use im_base_two_logs::TwoLogs;

impl<D: TwoLogs> Engine<D> {
    ghost use Rattle.im_base_types.specs.Answers as answers;
    ghost use Rattle.im_theory_steps.specs.Checks.{checked_by};
    ghost use Rattle.im_engine.specs.Told.{IsMade};

    // Goes on in the other log, where nobody is active. Its transactions have the number that comes next, or a greater one.
    pub(crate) fn switch(&mut self) -> Reply
        requires works { self.old.failed ≡ false }
        requires checked { checked_by self.old.txns.rows false answers.Switch ≡ None }
        ensures { IsMade D.Disk answers.Switch result self.old self.new }
    {
        self.failed = true;
        match self.writer.switch(&mut self.disk, self.txns.next()) {
            Ok(()) => {
                self.failed = false;
                Reply::Done
            }
            Err(fault) => Reply::Refused(told(fault)),
        }
    }
}
