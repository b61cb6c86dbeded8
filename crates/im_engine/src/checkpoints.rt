//! Checkpoints.

ghost use Rattle.std.specs.Prelude.{◌≡◌, false};

use crate::accesses::told;
use crate::engine::Engine;
use im_base_disk::Disk;
use im_base_steps::Reply;

impl<D: Disk> Engine<D> {
    ghost use Rattle.im_base_types.specs.Answers as answers;
    ghost use Rattle.im_engine.specs.Told.{IsMade};

    // Takes a Checkpoint of both tables (`logged_checkpoints_are_served`).
    pub(crate) fn checkpoint(&mut self) -> Reply
        requires works { self.old.failed ≡ false }
        ensures { IsMade D.Disk answers.Checkpoint result self.old self.new }
    {
        self.failed = true;
        match im_engine_checkpoint::take(
            &mut self.writer,
            &mut self.disk,
            self.txns.table(),
            self.txns.next(),
        ) {
            Ok(_lsn) => {
                self.failed = false;
                Reply::Done
            }
            Err(fault) => Reply::Refused(told(fault)),
        }
    }
}
