//! What each step of a load keeps, and what a load that is done stands for.

ghost use Rattle.im_load.specs.Laws.{LoadStepsKeep, StepsFill, EndsStand, LastIsEnough};

/// A load begins with a good tree of no entry, and each step keeps a good tree of the entries so far, with its right edge.
pub fn steps_keep()
    ensures { LoadStepsKeep }
{}

/// A load leaves each leaf but the last full to 93 percent and more.
pub fn steps_fill()
    ensures { StepsFill }
{}

/// Pages that a load has left, in a file, under a log with no record, stand for one effect: that each entry was put.
pub fn ends_stand()
    ensures { EndsStand }
{}

/// Who compares each key with the one before has compared it with all.
pub fn last_is_enough()
    ensures { LastIsEnough }
{}
