//! Changes of a transaction that are taken back while others go on.

ghost use Rattle.im_theory_steps.specs.Undone.{UndoTakesBack, EndsLeaveNothing, RollingBackHasMore, UndoneChangesAreServed, LastUndoneChangesAreServed, ReturningHasMore, ReturnsGoOn, ReturnsEnd, ReturnsDrop};

/// What takes back the newest change of a transaction leaves the committed effects and the other transactions.
pub fn undo_takes_back()
    ensures { UndoTakesBack }
{}

/// The End after the last change leaves nothing to undo.
pub fn ends_leave_nothing()
    ensures { EndsLeaveNothing }
{}

/// A transaction that rolls back has something left to undo.
pub fn rolling_back_has_more()
    ensures { RollingBackHasMore }
{}

/// A change that was taken back, with others left.
pub fn undone_changes_are_served()
    ensures { UndoneChangesAreServed }
{}

/// The last change that was taken back, with the End after it.
pub fn last_undone_changes_are_served()
    ensures { LastUndoneChangesAreServed }
{}

/// A transaction that returns has more changes than it returns to.
pub fn returning_has_more()
    ensures { ReturningHasMore }
{}

/// A change that was taken back of one that returns, with more to take back.
pub fn returns_go_on()
    ensures { ReturnsGoOn }
{}

/// The last one of those.
pub fn returns_end()
    ensures { ReturnsEnd }
{}

/// The leaf is gone that the last one left empty.
pub fn returns_drop()
    ensures { ReturnsDrop }
{}
