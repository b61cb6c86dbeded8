//! Each kind of step keeps what holds between steps. These functions do nothing: their contracts are the laws.

ghost use Rattle.im_theory_steps.specs.Steps.{NewStoresServe, OpenedStoresServe, QuietLogsHoldCommitted, ImagesKeepServing, StructureKeepsServing, WaysLeadOn, LoggedCommitsAreServed, BeginsAreServed, ChangesAreServed, InsertsAreServed, DeletesAreServed, ReadsAreServed, WaitsAreServed, DiesAreServed, CommitsAreServed, CommitsWait, LoggedCommitsWait, UnloggedCommitsAreServed, EmptyCommitsAreServed, EmptyRollbacksAreServed, ReturnsStay, ReturnsTurn, DropsAreServed, TurnsAreServed, UndoIsServed, EndsAreServed, FlushesAreServed, ForcesAreServed, CheckpointsAreServed, LoggedCheckpointsAreServed, BarredStepsAreServed, LacksAreServed, InsertsBegin, PagesAreServed, InsertsStayFree, InsertsEnd, DeletesBegin, DeletesEnd, TurnsBegin, TurnsEmpty, TurnsDrop, TurnsEnd, TreesBlock, TreesHalt, BegunAskTheSame, OwnersAreMarked};

use im_theory_log::logs::PageTree;

/// A new store serves.
pub fn new_stores_serve()
    ensures { NewStoresServe }
{}

/// So does one that was opened, with no transaction going on.
pub fn opened_stores_serve()
    ensures { OpenedStoresServe }
{}

/// A lawful log in which nothing is left to undo has a tree that holds what is committed.
pub fn quiet_logs_hold_committed<T: PageTree>()
    ensures { QuietLogsHoldCommitted T.tree }
{}

/// Images join the log within a step.
pub fn images_keep_serving()
    ensures { ImagesKeepServing }
{}

/// So do records of a structure change.
pub fn structure_keeps_serving()
    ensures { StructureKeepsServing }
{}

/// How the log grows on the way to a change.
pub fn ways_lead_on()
    ensures { WaysLeadOn }
{}

/// A transaction begins.
pub fn begins_are_served()
    ensures { BeginsAreServed }
{}

/// A change that was granted and logged.
pub fn changes_are_served()
    ensures { ChangesAreServed }
{}

/// An insert that was granted its locks leaves a lawful log, also after a structure change of its own.
pub fn inserts_are_served<T: PageTree>()
    ensures { InsertsAreServed T.tree }
{}

/// So does a delete.
pub fn deletes_are_served<T: PageTree>()
    ensures { DeletesAreServed T.tree }
{}

/// An access that changes nothing.
pub fn reads_are_served()
    ensures { ReadsAreServed }
{}

/// An access that has to wait.
pub fn waits_are_served()
    ensures { WaitsAreServed }
{}

/// An access that must die.
pub fn dies_are_served()
    ensures { DiesAreServed }
{}

/// A Commit that was logged: the effect comes after the others.
pub fn commits_are_served()
    ensures { CommitsAreServed }
{}

/// The record of a Commit leaves a lawful log.
pub fn logged_commits_are_served<T: PageTree>()
    ensures { LoggedCommitsAreServed T.tree }
{}

/// A Commit that was logged and waits for a force.
pub fn commits_wait()
    ensures { CommitsWait }
{}

/// The record of a Commit that waits leaves a lawful log.
pub fn logged_commits_wait<T: PageTree>()
    ensures { LoggedCommitsWait T.tree }
{}

/// A Commit of a transaction without a record.
pub fn unlogged_commits_are_served()
    ensures { UnloggedCommitsAreServed }
{}

/// A Commit of a transaction that has records, but no change that stands.
pub fn empty_commits_are_served<T: PageTree>()
    ensures { EmptyCommitsAreServed T.tree }
{}

/// A Rollback of such a one.
pub fn empty_rollbacks_are_served<T: PageTree>()
    ensures { EmptyRollbacksAreServed T.tree }
{}

/// A RollTo of a transaction that has no more changes.
pub fn returns_stay()
    ensures { ReturnsStay }
{}

/// A RollTo of one that has more.
pub fn returns_turn()
    ensures { ReturnsTurn }
{}

/// A Rollback of a transaction without a record.
pub fn drops_are_served()
    ensures { DropsAreServed }
{}

/// A Rollback of one that has changes left.
pub fn turns_are_served()
    ensures { TurnsAreServed }
{}

/// A change that was taken back, with more to take back.
pub fn undo_is_served()
    ensures { UndoIsServed }
{}

/// The last change that was taken back, and the End.
pub fn ends_are_served()
    ensures { EndsAreServed }
{}

/// A page that was written.
pub fn flushes_are_served()
    ensures { FlushesAreServed }
{}

/// A force of the log.
pub fn forces_are_served()
    ensures { ForcesAreServed }
{}

/// A Checkpoint.
pub fn checkpoints_are_served()
    ensures { CheckpointsAreServed }
{}

/// The record of a Checkpoint leaves a lawful log.
pub fn logged_checkpoints_are_served<T: PageTree>()
    ensures { LoggedCheckpointsAreServed T.tree }
{}

/// A step that a check refuses.
pub fn barred_steps_are_served()
    ensures { BarredStepsAreServed }
{}

/// A step for which pages or memory are wanting.
pub fn lacks_are_served()
    ensures { LacksAreServed }
{}

/// An Insert whose leaf wants a structure change first begins: its first page is logged.
pub fn inserts_begin()
    ensures { InsertsBegin }
{}

/// A structure change that is made page by page goes on.
pub fn pages_are_served()
    ensures { PagesAreServed }
{}

/// The key of an Insert that goes on is absent, and free in the log.
pub fn inserts_stay_free()
    ensures { InsertsStayFree }
{}

/// An Insert ends whose structure change is made.
pub fn inserts_end<T: PageTree>()
    ensures { InsertsEnd T.tree }
{}

/// A Delete that leaves a leaf empty begins.
pub fn deletes_begin<T: PageTree>()
    ensures { DeletesBegin T.tree }
{}

/// It ends.
pub fn deletes_end()
    ensures { DeletesEnd }
{}

/// A change that is taken back wants a split first.
pub fn turns_begin()
    ensures { TurnsBegin }
{}

/// A change that is taken back leaves a leaf empty.
pub fn turns_empty()
    ensures { TurnsEmpty }
{}

/// The leaf is gone, and more is to be taken back.
pub fn turns_drop()
    ensures { TurnsDrop }
{}

/// The leaf is gone, and it was the last change.
pub fn turns_end()
    ensures { TurnsEnd }
{}

/// The structure change of another stands in the way of an access.
pub fn trees_block()
    ensures { TreesBlock }
{}

/// And of a change that is taken back.
pub fn trees_halt()
    ensures { TreesHalt }
{}

/// An Insert that ends in a later step asks the same.
pub fn begun_ask_the_same()
    ensures { BegunAskTheSame }
{}

/// Whose structure change is under way is going, or rolls back, as the change is for.
pub fn owners_are_marked()
    ensures { OwnersAreMarked }
{}
