//! What undo of a transaction leaves as it was, and how it goes on beside a structure change.

ghost use Rattle.std.specs.Prelude.{◌≡◌, ◌≢◌, ℕ};
ghost use Rattle.im_theory_log.specs.Histories.{History};
ghost use Rattle.im_theory_log.specs.Transactions.{committed};
ghost use Rattle.im_smo_log.specs.Changes.{IsSameOf};
ghost use Rattle.im_restart_undo.specs.GoingBeside.{PlansMayBeLogged, BarredPlansAreHidden};
ghost use Rattle.im_restart_undo.specs.Records.{GrowsByUndo};

/// The records with which a transaction's key records are taken back leave the committed effects as they were, and of each
/// other transaction all that undo asks. So a stop in the middle of an undo loses and adds nothing of what was committed.
pub fn undo_keeps()
    ensures committed { (t : ℕ) (older longer : History) → GrowsByUndo t older longer → committed longer ≡ committed older }
    ensures others { (t u : ℕ) (older longer : History) → u ≢ 0 → u ≢ t → GrowsByUndo t older longer → IsSameOf u older longer }
{}

/// A key record is planned back beside a structure change of another transaction, over the settled tree that `told_beside` of im_smo_actions
/// gives: what the plan answers may be logged. A leaf of the change is never planned on, and a second change never beside it.
pub fn plans_go_on()
    ensures logged { PlansMayBeLogged }
    ensures barred { BarredPlansAreHidden }
{}
