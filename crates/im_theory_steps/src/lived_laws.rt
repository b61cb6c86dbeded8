//! The checks of a step by the table, and lives of an engine that has failed.

ghost use Rattle.im_theory_steps.specs.Checks.{RowsTellChecks};
ghost use Rattle.im_theory_steps.specs.Lived.{LivesGoOn};

/// The table tells the first check that a step fails.
pub fn rows_tell_checks()
    ensures { RowsTellChecks }
{}

/// A life goes on after a step that breaks the engine, and after the steps that it then refuses.
pub fn lives_go_on()
    ensures { LivesGoOn }
{}
