//! What steps and replies show of the machine.

ghost use Rattle.im_theory_steps.specs.Laws.{MovesAreShown, MovesReach};
ghost use Rattle.im_theory_steps.specs.Acknowledged.{RunsCommitWhatTheyShow};

/// Each step of the machine shows what it does.
pub fn moves_are_shown()
    ensures { MovesAreShown }
{}

/// A machine that was reached is reached after a step.
pub fn moves_reach()
    ensures { MovesReach }
{}

/// What a run commits is what its replies show as acknowledged.
pub fn runs_commit_what_they_show()
    ensures { RunsCommitWhatTheyShow }
{}
