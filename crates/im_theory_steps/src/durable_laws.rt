//! What a stop leaves of the Commits of a life.

ghost use Rattle.im_theory_steps.specs.Durable.{StopsAllow, CommitsStand, CutCommitsStand, OthersAskNothing, QuietLivesSettle};

use im_theory_log::logs::PageTree;

/// Whatever front of the log a stop leaves, its Commits are what the life may add.
pub fn stops_allow<T: PageTree>()
    ensures { StopsAllow T.tree }
{}

/// The Commits of a life stand so after records that commit nothing, and where more of the log becomes durable.
pub fn commits_stand()
    ensures { CommitsStand }
{}

/// A Commit within which a stop falls is asked: it is left, or nothing of it.
pub fn cut_commits_stand()
    ensures { CutCommitsStand }
{}

/// No other step asks for an effect.
pub fn others_ask_nothing()
    ensures { OthersAskNothing }
{}

/// Where an engine works and no transaction is active, a life may begin anew with what was asked.
pub fn quiet_lives_settle()
    ensures { QuietLivesSettle }
{}
