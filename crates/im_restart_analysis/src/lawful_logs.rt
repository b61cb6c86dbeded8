//! Laws of analysis and undo, for every tree of pages, each as the contract of a function that does nothing.

ghost use Rattle.im_restart_analysis.specs.Undo.{UndoGoesOn, LawfulLogsAreTaken};

use im_theory_log::logs::PageTree;

/// The losers of a lawful log are undone by one record at a time, whichever's turn it is: reading on from a loser's
/// next LSN to undo comes to the newest key record that it has left, whose compensation leaves the log lawful and
/// one record less to undo, or to none, and then it may end. Once no loser is left, the tree holds the committed
/// effects alone. An open structure change is taken back before that, its newest page first.
pub fn undo_goes_on<T: PageTree>()
    ensures { UndoGoesOn T.tree }
{}

/// Each record of a lawful log may stand where it stands, and is not refused as no store.
pub fn lawful_logs_are_taken<T: PageTree>()
    ensures { LawfulLogsAreTaken T.tree }
{}
