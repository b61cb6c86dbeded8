//! Laws of lawful logs, for every tree of pages.

ghost use Rattle.im_theory_log.specs.Tree.{Tree, TreeLaws};
ghost use Rattle.im_theory_log.specs.Transactions.{undo_reads};
ghost use Rattle.im_theory_log.specs.LogLaws.{FrontsAreLawful, LogsStayLawful, TreeHoldsCommittedAndNets, FinishedTreeIsCommitted, ChainLeadsToStack, OpenChangeIsOnTop, CompensatedAtMostOnce};

/// A tree of pages, as the theory of logs asks for it.
pub trait PageTree {
    /// Its walk, when it is good, and when a key can be put into its leaf or taken out.
    ghost tree: { Tree };

    /// A key put or taken out so leaves a good tree, and the walk with the key or without.
    ghost laws: { TreeLaws tree };
}

/// Each front of a lawful log is lawful, and what it committed begins what the log committed.
pub fn fronts_are_lawful<T: PageTree>()
    ensures { FrontsAreLawful T.tree }
{}

/// A record of any kind that may come next leaves a lawful log.
pub fn logs_stay_lawful<T: PageTree>()
    ensures { LogsStayLawful T.tree }
{}

/// The tree of a lawful log holds the committed map with the nets of the unfinished transactions, which
/// touch different keys.
pub fn tree_holds_committed_and_nets<T: PageTree>()
    ensures { TreeHoldsCommittedAndNets T.tree }
{}

/// Where every transaction is finished, the pages are a good tree with the committed effects alone.
pub fn finished_tree_is_committed<T: PageTree>()
    ensures { FinishedTreeIsCommitted T.tree }
{}

/// Reading on from a transaction's next LSN to undo comes to the newest record that it has left to undo.
pub fn undo_chain_leads_to_the_stack<T: PageTree>()
    ensures { ChainLeadsToStack undo_reads T.tree }
{}

/// The open structure change is what its owner has to undo first.
pub fn open_change_is_on_top<T: PageTree>()
    ensures { OpenChangeIsOnTop T.tree }
{}

/// Each key record is compensated at most once. Where its transaction has a Commit, it is part of the
/// committed effect and is not compensated, or was compensated before and is no part of it; where it has an
/// End, it was compensated.
pub fn compensated_at_most_once<T: PageTree>()
    ensures { CompensatedAtMostOnce T.tree }
{}
