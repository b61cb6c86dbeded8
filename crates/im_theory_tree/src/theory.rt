//! The tree of pages as the theory of logs asks for it: all that is proved of lawful logs holds for it.

ghost use Rattle.im_theory_log.specs.Tree.{TreeLaws};
ghost use Rattle.im_theory_log.specs.Transactions.{undo_reads};
ghost use Rattle.im_theory_log.specs.LogLaws.{FrontsAreLawful, LogsStayLawful, TreeHoldsCommittedAndNets, FinishedTreeIsCommitted, ChainLeadsToStack, OpenChangeIsOnTop, CompensatedAtMostOnce};
ghost use Rattle.im_theory_tree.specs.Theory.{page_tree};

/// A key put into its leaf, or taken out, leaves a good tree, and the walk with the key or without.
pub fn page_tree_laws()
    ensures { TreeLaws page_tree }
{}

/// What is proved of the logs of every tree holds for the tree of pages.
pub fn logs_of_the_page_tree()
    ensures fronts { FrontsAreLawful page_tree }
    ensures appends { LogsStayLawful page_tree }
    ensures holds { TreeHoldsCommittedAndNets page_tree }
    ensures finished { FinishedTreeIsCommitted page_tree }
    ensures chain { ChainLeadsToStack undo_reads page_tree }
    ensures top { OpenChangeIsOnTop page_tree }
    ensures compensated { CompensatedAtMostOnce page_tree }
{}
