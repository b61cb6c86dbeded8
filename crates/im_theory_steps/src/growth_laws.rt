//! How the log and the machine go on together.

ghost use Rattle.im_theory_steps.specs.Laws.{GrantedKeysAreFree, LogAndViewGoTogether};
ghost use Rattle.im_theory_steps.specs.Growth.{GrowthWithinLeavesOthers, CopiesAreImages, ImagesChangeNothing, UnownedChangeNothing, CheckpointsChangeNothing, CountsFit, NumbersStayNew, StructureChangesNoKey};

use im_theory_log::logs::PageTree;

/// Whoever is granted the locks of a change finds its key in no other net of the log.
pub fn granted_keys_are_free()
    ensures { GrantedKeysAreFree }
{}

/// What the log becomes by a step is what the machine goes on to.
pub fn log_and_view_go_together()
    ensures { LogAndViewGoTogether }
{}

/// Records of one transaction, short of its end, and Images leave what the log says of the others, and what is committed.
pub fn growth_within_leaves_others()
    ensures { GrowthWithinLeavesOthers }
{}

/// Images change nothing of any transaction, nor of the tree.
pub fn images_change_nothing()
    ensures { ImagesChangeNothing }
{}

/// Nor do Checkpoints.
pub fn unowned_records_change_nothing()
    ensures { UnownedChangeNothing }
{}

/// A Checkpoint on top leaves a log lawful, whatever its tables, and its pages as they were.
pub fn checkpoints_change_nothing<T: PageTree>()
    ensures { CheckpointsChangeNothing T.tree }
{}

/// A structure change leaves the tree's map, what is committed, all nets and the other transactions, and its own goes on.
pub fn structure_changes_no_key()
    ensures { StructureChangesNoKey }
{}

/// Numbers above those of the log are new, and stay so while transactions below them log records.
pub fn numbers_stay_new()
    ensures { NumbersStayNew }
{}

/// The full copies that a writer of pages adds to its log are Images.
pub fn copies_are_images<T: PageTree>()
    ensures { CopiesAreImages T.tree }
{}

/// Counts of changes are no greater than LSNs.
pub fn counts_fit()
    ensures { CountsFit }
{}
