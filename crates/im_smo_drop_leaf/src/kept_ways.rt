//! What a plan of a deletion leaves alone.

ghost use Rattle.im_smo_drop_leaf.specs.Plan.{DeletionPlansKeepWays};

/// A plan of a deletion keeps the ways of keys whose leaf is none of its images.
pub fn deletion_plans_keep_ways()
    ensures { DeletionPlansKeepWays }
{}
