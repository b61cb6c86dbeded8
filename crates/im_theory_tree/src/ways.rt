//! The ways of keys to their leaves, through a step of a structure change and beside it.

ghost use Rattle.im_theory_tree.specs.Ways.{SplitsKeepWays, DeletionsKeepWays, KeysKeepWays};

/// A split, a deletion, an allocation: each key keeps its leaf whose leaf the step leaves alone.
pub fn steps_keep_ways()
    ensures splits { SplitsKeepWays }
    ensures deletions { DeletionsKeepWays }
{}

/// A key that joins its leaf, or leaves it, changes no way; nor does it where another tree stands in the place of the pages, as
/// that of a plan, which leaves the leaf alone.
pub fn keys_keep_ways()
    ensures { KeysKeepWays }
{}
