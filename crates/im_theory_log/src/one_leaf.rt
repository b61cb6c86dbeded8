//! The tree of one leaf.

ghost use Rattle.im_theory_log.specs.OneLeaf.{one_leaf, one_leaf_laws};

use crate::logs::PageTree;

/// The tree of a store whose keys all stand in page 1.
#[derive(Clone, Copy, Debug)]
pub struct OneLeaf;

impl PageTree for OneLeaf {
    ghost tree = { one_leaf };

    ghost laws = { one_leaf_laws };
}
