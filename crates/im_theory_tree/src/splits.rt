//! Splits of one page.

ghost use Rattle.std.specs.Prelude.{◌≡◌, ℕ, List};
ghost use Rattle.im_base_types.specs.Keys.{Key};
ghost use Rattle.im_base_types.specs.Pages.{Entry};
ghost use Rattle.im_theory_tree.specs.Levels.{Pages, Node, walk};
ghost use Rattle.im_theory_tree.specs.Good.{IsGoodTree};
ghost use Rattle.im_theory_tree.specs.Splits.{SplitsLeafOf, SplitsInnerOf, SplitsRootOf, SplitsLeafRootOf};

/// A split of a leaf whose parent has room, at any height, keeps the tree good and the walk as it was.
pub fn leaf_split_keeps()
    ensures { (pages new : Pages) (spare : List ℕ) (d : ℕ) (a b : List Node) (parent : Node) (before after : List Node) (n : Node) (q : ℕ) (s : Key)
        → SplitsLeafOf pages new spare d a b parent before after n q s → IsGoodTree new spare × (walk new ≡ walk pages) }
{}

/// A split of an inner page whose parent has room, at any height, keeps the tree good and the walk as it was.
pub fn inner_split_keeps()
    ensures { (pages new : Pages) (spare : List ℕ) (d h : ℕ) (a b : List Node) (parent : Node) (before after : List Node) (n : Node) (q : ℕ) (up : Entry)
        → SplitsInnerOf pages new spare d h a b parent before after n q up → IsGoodTree new spare × (walk new ≡ walk pages) }
{}

/// A split of an inner root, whose parts go to two new pages, keeps the tree good and the walk as it was.
pub fn root_split_keeps()
    ensures { (pages new : Pages) (spare : List ℕ) (h left right : ℕ) (up : Entry) → SplitsRootOf pages new spare h left right up → IsGoodTree new spare × (walk new ≡ walk pages) }
{}

/// A split of a root that is a leaf keeps the tree good and the walk as it was.
pub fn leaf_root_split_keeps()
    ensures { (pages new : Pages) (spare : List ℕ) (left right : ℕ) (s : Key) → SplitsLeafRootOf pages new spare left right s → IsGoodTree new spare × (walk new ≡ walk pages) }
{}
