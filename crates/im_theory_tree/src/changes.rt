//! Changes of the entries of one leaf.

ghost use Rattle.std.specs.Prelude.{◌≡◌, ℕ, List, ◌∷◌, ◌++◌};
ghost use Rattle.im_base_types.specs.Pages.{Entry};
ghost use Rattle.im_theory_tree.specs.Levels.{Pages, Node, height, leaves_under, the_root, entries_in, page_numbers, walk};
ghost use Rattle.im_theory_tree.specs.Same.{SameOn, SameButMark};
ghost use Rattle.im_theory_tree.specs.Good.{IsGoodTree, AreOrdered, AtOrAbove, IsUnder, next_bound};
ghost use Rattle.im_theory_tree.specs.Changes.{ChangesLeaf, PutsIn};

/// New entries of one leaf, within its range, keep the tree good and the list of its leaves.
pub fn leaf_change_keeps()
    ensures { (pages new : Pages) (spare : List ℕ) (left : List Node) (n : Node) (right : List Node) → ChangesLeaf pages new spare left n right
        → IsGoodTree new spare × (leaves_under new (height new) the_root ≡ left ++ n ∷ right) }
{}

/// An entry put into the leaf in whose range its key lies is put into the walk, at its place in the order.
pub fn insertion_reaches_the_walk()
    ensures { (pages new : Pages) (a b : List Node) (n : Node) (e : Entry) → AreOrdered pages (a ++ n ∷ b) → AtOrAbove n.bound e.0 → IsUnder e.0 (next_bound b)
        → SameOn pages new (page_numbers a) → SameOn pages new (page_numbers b) → PutsIn (pages n.page).entries (new n.page).entries e
        → PutsIn (entries_in pages (a ++ n ∷ b)) (entries_in new (a ++ n ∷ b)) e }
{}

/// Pages that differ in the mark of a structure change alone are as good, with the same walk.
pub fn marks_do_not_matter()
    ensures { (pages new : Pages) (spare : List ℕ) → ((x : ℕ) → SameButMark (pages x) (new x)) → IsGoodTree pages spare → IsGoodTree new spare × (walk new ≡ walk pages) }
{}

/// The walk has a changed leaf's new entries in the place of its old ones.
pub fn leaf_change_reaches_the_walk()
    ensures { (pages new : Pages) (spare : List ℕ) (left : List Node) (n : Node) (right : List Node) → ChangesLeaf pages new spare left n right
        → walk new ≡ entries_in pages left ++ ((new n.page).entries ++ entries_in pages right) }
{}
