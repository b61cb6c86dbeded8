//! Pages without entries that leave the tree.

ghost use Rattle.std.specs.Prelude.{◌≡◌, ℕ, List, [], ◌∷◌, ◌++◌};
ghost use Rattle.im_base_types.specs.Keys.{Key};
ghost use Rattle.im_theory_tree.specs.Levels.{Pages, Node, walk, entries_in, pages_under, below, the_root, page_numbers};
ghost use Rattle.im_theory_tree.specs.Same.{SameTree, SameOn};
ghost use Rattle.im_theory_tree.specs.Good.{IsGoodTree, AreOrdered};
ghost use Rattle.im_theory_tree.specs.Deletions.{DropsChildOf, DropsFirstOf, EmptiesRoot};
ghost use Rattle.im_theory_tree.specs.KeyDeletions.{DropsEntry, DropsLeftmost, DropsAll, chain_down};

/// A leaf without entries that leaves its level, after another or before another: walk and order stay.
pub fn drop_keeps()
    ensures walk { (pages new : Pages) (a b : List Node) (n : Node) → (pages n.page).entries ≡ [] → SameOn pages new (page_numbers a) → SameOn pages new (page_numbers b)
        → entries_in new (a ++ b) ≡ entries_in pages (a ++ n ∷ b) }
    ensures behind { (pages new : Pages) (a b : List Node) (m n : Node) → SameOn pages new (page_numbers (a ++ m ∷ [])) → SameOn pages new (page_numbers b)
        → AreOrdered pages (a ++ m ∷ n ∷ b) → AreOrdered new (a ++ m ∷ b) }
    ensures before { (pages new : Pages) (b : List Node) (n m : Node) → SameTree (pages m.page) (new m.page) → SameOn pages new (page_numbers b)
        → AreOrdered pages (n ∷ m ∷ b) → AreOrdered new (record { bound = n.bound; page = m.page } ∷ b) }
{}

/// An empty leaf that goes, with the pages above it that have no other child, keeps the tree good and the walk as it was.
pub fn drop_child_keeps()
    ensures { (pages new : Pages) (spare : List ℕ) (d h : ℕ) (a b : List Node) (parent : Node) (before after : List Node) (last c : Node)
        → DropsChildOf pages new spare d h a b parent before after last c → IsGoodTree new (pages_under pages h (c ∷ []) ++ spare) × (walk new ≡ walk pages) }
{}

/// The same where the page is its parent's first child.
pub fn drop_first_keeps()
    ensures { (pages new : Pages) (spare : List ℕ) (d h : ℕ) (a b : List Node) (parent : Node) (after : List Node) (c r : Node)
        → DropsFirstOf pages new spare d h a b parent after c r → IsGoodTree new (pages_under pages h (c ∷ []) ++ spare) × (walk new ≡ walk pages) }
{}

/// The root left without a child becomes an empty leaf.
pub fn empty_root_keeps()
    ensures { (pages new : Pages) (spare : List ℕ) (h : ℕ) → EmptiesRoot pages new spare h → IsGoodTree new (pages_under pages h (below pages the_root) ++ spare) × (walk new ≡ walk pages) }
{}

/// The same from what each page holds: a chain of pages without entries goes from under a page on a key's way, or from
/// under the root; the tree is good, with the chain spare, and the walk stays.
pub fn chain_deletion_keeps()
    ensures entry { (pages new : Pages) (spare : List ℕ) (h : ℕ) (key : Key) (parent p i : ℕ) → DropsEntry pages new spare h key parent p i
        → IsGoodTree new (chain_down pages h p ++ spare) × (walk new ≡ walk pages) }
    ensures leftmost { (pages new : Pages) (spare : List ℕ) (h : ℕ) (key : Key) (parent p : ℕ) → DropsLeftmost pages new spare h key parent p
        → IsGoodTree new (chain_down pages h p ++ spare) × (walk new ≡ walk pages) }
    ensures all { (pages new : Pages) (spare : List ℕ) (h : ℕ) → DropsAll pages new spare h
        → IsGoodTree new (chain_down pages h (pages 1).leftmost ++ spare) × (walk new ≡ walk pages) }
{}
