//! The way from the root to the leaf of a key.

ghost use Rattle.std.specs.Prelude.{◌≡◌, ℕ, zero, suc, ◌<◌, List, [], ◌∷◌, ◌++◌, length, Some};
ghost use Rattle.im_base_types.specs.Keys.{Key, IsBelow};
ghost use Rattle.im_base_types.specs.Pages.{Entry};
ghost use Rattle.im_base_types.specs.declared.page_kind.PageKind.TheVariants.{Leaf};
ghost use Rattle.im_theory_page.specs.Entry.{entry_at};
ghost use Rattle.im_theory_page.specs.Child.{StartAbove, IsChild};
ghost use Rattle.im_theory_tree.specs.Levels.{Pages, height};
ghost use Rattle.im_theory_tree.specs.Same.{SameTree};
ghost use Rattle.im_theory_tree.specs.Good.{IsGoodTree, AtOrAbove, times};
ghost use Rattle.im_theory_tree.specs.Search.{IsOnWay};

/// One step down on the way to a key.
pub fn step_down()
    ensures leftmost { (pages : Pages) (k : ℕ) (key : Key) (p : ℕ) → IsOnWay pages (suc k) key p → StartAbove key (pages p).entries → IsOnWay pages k key (pages p).leftmost }
    ensures child { (pages : Pages) (k : ℕ) (key : Key) (p : ℕ) (u : List Entry) (e : Entry) (v : List Entry) → IsOnWay pages (suc k) key p
        → (pages p).entries ≡ u ++ e ∷ v → AtOrAbove (Some e.0) key → StartAbove key v → IsOnWay pages k key e.1 }
{}

/// The way to any key begins at page 1, at the root's level, and goes on to the child that a page's search answers.
pub fn way_goes_down()
    ensures begins { (pages : Pages) (spare : List ℕ) (key : Key) → IsGoodTree pages spare → IsOnWay pages (height pages) key 1 }
    ensures steps { (pages : Pages) (k : ℕ) (key : Key) (p child : ℕ) → IsOnWay pages (suc k) key p → IsChild (pages p) key child → IsOnWay pages k key child }
{}

/// Where only the meta page and spare pages change, as by allocations, each page on the way to a key stays on it.
pub fn ways_stay()
    ensures { (pages new : Pages) (spare left : List ℕ) (k : ℕ) (key : Key) (p : ℕ) → IsGoodTree pages spare → IsGoodTree new left
        → ((x : ℕ) → times x (0 ∷ spare) ≡ 0 → SameTree (pages x) (new x)) → IsOnWay pages k key p → IsOnWay new k key p }
{}

/// A leaf of a good tree is the leaf of each key that it has, and of each key between two that it has: so no search is
/// needed to take such a key out again, or to put it back.
pub fn leaves_are_known_by_their_keys()
    ensures has { (pages : Pages) (p i : ℕ) → IsGoodTree pages [] → (pages p).kind ≡ Leaf → p < (pages 0).leftmost → i < length (pages p).entries
        → IsOnWay pages zero (entry_at (pages p).entries i).0 p }
    ensures between { (pages : Pages) (p i j : ℕ) (k : Key) → IsGoodTree pages [] → (pages p).kind ≡ Leaf → p < (pages 0).leftmost
        → i < length (pages p).entries → j < length (pages p).entries → IsBelow (entry_at (pages p).entries i).0 k → IsBelow k (entry_at (pages p).entries j).0
        → IsOnWay pages zero k p }
{}
