//! Splits of the pages on the way of a key, from what each page holds before and after.

ghost use Rattle.std.specs.Prelude.{ℕ, zero, suc, false, List};
ghost use Rattle.im_base_types.specs.Keys.{Key};
ghost use Rattle.im_theory_page.specs.Entry.{entry_at, Rises};
ghost use Rattle.im_theory_page.specs.Child.{IsChild};
ghost use Rattle.im_theory_tree.specs.Halves.{SplitsWell};
ghost use Rattle.im_theory_tree.specs.Levels.{Pages};
ghost use Rattle.im_theory_tree.specs.KeySplits.{SplitsKeyLeaf, SplitsKeyInner, SplitsKeyRootLeaf, SplitsKeyRootInner, KeepsWay, HalfGoesOn};

/// A split of the page on a key's way, under its parent or at the root, keeps the tree good and the walk as it was; the
/// way goes on through the left or the right part, as the key is below the separator or not.
pub fn key_split_keeps()
    ensures leaf { (pages new : Pages) (spare : List ℕ) (key : Key) (parent p q n : ℕ) → SplitsKeyLeaf pages new spare key parent p q n
        → KeepsWay pages new spare zero key p q (entry_at (pages p).entries n).0 }
    ensures inner { (pages new : Pages) (spare : List ℕ) (h : ℕ) (key : Key) (parent p q n : ℕ) → SplitsKeyInner pages new spare h key parent p q n
        → KeepsWay pages new spare (suc h) key p q (entry_at (pages p).entries n).0 }
    ensures root_leaf { (pages new : Pages) (spare : List ℕ) (key : Key) (left right n : ℕ) → SplitsKeyRootLeaf pages new spare left right n
        → KeepsWay pages new spare zero key left right (entry_at (pages 1).entries n).0 }
    ensures root_inner { (pages new : Pages) (spare : List ℕ) (h : ℕ) (key : Key) (left right n : ℕ) → SplitsKeyRootInner pages new spare h left right n
        → KeepsWay pages new spare (suc h) key left right (entry_at (pages 1).entries n).0 }
{}

/// After a split of an inner page the half on the key's way has room for a separator of any size, and its child on the
/// way is the one that it was before: so the next level is split under a parent with room.
pub fn inner_split_goes_on()
    ensures inner { (pages new : Pages) (spare : List ℕ) (h : ℕ) (key : Key) (parent p q n child : ℕ) → SplitsKeyInner pages new spare h key parent p q n
        → SplitsWell false (pages p).entries n → IsChild (pages p) key child → HalfGoesOn new h key child }
    ensures root { (pages new : Pages) (spare : List ℕ) (h : ℕ) (key : Key) (left right n child : ℕ) → SplitsKeyRootInner pages new spare h left right n → Rises (pages 1).entries
        → SplitsWell false (pages 1).entries n → IsChild (pages 1) key child → HalfGoesOn new h key child }
{}
