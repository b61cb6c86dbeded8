//! What a split leaves to be split.

ghost use Rattle.std.specs.Prelude.{◌≡◌, ◌≢◌, ℕ, zero, suc, true, false, Bool, List, [], ◌∷◌, Option, Some};
ghost use Rattle.im_base_types.specs.Keys.{Key, IsBelow};
ghost use Rattle.im_base_types.specs.declared.page_kind.PageKind.TheVariants.{Leaf, Inner};
ghost use Rattle.im_theory_page.specs.Entry.{entry_at, Rises};
ghost use Rattle.im_theory_page.specs.Child.{IsChild};
ghost use Rattle.im_theory_page.specs.Split.{HasRoom};
ghost use Rattle.im_page_writer.specs.Outcome.{AllPages};
ghost use Rattle.im_theory_tree.specs.Levels.{Pages, walk};
ghost use Rattle.im_theory_tree.specs.Good.{AtOrAbove, IsGoodTree};
ghost use Rattle.im_theory_tree.specs.Search.{IsOnWay};
ghost use Rattle.im_theory_tree.specs.Halves.{FitsPage};
ghost use Rattle.im_theory_tree.specs.KeySplits.{HasRoomOnWay};
ghost use Rattle.im_smo_pages.specs.Images.{Numbered};
ghost use Rattle.im_smo_pages.specs.Parts.{SplitsAt, CanHalve, CanSplit};
ghost use Rattle.im_smo_pages.specs.Changed.{SamePages, leaf_split_pages, inner_split_pages, root_leaf_split_pages, root_inner_split_pages};
ghost use Rattle.im_smo_pages.specs.Seen.{bodies, seen};
ghost use Rattle.im_smo_split.specs.PendingSplits.{IsPending, IsRootPending};
ghost use Rattle.im_smo_split.specs.Plan.{Planned};

/// A split of the inner page that is to be split leaves the tree good and the walk as it was, and what is to be split next is the page's
/// child on the key's way, under the part that the key belongs to.
pub fn inner_splits_lead_on()
    ensures low { (dense : Bool) (pages new : Pages) (spare : List ℕ) (key : Key) (k parent p q n c : ℕ) → IsPending dense pages (q ∷ spare) key (suc k) parent p → Rises (pages p).entries → SplitsAt false Inner (pages p) n
        → SamePages new (inner_split_pages pages parent p q n) → IsChild (pages p) key c → IsBelow key (entry_at (pages p).entries n).0 → IsPending dense new spare key k p c × (walk new ≡ walk pages) }
    ensures high { (dense : Bool) (pages new : Pages) (spare : List ℕ) (key : Key) (k parent p q n c : ℕ) → IsPending dense pages (q ∷ spare) key (suc k) parent p → Rises (pages p).entries → SplitsAt false Inner (pages p) n
        → SamePages new (inner_split_pages pages parent p q n) → IsChild (pages p) key c → AtOrAbove (Some (entry_at (pages p).entries n).0) key → IsPending dense new spare key k q c × (walk new ≡ walk pages) }
{}

/// The same of a split of an inner root, with two new pages.
pub fn root_splits_lead_on()
    ensures low { (dense : Bool) (pages new : Pages) (spare : List ℕ) (key : Key) (k l r n c : ℕ) → IsRootPending dense pages (l ∷ r ∷ spare) key (suc k) → Rises (pages 1).entries → SplitsAt false Inner (pages 1) n
        → SamePages new (root_inner_split_pages pages l r n) → IsChild (pages 1) key c → IsBelow key (entry_at (pages 1).entries n).0 → IsPending dense new spare key k l c × (walk new ≡ walk pages) }
    ensures high { (dense : Bool) (pages new : Pages) (spare : List ℕ) (key : Key) (k l r n c : ℕ) → IsRootPending dense pages (l ∷ r ∷ spare) key (suc k) → Rises (pages 1).entries → SplitsAt false Inner (pages 1) n
        → SamePages new (root_inner_split_pages pages l r n) → IsChild (pages 1) key c → AtOrAbove (Some (entry_at (pages 1).entries n).0) key → IsPending dense new spare key k r c × (walk new ≡ walk pages) }
{}

/// A split of the leaf that is to be split leaves a good tree with the same walk, in which the key's leaf has room for an entry
/// of any size.
pub fn leaf_splits_end()
    ensures leaf { (dense : Bool) (pages new : Pages) (key : Key) (parent p q n : ℕ) → IsPending dense pages (q ∷ []) key zero parent p → Rises (pages p).entries → SplitsAt dense Leaf (pages p) n
        → SamePages new (leaf_split_pages pages parent p q n) → IsGoodTree new [] × (walk new ≡ walk pages) × HasRoomOnWay new zero key }
    ensures root { (dense : Bool) (pages new : Pages) (key : Key) (l r n : ℕ) → IsRootPending dense pages (l ∷ r ∷ []) key zero → Rises (pages 1).entries → SplitsAt dense Leaf (pages 1) n
        → SamePages new (root_leaf_split_pages pages l r n) → IsGoodTree new [] × (walk new ≡ walk pages) × HasRoomOnWay new zero key }
{}

/// A page that is to be split can be split.
pub fn pending_splits_can_be_made()
    ensures leaf { (dense : Bool) (pages : Pages) (spare : List ℕ) (key : Key) (parent p q : ℕ) → IsPending dense pages spare key zero parent p → Rises (pages p).entries → FitsPage true (pages p).entries
        → CanSplit dense Leaf (pages p) (pages parent) q }
    ensures inner { (dense : Bool) (pages : Pages) (spare : List ℕ) (key : Key) (k parent p q c : ℕ) → IsPending dense pages spare key (suc k) parent p → FitsPage false (pages p).entries
        → IsChild (pages p) key c → CanSplit false Inner (pages p) (pages parent) q }
    ensures root_leaf { (dense : Bool) (pages : Pages) (spare : List ℕ) (key : Key) → IsRootPending dense pages spare key zero → FitsPage true (pages 1).entries → CanHalve dense Leaf (pages 1) }
    ensures root_inner { (dense : Bool) (pages : Pages) (spare : List ℕ) (key : Key) (k c : ℕ) → IsRootPending dense pages spare key (suc k) → FitsPage false (pages 1).entries → IsChild (pages 1) key c → CanHalve false Inner (pages 1) }
{}

/// Where only the meta page changes, as by allocations, a page stays to be split.
pub fn pending_splits_stay()
    ensures page { (dense : Bool) (pages new : Pages) (spare left : List ℕ) (key : Key) (k parent p : ℕ) → IsPending dense pages spare key k parent p → IsGoodTree new left → ((x : ℕ) → x ≢ 0 → new x ≡ pages x)
        → IsPending dense new left key k parent p }
    ensures root { (dense : Bool) (pages new : Pages) (spare left : List ℕ) (key : Key) (k : ℕ) → IsRootPending dense pages spare key k → IsGoodTree new left → ((x : ℕ) → x ≢ 0 → new x ≡ pages x)
        → IsRootPending dense new left key k }
{}

/// Where the pages become what a plan makes of them, they are a good tree with the same walk, in which each search for the key ends
/// at a leaf with room for its entry.
pub fn plans_make_room()
    ensures good { (dense : Bool) (store : AllPages) (key : Key) (max : Option ℕ) (images : List Numbered) (leaf : ℕ) → Planned dense store key max images leaf → (pages : Pages) → SamePages pages (seen store images)
        → IsGoodTree pages [] × (walk pages ≡ walk (bodies store)) }
    ensures room { (dense : Bool) (store : AllPages) (key : Key) (max : Option ℕ) (images : List Numbered) (leaf : ℕ) → Planned dense store key max images leaf → (pages : Pages) → SamePages pages (seen store images) → (p : ℕ) → IsOnWay pages zero key p → HasRoom true (pages p).entries (key, 0) }
{}
