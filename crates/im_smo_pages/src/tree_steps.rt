//! What the calls on pages mean for the tree: the pages that they leave are those of a step.

ghost use Rattle.std.specs.Prelude.{◌≡◌, ◌⊎◌, ℕ, zero, suc, ◌+◌, ◌-◌, ◌<◌, ◌≤◌, Bool, true, false, List, ◌∷◌, ◌++◌, length, take, Some, None};
ghost use Rattle.im_base_types.specs.Keys.{Key};
ghost use Rattle.im_base_types.specs.Pages.{Entry, Body, Page};
ghost use Rattle.im_theory_log.specs.Tree.{with_body};
ghost use Rattle.im_base_types.specs.declared.page_kind.PageKind.TheVariants.{Free, Leaf, Inner};
ghost use Rattle.im_theory_page.specs.Entry.{entry_at, taken, Rises};
ghost use Rattle.im_theory_page.specs.Child.{IsChild};
ghost use Rattle.im_theory_page.specs.Split.{HasRoom};
ghost use Rattle.im_theory_tree.specs.Levels.{Pages, height, walk};
ghost use Rattle.im_theory_tree.specs.Good.{IsGoodTree};
ghost use Rattle.im_theory_tree.specs.Search.{IsOnWay};
ghost use Rattle.im_theory_tree.specs.Halves.{FitsPage, LacksRoom};
ghost use Rattle.im_theory_tree.specs.KeySplits.{SplitsKeyLeaf, SplitsKeyInner, SplitsKeyRootLeaf, SplitsKeyRootInner};
ghost use Rattle.im_theory_tree.specs.KeyDeletions.{HasNone, leaf_down, chain_down, DropsEntry, DropsLeftmost, DropsAll};
ghost use Rattle.im_theory_tree.specs.Allocations.{TakesFree, TakesCount, GivesFree};
ghost use Rattle.im_theory_tree.specs.Plans.{applied, KnowsPages, PagesAscend};
ghost use Rattle.im_smo_pages.specs.Bodies.{without_entry, without_leftmost};
ghost use Rattle.im_smo_pages.specs.OnImages.{PartsLeaf, Becomes, TakesFirst, TakesNext};
ghost use Rattle.im_smo_pages.specs.OnWay.{KeepsTree, PlansKeepWays};
ghost use Rattle.im_smo_pages.specs.Parts.{IsPoint, SplitsAt, CanHalve, CanSplit};
ghost use Rattle.im_smo_pages.specs.Images.{Numbered, IsRising, image_of, put_image, without_image, plan_of, held};
ghost use Rattle.im_smo_pages.specs.Changed.{SamePages, linked_prev, unlinked_pages, leaf_split_pages, inner_split_pages, root_leaf_split_pages, root_inner_split_pages, entry_dropped_pages, leftmost_dropped_pages, root_emptied_pages, free_taken_pages, count_taken_pages, free_given_pages};

/// In a good tree the pages of a split are those of a split of the page on a key's way, or of the root.
pub fn split_pages_are_splits()
    ensures leaf { (dense : Bool) (pages new : Pages) (spare : List ℕ) (key : Key) (parent p q n : ℕ) → IsGoodTree pages (q ∷ spare) → IsOnWay pages (suc zero) key parent → IsChild (pages parent) key p
        → Rises (pages parent).entries → Rises (pages p).entries → SplitsAt dense Leaf (pages p) n → SamePages new (leaf_split_pages pages parent p q n)
        → SplitsKeyLeaf pages new spare key parent p q n }
    ensures inner { (pages new : Pages) (spare : List ℕ) (h : ℕ) (key : Key) (parent p q n : ℕ) → IsGoodTree pages (q ∷ spare) → IsOnWay pages (suc (suc h)) key parent
        → IsChild (pages parent) key p → Rises (pages parent).entries → Rises (pages p).entries → SplitsAt false Inner (pages p) n → SamePages new (inner_split_pages pages parent p q n)
        → SplitsKeyInner pages new spare h key parent p q n }
    ensures root_leaf { (dense : Bool) (pages new : Pages) (spare : List ℕ) (l r n : ℕ) → IsGoodTree pages (l ∷ r ∷ spare) → height pages ≡ zero → Rises (pages 1).entries → SplitsAt dense Leaf (pages 1) n
        → SamePages new (root_leaf_split_pages pages l r n) → SplitsKeyRootLeaf pages new spare l r n }
    ensures root_inner { (pages new : Pages) (spare : List ℕ) (h l r n : ℕ) → IsGoodTree pages (l ∷ r ∷ spare) → height pages ≡ suc h → SplitsAt false Inner (pages 1) n
        → SamePages new (root_inner_split_pages pages l r n) → SplitsKeyRootInner pages new spare h l r n }
{}

/// Where splits are dense the last leaf of the chain keeps all but two entries, or as many as take 3,796 bytes: with one more they would
/// take more than that, of the 4,064 that a page has.
pub fn dense_splits_fill_the_last_leaf()
    ensures { (page : Body) (n : ℕ) → SplitsAt true Leaf page n → page.next ≡ 0 → (n + 2 ≡ length page.entries) ⊎ (3796 < taken true (take (n + 1) page.entries)) }
{}

/// In a good tree the pages of a deletion are those of a deletion of a chain of pages without entries: of the child of an
/// entry, of the leftmost child, or of all that stands under the root.
pub fn deletion_pages_are_deletions()
    ensures entry { (pages new : Pages) (spare : List ℕ) (h : ℕ) (key : Key) (parent p i : ℕ) → IsGoodTree pages spare → IsOnWay pages (suc h) key parent → i < length (pages parent).entries
        → (entry_at (pages parent).entries i).1 ≡ p → HasNone pages h p → SamePages new (entry_dropped_pages pages parent (leaf_down pages h p) i)
        → DropsEntry pages new spare h key parent p i }
    ensures leftmost { (pages new : Pages) (spare : List ℕ) (h : ℕ) (key : Key) (parent p : ℕ) → IsGoodTree pages spare → IsOnWay pages (suc h) key parent → 0 < length (pages parent).entries
        → (pages parent).leftmost ≡ p → HasNone pages h p → SamePages new (leftmost_dropped_pages pages parent (leaf_down pages h p))
        → DropsLeftmost pages new spare h key parent p }
    ensures root { (pages new : Pages) (spare : List ℕ) (h : ℕ) → IsGoodTree pages spare → height pages ≡ suc h → HasNone pages (suc h) 1 → SamePages new (root_emptied_pages pages)
        → DropsAll pages new spare h }
{}

/// In a good tree the pages of an allocation are those of an allocation, and of a page given back.
pub fn allocation_pages_are_allocations()
    ensures free { (pages new : Pages) (spare : List ℕ) → IsGoodTree pages spare → 1 ≤ (pages 0).prev → SamePages new (free_taken_pages pages)
        → TakesFree pages new spare ((pages 0).prev - 1) (pages 0).next }
    ensures count { (pages new : Pages) (spare : List ℕ) → IsGoodTree pages spare → (pages 0).prev ≡ 0 → SamePages new (count_taken_pages pages) → TakesCount pages new spare }
    ensures given { (pages new : Pages) (spare : List ℕ) (q : ℕ) → IsGoodTree pages (q ∷ spare) → SamePages new (free_given_pages pages q) → GivesFree pages new spare q }
{}

/// In a good tree no call on pages is refused `NotAStore`: a page that lacks room can be split where its parent has room for
/// the separator; the leaves beside a leaf are leaves; and the first free page is free.
pub fn good_trees_are_not_refused()
    ensures leaf { (dense : Bool) (pages : Pages) (spare : List ℕ) (key : Key) (parent p q : ℕ) (e : Entry) → IsGoodTree pages spare → IsOnWay pages (suc zero) key parent → IsChild (pages parent) key p
        → Rises (pages parent).entries → Rises (pages p).entries → FitsPage true (pages p).entries → LacksRoom true (pages p).entries e
        → ((n : ℕ) → IsPoint dense true (pages p) n → HasRoom false (pages parent).entries ((entry_at (pages p).entries n).0, q))
        → CanSplit dense Leaf (pages p) (pages parent) q }
    ensures inner { (pages : Pages) (spare : List ℕ) (h : ℕ) (key : Key) (parent p q : ℕ) (e : Entry) → IsGoodTree pages spare → IsOnWay pages (suc (suc h)) key parent
        → IsChild (pages parent) key p → Rises (pages parent).entries → FitsPage false (pages p).entries → LacksRoom false (pages p).entries e
        → ((n : ℕ) → IsPoint false false (pages p) n → HasRoom false (pages parent).entries ((entry_at (pages p).entries n).0, q))
        → CanSplit false Inner (pages p) (pages parent) q }
    ensures root_leaf { (dense : Bool) (pages : Pages) (p : ℕ) (e : Entry) → (pages p).kind ≡ Leaf → FitsPage true (pages p).entries → LacksRoom true (pages p).entries e → CanHalve dense Leaf (pages p) }
    ensures root_inner { (pages : Pages) (p : ℕ) (e : Entry) → (pages p).kind ≡ Inner → FitsPage false (pages p).entries → LacksRoom false (pages p).entries e → CanHalve false Inner (pages p) }
    ensures next { (pages : Pages) (spare : List ℕ) (key : Key) (p : ℕ) → IsGoodTree pages spare → IsOnWay pages zero key p → 1 ≤ (pages p).next → (pages (pages p).next).kind ≡ Leaf }
    ensures prev { (pages : Pages) (spare : List ℕ) (key : Key) (p : ℕ) → IsGoodTree pages spare → IsOnWay pages zero key p → 1 ≤ (pages p).prev → (pages (pages p).prev).kind ≡ Leaf }
    ensures first_free { (pages : Pages) (spare : List ℕ) → IsGoodTree pages spare → 1 ≤ (pages 0).prev → (pages (pages 0).next).kind ≡ Free }
{}

/// The pages of a structure change are a plan, in rising page number. What a page holds where the plan is applied is what
/// the images have of it, or what it held; a page that is put in is the one that is applied there.
pub fn images_are_a_plan()
    ensures there { (pages : Pages) (xs : List Numbered) (q : ℕ) (p : Page) → image_of xs q ≡ Some p → applied pages (plan_of pages xs) q ≡ p.body }
    ensures elsewhere { (pages : Pages) (xs : List Numbered) (q : ℕ) → image_of xs q ≡ None → applied pages (plan_of pages xs) q ≡ pages q }
    ensures put { (pages : Pages) (xs : List Numbered) (n : ℕ) (p : Page) → IsRising xs
        → SamePages (applied pages (plan_of pages (put_image n p xs))) (with_body (applied pages (plan_of pages xs)) n p.body) }
    ensures put_back { (n : ℕ) (p : Page) (xs : List Numbered) → IsRising xs → put_image n p (without_image n xs) ≡ put_image n p xs }
    ensures knows { (pages : Pages) (xs : List Numbered) → KnowsPages pages (plan_of pages xs) }
    ensures ascends { (pages : Pages) (xs : List Numbered) → IsRising xs → PagesAscend (plan_of pages xs) }
    ensures rises { (n : ℕ) (p : Page) (xs : List Numbered) → IsRising xs → IsRising (put_image n p xs) }
{}

/// Steps on images one after another: the parting of a leaf and the link after it are its split; the parent's change and
/// the links beside the leaf are a deletion.
pub fn steps_on_images_compose()
    ensures leaf { (dense : Bool) (a b c : List Numbered) (page : Body) (parent p q n : ℕ) (pages : Pages) → PartsLeaf dense a b page parent p q n → Becomes b c (λ h. linked_prev h page.next q)
        → held pages a p ≡ page → SamePages (held pages c) (leaf_split_pages (held pages a) parent p q n) }
    ensures entry { (a b c : List Numbered) (page : Body) (parent leaf i : ℕ) (pages : Pages) → Becomes a b (λ h. with_body h parent (without_entry (h parent) i))
        → Becomes b c (λ h. unlinked_pages h page.prev page.next) → held pages a leaf ≡ page → SamePages (held pages c) (entry_dropped_pages (held pages a) parent leaf i) }
    ensures leftmost { (a b c : List Numbered) (page : Body) (parent leaf : ℕ) (pages : Pages) → Becomes a b (λ h. with_body h parent (without_leftmost (h parent)))
        → Becomes b c (λ h. unlinked_pages h page.prev page.next) → held pages a leaf ≡ page → SamePages (held pages c) (leftmost_dropped_pages (held pages a) parent leaf) }
    ensures first { (a b : List Numbered) (page : Body) (q : ℕ) (pages : Pages) → TakesFirst a b page q → held pages a q ≡ page → SamePages (held pages b) (free_taken_pages (held pages a)) }
{}

/// An allocation among the images, in a good tree: the page is spare after it.
pub fn allocations_keep_the_tree()
    ensures first { (a b : List Numbered) (page : Body) (q : ℕ) (pages : Pages) (spare : List ℕ) → TakesFirst a b page q → held pages a q ≡ page → IsGoodTree (held pages a) spare
        → KeepsTree (held pages a) (held pages b) (q ∷ spare) }
    ensures next { (a b : List Numbered) (q : ℕ) (pages : Pages) (spare : List ℕ) → TakesNext a b q → IsGoodTree (held pages a) spare → KeepsTree (held pages a) (held pages b) (q ∷ spare) }
{}

/// A deletion among the images, in a good tree: the pages of the chain that goes are spare after it, and may then be
/// given back, one after another.
pub fn deletions_keep_the_tree()
    ensures entry { (a b c : List Numbered) (page : Body) (pages : Pages) (spare : List ℕ) (h : ℕ) (key : Key) (parent p i : ℕ)
        → Becomes a b (λ f. with_body f parent (without_entry (f parent) i)) → Becomes b c (λ f. unlinked_pages f page.prev page.next) → held pages a (leaf_down (held pages a) h p) ≡ page
        → IsGoodTree (held pages a) spare → IsOnWay (held pages a) (suc h) key parent → i < length (held pages a parent).entries → (entry_at (held pages a parent).entries i).1 ≡ p → HasNone (held pages a) h p
        → IsGoodTree (held pages c) (chain_down (held pages a) h p ++ spare) × (walk (held pages c) ≡ walk (held pages a)) }
    ensures leftmost { (a b c : List Numbered) (page : Body) (pages : Pages) (spare : List ℕ) (h : ℕ) (key : Key) (parent p : ℕ)
        → Becomes a b (λ f. with_body f parent (without_leftmost (f parent))) → Becomes b c (λ f. unlinked_pages f page.prev page.next) → held pages a (leaf_down (held pages a) h p) ≡ page
        → IsGoodTree (held pages a) spare → IsOnWay (held pages a) (suc h) key parent → 0 < length (held pages a parent).entries → (held pages a parent).leftmost ≡ p → HasNone (held pages a) h p
        → IsGoodTree (held pages c) (chain_down (held pages a) h p ++ spare) × (walk (held pages c) ≡ walk (held pages a)) }
    ensures root { (a b : List Numbered) (pages : Pages) (spare : List ℕ) (h : ℕ) → Becomes a b root_emptied_pages → IsGoodTree (held pages a) spare → height (held pages a) ≡ suc h
        → HasNone (held pages a) (suc h) 1
        → IsGoodTree (held pages b) (chain_down (held pages a) h (held pages a 1).leftmost ++ spare) × (walk (held pages b) ≡ walk (held pages a)) }
    ensures given { (a b : List Numbered) (pages : Pages) (spare : List ℕ) (q : ℕ) → Becomes a b (λ f. free_given_pages f q) → IsGoodTree (held pages a) (q ∷ spare)
        → IsGoodTree (held pages b) spare × (walk (held pages b) ≡ walk (held pages a)) }
{}

/// Steps of a plan in a row keep the ways of keys whose leaf is none of its images.
pub fn plans_keep_ways()
    ensures { PlansKeepWays }
{}
