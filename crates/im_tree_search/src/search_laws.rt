//! When all that a look-up wants is held, and how a search goes on beside a structure change.

ghost use Rattle.std.specs.Prelude.{◌≡◌, ◌<◌, ℕ, [], nat_lt};
ghost use Rattle.im_base_types.specs.Keys.{Key};
ghost use Rattle.im_page_pool.specs.Pool.{PoolView, page_at, Holds};
ghost use Rattle.im_page_writer.specs.Outcome.{AllPages};
ghost use Rattle.im_theory_tree.specs.Good.{IsGoodTree};
ghost use Rattle.im_tree_search.specs.Levels.{bodies_of};
ghost use Rattle.im_tree_search.specs.HeldPages.{HoldsOn, HoldsBack};
ghost use Rattle.im_tree_search.specs.Beside.{SearchesGoOn};
ghost use Rattle.im_tree_search.specs.Backward.{SearchesGoBack};

/// Where a pool holds each page below the page count of a good tree, these pages are a set as every look-up wants it, for each key.
pub fn held_trees_are_enough()
    ensures { (pages : AllPages) (key : Key) (pool : PoolView) → IsGoodTree (bodies_of pages) [] → ((p : ℕ) → p < (pages 0).body.leftmost → Holds pool p × ((page_at pool p).body ≡ (pages p).body))
        → HoldsOn key pool (λ p. nat_lt p (pages 0).body.leftmost) }
{}

/// A search over pages of which some are those of a structure change, and all others the pages of a good tree, goes on over that
/// tree as long as it reads none of the former: each step down, each step along the leaves, what it answers, and its end.
pub fn searches_go_on()
    ensures { SearchesGoOn }
{}

/// Such a pool holds what a look-up backward wants too.
pub fn held_trees_are_enough_backward()
    ensures { (pages : AllPages) (key : Key) (pool : PoolView) → IsGoodTree (bodies_of pages) [] → ((p : ℕ) → p < (pages 0).body.leftmost → Holds pool p × ((page_at pool p).body ≡ (pages p).body))
        → HoldsBack key pool (λ p. nat_lt p (pages 0).body.leftmost) }
{}

/// So does a search backward go on over pages of which some are those of a structure change: where it begins, what it answers, each step
/// back along the leaves, and its end.
pub fn searches_go_back()
    ensures { SearchesGoBack }
{}
