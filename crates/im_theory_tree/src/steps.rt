//! Structure changes as runs of steps: splits over several levels, and deletions up the levels.

ghost use Rattle.std.specs.Prelude.{◌≡◌, ℕ, zero, true, List, []};
ghost use Rattle.im_base_types.specs.Keys.{Key};
ghost use Rattle.im_theory_tree.specs.Levels.{Pages, walk};
ghost use Rattle.im_theory_tree.specs.Good.{IsGoodTree};
ghost use Rattle.im_theory_tree.specs.Halves.{SplitsWell};
ghost use Rattle.im_theory_tree.specs.KeySplits.{HasRoomOnWay, SplitsKeyLeaf, SplitsKeyRootLeaf};
ghost use Rattle.im_theory_tree.specs.Steps.{Made, IsRun, DropsChain, end_pages, end_spare};

/// A run of steps, of whatever kinds, keeps the tree good and the walk as it was.
pub fn runs_keep()
    ensures { (pages : Pages) (spare : List ℕ) (run : List Made) → IsGoodTree pages spare → IsRun pages spare run
        → IsGoodTree (end_pages pages run) (end_spare spare run) × (walk (end_pages pages run) ≡ walk pages) }
{}

/// A split over several levels, from the top down: a run of allocations and splits, and after it the split of the key's
/// leaf, which lacked room, leave a good tree with no page spare and the same walk, in which the key's leaf has room for
/// an entry of any size.
pub fn splits_make_room()
    ensures leaf { (pages new : Pages) (key : Key) (run : List Made) (parent p q n : ℕ) → IsGoodTree pages [] → IsRun pages [] run
        → SplitsKeyLeaf (end_pages pages run) new [] key parent p q n → SplitsWell true (end_pages pages run p).entries n
        → IsGoodTree new [] × (walk new ≡ walk pages) × HasRoomOnWay new zero key }
    ensures root { (pages new : Pages) (key : Key) (run : List Made) (left right n : ℕ) → IsGoodTree pages [] → IsRun pages [] run
        → SplitsKeyRootLeaf (end_pages pages run) new [] left right n → SplitsWell true (end_pages pages run 1).entries n
        → IsGoodTree new [] × (walk new ≡ walk pages) × HasRoomOnWay new zero key }
{}

/// A deletion up the levels: a chain of pages without entries goes, and its pages are given back in whatever order; the
/// tree is good with no page spare, and the walk stays.
pub fn deletions_keep()
    ensures { (pages mid : Pages) (gone : List ℕ) (run : List Made) → DropsChain pages mid gone → IsRun mid gone run → end_spare gone run ≡ []
        → IsGoodTree (end_pages mid run) [] × (walk (end_pages mid run) ≡ walk pages) }
{}
