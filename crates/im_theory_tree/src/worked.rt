//! A tree of two leaves by computation, and trees that wrong steps leave, none of them good.

ghost use Rattle.std.specs.Prelude.{◌≡◌, [], ◌∷◌, Some, None};
ghost use Rattle.std.specs.FinMap.Entries.{find};
ghost use Rattle.im_base_types.specs.Keys.{key_order};
ghost use Rattle.im_theory_tree.specs.Levels.{walk};
ghost use Rattle.im_theory_tree.specs.Good.{IsGoodTree};
ghost use Rattle.im_theory_tree.specs.Variants.{key_a, key_b, key_c, two_leaves, lost_separator, high_separator, still_chained, used_twice, not_given_back, IsChildLeft};

/// A tree of two leaves is good, and has its walk.
pub fn two_leaves_are_good()
    ensures { IsGoodTree two_leaves [] × (walk two_leaves ≡ (key_a, 7) ∷ (key_b, 8) ∷ (key_c, 9) ∷ []) }
{}

/// What wrong steps leave is no good tree; and a search that goes left at a separator that equals its key misses it.
pub fn wrong_trees_are_refused()
    ensures lost_separator { IsGoodTree lost_separator [] → ⊥ }
    ensures high_separator { IsGoodTree high_separator [] → ⊥ }
    ensures still_chained { IsGoodTree still_chained [] → ⊥ }
    ensures used_twice { IsGoodTree used_twice [] → ⊥ }
    ensures not_given_back { IsGoodTree not_given_back [] → ⊥ }
    ensures left_at_equal { IsChildLeft (two_leaves 1) key_b 2 × (find key_order key_b (two_leaves 2).entries ≡ None) × (find key_order key_b (walk two_leaves) ≡ Some 8) }
{}
