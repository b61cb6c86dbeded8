//! The two parts of a page that is split.

ghost use Rattle.std.specs.Prelude.{◌≡◌, ℕ, ◌<◌, ◌≤◌, Bool, List, length, take, drop, Option, Some};
ghost use Rattle.im_base_types.specs.Keys.{Key};
ghost use Rattle.im_base_types.specs.Pages.{Entry};
ghost use Rattle.im_theory_page.specs.Entry.{entry_at, Rises};
ghost use Rattle.im_theory_page.specs.Split.{IsSplitBound, IsSplitPoint};
ghost use Rattle.im_theory_tree.specs.Good.{InRange, IsAfter};
ghost use Rattle.im_theory_tree.specs.Splits.{Halves};
ghost use Rattle.im_theory_tree.specs.Halves.{FitsPage, LacksRoom, SplitsWell};

/// A page without room for an entry has, at its split point, an entry on the left, two and more on the right, and room
/// for one more entry of any size on each side: whichever bound the point goes by.
pub fn full_pages_split_well()
    ensures { (bound : ℕ) (leaf : Bool) (es : List Entry) (n : ℕ) (e : Entry) → IsSplitBound bound → FitsPage leaf es → IsSplitPoint bound leaf es n → LacksRoom leaf es e → SplitsWell leaf es n }
{}

/// The parts of a rising list are the halves of a leaf's split, with the right part's first key as separator, which is
/// above the leaf's bound where an entry stays on the left.
pub fn parts_are_halves()
    ensures halves { (es left right : List Entry) (n : ℕ) → Rises es → n < length es → left ≡ take n es → right ≡ drop n es → Halves es left right (entry_at es n).0 }
    ensures above { (low high : Option Key) (es : List Entry) (n : ℕ) → Rises es → InRange low high es → 1 ≤ n → n < length es → IsAfter low (Some (entry_at es n).0) }
{}
