//! Pages taken and given back, and the pages of a new store.

ghost use Rattle.std.specs.Prelude.{◌≡◌, ℕ, List, [], ◌∷◌};
ghost use Rattle.im_theory_tree.specs.Levels.{Pages, walk};
ghost use Rattle.im_theory_tree.specs.Good.{IsGoodTree};
ghost use Rattle.im_theory_tree.specs.Allocations.{TakesFree, TakesCount, GivesFree, initial_bodies};

/// Taking the first free page, taking the page past the count, and giving a page back.
pub fn allocation_keeps()
    ensures take_free { (pages new : Pages) (spare : List ℕ) (n q : ℕ) → TakesFree pages new spare n q → IsGoodTree new (q ∷ spare) × (walk new ≡ walk pages) }
    ensures take_count { (pages new : Pages) (spare : List ℕ) → TakesCount pages new spare → IsGoodTree new ((pages 0).leftmost ∷ spare) × (walk new ≡ walk pages) }
    ensures give_free { (pages new : Pages) (spare : List ℕ) (q : ℕ) → GivesFree pages new spare q → IsGoodTree new spare × (walk new ≡ walk pages) }
{}

/// The pages of a new store are a good tree with no entry.
pub fn initial_pages_are_good()
    ensures { IsGoodTree initial_bodies [] × (walk initial_bodies ≡ []) }
{}
