//! Plans of structure changes, applied image by image and taken back.

ghost use Rattle.std.specs.Prelude.{◌≡◌, ℕ, [], ◌∷◌, ◌++◌};
ghost use Rattle.im_theory_log.specs.Tree.{with_body};
ghost use Rattle.im_theory_tree.specs.Levels.{Pages};
ghost use Rattle.im_theory_tree.specs.Good.{times};
ghost use Rattle.im_theory_tree.specs.Plans.{Image, Plan, planned, applied, restored, KnowsPages, PagesAscend};

/// Pages outside a plan stay; each image goes onto the pages of those before it; and a plan taken back, whole or one
/// image at a time from its end, leaves the pages as they were.
pub fn plans_are_applied_and_taken_back()
    ensures elsewhere { (pages : Pages) (plan : Plan) (q : ℕ) → times q (planned plan) ≡ 0 → applied pages plan q ≡ pages q }
    ensures distinct { (i : Image) (plan : Plan) → PagesAscend (i ∷ plan) → times i.page (planned plan) ≡ 0 }
    ensures next { (pages : Pages) (front : Plan) (i : Image) (q : ℕ) → times i.page (planned front) ≡ 0
        → applied pages (front ++ i ∷ []) q ≡ with_body (applied pages front) i.page i.after q }
    ensures back { (pages : Pages) (plan : Plan) (q : ℕ) → KnowsPages pages plan → restored (applied pages plan) plan q ≡ pages q }
    ensures last_back { (pages : Pages) (front : Plan) (i : Image) (q : ℕ) → times i.page (planned front) ≡ 0 → pages i.page ≡ i.before
        → with_body (applied pages (front ++ i ∷ [])) i.page i.before q ≡ applied pages front q }
{}
