//! What a structure change sees of its images.

ghost use Rattle.std.specs.Prelude.{◌≡◌, ◌≢◌, ℕ, List};
ghost use Rattle.im_base_types.specs.Pages.{Page};
ghost use Rattle.im_theory_log.specs.Tree.{with_body};
ghost use Rattle.im_page_writer.specs.Outcome.{AllPages};
ghost use Rattle.im_smo_pages.specs.Images.{Numbered, IsRising, put_image, without_image};
ghost use Rattle.im_smo_pages.specs.Changed.{SamePages};
ghost use Rattle.im_smo_pages.specs.Seen.{page_in, seen};

/// A page taken out says what is seen of it, and others stay; put back, it alone says something else.
pub fn images_are_seen()
    ensures page { (store : AllPages) (images : List Numbered) (n : ℕ) → (page_in store images n).body ≡ seen store images n }
    ensures others { (store : AllPages) (images : List Numbered) (n m : ℕ) → IsRising images → n ≢ m → page_in store (without_image n images) m ≡ page_in store images m }
    ensures put { (store : AllPages) (images : List Numbered) (n : ℕ) (p : Page) → IsRising images
        → SamePages (seen store (put_image n p (without_image n images))) (with_body (seen store images) n p.body) }
{}
