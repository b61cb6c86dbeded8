//! A split of the leaf on a key's way.

ghost use Rattle.std.specs.Prelude.{◌≡◌, ◌⊎◌, ◌<◌, ◌≤◌, ℕ, zero, suc, List, ◌∷◌, length, Err, IfOk, IfErr};
ghost use Rattle.im_base_types.specs.declared.fault.Fault.TheVariants.{Memory, NotAStore};
ghost use Rattle.im_base_types.specs.declared.page_kind.PageKind.TheVariants.{Leaf};
ghost use Rattle.im_theory_page.specs.Entry.{entry_at};
ghost use Rattle.im_theory_page.specs.Child.{IsChild};
ghost use Rattle.im_theory_tree.specs.Levels.{Pages, height};
ghost use Rattle.im_theory_tree.specs.Good.{IsGoodTree};
ghost use Rattle.im_theory_tree.specs.Search.{IsOnWay};
ghost use Rattle.im_smo_pages.specs.Parts.{CanHalve, CanSplit};
ghost use Rattle.im_smo_pages.specs.Images.{Has, KeepsAll, held};
ghost use Rattle.im_smo_pages.specs.OnWay.{IsHalf, HasRoomIn};

use crate::images::Images;
use im_base_types::{Fault, PageNo, compare};
use im_page::Page;
use std::alloc::Global;
use std::cmp::Ordering;

// The half of a page that is split at place n in whose range a key lies.
fn half(page: &Page, n: usize, key: &[u8], p: PageNo, q: PageNo) -> PageNo
    requires { n < length page.now.body.entries }
    ensures { IsHalf (entry_at page.now.body.entries n).0 key.now p q result }
{
    match compare(key, page.key(n)) {
        Ordering::Less => p,
        Ordering::Equal => q,
        Ordering::Greater => q,
    }
}

impl Images {
    /// Splits leaf p of a key, which is `page`, under a parent with room that is among the images, as is the leaf after p,
    /// if there is one; q is a page that was taken for it. It answers the half that is the key's leaf now.
    ///
    /// Refused as `split_leaf` is; `NotAStore` also where the page after p is not among the images or is no leaf. After a
    /// refusal the images are of no use.
    pub fn split_leaf_for(
        &mut self,
        alloc: Global,
        key: &[u8],
        page: &Page,
        parent: PageNo,
        p: PageNo,
        q: PageNo,
        dense: bool,
    ) -> Result<PageNo, Fault>
        ensures kept { IfOk result (λ _. KeepsAll self.old self.new) }
        ensures goes { IfOk result (λ m. (pages : Pages) (spare : List ℕ) → IsGoodTree (held pages self.old) (q ∷ spare) → IsOnWay (held pages self.old) (suc zero) key.now parent
            → IsChild (held pages self.old parent) key.now p → held pages self.old p ≡ page.now.body
            → HasRoomIn (held pages self.old) (held pages self.new) spare key.now p m) }
        ensures there { IfOk result (λ _. Has self.new p) }
        ensures half { IfOk result (Has self.new) }
        ensures sound { (pages : Pages) (spare : List ℕ) → IsGoodTree (held pages self.old) (q ∷ spare) → IsOnWay (held pages self.old) (suc zero) key.now parent
            → IsChild (held pages self.old parent) key.now p → held pages self.old p ≡ page.now.body → Has self.old parent → (1 ≤ page.now.body.next → Has self.old page.now.body.next)
            → CanSplit dense Leaf page.now.body (held pages self.old parent) q → result ≡ Err NotAStore → ⊥ }
        ensures causes { IfErr result (λ e. (e ≡ Memory) ⊎ (e ≡ NotAStore)) }
    {
        page.law_content();
        let n = self.split_leaf(alloc, page, parent, p, q, dense)?;
        self.link_prev(page.next(), q)?;
        Ok(half(page, n, key, p, q))
    }

    /// Splits the root, a leaf, which is `page`, into pages l and r, that were taken for it. It answers the half that is the
    /// key's leaf now.
    ///
    /// Refused as `split_root_leaf` is. After a refusal the images are of no use.
    pub fn split_root_leaf_for(
        &mut self,
        alloc: Global,
        key: &[u8],
        page: &Page,
        l: PageNo,
        r: PageNo,
        dense: bool,
    ) -> Result<PageNo, Fault>
        ensures kept { IfOk result (λ _. KeepsAll self.old self.new) }
        ensures goes { IfOk result (λ m. (pages : Pages) (spare : List ℕ) → IsGoodTree (held pages self.old) (l ∷ r ∷ spare) → height (held pages self.old) ≡ zero
            → held pages self.old 1 ≡ page.now.body
            → HasRoomIn (held pages self.old) (held pages self.new) spare key.now 1 m) }
        ensures there { IfOk result (λ _. Has self.new 1) }
        ensures half { IfOk result (Has self.new) }
        ensures sound { CanHalve dense Leaf page.now.body → result ≡ Err NotAStore → ⊥ }
        ensures causes { IfErr result (λ e. (e ≡ Memory) ⊎ (e ≡ NotAStore)) }
    {
        page.law_content();
        let n = self.split_root_leaf(alloc, page, l, r, dense)?;
        Ok(half(page, n, key, l, r))
    }
}
