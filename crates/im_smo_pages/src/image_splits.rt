//! Splits among the pages of a structure change.

ghost use Rattle.std.specs.Prelude.{◌≡◌, ◌⊎◌, ◌<◌, false, Err, IfOk, IfErr};
ghost use Rattle.im_base_types.specs.declared.fault.Fault.TheVariants.{Capacity, Memory, NotAStore};
ghost use Rattle.im_base_types.specs.declared.page_kind.PageKind.TheVariants.{Leaf, Inner};
ghost use Rattle.im_theory_tree.specs.Levels.{Pages};
ghost use Rattle.im_smo_pages.specs.Parts.{CanHalve, CanSplit};
ghost use Rattle.im_smo_pages.specs.Images.{Has, held};
ghost use Rattle.im_smo_pages.specs.OnImages.{PartsLeaf, PartsInner, PartsRootLeaf, PartsRootInner};

use crate::boxes::blank;
use crate::images::Images;
use crate::splits;
use im_base_types::{Fault, PageNo};
use im_page::Page;
use std::alloc::Global;

impl Images {
    /// Splits leaf p, which is `page`, under a parent that is among the images; q is the number of the right part. It
    /// answers how many entries stay left. The page after the right part has then to be told of q.
    ///
    /// Refused as `split_leaf` is; `NotAStore` also where the parent is not among the images; and `Memory`. After a refusal
    /// the images are of no use.
    pub fn split_leaf(
        &mut self,
        alloc: Global,
        page: &Page,
        parent: PageNo,
        p: PageNo,
        q: PageNo,
        dense: bool,
    ) -> Result<usize, Fault>
        ensures parts { IfOk result (λ n. PartsLeaf dense self.old self.new page.now.body parent p q n) }
        ensures causes { IfErr result (λ e. (e ≡ Memory) ⊎ (e ≡ NotAStore)) }
        ensures sound { (pages : Pages) → Has self.old parent → CanSplit dense Leaf page.now.body (held pages self.old parent) q → result ≡ Err NotAStore → ⊥ }
    {
        self.law_rise();
        let Some(mut above) = self.take(parent) else {
            return Err(Fault::NotAStore);
        };
        above.law_content();
        let mut left = blank(alloc)?;
        let mut right = blank(alloc)?;
        let n = splits::split_leaf(page, &mut left, &mut right, &mut above, p, q, dense)?;
        self.put(parent, above)?;
        self.put(q, right)?;
        self.put(p, left)?;
        Ok(n)
    }

    /// Splits inner page p, which is `page`, under a parent that is among the images; q is the number of the right part. It
    /// answers how many entries stay left.
    ///
    /// Refused as `split_inner` is; `NotAStore` also where the parent is not among the images; and `Memory`. After a
    /// refusal the images are of no use.
    pub fn split_inner(
        &mut self,
        alloc: Global,
        page: &Page,
        parent: PageNo,
        p: PageNo,
        q: PageNo,
    ) -> Result<usize, Fault>
        ensures parts { IfOk result (λ n. PartsInner self.old self.new page.now.body parent p q n) }
        ensures causes { IfErr result (λ e. (e ≡ Memory) ⊎ (e ≡ NotAStore)) }
        ensures sound { (pages : Pages) → Has self.old parent → CanSplit false Inner page.now.body (held pages self.old parent) q → result ≡ Err NotAStore → ⊥ }
    {
        self.law_rise();
        let Some(mut above) = self.take(parent) else {
            return Err(Fault::NotAStore);
        };
        above.law_content();
        let mut left = blank(alloc)?;
        let mut right = blank(alloc)?;
        let n = splits::split_inner(page, &mut left, &mut right, &mut above, q)?;
        self.put(parent, above)?;
        self.put(q, right)?;
        self.put(p, left)?;
        Ok(n)
    }

    /// Splits the root, a leaf, which is `page`, into pages l and r. It answers how many entries go left.
    ///
    /// Refused as `split_root_leaf` is, and `Memory`. After a refusal the images are of no use.
    pub fn split_root_leaf(
        &mut self,
        alloc: Global,
        page: &Page,
        l: PageNo,
        r: PageNo,
        dense: bool,
    ) -> Result<usize, Fault>
        ensures parts { IfOk result (λ n. PartsRootLeaf dense self.old self.new page.now.body l r n) }
        ensures causes { IfErr result (λ e. (e ≡ Memory) ⊎ (e ≡ NotAStore)) }
        ensures sound { CanHalve dense Leaf page.now.body → result ≡ Err NotAStore → ⊥ }
    {
        self.law_rise();
        let mut root = blank(alloc)?;
        let mut left = blank(alloc)?;
        let mut right = blank(alloc)?;
        let n = splits::split_root_leaf(page, &mut root, &mut left, &mut right, l, r, dense)?;
        self.put(1, root)?;
        self.put(r, right)?;
        self.put(l, left)?;
        Ok(n)
    }

    /// Splits the root, an inner page, which is `page`, into pages l and r. It answers how many entries go left.
    ///
    /// Refused as `split_root_inner` is, and `Memory`. After a refusal the images are of no use.
    pub fn split_root_inner(
        &mut self,
        alloc: Global,
        page: &Page,
        l: PageNo,
        r: PageNo,
    ) -> Result<usize, Fault>
        ensures parts { IfOk result (λ n. PartsRootInner self.old self.new page.now.body l r n) }
        ensures causes { IfErr result (λ e. (e ≡ Memory) ⊎ ((e ≡ NotAStore) ⊎ ((e ≡ Capacity) × (page.now.body.level ≡ 255)))) }
        ensures sound { CanHalve false Inner page.now.body → page.now.body.level < 255 → result ≡ Err NotAStore → ⊥ }
    {
        self.law_rise();
        let mut root = blank(alloc)?;
        let mut left = blank(alloc)?;
        let mut right = blank(alloc)?;
        let n = splits::split_root_inner(page, &mut root, &mut left, &mut right, l, r)?;
        self.put(1, root)?;
        self.put(r, right)?;
        self.put(l, left)?;
        Ok(n)
    }
}
