//! Pages of a structure change whose links or children change.

ghost use Rattle.std.specs.Prelude.{◌≡◌, ◌⊎◌, ◌<◌, ◌≤◌, Err, OnOk, IfErr, length};
ghost use Rattle.im_theory_log.specs.Tree.{with_body};
ghost use Rattle.im_base_types.specs.declared.fault.Fault.TheVariants.{Memory, NotAStore};
ghost use Rattle.im_base_types.specs.declared.page_kind.PageKind.TheVariants.{Leaf, Inner};
ghost use Rattle.im_theory_tree.specs.Levels.{Pages};
ghost use Rattle.im_smo_pages.specs.Bodies.{without_entry, without_leftmost};
ghost use Rattle.im_smo_pages.specs.Images.{Has, held};
ghost use Rattle.im_smo_pages.specs.Changed.{linked_prev, linked_next, unlinked_pages, root_emptied_pages};
ghost use Rattle.im_smo_pages.specs.OnImages.{Becomes};

use crate::boxes::blank;
use crate::images::Images;
use crate::{chain, deletions};
use im_base_types::{Fault, PageNo};
use std::alloc::Global;

impl Images {
    /// Tells the leaf of a number, which is among the images, which leaf is before it. Number 0 stands for no leaf, and
    /// nothing is done.
    ///
    /// Refused `NotAStore` where the page is not among the images or is no leaf; and `Memory`. After a refusal the images
    /// are of no use.
    pub fn link_prev(&mut self, number: PageNo, prev: PageNo) -> Result<(), Fault>
        ensures new { OnOk result (Becomes self.old self.new (λ h. linked_prev h number prev)) }
        ensures causes { IfErr result (λ e. (e ≡ Memory) ⊎ (e ≡ NotAStore)) }
        ensures sound { (pages : Pages) → (1 ≤ number → Has self.old number) → (1 ≤ number → (held pages self.old number).kind ≡ Leaf) → result ≡ Err NotAStore → ⊥ }
    {
        self.law_rise();
        if number == 0 {
            return Ok(());
        }
        let Some(mut leaf) = self.take(number) else {
            return Err(Fault::NotAStore);
        };
        chain::link_prev(&mut leaf, prev)?;
        self.put(number, leaf)?;
        Ok(())
    }

    /// Tells the leaf of a number, which is among the images, which leaf is after it. Number 0 stands for no leaf, and
    /// nothing is done.
    ///
    /// Refused as `link_prev` is.
    pub fn link_next(&mut self, number: PageNo, next: PageNo) -> Result<(), Fault>
        ensures new { OnOk result (Becomes self.old self.new (λ h. linked_next h number next)) }
        ensures causes { IfErr result (λ e. (e ≡ Memory) ⊎ (e ≡ NotAStore)) }
        ensures sound { (pages : Pages) → (1 ≤ number → Has self.old number) → (1 ≤ number → (held pages self.old number).kind ≡ Leaf) → result ≡ Err NotAStore → ⊥ }
    {
        self.law_rise();
        if number == 0 {
            return Ok(());
        }
        let Some(mut leaf) = self.take(number) else {
            return Err(Fault::NotAStore);
        };
        chain::link_next(&mut leaf, next)?;
        self.put(number, leaf)?;
        Ok(())
    }

    /// Takes a leaf out of the chain: the leaf before it and the leaf after it, which are among the images, name each
    /// other; 0 stands for none.
    ///
    /// Refused as `link_prev` is.
    pub fn unlink(&mut self, prev: PageNo, next: PageNo) -> Result<(), Fault>
        ensures new { OnOk result (Becomes self.old self.new (λ h. unlinked_pages h prev next)) }
        ensures causes { IfErr result (λ e. (e ≡ Memory) ⊎ (e ≡ NotAStore)) }
    {
        self.link_next(prev, next)?;
        self.link_prev(next, prev)?;
        Ok(())
    }

    /// Takes the entry of the child at place i out of its parent, which is among the images.
    ///
    /// Refused as `drop_entry` is; `NotAStore` also where the parent is not among the images; and `Memory`. After a
    /// refusal the images are of no use.
    pub fn drop_entry(&mut self, parent: PageNo, i: usize) -> Result<(), Fault>
        ensures new { OnOk result (Becomes self.old self.new (λ h. with_body h parent (without_entry (h parent) i))) }
        ensures causes { IfErr result (λ e. (e ≡ Memory) ⊎ (e ≡ NotAStore)) }
        ensures sound { (pages : Pages) → Has self.old parent → (held pages self.old parent).kind ≡ Inner → i < length (held pages self.old parent).entries → result ≡ Err NotAStore → ⊥ }
    {
        self.law_rise();
        let Some(mut above) = self.take(parent) else {
            return Err(Fault::NotAStore);
        };
        deletions::drop_entry(&mut above, i)?;
        self.put(parent, above)?;
        Ok(())
    }

    /// Takes the leftmost child out of its parent, which is among the images.
    ///
    /// Refused as `drop_leftmost` is; `NotAStore` also where the parent is not among the images; and `Memory`. After a
    /// refusal the images are of no use.
    pub fn drop_leftmost(&mut self, parent: PageNo) -> Result<(), Fault>
        ensures new { OnOk result (Becomes self.old self.new (λ h. with_body h parent (without_leftmost (h parent)))) }
        ensures causes { IfErr result (λ e. (e ≡ Memory) ⊎ (e ≡ NotAStore)) }
        ensures sound { (pages : Pages) → Has self.old parent → (held pages self.old parent).kind ≡ Inner → 0 < length (held pages self.old parent).entries → result ≡ Err NotAStore → ⊥ }
    {
        self.law_rise();
        let Some(mut above) = self.take(parent) else {
            return Err(Fault::NotAStore);
        };
        deletions::drop_leftmost(&mut above)?;
        self.put(parent, above)?;
        Ok(())
    }

    /// Makes the root a leaf without entries. Refused `Memory` alone; the images are then of no use.
    pub fn empty_root(&mut self, alloc: Global) -> Result<(), Fault>
        ensures new { OnOk result (Becomes self.old self.new root_emptied_pages) }
        ensures causes { IfErr result (λ e. e ≡ Memory) }
    {
        self.law_rise();
        let mut root = blank(alloc)?;
        deletions::empty_root(&mut root);
        self.put(1, root)?;
        Ok(())
    }
}
