//! Pages taken and given back by a structure change: the meta page is among its images.

ghost use Rattle.std.specs.Prelude.{◌≡◌, ◌⊎◌, ◌+◌, ◌<◌, ◌≤◌, ◌^◌, Err, OnOk, IfOk, IfErr};
ghost use Rattle.im_base_types.specs.declared.fault.Fault.TheVariants.{Capacity, Memory, NotAStore};
ghost use Rattle.im_base_types.specs.declared.page_kind.PageKind.TheVariants.{Meta, Free};
ghost use Rattle.im_theory_tree.specs.Levels.{Pages};
ghost use Rattle.im_smo_pages.specs.Images.{Has, held};
ghost use Rattle.im_smo_pages.specs.Changed.{free_given_pages};
ghost use Rattle.im_smo_pages.specs.OnImages.{Becomes, TakesFirst, TakesNext};

use crate::allocations;
use crate::boxes::blank;
use crate::images::Images;
use im_base_types::{Fault, PageNo};
use im_page::Page;
use std::alloc::Global;

impl Images {
    /// Takes the first free page, which is `page`, and answers its number.
    ///
    /// Refused as `take_free` is; `NotAStore` also where the meta page is not among the images; and `Memory`. After a
    /// refusal the images are of no use.
    pub fn take_free(&mut self, page: &Page) -> Result<PageNo, Fault>
        ensures taken { IfOk result (λ q. TakesFirst self.old self.new page.now.body q) }
        ensures causes { IfErr result (λ e. (e ≡ Memory) ⊎ (e ≡ NotAStore)) }
        ensures sound { (pages : Pages) → Has self.old 0 → (held pages self.old 0).kind ≡ Meta → 1 ≤ (held pages self.old 0).prev → page.now.body.kind ≡ Free → result ≡ Err NotAStore → ⊥ }
    {
        self.law_rise();
        let Some(mut meta) = self.take(0) else {
            return Err(Fault::NotAStore);
        };
        let number = allocations::take_free(&mut meta, page)?;
        self.put(0, meta)?;
        Ok(number)
    }

    /// Takes the page of the number that the page count is, where no page is free, and answers the number.
    ///
    /// Refused as `take_count` is; `NotAStore` also where the meta page is not among the images; and `Memory`. After a
    /// refusal the images are of no use.
    pub fn take_count(&mut self) -> Result<PageNo, Fault>
        ensures taken { IfOk result (λ q. TakesNext self.old self.new q) }
        ensures causes { IfErr result (λ e. (e ≡ Memory) ⊎ ((e ≡ NotAStore) ⊎ (e ≡ Capacity))) }
        ensures full { result ≡ Err Capacity → (pages : Pages) → (held pages self.old 0).leftmost + 1 ≡ 2 ^ 32 }
        ensures sound { (pages : Pages) → Has self.old 0 → (held pages self.old 0).kind ≡ Meta → (held pages self.old 0).prev ≡ 0 → result ≡ Err NotAStore → ⊥ }
    {
        self.law_rise();
        let Some(mut meta) = self.take(0) else {
            return Err(Fault::NotAStore);
        };
        let number = allocations::take_count(&mut meta)?;
        self.put(0, meta)?;
        Ok(number)
    }

    /// Gives a page back: it becomes the first free one.
    ///
    /// Refused as `give_free` is; `NotAStore` also where the meta page is not among the images; and `Memory`. After a
    /// refusal the images are of no use.
    pub fn give_free(&mut self, alloc: Global, number: PageNo) -> Result<(), Fault>
        ensures new { OnOk result (Becomes self.old self.new (λ h. free_given_pages h number)) }
        ensures causes { IfErr result (λ e. (e ≡ Memory) ⊎ (e ≡ NotAStore)) }
        ensures sound { (pages : Pages) → Has self.old 0 → (held pages self.old 0).kind ≡ Meta → (held pages self.old 0).prev + 1 < 2 ^ 32 → result ≡ Err NotAStore → ⊥ }
    {
        self.law_rise();
        let Some(mut meta) = self.take(0) else {
            return Err(Fault::NotAStore);
        };
        let mut page = blank(alloc)?;
        allocations::give_free(&mut meta, &mut page, number)?;
        self.put(0, meta)?;
        self.put(number, page)?;
        Ok(())
    }
}
