//! Pages taken and given back by a structure change: page 0, which says which, is among its images or the writer's.

ghost use Rattle.std.specs.Prelude.{◌≡◌, ◌≢◌, ◌⊎◌, ◌∷◌, ◌+◌, ◌^◌, ◌≤◌, ◌<◌, ◌↔◌, ℕ, List, false, IfErr, IfOk, IsOk, OnOk};
ghost use Rattle.im_base_types.specs.declared.fault.Fault.TheVariants.{Capacity, Memory, NotAStore};
ghost use Rattle.im_base_types.specs.declared.page_kind.PageKind.TheVariants.{Free, Meta};
ghost use Rattle.im_theory_page.specs.Header.{empty_body};
ghost use Rattle.im_page_writer.specs.PageWriter.{IsReadyWriter};
ghost use Rattle.im_page_writer.specs.Outcome.{fault_of, AllPages, AreLoaded, HasPages, IsSound, Outcome};
ghost use Rattle.im_smo_pages.specs.Bodies.{says, meta_with_first};
ghost use Rattle.im_smo_pages.specs.Images.{put_image, without_image};
ghost use Rattle.im_smo_pages.specs.Seen.{next_page, page_in, meta_behind, seen, GivesPage, TakesPage};
ghost use Rattle.im_smo_pages.specs.Kept.{mild_to_take, HasImages, Plans};

use crate::allocations::{give_free, take_count, take_free};
use crate::images::Images;
use crate::page_image::image;
use im_base_disk::Disk;
use im_base_types::{Fault, PageKind, PageNo};
use im_page::Page;
use im_page_writer::PageWriter;
use std::alloc::Global;

// The page that is taken next, by page 0: the first free one, and where there is none, the one past the page count.
//
// Refused `NotAStore` where page 0 names a first free page that the page count does not have.
fn next_number(meta: &Page) -> Result<PageNo, Fault>
    ensures number { IfOk result (λ n. n ≡ next_page meta.now.body) }
    ensures refused { IfErr result (λ e. e ≡ NotAStore) }
    ensures known { IsOk result ↔ (1 ≤ meta.now.body.prev → meta.now.body.next < meta.now.body.leftmost) }
{
    if meta.prev() == 0 {
        return Ok(meta.leftmost());
    }
    let first = meta.next();
    if first >= meta.leftmost() {
        return Err(Fault::NotAStore);
    }
    Ok(first)
}

// Takes it, in page 0. It has to be free: one that the page count leaves out may be in use where the count was damaged.
fn take_next(meta: &mut Page, page: &Page) -> Result<(), Fault>
    ensures new { OnOk result (meta.new ≡ says meta.old (meta_behind meta.old.body page.now.body)) }
    ensures causes { IfErr result (λ e. (e ≡ NotAStore) ⊎ (e ≡ Capacity)) }
    ensures used_up { IfErr result (λ e. e ≡ Capacity → (meta.old.body.prev ≡ 0) × (meta.old.body.leftmost + 1 ≡ 2 ^ 32)) }
    ensures free { OnOk result (page.now.body.kind ≡ Free) }
    ensures sound { meta.old.body.kind ≡ Meta → page.now.body.kind ≡ Free → IfErr result (λ e. e ≢ NotAStore) }
{
    if page.kind() != PageKind::Free {
        return Err(Fault::NotAStore);
    }
    if meta.prev() == 0 {
        take_count(meta)?;
        return Ok(());
    }
    take_free(meta, page)?;
    Ok(())
}

// Puts page 0 and another page back among the images.
fn put_both(
    images: &mut Images,
    meta: Box<Page>,
    number: PageNo,
    page: Box<Page>,
) -> Result<(), Fault>
    ensures new { OnOk result (images.new ≡ put_image 0 meta.value (put_image number page.value images.old)) }
    ensures refused { IfErr result (λ e. e ≡ Memory) }
{
    images.put(number, page)?;
    images.put(0, meta)
}

// Takes the next page, and puts it and page 0 back among the images.
fn settle_taken(
    images: &mut Images,
    mut meta: Box<Page>,
    number: PageNo,
    page: Box<Page>,
) -> Result<PageNo, Fault>
    ensures number { IfOk result (λ q. q ≡ number) }
    ensures new { OnOk result (images.new ≡ put_image 0 (says meta.value (meta_behind meta.value.body page.value.body)) (put_image number page.value images.old)) }
    ensures causes { IfErr result (λ e. (e ≡ Memory) ⊎ (e ≡ NotAStore) ⊎ (e ≡ Capacity)) }
    ensures used_up { IfErr result (λ e. e ≡ Capacity → (meta.value.body.prev ≡ 0) × (meta.value.body.leftmost + 1 ≡ 2 ^ 32)) }
    ensures free { OnOk result (page.value.body.kind ≡ Free) }
    ensures sound { meta.value.body.kind ≡ Meta → page.value.body.kind ≡ Free → IfErr result (λ e. e ≢ NotAStore) }
{
    take_next(&mut meta, &page)?;
    put_both(images, meta, number, page)?;
    Ok(number)
}

/// Takes a page for a structure change, and answers its number: the first free page, and where there is none, the one past
/// the page count. Its page and page 0, which says that it is taken, are among the images after it.
///
/// A page that is taken is free, whatever page 0 says: none that is in use is taken because the page count became smaller.
///
/// Refused `Capacity` where no page is free and the page count is 2^32 - 1; `NotAStore` where page 0 is no meta page, the
/// next page is not free, or the first free one is not below the page count; otherwise as `image` is. After a refusal the images may lack pages: the structure change is
/// given up.
pub fn allocate<D: Disk>(
    alloc: Global,
    images: &mut Images,
    writer: &mut PageWriter,
    disk: &mut D,
) -> Result<PageNo, Fault>
    requires ready { IsReadyWriter D.Disk writer.old disk.old }
    requires working { writer.old.failed ≡ false }
    ensures outcome { Outcome D.Disk AreLoaded mild_to_take writer.old disk.old writer.new disk.new (fault_of result) }
    ensures kept { (pages : AllPages) (spare : List ℕ) → HasImages D.Disk pages images.old spare writer.old disk.old → IsSound result (λ q. TakesPage pages images.old spare q images.new) }
    ensures used_up { (pages : AllPages) (spare : List ℕ) → HasImages D.Disk pages images.old spare writer.old disk.old
        → IfErr result (λ e. e ≡ Capacity → ((seen pages images.old 0).prev ≡ 0) × ((seen pages images.old 0).leftmost + 1 ≡ 2 ^ 32)) }
    ensures free { (pages : AllPages) → HasPages D.Disk AreLoaded pages writer.old disk.old → IfOk result (λ q. (page_in pages (without_image 0 images.old) q).body.kind ≡ Free) }
{
    let _rises = images.len();
    let meta = image(alloc, images, writer, disk, 0)?;
    let number = next_number(&meta)?;
    let page = image(alloc, images, writer, disk, number)?;
    settle_taken(images, meta, number, page)
}

// Makes a page the first free one, and puts it and page 0 back among the images.
fn settle_given(
    images: &mut Images,
    mut meta: Box<Page>,
    number: PageNo,
    mut page: Box<Page>,
) -> Result<(), Fault>
    ensures new { OnOk result (images.new ≡ put_image 0 (says meta.value (meta_with_first meta.value.body number))
        (put_image number (says page.value (empty_body Free 0 0 meta.value.body.next 0)) images.old)) }
    ensures causes { IfErr result (λ e. (e ≡ Memory) ⊎ (e ≡ NotAStore)) }
    ensures sound { meta.value.body.kind ≡ Meta → meta.value.body.prev < meta.value.body.leftmost → IfErr result (λ e. e ≢ NotAStore) }
{
    let _count = meta.leftmost();
    give_free(&mut meta, &mut page, number)?;
    put_both(images, meta, number, page)
}

/// Gives a page of a structure change back: it is the first free one, and it and page 0, which says so, are among the images
/// after it.
///
/// Refused `NotAStore` where page 0 is no meta page or counts 2^32 - 1 free pages; otherwise as `image` is. After a
/// refusal the images may lack pages: the structure change is given up.
#[tactic(auto, using(im_page_writer::proofs::Outcomes::then, im_page_writer::proofs::Outcomes::refused))]
pub fn free<D: Disk>(
    alloc: Global,
    images: &mut Images,
    writer: &mut PageWriter,
    disk: &mut D,
    number: PageNo,
) -> Result<(), Fault>
    requires ready { IsReadyWriter D.Disk writer.old disk.old }
    requires working { writer.old.failed ≡ false }
    ensures outcome { Plans D.Disk writer.old disk.old writer.new disk.new (fault_of result) }
    ensures kept { (pages : AllPages) (spare : List ℕ) → HasImages D.Disk pages images.old (number ∷ spare) writer.old disk.old → IsSound result (λ _. GivesPage pages images.old spare number images.new) }
{
    let _rises = images.len();
    let meta = image(alloc, images, writer, disk, 0)?;
    let page = image(alloc, images, writer, disk, number)?;
    settle_given(images, meta, number, page)
}
