//! Pages taken and given back: the meta page, and the page itself.

ghost use Rattle.std.specs.Prelude.{◌≡◌, ◌⊎◌, ◌↔◌, ◌+◌, ◌<◌, ◌≤◌, ◌^◌, OnOk, OnErr, IfOk, IfErr, IsOk};
ghost use Rattle.im_base_types.specs.declared.fault.Fault.TheVariants.{Capacity, NotAStore};
ghost use Rattle.im_base_types.specs.declared.page_kind.PageKind.TheVariants.{Meta, Free};
ghost use Rattle.im_theory_page.specs.Header.{empty_body};
ghost use Rattle.im_smo_pages.specs.Bodies.{says, meta_without_first, meta_with_count, meta_with_first};

use im_base_types::{Fault, PageKind, PageNo};
use im_page::Page;

/// Takes the first free page: `page`, whose number the meta page's `next` is. It answers the number. The page itself
/// does not change; it is not in the list of free pages any more.
///
/// Refused `NotAStore`, with nothing changed, exactly where `meta` is no meta page or names no free page, or the page is
/// not free.
pub fn take_free(meta: &mut Page, page: &Page) -> Result<PageNo, Fault>
    ensures number { IfOk result (λ q. q ≡ meta.old.body.next) }
    ensures new { IfOk result (λ _. meta.new ≡ says meta.old (meta_without_first meta.old.body page.now.body)) }
    ensures same { OnErr result (meta.new ≡ meta.old) }
    ensures refused { IfErr result (λ e. e ≡ NotAStore) }
    ensures ok { IsOk result ↔ ((meta.old.body.kind ≡ Meta) × (1 ≤ meta.old.body.prev) × (page.now.body.kind ≡ Free)) }
{
    if meta.kind() != PageKind::Meta || meta.prev() == 0 || page.kind() != PageKind::Free {
        return Err(Fault::NotAStore);
    }
    let number = meta.next();
    meta.set_prev(meta.prev() - 1);
    meta.set_next(page.next());
    Ok(number)
}

/// Takes the page of the number that the page count is, where no page is free: the count grows by one. It answers the
/// number.
///
/// Refused, with nothing changed: `NotAStore` exactly where `meta` is no meta page or names a free page, which has to be
/// taken first; else `Capacity` where the page count is 2^32 - 1.
pub fn take_count(meta: &mut Page) -> Result<PageNo, Fault>
    ensures number { IfOk result (λ q. q ≡ meta.old.body.leftmost) }
    ensures new { IfOk result (λ _. meta.new ≡ says meta.old (meta_with_count meta.old.body)) }
    ensures same { OnErr result (meta.new ≡ meta.old) }
    ensures refused { IfErr result (λ e. (e ≡ NotAStore) ⊎ ((e ≡ Capacity) × (meta.old.body.leftmost + 1 ≡ 2 ^ 32))) }
    ensures ok { IsOk result ↔ ((meta.old.body.kind ≡ Meta) × (meta.old.body.prev ≡ 0) × (meta.old.body.leftmost + 1 < 2 ^ 32)) }
    ensures sound { meta.old.body.kind ≡ Meta → meta.old.body.prev ≡ 0 → IfErr result (λ e. e ≡ Capacity) }
{
    if meta.kind() != PageKind::Meta || meta.prev() != 0 {
        return Err(Fault::NotAStore);
    }
    let number = meta.leftmost();
    if number == PageNo::MAX {
        return Err(Fault::Capacity);
    }
    meta.set_leftmost(number + 1);
    Ok(number)
}

/// Gives a page back: it becomes the first free one.
///
/// Refused `NotAStore`, with nothing changed, exactly where `meta` is no meta page or counts 2^32 - 1 free pages.
pub fn give_free(meta: &mut Page, page: &mut Page, number: PageNo) -> Result<(), Fault>
    ensures meta { OnOk result (meta.new ≡ says meta.old (meta_with_first meta.old.body number)) }
    ensures page { OnOk result (page.new ≡ says page.old (empty_body Free 0 0 meta.old.body.next 0)) }
    ensures same { OnErr result ((meta.new ≡ meta.old) × (page.new ≡ page.old)) }
    ensures refused { IfErr result (λ e. e ≡ NotAStore) }
    ensures ok { IsOk result ↔ ((meta.old.body.kind ≡ Meta) × (meta.old.body.prev + 1 < 2 ^ 32)) }
{
    if meta.kind() != PageKind::Meta || meta.prev() == PageNo::MAX {
        return Err(Fault::NotAStore);
    }
    page.become_free(meta.next());
    meta.set_prev(meta.prev() + 1);
    meta.set_next(number);
    Ok(())
}
