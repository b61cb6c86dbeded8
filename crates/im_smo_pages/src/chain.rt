//! Links between leaves.

ghost use Rattle.std.specs.Prelude.{◌≡◌, OnOk, OnErr, IfErr, IsOk, ◌↔◌};
ghost use Rattle.im_base_types.specs.declared.fault.Fault.TheVariants.{NotAStore};
ghost use Rattle.im_base_types.specs.declared.page_kind.PageKind.TheVariants.{Leaf};
ghost use Rattle.im_smo_pages.specs.Bodies.{says, with_prev, with_next};

use im_base_types::{Fault, PageKind, PageNo};
use im_page::Page;

/// Tells a leaf which leaf is before it in the chain: after a split the new right part, after a deletion the leaf
/// that was before the one that goes; 0 for none. Refused `NotAStore` exactly where the page is no leaf; it then stays as
/// it was.
pub fn link_prev(page: &mut Page, prev: PageNo) -> Result<(), Fault>
    ensures new { OnOk result (page.new ≡ says page.old (with_prev page.old.body prev)) }
    ensures same { OnErr result (page.new ≡ page.old) }
    ensures refused { IfErr result (λ e. e ≡ NotAStore) }
    ensures ok { IsOk result ↔ (page.old.body.kind ≡ Leaf) }
{
    if page.kind() != PageKind::Leaf {
        return Err(Fault::NotAStore);
    }
    page.set_prev(prev);
    Ok(())
}

/// Tells a leaf which leaf is after it in the chain; 0 for none. Refused `NotAStore` exactly where the page is no leaf;
/// it then stays as it was.
pub fn link_next(page: &mut Page, next: PageNo) -> Result<(), Fault>
    ensures new { OnOk result (page.new ≡ says page.old (with_next page.old.body next)) }
    ensures same { OnErr result (page.new ≡ page.old) }
    ensures refused { IfErr result (λ e. e ≡ NotAStore) }
    ensures ok { IsOk result ↔ (page.old.body.kind ≡ Leaf) }
{
    if page.kind() != PageKind::Leaf {
        return Err(Fault::NotAStore);
    }
    page.set_next(next);
    Ok(())
}
