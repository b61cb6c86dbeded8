//! Deletions: what the parent of a page that goes says after it, and a root left without a child.

ghost use Rattle.std.specs.Prelude.{◌≡◌, ◌<◌, ◌↔◌, [], OnOk, OnErr, IfErr, IsOk, length};
ghost use Rattle.im_base_types.specs.declared.fault.Fault.TheVariants.{NotAStore};
ghost use Rattle.im_base_types.specs.declared.page_kind.PageKind.TheVariants.{Inner};
ghost use Rattle.im_smo_pages.specs.Bodies.{says, without_entry, without_leftmost};
ghost use Rattle.im_theory_page.specs.Header.{leaf_body};

use im_base_types::{Fault, PageKind, PageNo};
use im_page::Page;

/// Takes the entry of a child that goes out of its parent: the child at place i, which is not the leftmost one.
/// Refused `NotAStore` exactly where the page is no inner page or has no such entry; it then stays as it was.
pub fn drop_entry(parent: &mut Page, i: usize) -> Result<(), Fault>
    ensures new { OnOk result (parent.new ≡ says parent.old (without_entry parent.old.body i)) }
    ensures same { OnErr result (parent.new ≡ parent.old) }
    ensures refused { IfErr result (λ e. e ≡ NotAStore) }
    ensures ok { IsOk result ↔ ((parent.old.body.kind ≡ Inner) × (i < length parent.old.body.entries)) }
{
    if parent.kind() != PageKind::Inner || parent.len() <= i {
        return Err(Fault::NotAStore);
    }
    parent.remove(i);
    Ok(())
}

/// Takes the leftmost child, which goes, out of its parent: the child of the first entry takes its place, and the entry
/// goes. Refused `NotAStore` exactly where the page is no inner page or has no entry; it then stays as it was.
pub fn drop_leftmost(parent: &mut Page) -> Result<(), Fault>
    ensures new { OnOk result (parent.new ≡ says parent.old (without_leftmost parent.old.body)) }
    ensures same { OnErr result (parent.new ≡ parent.old) }
    ensures refused { IfErr result (λ e. e ≡ NotAStore) }
    ensures ok { IsOk result ↔ ((parent.old.body.kind ≡ Inner) × (0 < length parent.old.body.entries)) }
{
    if parent.kind() != PageKind::Inner || parent.len() == 0 {
        return Err(Fault::NotAStore);
    }
    let first = parent.value(0) as PageNo;
    parent.set_leftmost(first);
    parent.remove(0);
    Ok(())
}

/// Makes the root, which was left without a child, a leaf with no entry and no leaf beside it.
pub fn empty_root(root: &mut Page)
    ensures { root.new ≡ says root.old (leaf_body 0 0 []) }
{
    root.become_leaf(0, 0);
}
