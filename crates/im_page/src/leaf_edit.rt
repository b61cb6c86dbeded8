//! A key that is put into a leaf or taken out: whether the leaf takes that, and where.
ghost use Rattle.std.specs.Prelude.{◌≡◌, IfErr, IfOk};
ghost use Rattle.im_base_types.specs.declared.fault.Fault.TheVariants.{NotAStore};
ghost use Rattle.im_page.specs.LeafChange.{HasPlaceFor, HasKeyAt, CanPutKey, CanTakeKey};
ghost use Rattle.im_page.specs.LeafEdits.{HasPlace, MayEdit};

use crate::page::Page;
use im_base_types::{Fault, LONGEST_KEY, PageKind};

/// What a record does with a key of a leaf: it is put in, or taken out.
#[derive(Clone, Copy)]
pub enum LeafEdit {
    Put,
    Take,
}

// Where a key would stand in a leaf that lacks it and has room for it. Refused `NotAStore`, exactly where the page is no such leaf.
fn place_for(page: &Page, key: &[u8]) -> Result<usize, Fault>
    ensures ok { IfOk result (λ i. HasPlaceFor page.now key.now i) }
    ensures refused { IfErr result (λ e. (e ≡ NotAStore) × ¬ (CanPutKey page.now key.now)) }
{
    page.law_content();
    if page.kind() != PageKind::Leaf || key.is_empty() || key.len() > LONGEST_KEY {
        return Err(Fault::NotAStore);
    }
    match page.find(key) {
        Ok(_) => Err(Fault::NotAStore),
        Err(i) => {
            if page.has_room(key.len()) {
                Ok(i)
            } else {
                Err(Fault::NotAStore)
            }
        }
    }
}

// Where a key stands in a leaf. Refused `NotAStore`, exactly where the page is no leaf that has it.
fn place_of(page: &Page, key: &[u8]) -> Result<usize, Fault>
    ensures ok { IfOk result (λ i. HasKeyAt page.now key.now i) }
    ensures refused { IfErr result (λ e. (e ≡ NotAStore) × ¬ (CanTakeKey page.now key.now)) }
{
    if page.kind() != PageKind::Leaf {
        return Err(Fault::NotAStore);
    }
    page.law_content();
    match page.find(key) {
        Ok(i) => Ok(i),
        Err(_) => Err(Fault::NotAStore),
    }
}

/// Where a key would stand in a leaf that it may be put into, or stands in one that it may be taken out of. Refused `NotAStore`, exactly
/// where the page is no such leaf.
pub fn place_in(edit: LeafEdit, page: &Page, key: &[u8]) -> Result<usize, Fault>
    ensures ok { IfOk result (λ i. HasPlace edit page.now key.now i) }
    ensures refused { IfErr result (λ e. (e ≡ NotAStore) × ¬ (MayEdit edit page.now key.now)) }
{
    match edit {
        LeafEdit::Put => place_for(page, key),
        LeafEdit::Take => place_of(page, key),
    }
}
