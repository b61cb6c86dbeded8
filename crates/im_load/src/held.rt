//! A page at the right edge of the tree, which is held until it is closed.

ghost use Rattle.std.specs.Prelude.{◌≡◌, ◌⊎◌, ◌↔◌, ◌+◌, ◌<◌, ◌^◌, ◌≤◌, Err, IsTrue, IfOk, IfErr, OnOk, OnErr, [], ◌∷◌, length};
ghost use Rattle.im_base_types.specs.declared.fault.Fault.TheVariants.{Memory, NotAStore};
ghost use Rattle.im_base_types.specs.declared.page_kind.PageKind.TheVariants.{Leaf, Inner};
ghost use Rattle.im_theory_page.specs.Entry.{taken, size, width};
ghost use Rattle.im_theory_page.specs.Header.{initial, leaf_body};
ghost use Rattle.im_theory_page.specs.Page.{is_leaf_kind};
ghost use Rattle.im_load.specs.Edge.{IsAboveAll};
ghost use Rattle.im_load.specs.Steps.{with_entry_last, inner_page};
ghost use Rattle.im_load.specs.Held.{with_new_body, with_last, TakesLast};

use im_base_types::{Fault, LONGEST_KEY, PageKind, PageNo, Rid, compare};
use im_page::Page;
use std::alloc::Global;
use std::cmp::Ordering;
use std::marker::Model;

/// A page, and its number.
#[derive(Drop)]
pub struct Held {
    number: PageNo,
    page: Box<Page>,
}

impl Model for Held {
    ghost use Rattle.im_load.specs.Held.{Numbered};

    ghost Value = { Numbered };

    ghost view = { λ h. (h.number, h.page.value) };
}

impl Held {
    /// An empty leaf, page 1.
    pub(crate) fn leaf(alloc: Global) -> Result<Held, Fault>
        ensures leaf { IfOk result (λ h. h ≡ (1, initial 1)) }
        ensures causes { IfErr result (λ e. e ≡ Memory) }
    {
        let page = Box::new(alloc, Page::initial(1)).map_err(|_| Fault::Memory)?;
        Ok(Held { number: 1, page })
    }

    /// An inner root of this level, over a child and the one after it, which the key parts. Refused `Memory`; and `NotAStore`
    /// where that is no key.
    pub(crate) fn root(
        alloc: Global,
        level: u8,
        left: PageNo,
        key: &[u8],
        right: PageNo,
    ) -> Result<Held, Fault>
        requires { 1 ≤ level }
        ensures root { IfOk result (λ h. h ≡ (1, record { lsn = 0; body = inner_page level left ((key.now, right) ∷ []) })) }
        ensures causes { IfErr result (λ e. (e ≡ Memory) ⊎ (e ≡ NotAStore)) }
        ensures sound { 1 ≤ length key.now → length key.now ≤ 255 → result ≡ Err NotAStore → ⊥ }
    {
        let page = Box::new(alloc, Page::initial(0)).map_err(|_| Fault::Memory)?;
        let mut root = Held { number: 1, page };
        root.begin_inner(1, level, left);
        root.put_child(key, right)?;
        Ok(root)
    }

    pub(crate) fn number(&self) -> PageNo
        ensures { result ≡ self.now.0 }
    {
        self.number
    }

    pub(crate) fn page(&self) -> &Page
        ensures { result.now ≡ self.now.1 }
    {
        &self.page
    }

    /// Whether all of its keys are below this one.
    pub(crate) fn ends_below(&self, key: &[u8]) -> bool
        ensures { IsTrue result ↔ IsAboveAll key.now self.now.1.body.entries }
    {
        let page = &self.page;
        page.law_content();
        let len = page.len();
        if len == 0 {
            return true;
        }
        match compare(page.key(len - 1), key) {
            Ordering::Less => true,
            Ordering::Equal => false,
            Ordering::Greater => false,
        }
    }

    /// Whether an entry with the longest key has room.
    pub(crate) fn is_open(&self) -> bool
        ensures { IsTrue result ↔ (taken (is_leaf_kind self.now.1.body.kind) self.now.1.body.entries + (1 + 255 + width (is_leaf_kind self.now.1.body.kind) + 2) ≤ 4064) }
    {
        self.page.has_room(LONGEST_KEY)
    }

    /// Puts an entry after all others. Refused `NotAStore`, with nothing changed, where it is no leaf that takes it there.
    pub(crate) fn put_entry(&mut self, key: &[u8], rid: Rid) -> Result<(), Fault>
        ensures put { OnOk result (self.new ≡ with_last self.old (key.now, rid)) }
        ensures refused { IfErr result (λ e. e ≡ NotAStore) }
        ensures sound { TakesLast Leaf self.old.1 (key.now, rid) → result ≡ Err NotAStore → ⊥ }
    {
        if self.page.kind() != PageKind::Leaf || !self.ends_below(key) {
            return Err(Fault::NotAStore);
        }
        put_last(&mut self.page, key, rid)
    }

    /// Puts a separator after all others, with its child. Refused `NotAStore`, with nothing changed, where it is no inner page that takes it there.
    pub(crate) fn put_child(&mut self, key: &[u8], child: PageNo) -> Result<(), Fault>
        ensures put { OnOk result (self.new ≡ with_last self.old (key.now, child)) }
        ensures refused { IfErr result (λ e. e ≡ NotAStore) }
        ensures sound { TakesLast Inner self.old.1 (key.now, child) → result ≡ Err NotAStore → ⊥ }
    {
        if self.page.kind() != PageKind::Inner || !self.ends_below(key) {
            return Err(Fault::NotAStore);
        }
        put_last(&mut self.page, key, child as u64)
    }

    /// Says which leaf comes after it. Refused `NotAStore`, with nothing changed, where it is no leaf.
    pub(crate) fn link(&mut self, next: PageNo) -> Result<(), Fault>
        ensures linked { OnOk result (self.new ≡ (self.old.0, with_new_body self.old.1 (record self.old.1.body { next = next }))) }
        ensures refused { IfErr result (λ e. e ≡ NotAStore) }
        ensures sound { self.old.1.body.kind ≡ Leaf → result ≡ Err NotAStore → ⊥ }
    {
        if self.page.kind() != PageKind::Leaf {
            return Err(Fault::NotAStore);
        }
        self.page.set_next(next);
        Ok(())
    }

    /// Becomes the leaf of a number, with one entry, after another leaf. Refused `NotAStore` where that is no key.
    pub(crate) fn begin_leaf(
        &mut self,
        number: PageNo,
        prev: PageNo,
        key: &[u8],
        rid: Rid,
    ) -> Result<(), Fault>
        ensures begun { OnOk result (self.new ≡ (number, record { lsn = self.old.1.lsn; body = leaf_body prev 0 ((key.now, rid) ∷ []) })) }
        ensures refused { IfErr result (λ e. e ≡ NotAStore) }
        ensures sound { 1 ≤ length key.now → length key.now ≤ 255 → result ≡ Err NotAStore → ⊥ }
    {
        self.number = number;
        self.page.become_leaf(prev, 0);
        self.put_entry(key, rid)
    }

    /// Becomes the inner page of a number, with one child.
    pub(crate) fn begin_inner(&mut self, number: PageNo, level: u8, child: PageNo)
        requires { 1 ≤ level }
        ensures { self.new ≡ (number, record { lsn = self.old.1.lsn; body = inner_page level child [] }) }
    {
        self.number = number;
        self.page.become_inner(level, child);
    }
}

// Puts an entry after all others of a page that has entries, where the key is above all: refused `NotAStore`, with nothing changed, where it is no
// key, or has no room.
fn put_last(page: &mut Page, key: &[u8], value: u64) -> Result<(), Fault>
    requires holds { (page.old.body.kind ≡ Leaf) ⊎ (page.old.body.kind ≡ Inner) }
    requires top { IsAboveAll key.now page.old.body.entries }
    requires fits { page.old.body.kind ≡ Inner → value < 2 ^ 32 }
    ensures put { OnOk result (page.new ≡ with_new_body page.old (with_entry_last page.old.body (key.now, value))) }
    ensures refused { IfErr result (λ e. e ≡ NotAStore) }
    ensures sound { 1 ≤ length key.now → length key.now ≤ 255
        → taken (is_leaf_kind page.old.body.kind) page.old.body.entries + size (is_leaf_kind page.old.body.kind) (key.now, value) + 2 ≤ 4064 → result ≡ Err NotAStore → ⊥ }
{
    if key.is_empty() || key.len() > LONGEST_KEY {
        return Err(Fault::NotAStore);
    }
    let len = page.len();
    match page.insert(len, key, value) {
        Ok(()) => Ok(()),
        Err(_) => Err(Fault::NotAStore),
    }
}
