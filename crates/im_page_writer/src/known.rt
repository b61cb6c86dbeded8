//! What a writer knows of pages that it does not hold.
ghost use Rattle.std.specs.Prelude.{◌≡◌, ◌≢◌, ℕ, [], None, Some, false, true};
ghost use Rattle.im_page_writer.specs.Synced.{MayBe};

use im_base_types::{Lsn, PageNo};
use im_page::Page;
use std::alloc::Global;
use std::collections::BTreeMap;

/// What the file of pages was synced with before this life, as far as the log says.
#[derive(Drop)]
pub struct Synced {
    /// For each page that a record below the redo point changed, the LSN of the last such record. 12 bytes and some for each such page,
    /// as long as the writer lasts.
    pub lsns: BTreeMap<PageNo, Lsn>,
    /// The page count that page 0 says after its own, where that record is one of a structure change.
    pub count: Option<PageNo>,
}

/// What is known of pages that are not held.
#[derive(Drop)]
pub(crate) struct Known {
    /// The LSN of the first record of this life, after its last Checkpoint, that changed a leaf. A page without an entry that has this
    /// LSN or a later one was changed since, and written since: the log has a full copy of it at or after its redo point.
    pub from: Option<Lsn>,
    /// An Image by which a full copy of its page is known may wait in the log, after all changes of that page.
    pub ahead: bool,
    pub synced: Synced,
}

// Whether page 0, with the LSN that it was synced with, says another page count.
fn says_another(count: Option<PageNo>, page: &Page) -> bool
    ensures says { result ≡ true → (n : ℕ) → count ≡ Some n → page.now.body.leftmost ≢ n }
    ensures same { result ≡ false → (n : ℕ) → count ≡ Some n → page.now.body.leftmost ≡ n }
    ensures some { result ≡ true → count ≢ None }
{
    match count {
        None => false,
        Some(count) => page.leftmost() != count,
    }
}

impl Known {
    /// Nothing.
    pub fn new(alloc: Global) -> Self
        ensures from { result.from ≡ None }
        ensures none { result.synced.lsns.entries ≡ [] }
        ensures count { result.synced.count ≡ None }
    {
        Known {
            from: None,
            ahead: false,
            synced: Synced {
                lsns: BTreeMap::new(alloc),
                count: None,
            },
        }
    }

    /// Nothing is known from now on.
    pub fn forget(&mut self)
        ensures from { self.new.from ≡ None }
        ensures none { self.new.synced.lsns.entries ≡ [] }
    {
        self.from = None;
        self.ahead = false;
        self.synced.lsns.clear();
        self.synced.count = None;
    }

    /// Whether the file may have this page.
    pub fn may_be(&self, number: PageNo, page: &Page) -> bool
        ensures may { result ≡ true → MayBe self.now.synced number page.now }
        ensures lacks { result ≡ false → ¬ (MayBe self.now.synced number page.now) }
    {
        match self.synced.lsns.get(&number) {
            None => true,
            Some(lsn) => {
                if page.lsn() == *lsn && number == 0 {
                    !says_another(self.synced.count, page)
                } else {
                    page.lsn() >= *lsn
                }
            }
        }
    }
}
