//! Which pages a structure change beside a search has made.

ghost use Rattle.std.specs.Prelude.{◌≡◌, ◌≢◌, ◌==◌, [], true, false};
ghost use Rattle.std.specs.List.{list_any};
ghost use Rattle.im_tree_search.specs.Sights.{is_done};

use crate::change_beside::Beside;
use im_base_types::PageNo;

impl<'a> Beside<'a> {
    /// No structure change is under way.
    pub fn none() -> Beside<'a>
        ensures pages { result.pages.now ≡ [] }
        ensures done { result.done ≡ 0 }
    {
        Beside {
            pages: &[],
            done: 0,
            count: 0,
        }
    }

    /// A change of these pages, of which the first so many are made; `count` is the page count that page 0 had before.
    pub fn of(pages: &'a [PageNo], done: usize, count: PageNo) -> Beside<'a>
        ensures pages { result.pages.now ≡ pages.now }
        ensures done { result.done ≡ done }
        ensures count { result.count ≡ count }
    {
        Beside { pages, done, count }
    }

    /// Whether there is none.
    pub fn is_none(&self) -> bool
        ensures none { result ≡ true → self.now.pages.now ≡ [] }
        ensures some { result ≡ false → self.now.pages.now ≢ [] }
    {
        self.pages.is_empty()
    }

    /// How many pages the store had before it, as page 0 said.
    pub fn count(&self) -> PageNo
        ensures { result ≡ self.now.count }
    {
        self.count
    }

    /// Whether a page is one of its plan.
    pub fn has(&self, number: PageNo) -> bool
        ensures { result ≡ list_any (λ q. q == number) self.now.pages.now }
    {
        self.pages.contains(&number)
    }

    /// Whether a page is one of those that are made.
    pub fn is_done(&self, number: PageNo) -> bool
        ensures { result ≡ is_done self.now number }
    {
        let done = self.done.min(self.pages.len());
        self.pages[..done].contains(&number)
    }
}
