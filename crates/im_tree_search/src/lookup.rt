//! The row id of a key in a page.

ghost use Rattle.std.specs.Prelude.{◌≡◌};
ghost use Rattle.std.specs.FinMap.Entries.{find};
ghost use Rattle.im_base_types.specs.Keys.{key_order};

use im_page::Page;

/// What a page has of a key.
pub fn value_of(page: &Page, key: &[u8]) -> Option<u64>
    ensures { result ≡ find key_order key.now page.now.body.entries }
{
    page.law_content();
    match page.find(key) {
        Ok(i) => Some(page.value(i)),
        Err(_) => None,
    }
}
