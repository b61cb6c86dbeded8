//! What a leaf has of a key that is to be changed.

ghost use Rattle.std.specs.Prelude.{◌≡◌, is_some};
ghost use Rattle.std.specs.FinMap.Entries.{find};
ghost use Rattle.im_base_types.specs.Keys.{key_order};

use im_base_types::Rid;
use im_page::Page;

// What a leaf has of a key.
pub(crate) fn rid_in(page: &Page, key: &[u8]) -> Option<Rid>
    ensures { result ≡ find key_order key.now page.now.body.entries }
{
    page.law_content();
    match page.find(key) {
        Ok(i) => Some(page.value(i)),
        Err(_) => None,
    }
}

// Whether there is a row id.
pub(crate) fn is_there(rid: &Option<Rid>) -> bool
    ensures { result ≡ is_some rid.now }
{
    rid.is_some()
}
