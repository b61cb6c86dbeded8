//! A page's bytes as records of structure changes have them.

ghost use Rattle.std.specs.Prelude.{◌≡◌, length, Some};
ghost use Rattle.im_log.specs.Whats.{page_behind};

use im_page::Page;

/// The 4,088 bytes after a page's LSN.
pub(crate) fn behind(page: &Page) -> &[u8]
    ensures len { length result.now ≡ 4088 }
    ensures page { page_behind result.now ≡ Some (record page.now { lsn = 0 }) }
{
    &page.bytes()[8..]
}

/// Copies them.
pub(crate) fn copy_behind(room: &mut [u8], page: &Page)
    requires { length room.old ≡ 4088 }
    ensures len { length room.new ≡ 4088 }
    ensures page { page_behind room.new ≡ Some (record page.now { lsn = 0 }) }
{
    room.copy_from_slice(behind(page));
}
