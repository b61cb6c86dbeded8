//! What a held leaf says of a key that comes or goes.

ghost use Rattle.std.specs.Prelude.{◌≡◌, ◌≢◌, ◌≤◌, ◌⊎◌, true, false, length};
ghost use Rattle.im_base_types.specs.declared.page_kind.PageKind.TheVariants.{Leaf};
ghost use Rattle.im_theory_page.specs.Split.{HasRoom};
ghost use Rattle.im_page_pool.specs.Pool.{page_at, IsAt};

use im_page_pool::Frame;
use im_page_writer::PageWriter;

/// Whether a page that is not the root would be left empty without one of its entries.
pub fn is_last_entry(writer: &PageWriter, frame: Frame) -> bool
    requires at { IsAt writer.now.pool frame }
    ensures last { result ≡ true → (frame.number ≢ 1) × (length (page_at writer.now.pool frame.number).body.entries ≡ 1) }
    ensures more { result ≡ false → (frame.number ≡ 1) ⊎ (length (page_at writer.now.pool frame.number).body.entries ≢ 1) }
{
    frame.number != 1 && writer.page(frame).len() == 1
}

/// Whether a leaf has room for a key more.
pub fn has_room(writer: &PageWriter, frame: Frame, key: &[u8]) -> bool
    requires at { IsAt writer.now.pool frame }
    requires leaf { (page_at writer.now.pool frame.number).body.kind ≡ Leaf }
    requires short { length key.now ≤ 255 }
    ensures room { result ≡ true → HasRoom true (page_at writer.now.pool frame.number).body.entries (key.now, 0) }
    ensures full { result ≡ false → ¬ (HasRoom true (page_at writer.now.pool frame.number).body.entries (key.now, 0)) }
{
    writer.page(frame).has_room(key.len())
}
