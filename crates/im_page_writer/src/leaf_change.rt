//! A held leaf, changed as a record says.
ghost use Rattle.std.specs.Prelude.{true};
ghost use Rattle.im_base_types.specs.Records.{InsertKey, DeleteKey};
ghost use Rattle.im_theory_log.specs.Histories.{page_after};
ghost use Rattle.im_page_pool.specs.Pool.{IsAt, Sets, page_at};
ghost use Rattle.im_page.specs.LeafChange.{HasPlaceFor, HasKeyAt};
ghost use Rattle.im_page.specs.LeafEdits.{edit_of, HasPlace};

use im_base_types::Lsn;
use im_page::LeafEdit;
use im_page_pool::{Frame, Pool};

// Puts a key at its place in a held leaf, by the record at an LSN. A change of entries clears the mark of a structure change.
fn put_key(pool: &mut Pool, frame: Frame, i: usize, key: &[u8], rid: u64, lsn: Lsn)
    requires at { IsAt pool.old frame }
    requires place { HasPlaceFor (page_at pool.old frame.number) key.now i }
    ensures { Sets frame (page_after lsn (InsertKey key.now rid) (page_at pool.old frame.number)) true pool.old pool.new }
{
    match pool.insert(frame, i, key, rid) {
        Ok(()) => {
            pool.set_marked(frame, false);
            pool.set_lsn(frame, lsn);
        }
        Err(_) => {}
    }
}

// Takes a key out of its place in a held leaf, by the record at an LSN.
fn take_key(pool: &mut Pool, frame: Frame, i: usize, key: &[u8], rid: u64, lsn: Lsn)
    requires at { IsAt pool.old frame }
    requires place { HasKeyAt (page_at pool.old frame.number) key.now i }
    ensures { Sets frame (page_after lsn (DeleteKey key.now rid) (page_at pool.old frame.number)) true pool.old pool.new }
{
    pool.remove(frame, i);
    pool.set_marked(frame, false);
    pool.set_lsn(frame, lsn);
}

/// Puts a key at its place in a held leaf, or takes it out of there, by the record at an LSN.
pub(crate) fn edit_key(
    pool: &mut Pool,
    frame: Frame,
    edit: LeafEdit,
    i: usize,
    key: &[u8],
    rid: u64,
    lsn: Lsn,
)
    requires at { IsAt pool.old frame }
    requires place { HasPlace edit (page_at pool.old frame.number) key.now i }
    ensures { Sets frame (page_after lsn (edit_of edit key.now rid) (page_at pool.old frame.number)) true pool.old pool.new }
{
    match edit {
        LeafEdit::Put => put_key(pool, frame, i, key, rid, lsn),
        LeafEdit::Take => take_key(pool, frame, i, key, rid, lsn),
    }
}
