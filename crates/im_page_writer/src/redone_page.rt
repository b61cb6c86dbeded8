//! A held page, changed by a record of redo.
ghost use Rattle.std.specs.Prelude.{◌≡◌, None, true, false, IfErr, IfOk, OnErr};
ghost use Rattle.im_base_types.specs.declared.fault.Fault.TheVariants.{NotAStore};
ghost use Rattle.im_log_record.specs.Entry.{view};
ghost use Rattle.im_log_record.specs.Spelling.{IsEntry};
ghost use Rattle.im_log.specs.Whats.{what_of};
ghost use Rattle.im_page_pool.specs.Pool.{IsAt, Sets, page_at};
ghost use Rattle.im_page.specs.LeafEdits.{edit_of, MayEdit};
ghost use Rattle.im_page_file.specs.PageCopy.{after_in};
ghost use Rattle.im_page_writer.specs.Redoing.{AppliedTo};
ghost use Rattle.im_page_rounds.specs.OnePage.{PageTakes};

use crate::leaf_change::edit_key;
use im_base_types::{Fault, Lsn};
use im_log_record::Record;
use im_page::{LeafEdit, Page, place_in};
use im_page_file::read_after;
use im_page_pool::{Frame, Pool};

// A key is put into a leaf, or taken out. Refused `NotAStore` where it does not take that.
fn redo_key(
    pool: &mut Pool,
    frame: Frame,
    lsn: Lsn,
    edit: LeafEdit,
    key: &[u8],
    rid: u64,
) -> Result<bool, Fault>
    requires at { IsAt pool.old frame }
    ensures ok { IfOk result (λ done. AppliedTo lsn (edit_of edit key.now rid) frame pool.old done pool.new) }
    ensures err { OnErr result (pool.new ≡ pool.old) }
    ensures refused { IfErr result (λ e. (e ≡ NotAStore) × ¬ (MayEdit edit (page_at pool.old frame.number) key.now)) }
{
    let i = place_in(edit, pool.page(frame), key)?;
    edit_key(pool, frame, edit, i, key, rid, lsn);
    Ok(true)
}

/// Makes a held page this one, with an LSN.
pub(crate) fn set_page(pool: &mut Pool, frame: Frame, lsn: Lsn, page: &Page)
    requires { IsAt pool.old frame }
    ensures { Sets frame (record { lsn = lsn; body = page.now.body }) true pool.old pool.new }
{
    match pool.copy_in(frame, page.bytes()) {
        Ok(()) => pool.set_lsn(frame, lsn),
        Err(_) => {}
    }
}

// A held page becomes the one after a structure change, or its undo, if the record is one, with images that are pages.
fn redo_after(pool: &mut Pool, spare: &mut Page, frame: Frame, lsn: Lsn, record: &Record) -> bool
    requires entry { IsEntry (view record.now) }
    requires at { IsAt pool.old frame }
    ensures none { result ≡ false → after_in (what_of (view record.now)) ≡ None }
    ensures applied { result ≡ true → AppliedTo lsn (what_of (view record.now)) frame pool.old true pool.new }
    ensures same { result ≡ false → pool.new ≡ pool.old }
{
    if !read_after(spare, record) {
        return false;
    }
    set_page(pool, frame, lsn, spare);
    true
}

/// Changes a held page by a record at an LSN, and answers whether its kind changes a page; otherwise nothing changes. `spare` is any
/// page then.
///
/// Refused `NotAStore`, exactly where the page does not take the record.
pub(crate) fn redo_record(
    pool: &mut Pool,
    spare: &mut Page,
    frame: Frame,
    lsn: Lsn,
    record: &Record,
) -> Result<bool, Fault>
    requires entry { IsEntry (view record.now) }
    requires at { IsAt pool.old frame }
    ensures ok { IfOk result (λ done. AppliedTo lsn (what_of (view record.now)) frame pool.old done pool.new) }
    ensures err { OnErr result (pool.new ≡ pool.old) }
    ensures refused { IfErr result (λ e. (e ≡ NotAStore) × ¬ (PageTakes (what_of (view record.now)) (page_at pool.old frame.number))) }
{
    match record {
        Record::InsertKey { key, rid, .. } => redo_key(pool, frame, lsn, LeafEdit::Put, key, *rid),
        Record::UndoDelete { key, rid, .. } => redo_key(pool, frame, lsn, LeafEdit::Put, key, *rid),
        Record::DeleteKey { key, rid, .. } => redo_key(pool, frame, lsn, LeafEdit::Take, key, *rid),
        Record::UndoInsert { key, rid, .. } => redo_key(
            pool,
            frame,
            lsn,
            LeafEdit::Take,
            key,
            *rid,
        ),
        Record::Smo { .. } => Ok(redo_after(pool, spare, frame, lsn, record)),
        Record::UndoSmo { .. } => Ok(redo_after(pool, spare, frame, lsn, record)),
        _ => Ok(false),
    }
}
