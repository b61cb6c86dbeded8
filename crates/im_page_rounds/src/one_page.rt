//! A record of redo, applied to its page alone.
ghost use Rattle.std.specs.Prelude.{◌≡◌, ◌<◌, None, true, false, IfErr, IfOk, OnErr};
ghost use Rattle.im_base_types.specs.declared.fault.Fault.TheVariants.{NotAStore};
ghost use Rattle.im_base_types.specs.Records.{InsertKey, DeleteKey};
ghost use Rattle.im_theory_log.specs.Histories.{page_after};
ghost use Rattle.im_log_record.specs.Entry.{view};
ghost use Rattle.im_log_record.specs.Spelling.{IsEntry};
ghost use Rattle.im_log.specs.Spelled.{logged_at};
ghost use Rattle.im_log.specs.Whats.{what_of};
ghost use Rattle.im_page_file.specs.PageCopy.{after_in};
ghost use Rattle.im_page.specs.LeafChange.{HasPlaceFor, HasKeyAt};
ghost use Rattle.im_page.specs.LeafEdits.{edit_of, HasPlace, MayEdit};
ghost use Rattle.im_page_rounds.specs.OnePage.{PageChanges, PageRedone, PageRefuses, PageTakes};

use im_base_types::{Fault, Lsn};
use im_log_record::Record;
use im_page::{LeafEdit, Page, place_in};
use im_page_file::read_after;

// Puts a key at its place in a leaf, by the record at an LSN. A change of entries clears the mark of a structure change.
fn put_key(page: &mut Page, i: usize, key: &[u8], rid: u64, lsn: Lsn)
    requires place { HasPlaceFor page.old key.now i }
    ensures { page.new ≡ page_after lsn (InsertKey key.now rid) page.old }
{
    match page.insert(i, key, rid) {
        Ok(()) => {
            page.set_marked(false);
            page.set_lsn(lsn);
        }
        Err(_) => {}
    }
}

// Takes a key out of its place in a leaf, by the record at an LSN.
fn take_key(page: &mut Page, i: usize, key: &[u8], rid: u64, lsn: Lsn)
    requires place { HasKeyAt page.old key.now i }
    ensures { page.new ≡ page_after lsn (DeleteKey key.now rid) page.old }
{
    page.remove(i);
    page.set_marked(false);
    page.set_lsn(lsn);
}

// Puts a key at its place in a leaf, or takes it out of there, by the record at an LSN.
fn edit_key(page: &mut Page, edit: LeafEdit, i: usize, key: &[u8], rid: u64, lsn: Lsn)
    requires place { HasPlace edit page.old key.now i }
    ensures { page.new ≡ page_after lsn (edit_of edit key.now rid) page.old }
{
    match edit {
        LeafEdit::Put => put_key(page, i, key, rid, lsn),
        LeafEdit::Take => take_key(page, i, key, rid, lsn),
    }
}

// A key is put into a leaf, or taken out. Refused `NotAStore` where it does not take that.
fn redo_key(page: &mut Page, lsn: Lsn, edit: LeafEdit, key: &[u8], rid: u64) -> Result<bool, Fault>
    ensures ok { IfOk result (λ done. PageChanges lsn (edit_of edit key.now rid) page.old done page.new) }
    ensures err { OnErr result (page.new ≡ page.old) }
    ensures refused { IfErr result (λ e. (e ≡ NotAStore) × ¬ (MayEdit edit page.old key.now)) }
{
    let i = place_in(edit, page, key)?;
    edit_key(page, edit, i, key, rid, lsn);
    Ok(true)
}

// Makes a page another one, with an LSN.
fn set_page(page: &mut Page, lsn: Lsn, other: &Page)
    ensures { page.new ≡ record { lsn = lsn; body = other.now.body } }
{
    match page.load(other.bytes()) {
        Ok(()) => page.set_lsn(lsn),
        Err(_) => {}
    }
}

// A page becomes the one after a structure change, or its undo, if the record is one, with images that are pages.
fn redo_after(page: &mut Page, spare: &mut Page, lsn: Lsn, record: &Record) -> bool
    requires entry { IsEntry (view record.now) }
    ensures none { result ≡ false → after_in (what_of (view record.now)) ≡ None }
    ensures applied { result ≡ true → PageChanges lsn (what_of (view record.now)) page.old true page.new }
    ensures same { result ≡ false → page.new ≡ page.old }
{
    if !read_after(spare, record) {
        return false;
    }
    set_page(page, lsn, spare);
    true
}

// Changes a page by a record at an LSN, whatever LSN it has, and answers whether the record's kind changes a page.
fn change_page(page: &mut Page, spare: &mut Page, lsn: Lsn, record: &Record) -> Result<bool, Fault>
    requires entry { IsEntry (view record.now) }
    ensures ok { IfOk result (λ done. PageChanges lsn (what_of (view record.now)) page.old done page.new) }
    ensures err { OnErr result (page.new ≡ page.old) }
    ensures refused { IfErr result (λ e. (e ≡ NotAStore) × ¬ (PageTakes (what_of (view record.now)) page.old)) }
{
    match record {
        Record::InsertKey { key, rid, .. } => redo_key(page, lsn, LeafEdit::Put, key, *rid),
        Record::UndoDelete { key, rid, .. } => redo_key(page, lsn, LeafEdit::Put, key, *rid),
        Record::DeleteKey { key, rid, .. } => redo_key(page, lsn, LeafEdit::Take, key, *rid),
        Record::UndoInsert { key, rid, .. } => redo_key(page, lsn, LeafEdit::Take, key, *rid),
        Record::Smo { .. } => Ok(redo_after(page, spare, lsn, record)),
        Record::UndoSmo { .. } => Ok(redo_after(page, spare, lsn, record)),
        _ => Ok(false),
    }
}

/// Goes past the record at an LSN, which is one of this page, in redo: where the page's LSN is lower and the record's kind changes a
/// page, the page is changed by it; otherwise it stays. It answers whether it was changed. `spare` is any page then.
///
/// Refused `NotAStore` where the page needs the record and does not take it; the page then stays as it was.
pub fn redo_on(page: &mut Page, spare: &mut Page, lsn: Lsn, record: &Record) -> Result<bool, Fault>
    requires entry { IsEntry (view record.now) }
    ensures ok { IfOk result (λ done. PageRedone (logged_at lsn (view record.now)) page.old done page.new) }
    ensures err { OnErr result (page.new ≡ page.old) }
    ensures refused { IfErr result (λ e. (e ≡ NotAStore) × PageRefuses (logged_at lsn (view record.now)) page.old) }
{
    if page.lsn() >= lsn {
        return Ok(false);
    }
    change_page(page, spare, lsn, record)
}
