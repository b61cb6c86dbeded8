//! The copy of its page that a record holds.
ghost use Rattle.std.specs.Prelude.{◌≡◌, ◌+◌, ◌++◌, true, false, length, replicate, None, Some};
ghost use Rattle.im_theory_log.specs.Copies.{copy_in};
ghost use Rattle.im_log_record.specs.Entry.{view};
ghost use Rattle.im_log_record.specs.Spelling.{IsEntry};
ghost use Rattle.im_log.specs.Whats.{page_behind, what_of};
ghost use Rattle.im_page_file.specs.PageCopy.{after_in};

use im_base_types::{Lsn, PAGE_SIZE};
use im_log_record::Record;
use im_page::Page;

// Eight zeros, and then the bytes of a page without its LSN.
fn put_behind(room: &mut [u8], body: &[u8])
    requires { length room.old ≡ 8 + length body.now }
    ensures { room.new ≡ replicate 8 0 ++ body.now }
{
    room[..8].copy_from_slice(&[0; 8]);
    room[8..].copy_from_slice(body);
}

// Makes a page the one that these bytes are after an LSN of zero, and answers whether they are one.
fn read_behind(page: &mut Page, body: &[u8]) -> bool
    requires { length body.now ≡ 4088 }
    ensures is { result ≡ true → page_behind body.now ≡ Some page.new }
    ensures none { result ≡ false → page_behind body.now ≡ None }
{
    let mut bytes = [0; PAGE_SIZE];
    put_behind(&mut bytes, body);
    page.load(&bytes).is_ok()
}

/// Makes a page the one after a structure change or its undo, but for the LSN, and answers whether the record is one, with images
/// that are pages. Where it is not, the page is any.
pub fn read_after(page: &mut Page, record: &Record) -> bool
    requires entry { IsEntry (view record.now) }
    ensures is { result ≡ true → after_in (what_of (view record.now)) ≡ Some page.new.body }
    ensures none { result ≡ false → after_in (what_of (view record.now)) ≡ None }
{
    match record {
        Record::Smo { before, after, .. } => read_behind(page, before) && read_behind(page, after),
        Record::UndoSmo { after, .. } => read_behind(page, after),
        _ => false,
    }
}

/// Makes a page the full copy that the record at an LSN holds, and answers whether it holds one. Where it does not, the page is any.
pub fn read_copy(page: &mut Page, lsn: Lsn, record: &Record) -> bool
    requires entry { IsEntry (view record.now) }
    ensures is { result ≡ true → copy_in lsn (what_of (view record.now)) ≡ Some page.new }
    ensures none { result ≡ false → copy_in lsn (what_of (view record.now)) ≡ None }
{
    if let Record::Image { bytes, .. } = record {
        return page.load(bytes).is_ok();
    }
    if !read_after(page, record) {
        return false;
    }
    page.set_lsn(lsn);
    true
}
