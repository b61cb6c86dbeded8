//! One page of a structure change, and the record that closes one.

ghost use Rattle.std.specs.Prelude.{◌≡◌, ◌<◌, ◌≤◌, ◌↔◌, ◌+◌, ◌-◌, max, ℕ, true, false, length, Some, IsTrue};
ghost use Rattle.im_theory_log.specs.Histories.{Base};
ghost use Rattle.im_theory_log.specs.Writer.{Writer};
ghost use Rattle.im_log_record.specs.Entry.{DummyClr};
ghost use Rattle.im_page_writer.specs.PageWriter.{IsReadyWriter, StandsAs, LogKept};
ghost use Rattle.im_page_writer.specs.Outcome.{fault_of, mild, none_mild, Logs};
ghost use Rattle.im_smo_pages.specs.Images.{image_at};
ghost use Rattle.im_smo_log.specs.Logged.{PageLogKept};
ghost use Rattle.im_smo_log.specs.Marks.{marked_if};

use crate::page_bytes::{behind, copy_behind};
use im_base_disk::Disk;
use im_base_types::{Fault, Lsn, PAGE_BODY, PageNo, TxnId};
use im_log_record::Record;
use im_page::Page;
use im_page_writer::PageWriter;
use im_smo_pages::Images;

// Whether a page of this number may become this one. Page 0 may with a page count that is no more than before, or than the one after the
// highest page of the change: so no page below the count is left out that the log has not named.
fn is_counted(number: PageNo, before: &Page, after: &Page, highest: PageNo) -> bool
    ensures { IsTrue result ↔ (number ≡ 0 → after.now.body.leftmost ≤ max before.now.body.leftmost (highest + 1)) }
{
    if number != 0 {
        return true;
    }
    let count = after.leftmost();
    count <= before.leftmost() || count - 1 <= highest
}

// Logs one page of a structure change, as it is and as it will be, and makes it so. It answers the LSN. Page 0 is refused `Memory`,
// with nothing logged, where its page count is neither one from before nor the one after the highest page of the change.
fn log_page<D: Disk>(
    writer: &mut PageWriter,
    disk: &mut D,
    transaction: u64,
    prev: Lsn,
    number: PageNo,
    after: &Page,
    highest: PageNo,
) -> Result<Lsn, Fault>
    requires ready { IsReadyWriter D.Disk writer.old disk.old }
    requires working { writer.old.failed ≡ false }
    requires owner { 1 ≤ transaction }
    ensures outcome { Logs D.Disk false mild writer.old disk.old writer.new disk.new (fault_of result) }
    ensures kept { (b : Base) (base : ℕ) (s : Writer) (e : ℕ) → StandsAs D.Disk b base s writer.old disk.old → s.redo_end ≡ Some e
        → PageLogKept D.Disk b base s transaction prev number highest after.now.body disk.old writer.new disk.new result }
{
    let frame = writer.get(disk, number)?;
    if !is_counted(number, writer.page(frame), after, highest) {
        return Err(Fault::Memory);
    }
    let mut before = [0; PAGE_BODY];
    copy_behind(&mut before, writer.page(frame));
    let logged = Record::Smo {
        transaction,
        prev,
        page: number,
        before: &before,
        after: behind(after),
    };
    writer.log_smo(disk, &logged)
}

// Makes a page a copy of another one, with the mark of a structure change under way.
fn copy_marked(copy: &mut Page, page: &Page)
    ensures { copy.new ≡ record page.now { body = marked_if true page.now.body } }
{
    match copy.load(page.bytes()) {
        Ok(()) => copy.set_marked(true),
        Err(_) => {},
    }
}

// The same as `log_page`; where `marked` is asked for, the page is logged and made with the mark of a structure change under way.
fn log_marked<D: Disk>(
    writer: &mut PageWriter,
    disk: &mut D,
    transaction: u64,
    prev: Lsn,
    number: PageNo,
    after: &Page,
    highest: PageNo,
    marked: bool,
) -> Result<Lsn, Fault>
    requires ready { IsReadyWriter D.Disk writer.old disk.old }
    requires working { writer.old.failed ≡ false }
    requires owner { 1 ≤ transaction }
    ensures outcome { Logs D.Disk false mild writer.old disk.old writer.new disk.new (fault_of result) }
    ensures kept { (b : Base) (base : ℕ) (s : Writer) (e : ℕ) → StandsAs D.Disk b base s writer.old disk.old → s.redo_end ≡ Some e
        → PageLogKept D.Disk b base s transaction prev number highest (marked_if marked after.now.body) disk.old writer.new disk.new result }
{
    if !marked {
        return log_page(writer, disk, transaction, prev, number, after, highest);
    }
    let mut copy = Page::initial(number);
    copy_marked(&mut copy, after);
    log_page(writer, disk, transaction, prev, number, &copy, highest)
}

/// Logs the page of the image at a place, as it is and as the image has it, and makes it so. Where `marked` is asked for, it will be with the mark
/// of a structure change under way. It answers the LSN. It is refused as `PageWriter::log_smo` is, and `Memory`, with nothing logged, at a page 0
/// whose page count is neither one from before nor the one after the last image's number.
pub(crate) fn log_image<D: Disk>(
    writer: &mut PageWriter,
    disk: &mut D,
    images: &Images,
    i: usize,
    transaction: TxnId,
    prev: Lsn,
    marked: bool,
) -> Result<Lsn, Fault>
    requires ready { IsReadyWriter D.Disk writer.old disk.old }
    requires working { writer.old.failed ≡ false }
    requires owner { 1 ≤ transaction }
    requires within { i < length images.now }
    ensures outcome { Logs D.Disk false mild writer.old disk.old writer.new disk.new (fault_of result) }
    ensures kept { (b : Base) (base : ℕ) (s : Writer) (e : ℕ) → StandsAs D.Disk b base s writer.old disk.old → s.redo_end ≡ Some e
        → PageLogKept D.Disk b base s transaction prev (image_at images.now i).0 (image_at images.now (length images.now - 1)).0 (marked_if marked (image_at images.now i).1.body) disk.old writer.new disk.new result }
{
    let len = images.len();
    let highest = images.number(len - 1);
    log_marked(
        writer,
        disk,
        transaction,
        prev,
        images.number(i),
        images.page(i),
        highest,
        marked,
    )
}

/// Logs the record that closes a structure change, after the transaction's record at `prev`: undo goes on at `undo_next`. It answers the LSN.
pub(crate) fn log_closing<D: Disk>(
    writer: &mut PageWriter,
    disk: &mut D,
    transaction: TxnId,
    prev: Lsn,
    undo_next: Lsn,
) -> Result<Lsn, Fault>
    requires ready { IsReadyWriter D.Disk writer.old disk.old }
    requires owner { 1 ≤ transaction }
    ensures outcome { Logs D.Disk false none_mild writer.old disk.old writer.new disk.new (fault_of result) }
    ensures kept { (b : Base) (base : ℕ) (s : Writer) (e : ℕ) → StandsAs D.Disk b base s writer.old disk.old → s.redo_end ≡ Some e
        → LogKept D.Disk b base s (DummyClr transaction prev undo_next) disk.old writer.new disk.new result }
{
    let closing = Record::DummyClr {
        transaction,
        prev,
        undo_next,
    };
    writer.log_only(disk, &closing)
}
