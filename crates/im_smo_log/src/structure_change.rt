//! A structure change, logged page by page and closed.

ghost use Rattle.std.specs.Prelude.{◌≡◌, ◌≢◌, ◌<◌, ◌≤◌, ◌↔◌, ◌-◌, ℕ, true, false, Some, length, IfErr, IsTrue};
ghost use Rattle.im_base_types.specs.declared.fault.Fault.TheVariants.{Failed, Memory};
ghost use Rattle.im_theory_log.specs.Histories.{Base};
ghost use Rattle.im_theory_log.specs.Writer.{Writer};
ghost use Rattle.im_page_writer.specs.PageWriter.{IsReadyWriter, StandsAs};
ghost use Rattle.im_page_writer.specs.Outcome.{fault_of, mild, Logs};
ghost use Rattle.im_smo_pages.specs.Images.{image_at};
ghost use Rattle.im_smo_log.specs.Logged.{ImageLogKept};
ghost use Rattle.im_smo_log.specs.Changes.{AreCounted, MayChange, PagesKept, ChangeKept};

use crate::late_fault::late;
use crate::page_record::{log_closing, log_image};
use im_base_disk::Disk;
use im_base_types::{Fault, Lsn};
use im_page_writer::PageWriter;
use im_smo_pages::Images;

/// Whether page 0 is the first of them, and none is past the page count that it says there, as it is so of each plan.
pub fn are_counted(images: &Images) -> bool
    ensures { IsTrue result ↔ AreCounted images.now }
{
    let len = images.len();
    if len == 0 {
        return false;
    }
    images.number(0) == 0 && images.number(len - 1) < images.page(0).leftmost()
}

// What a refusal at a page is answered as: for want of memory there is no way back after the first record.
fn refused_at(i: usize, fault: Fault) -> Fault
    ensures first { i ≡ 0 → result ≡ fault }
    ensures late { 1 ≤ i → fault ≡ Memory → result ≡ Failed }
    ensures others { fault ≢ Memory → result ≡ fault }
{
    if i == 0 {
        return fault;
    }
    late(fault)
}

// Logs the page of the image at a place, and makes it so. It answers the LSN.
fn log_at<D: Disk>(
    writer: &mut PageWriter,
    disk: &mut D,
    images: &Images,
    i: usize,
    transaction: u64,
    prev: Lsn,
) -> Result<Lsn, Fault>
    requires ready { IsReadyWriter D.Disk writer.old disk.old }
    requires working { writer.old.failed ≡ false }
    requires owner { 1 ≤ transaction }
    requires within { i < length images.now }
    ensures outcome { Logs D.Disk true mild writer.old disk.old writer.new disk.new (fault_of result) }
    ensures kept { (b : Base) (base : ℕ) (s : Writer) (e : ℕ) → StandsAs D.Disk b base s writer.old disk.old → s.redo_end ≡ Some e
        → ImageLogKept D.Disk b base s transaction prev (image_at images.now i).0 (image_at images.now (length images.now - 1)).0 (image_at images.now i).1.body disk.old writer.new disk.new result }
    ensures first { IfErr result (λ e. e ≡ Memory → i ≡ 0) }
    ensures later { IfErr result (λ e. e ≡ Failed → 1 ≤ i) }
{
    match log_image(writer, disk, images, i, transaction, prev, false) {
        Ok(lsn) => Ok(lsn),
        Err(fault) => Err(refused_at(i, fault)),
    }
}

// Logs the pages of a structure change in rising page number, each record after the one before, and makes them so. It
// answers the LSN of the last record.
fn log_pages<D: Disk>(
    writer: &mut PageWriter,
    disk: &mut D,
    images: &Images,
    transaction: u64,
    last: Lsn,
) -> Result<Lsn, Fault>
    requires ready { IsReadyWriter D.Disk writer.old disk.old }
    requires working { writer.old.failed ≡ false }
    requires owner { 1 ≤ transaction }
    requires counted { AreCounted images.now }
    ensures outcome { Logs D.Disk true mild writer.old disk.old writer.new disk.new (fault_of result) }
    ensures kept { (b : Base) (base : ℕ) (s : Writer) (e undo_next : ℕ) → MayChange D.Disk b base s e images.now transaction last undo_next writer.old disk.old
        → PagesKept D.Disk b base s e images.now transaction undo_next disk.old writer.new disk.new result }
{
    let len = images.len();
    let mut prev = last;
    for i in 0..len {
        prev = log_at(writer, disk, images, i, transaction, prev)?;
    }
    Ok(prev)
}

/// Logs a structure change of a transaction, and makes the pages those of its images, but for their LSNs: one Smo record
/// for each page, with the page before and after, in rising page number, chained from the transaction's record at `last`,
/// and then the DummyClr that closes it, from which undo goes on at `undo_next`. It answers that record's LSN.
///
/// Refused `Memory` with all as it was, and `Failed` where memory is wanted after the first record; `LogFull`, `Device`, or
/// `NotAStore` where a page's bytes are none. Images that are none of a plan are refused `Memory` too: each plan takes pages or gives some
/// back, so that page 0 is among its images, names no page past the page count that it says there, and where that count grows has an image of
/// the page below it. After a refusal other than `Memory` the structure change may be open in the log, so that
/// the transaction can do nothing but be undone by a restart.
pub fn run<D: Disk>(
    writer: &mut PageWriter,
    disk: &mut D,
    images: &Images,
    transaction: u64,
    last: Lsn,
    undo_next: Lsn,
) -> Result<Lsn, Fault>
    requires ready { IsReadyWriter D.Disk writer.old disk.old }
    requires working { writer.old.failed ≡ false }
    requires owner { 1 ≤ transaction }
    ensures outcome { Logs D.Disk true mild writer.old disk.old writer.new disk.new (fault_of result) }
    ensures kept { (b : Base) (base : ℕ) (s : Writer) (e : ℕ) → MayChange D.Disk b base s e images.now transaction last undo_next writer.old disk.old
        → ChangeKept D.Disk b base s e images.now transaction undo_next disk.old writer.new disk.new result }
{
    if !are_counted(images) {
        return Err(Fault::Memory);
    }
    let prev = log_pages(writer, disk, images, transaction, last)?;
    log_closing(writer, disk, transaction, prev, undo_next)
}
