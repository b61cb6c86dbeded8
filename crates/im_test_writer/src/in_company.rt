//! Flushes that share a force: where the log's buffer holds several batches, the Images of the other changed pages go with that of the first.
//! Each test lends its writer and its disk to the calls, as those of `page_writer` do.
ghost use Rattle.std.specs.Prelude.{◌≡◌, ◌≤◌, false, IfOk, OnOk};
ghost use Rattle.im_page_writer.specs.PageWriter.{IsReadyWriter};

use crate::page_writer::change_each;
use crate::writers::{end, new_disk, open_over, since};
use im_base_disk::Disk;
use im_base_model_disk::ModelDisk;
use im_base_two_logs::Renamed;
use im_base_types::{Fault, PageNo};
use im_log_record::Record;
use im_page::Page;
use im_page_writer::PageWriter;
use std::alloc::Global;
use std::test::Fail;

// The pages that are changed.
const FIRST: PageNo = 1;

const END: PageNo = 5;

// The bytes of a file of so many pages.
fn pages_to(alloc: Global, end: PageNo) -> Result<Vec<u8>, Fault> {
    let mut bytes = Vec::new(alloc);
    for page in 0..end {
        bytes
            .extend_from_slice(Page::initial(page).bytes())
            .map_err(|_| Fault::Memory)?;
    }
    Ok(bytes)
}

// A writer over a file of so many pages, with a log's buffer of so many batches.
fn open_pages<D: Disk>(
    alloc: Global,
    disk: &mut D,
    count: PageNo,
    batches: usize,
) -> Result<PageWriter, Fault>
    requires working { D.failed disk.old ≡ false }
    requires few { (1 ≤ batches) × (batches ≤ 64) }
    ensures ready { IfOk result (λ w. IsReadyWriter D.Disk w disk.new) }
{
    let pages = pages_to(alloc, count)?;
    open_over(alloc, disk, batches, &pages)
}

// Logs an insert of a key into each of the pages.
fn insert_each<D: Disk>(writer: &mut PageWriter, disk: &mut D) -> Result<(), Fault>
    requires ready { IsReadyWriter D.Disk writer.old disk.old }
    ensures ready { OnOk result (IsReadyWriter D.Disk writer.new disk.new) }
{
    for page in FIRST..END {
        let record = Record::InsertKey {
            transaction: 1,
            prev: 0,
            page,
            key: b"a",
            rid: 7,
        };
        writer.log_change(disk, &record)?;
    }
    Ok(())
}

// Changes the pages, of which page 1 is a leaf from the start. The last record of each waits in the log's buffer, and no copy of a page is known.
fn change_pages<D: Disk>(writer: &mut PageWriter, disk: &mut D) -> Result<(), Fault>
    requires ready { IsReadyWriter D.Disk writer.old disk.old }
    ensures ready { OnOk result (IsReadyWriter D.Disk writer.new disk.new) }
{
    change_each(writer, disk, 2, END)?;
    insert_each(writer, disk)
}

// Flushes the pages, one after another.
fn flush_each<D: Disk>(writer: &mut PageWriter, disk: &mut D) -> Result<(), Fault>
    requires ready { IsReadyWriter D.Disk writer.old disk.old }
    ensures ready { IsReadyWriter D.Disk writer.new disk.new }
{
    for page in FIRST..END {
        writer.flush_in_company(disk, page)?;
    }
    Ok(())
}

// How many device calls the flushes of the changed pages take.
fn count_flushes(writer: &mut PageWriter, disk: &mut ModelDisk) -> Result<u64, Fault>
    requires { IsReadyWriter ⟦<ModelDisk as Disk>⟧ writer.old disk.old }
{
    change_pages(writer, disk)?;
    let changed = disk.calls();
    flush_each(writer, disk)?;
    Ok(since(disk, changed))
}

// The same over a file of so many pages, with a log's buffer of so many batches.
fn calls_of_flushes(alloc: Global, pages: PageNo, batches: usize) -> Result<u64, Fault>
    requires few { (1 ≤ batches) × (batches ≤ 64) }
{
    let mut disk = new_disk(alloc);
    let mut writer = open_pages(alloc, &mut disk, pages, batches)?;
    let told = count_flushes(&mut writer, &mut disk);
    end(writer, disk);
    told
}

#[test]
fn flushes_share_a_force(rt: HostRuntime) -> Result<(), Fail> {
    let alloc = rt.alloc();
    // A force of four calls and a write for each page.
    assert!(rt; calls_of_flushes(alloc, END, 1)? == 4 * 5);
    // One force for all of them.
    assert!(rt; calls_of_flushes(alloc, END, 4)? == 4 + 4);
    Ok(())
}

#[test]
fn flushes_past_the_end_share_a_force(rt: HostRuntime) -> Result<(), Fail> {
    let alloc = rt.alloc();
    // Page 0 is written too, along with page 1.
    assert!(rt; calls_of_flushes(alloc, 0, 1)? == 4 * 5 + 1);
    assert!(rt; calls_of_flushes(alloc, 0, 4)? == 4 + 5);
    Ok(())
}

// How many device calls a Switch takes, once the pages are changed.
fn count_switch(writer: &mut PageWriter, disk: &mut Renamed<ModelDisk>) -> Result<u64, Fault>
    requires { IsReadyWriter ⟦<Renamed<ModelDisk> as Disk>⟧ writer.old disk.old }
{
    change_pages(writer, disk)?;
    let changed = disk.disk().calls();
    writer.switch(disk, 2)?;
    Ok(since(disk.disk(), changed))
}

// The same over a file that has the pages, with a log's buffer of so many batches.
fn calls_of_switch(alloc: Global, batches: usize) -> Result<u64, Fault>
    requires few { (1 ≤ batches) × (batches ≤ 64) }
{
    let mut disk = Renamed::new(new_disk(alloc), false);
    let mut writer = open_pages(alloc, &mut disk, END, batches)?;
    let told = count_switch(&mut writer, &mut disk);
    end(writer, disk.into_disk());
    told
}

#[test]
fn the_rows_of_a_switch_share_a_force(rt: HostRuntime) -> Result<(), Fail> {
    let alloc = rt.alloc();
    // After the flushes the file of pages is synced, and the other log made.
    let others = 1 + 6;
    assert!(rt; calls_of_switch(alloc, 1)? == 4 * 5 + others);
    assert!(rt; calls_of_switch(alloc, 4)? == 4 + 4 + others);
    Ok(())
}

// What the flushes of the changed pages answer, and then another flush.
fn flush_again<D: Disk>(
    writer: &mut PageWriter,
    disk: &mut D,
) -> Result<(Result<(), Fault>, Result<(), Fault>), Fault>
    requires ready { IsReadyWriter D.Disk writer.old disk.old }
{
    change_pages(writer, disk)?;
    let told = flush_each(writer, disk);
    let again = writer.flush_in_company(disk, FIRST);
    Ok((told, again))
}

// The same over a file of so many pages, and a device that fails in the call of that number.
fn flush_failing(
    alloc: Global,
    pages: PageNo,
    call: u64,
) -> Result<(Result<(), Fault>, Result<(), Fault>), Fault> {
    let mut disk = new_disk(alloc);
    disk.fail_call(call);
    let mut writer = open_pages(alloc, &mut disk, pages, 4)?;
    let told = flush_again(&mut writer, &mut disk);
    end(writer, disk);
    told
}

#[test]
fn a_device_that_fails_in_a_company_fails_the_writer(rt: HostRuntime) -> Result<(), Fail> {
    let alloc = rt.alloc();
    // Nine calls open the writer over its files, and then come the eight of the flushes, or the nine past the file's end.
    for (pages, after) in [(END, 18), (0, 19)] {
        for call in 10..after {
            let told = flush_failing(alloc, pages, call)?;
            assert!(rt; told == (Err(Fault::Device), Err(Fault::Failed)));
        }
        assert!(rt; flush_failing(alloc, pages, after)? == (Ok(()), Ok(())));
    }
    Ok(())
}
