//! Flushes and evictions over a model disk, with their device calls counted.
//! Each test lends its writer and its disk to the calls: what a function owns is dropped at each of its exits, which takes a proof each.
ghost use Rattle.std.specs.Prelude.{OnOk};
ghost use Rattle.im_page_writer.specs.PageWriter.{IsReadyWriter};

use crate::writers::{end, got, log_insert, new_disk, open, open_large, open_over, since};
use im_base_disk::Disk;
use im_base_model_disk::ModelDisk;
use im_base_types::{Fault, FileId, PageNo};
use im_log_record::Record;
use im_page::Page;
use im_page_writer::PageWriter;
use std::process::Abort;
use std::test::Fail;

/// Makes a page an empty leaf, by a structure change that is redone: the page is changed, and no copy of it is known.
pub fn change<D: Disk>(writer: &mut PageWriter, disk: &mut D, page: PageNo) -> Result<bool, Fault>
    requires ready { IsReadyWriter D.Disk writer.old disk.old }
    ensures ready { IsReadyWriter D.Disk writer.new disk.new }
{
    let leaf = Page::initial(1);
    let record = Record::Smo {
        transaction: 1,
        prev: 0,
        page,
        before: &leaf.bytes()[8..],
        after: &leaf.bytes()[8..],
    };
    writer.redo_change(disk, 36, 400, &record, false)
}

/// The same of each page of a range.
pub fn change_each<D: Disk>(
    writer: &mut PageWriter,
    disk: &mut D,
    first: PageNo,
    end: PageNo,
) -> Result<(), Fault>
    requires ready { IsReadyWriter D.Disk writer.old disk.old }
    ensures ready { OnOk result (IsReadyWriter D.Disk writer.new disk.new) }
{
    for page in first..end {
        change(writer, disk, page)?;
    }
    Ok(())
}

#[test]
fn a_page_past_the_end_takes_those_before_along(rt: HostRuntime) -> Result<(), Fail> {
    let alloc = rt.alloc();
    let mut disk = new_disk(alloc);
    let mut writer = open(alloc, &mut disk)?;
    let told = flush_past_the_end(&rt, &mut writer, &mut disk);
    end(writer, disk);
    told
}

fn flush_past_the_end(
    rt: &impl Abort,
    writer: &mut PageWriter,
    disk: &mut ModelDisk,
) -> Result<(), Fail>
    requires { IsReadyWriter ⟦<ModelDisk as Disk>⟧ writer.old disk.old }
{
    let opened = disk.calls();
    let lsn = log_insert(writer, disk, b"a")?;
    let logged = since(disk, opened);
    writer.flush_one(disk, 1)?;
    let flushed = (since(disk, opened), disk.end(FileId::Pages));
    writer.flush_one(disk, 1)?;
    let page = got(writer, disk, 1)?;
    let again = since(disk, opened);
    writer.sync_pages(disk)?;
    let synced = since(disk, opened);
    assert!(rt; (logged, again, synced) == (0, 6, 7));
    assert!(rt; (flushed, page) == ((6, 8_192), (lsn, 1)));
    Ok(())
}

#[test]
fn an_eviction_writes_the_least_recently_used_page(rt: HostRuntime) -> Result<(), Fail> {
    let alloc = rt.alloc();
    let mut disk = new_disk(alloc);
    let mut writer = open(alloc, &mut disk)?;
    let told = evict(&rt, &mut writer, &mut disk);
    end(writer, disk);
    told
}

fn evict(rt: &impl Abort, writer: &mut PageWriter, disk: &mut ModelDisk) -> Result<(), Fail>
    requires { IsReadyWriter ⟦<ModelDisk as Disk>⟧ writer.old disk.old }
{
    let opened = disk.calls();
    let first = log_insert(writer, disk, b"a")?;
    change_each(writer, disk, 2, 9)?;
    let changed = since(disk, opened);
    let ninth = got(writer, disk, 9)?;
    let evicted = since(disk, opened);
    let page = got(writer, disk, 1)?;
    let ended = (since(disk, opened), disk.end(FileId::Pages));
    assert!(rt; (changed, evicted, ended) == (0, 6, (11, 12_288)));
    assert!(rt; (ninth, page) == ((0, 0), (first, 1)));
    Ok(())
}

#[test]
fn a_full_table_is_synced(rt: HostRuntime) -> Result<(), Fail> {
    let alloc = rt.alloc();
    let mut disk = new_disk(alloc);
    let mut writer = open(alloc, &mut disk)?;
    let told = fill_table(&rt, &mut writer, &mut disk);
    end(writer, disk);
    told
}

fn fill_table(rt: &impl Abort, writer: &mut PageWriter, disk: &mut ModelDisk) -> Result<(), Fail>
    requires { IsReadyWriter ⟦<ModelDisk as Disk>⟧ writer.old disk.old }
{
    let opened = disk.calls();
    writer.make_entry_room(disk)?;
    let empty = since(disk, opened);
    // A write of the last of 1,024 pages takes those before along, and each has its entry then.
    let is_changed = change(writer, disk, 1_023)?;
    writer.flush_one(disk, 1_023)?;
    let full = writer.dirty_count();
    let filled = disk.calls();
    writer.make_entry_room(disk)?;
    assert!(rt; is_changed && (empty, full) == (0, 1_024));
    assert!(rt; (since(disk, filled), writer.dirty_count()) == (1, 0));
    Ok(())
}

#[test]
fn a_full_table_is_synced_in_a_large_pool(rt: HostRuntime) -> Result<(), Fail> {
    let alloc = rt.alloc();
    let mut disk = new_disk(alloc);
    let mut writer = open_large(alloc, &mut disk, 1_030)?;
    let told = fill_large(&rt, &mut writer, &mut disk);
    end(writer, disk);
    told
}

fn fill_large(rt: &impl Abort, writer: &mut PageWriter, disk: &mut ModelDisk) -> Result<(), Fail>
    requires { IsReadyWriter ⟦<ModelDisk as Disk>⟧ writer.old disk.old }
{
    change_each(writer, disk, 0, 1_030)?;
    let full = (writer.dirty_count(), disk.end(FileId::Pages));
    let is_changed = change(writer, disk, 1_030)?;
    // At least half of the entries left at the sync, and the page that was changed last has its own.
    let left = writer.dirty_count();
    let first = got(writer, disk, 1)?;
    let last = got(writer, disk, 1_030)?;
    assert!(rt; full == (1_030, 0));
    assert!(rt; is_changed && 1 <= left && left <= 516);
    assert!(rt; (first, last) == ((400, 0), (400, 0)));
    Ok(())
}

#[test]
fn pages_are_written_first_where_a_checkpoint_can_not_list_them(
    rt: HostRuntime,
) -> Result<(), Fail> {
    let alloc = rt.alloc();
    let mut disk = new_disk(alloc);
    let mut writer = open_large(alloc, &mut disk, 1_200)?;
    let told = checkpoint_many(&rt, &mut writer, &mut disk);
    end(writer, disk);
    told
}

fn checkpoint_many(
    rt: &impl Abort,
    writer: &mut PageWriter,
    disk: &mut ModelDisk,
) -> Result<(), Fail>
    requires { IsReadyWriter ⟦<ModelDisk as Disk>⟧ writer.old disk.old }
{
    change_each(writer, disk, 1, 1_101)?;
    let changed = (writer.dirty_count(), disk.end(FileId::Pages));
    writer.log_checkpoint(disk, 2, &[])?;
    let listed = writer.dirty_count();
    let written = disk.end(FileId::Pages);
    // One that need not write pages makes one sync and one force.
    let calls = disk.calls();
    writer.log_checkpoint(disk, 2, &[])?;
    assert!(rt; changed == (1_100, 0));
    // 76 rows were too many. Pages go six at a time, twice as many as a batch takes Images, and page 0 goes along with the first.
    assert!(rt; (listed, written) == (1_022, 79 * 4_096));
    assert!(rt; (since(disk, calls), disk.end(FileId::Pages)) == (5, written));
    Ok(())
}

#[test]
fn a_page_is_copied_again_behind_a_checkpoint(rt: HostRuntime) -> Result<(), Fail> {
    let alloc = rt.alloc();
    let mut disk = new_disk(alloc);
    let mut writer = open_over(alloc, &mut disk, 1, Page::initial(0).bytes())?;
    let told = flush_behind_checkpoint(&rt, &mut writer, &mut disk);
    end(writer, disk);
    told
}

fn flush_behind_checkpoint(
    rt: &impl Abort,
    writer: &mut PageWriter,
    disk: &mut ModelDisk,
) -> Result<(), Fail>
    requires { IsReadyWriter ⟦<ModelDisk as Disk>⟧ writer.old disk.old }
{
    log_insert(writer, disk, b"a")?;
    writer.flush_one(disk, 1)?;
    log_insert(writer, disk, b"b")?;
    assert!(rt; writer.log_checkpoint(disk, 2, &[])? == 4_272);
    assert!(rt; writer.durable_end() == 4_329);
    writer.flush_one(disk, 1)?;
    assert!(rt; writer.durable_end() == 8_463);
    Ok(())
}
