//! A log that goes on in the other file.
ghost use Rattle.std.specs.Prelude.{◌≡◌, false, IfOk};
ghost use Rattle.im_page_writer.specs.PageWriter.{IsReadyWriter};

use crate::writers::{got, log_insert, new_disk, open};
use im_base_disk::Disk;
use im_base_model_disk::{Fill, Length, ModelDisk, Stop};
use im_base_two_logs::{Renamed, TwoLogs};
use im_base_types::{Fault, Lsn};
use im_log_choice::choose;
use im_page_writer::PageWriter;
use std::alloc::Global;
use std::test::Fail;

// A writer over the log that is current, or over a new one.
fn open_current<D: TwoLogs>(alloc: Global, disk: &mut D) -> Result<PageWriter, Fault>
    requires working { D.failed disk.old ≡ false }
    ensures ready { IfOk result (λ w. IsReadyWriter D.Disk w disk.new) }
{
    choose(disk)?;
    open(alloc, disk)
}

// Two inserts in page 1, of which the second comes after the log has gone on. It answers the LSN of the second.
fn switch_logs<D: TwoLogs>(alloc: Global, disk: &mut D) -> Result<Lsn, Fault>
    requires working { D.failed disk.old ≡ false }
{
    let mut writer = open_current(alloc, disk)?;
    insert_two(&mut writer, disk)
}

// The same with a writer that is lent: what a function owns is dropped at each of its exits, which takes a proof each.
fn insert_two<D: TwoLogs>(writer: &mut PageWriter, disk: &mut D) -> Result<Lsn, Fault>
    requires ready { IsReadyWriter D.Disk writer.old disk.old }
{
    log_insert(writer, disk, b"a")?;
    writer.switch(disk, 2)?;
    let lsn = log_insert(writer, disk, b"b")?;
    writer.force(disk)?;
    Ok(lsn)
}

// What a store has: where its log ends, the LSN of page 1, and how many entries that has.
fn look<D: TwoLogs>(alloc: Global, disk: &mut D) -> Result<(Lsn, Lsn, usize), Fault>
    requires working { D.failed disk.old ≡ false }
{
    let mut writer = open_current(alloc, disk)?;
    look_at(&mut writer, disk)
}

// The same of a writer.
fn look_at<D: TwoLogs>(writer: &mut PageWriter, disk: &mut D) -> Result<(Lsn, Lsn, usize), Fault>
    requires ready { IsReadyWriter D.Disk writer.old disk.old }
{
    let page = got(writer, disk, 1)?;
    Ok((writer.durable_end(), page.0, page.1))
}

// A disk whose log goes on, and what was answered.
fn turned(alloc: Global, disk: ModelDisk) -> (ModelDisk, Result<Lsn, Fault>)
    requires working { ⟦<ModelDisk as Disk>⟧.failed disk ≡ false }
{
    let mut named = Renamed::new(disk, false);
    let told = switch_logs(alloc, &mut named);
    (named.into_disk(), told)
}

// What a stop now leaves.
fn left(alloc: Global, disk: &ModelDisk) -> Result<(Lsn, Lsn, usize), Fault> {
    let left = disk.after_stop(alloc)?;
    let mut named = Renamed::new(left, false);
    look(alloc, &mut named)
}

#[test]
fn a_writer_goes_on_in_the_other_log(rt: HostRuntime) -> Result<(), Fail> {
    let alloc = rt.alloc();
    let (disk, told) = turned(alloc, new_disk(alloc));
    // The record of the insert has LSN 52 and 43 bytes. The Images of pages 0 and 1, 4,129 bytes each, join it, and the gate after them has LSN 8,353, where the
    // second log begins, with its first gate at 47.
    assert!(rt; told? == 8_405);
    // The log is synced, made and forced, two pages are written and synced, the other log is made, and forced.
    assert!(rt; disk.calls() == 1 + 6 + 4 + 2 + 1 + 6 + 4);
    // The second insert is in the log alone.
    assert!(rt; left(alloc, &disk)? == (8_448, 52, 1));
    Ok(())
}

// What a stop in this call leaves.
fn left_by(alloc: Global, stop: Stop) -> Result<(Lsn, Lsn, usize), Fault> {
    let mut disk = new_disk(alloc);
    disk.arm(stop);
    let (disk, _told) = turned(alloc, disk);
    left(alloc, &disk)
}

#[test]
fn a_stop_in_a_switch_leaves_the_one_log_or_the_other(rt: HostRuntime) -> Result<(), Fail> {
    let alloc = rt.alloc();
    for call in 15..22 {
        for kind in 0..4 {
            let length = if kind % 2 == 0 {
                Length::Long
            } else {
                Length::Short
            };
            let byte = if kind < 2 { 0 } else { 1 };
            let fill = Fill::Bytes(vec![in alloc; byte; 1]?);
            let (end, lsn, count) = left_by(alloc, Stop { call, length, fill })?;
            assert!(rt; (lsn, count) == (52, 1));
            assert!(rt; end == 8_353 || end == 8_400);
            assert!(rt; call > 18 || end == 8_353);
            assert!(rt; call < 21 || end == 8_400);
        }
    }
    Ok(())
}
