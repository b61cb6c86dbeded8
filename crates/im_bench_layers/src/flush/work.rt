//! The works that are timed.

ghost use Rattle.std.specs.Prelude.{◌≡◌, false, IfOk};
ghost use Rattle.im_base_disk.specs.Runs.{IsSynced};
ghost use Rattle.im_page_writer.specs.PageWriter.{IsReadyWriter};

use im_base_disk::Disk;
use im_base_types::Fault;
use im_log::open_or_create;
use im_log_record::Record;
use im_page_writer::PageWriter;
use std::alloc::Global;

/// What is done again and again.
#[derive(Clone, Copy, Debug, PartialEq, Eq)]
pub enum Work {
    /// A page that is held is got.
    Get,
    /// A key is put into a leaf, or taken out, in turn.
    Change,
    /// The same, and the page is written and the file of pages synced.
    Flush,
}

/// Does a work so often, with a new store on the disk.
pub fn worked<D: Disk>(alloc: Global, disk: &mut D, work: Work, rounds: u64) -> Result<(), Fault>
    requires working { D.failed disk.old ≡ false }
    requires synced { IsSynced D.Disk disk.old }
{
    let mut writer = opened(alloc, disk)?;
    worked_with(&mut writer, disk, work, rounds)
}

// The same with a new writer.
fn worked_with<D: Disk>(
    writer: &mut PageWriter,
    disk: &mut D,
    work: Work,
    rounds: u64,
) -> Result<(), Fault>
    requires ready { IsReadyWriter D.Disk writer.old disk.old }
{
    changed(writer, disk, 0)?;
    match work {
        Work::Get => got_many(writer, disk, rounds),
        Work::Change => changed_many(writer, disk, rounds),
        Work::Flush => flushed_many(writer, disk, rounds),
    }
}

// A writer over a new log.
fn opened<D: Disk>(alloc: Global, disk: &mut D) -> Result<PageWriter, Fault>
    requires working { D.failed disk.old ≡ false }
    requires synced { IsSynced D.Disk disk.old }
    ensures ready { IfOk result (λ writer. IsReadyWriter D.Disk writer disk.new) }
{
    let log = open_or_create(alloc, disk, 1)?;
    PageWriter::new(alloc, log, 64)
}

// Puts the key into page 1 in even rounds, and takes it out in odd ones.
fn changed<D: Disk>(writer: &mut PageWriter, disk: &mut D, round: u64) -> Result<(), Fault>
    requires ready { IsReadyWriter D.Disk writer.old disk.old }
    ensures ready { IsReadyWriter D.Disk writer.new disk.new }
{
    let record = if round % 2 == 0 {
        Record::InsertKey {
            transaction: 1,
            prev: 0,
            page: 1,
            key: b"some key",
            rid: 7,
        }
    } else {
        Record::DeleteKey {
            transaction: 1,
            prev: 0,
            page: 1,
            key: b"some key",
            rid: 7,
        }
    };
    writer.log_change(disk, &record)?;
    Ok(())
}

fn got_many<D: Disk>(writer: &mut PageWriter, disk: &mut D, rounds: u64) -> Result<(), Fault>
    requires ready { IsReadyWriter D.Disk writer.old disk.old }
{
    for _ in 0..rounds {
        let _frame = writer.get(disk, 1)?;
    }
    Ok(())
}

fn changed_many<D: Disk>(writer: &mut PageWriter, disk: &mut D, rounds: u64) -> Result<(), Fault>
    requires ready { IsReadyWriter D.Disk writer.old disk.old }
{
    for round in 0..rounds {
        changed(writer, disk, round + 1)?;
    }
    Ok(())
}

fn flushed_many<D: Disk>(writer: &mut PageWriter, disk: &mut D, rounds: u64) -> Result<(), Fault>
    requires ready { IsReadyWriter D.Disk writer.old disk.old }
{
    for round in 0..rounds {
        changed(writer, disk, round + 1)?;
        writer.flush_one(disk, 1)?;
        writer.sync_pages(disk)?;
    }
    Ok(())
}
