//! Full copies of pages for the log.
ghost use Rattle.std.specs.Prelude.{◌≡◌, ◌≤◌, ℕ, false, length, OnOk};
ghost use Rattle.im_base_types.specs.declared.file_id.FileId.TheVariants.{Log};
ghost use Rattle.im_theory_log.specs.Histories.{Base};
ghost use Rattle.im_theory_log.specs.Writer.{Writer};
ghost use Rattle.im_base_disk.specs.Runs.{ChangesOnly, Forces};
ghost use Rattle.im_log.specs.LogFile.{IsOpen};
ghost use Rattle.im_page_table.specs.DirtyTable.{TableView};
ghost use Rattle.im_page_file.specs.Stands.{Stands};
ghost use Rattle.im_page_file.specs.Images.{MayLogImage, ImageKept};
ghost use Rattle.im_page_file.specs.Imaging.{Imaging};
ghost use Rattle.im_page_file.specs.Takes.{TakesImage};
ghost use Rattle.im_page_file.specs.LogEnds.{fault_of};

use im_base_disk::Disk;
use im_base_types::{Fault, Lsn, PageNo};
use im_log::LogFile;
use im_log_record::Record;

/// Adds an Image of a page, its 4,096 bytes, to the log, and answers its LSN. It takes no memory; where the record does not fit
/// into the log's buffer, that is forced first, by four device calls.
///
/// Refused as an append is: `LogFull`, before any device call, where the record would end above LSN 2^62; `Device`. After a
/// refusal every later call of the log answers `Failed`.
pub fn append_image<D: Disk>(
    disk: &mut D,
    log: &mut LogFile,
    bytes: &[u8],
    page: PageNo,
) -> Result<Lsn, Fault>
    requires whole { length bytes.now ≡ 4096 }
    requires ready { IsOpen D.Disk log.old disk.old }
    ensures outcome { log.old.failed ≡ false → Imaging D.Disk log.old log.new disk.new (fault_of result) }
    ensures kept { (b : Base) (base : ℕ) (s : Writer) (table : TableView) → b.start ≤ base → Stands D.Disk b base s log.old table disk.old → MayLogImage s page bytes.now
        → ImageKept D.Disk b base s page table disk.old log.new disk.new result }
    ensures changes { ChangesOnly D.Disk Log disk.old disk.new }
    ensures forces { OnOk result (Forces D.Disk 1 disk.old disk.new) }
    ensures quiet { TakesImage log.old → disk.new ≡ disk.old }
{
    let image = Record::Image { page, bytes };
    log.append(disk, &image)
}
