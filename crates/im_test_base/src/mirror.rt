//! A disk that copies itself while it is written to: what the copy then has, and that the disk goes on where the copy fails.
ghost use Rattle.std.specs.Prelude.{◌≡◌, ◌<◌, [], false, OnOk};
ghost use Rattle.im_base_types.specs.declared.file_id.FileId.{FileId};

use im_base_disk::{Disk, read_vec};
use im_base_mirror_disk::{Mirrored, Piece};
use im_base_model_disk::ModelDisk;
use im_base_two_logs::{Renamed, TwoLogs};
use im_base_types::{Fault, FileId};
use std::alloc::Global;
use std::test::Fail;

type Memory = Mirrored<Renamed<ModelDisk>, Renamed<ModelDisk>>;

// So many calls before a copy begins, and between its beginning and its last pieces.
const BEFORE: u32 = 200;

const BESIDE: u32 = 1_500;

#[derive(Drop)]
struct Dice {
    state: u64,
}

impl Dice {
    fn below(&mut self, n: u64) -> u64
        requires { 0 < n }
        ensures { result < n }
    {
        self.state = self
            .state
            .wrapping_mul(6_364_136_223_846_793_005)
            .wrapping_add(1_442_695_040_888_963_407);
        (self.state >> 33) % n
    }

    fn file(&mut self) -> FileId {
        match self.below(3) {
            0 => FileId::Log,
            1 => FileId::Pages,
            _ => FileId::Log2,
        }
    }
}

// One call of a disk: a write anywhere in a file or at its end, a sync, or the two logs change names.
fn call<D: TwoLogs>(disk: &mut D, dice: &mut Dice) -> Result<(), Fault>
    requires working { D.failed disk.old ≡ false }
    ensures working { OnOk result (D.failed disk.new ≡ false) }
{
    let file = dice.file();
    match dice.below(12) {
        0 => disk.sync(file),
        1 => {
            disk.swap_logs();
            Ok(())
        }
        _ => {
            let end = disk.len(file)?;
            let at = dice.below(end.saturating_add(1));
            let size = dice.below(48) as usize;
            let bytes = [dice.below(256) as u8; 48];
            disk.write_at(file, at, &bytes[..size])
        }
    }
}

// So many calls, and a piece of a copy before one in three.
fn calls<D: TwoLogs, T: TwoLogs + Drop>(
    disk: &mut Mirrored<D, T>,
    dice: &mut Dice,
    many: u32,
    room: &mut [u8],
) -> Result<(), Fault>
    requires working { disk.old.has_failed ≡ false }
    ensures working { OnOk result (disk.new.has_failed ≡ false) }
{
    for _ in 0..many {
        if dice.below(3) == 0 {
            disk.next_piece(room)?;
        }
        call(disk, dice)?;
    }
    Ok(())
}

// The pieces that are left.
fn rest<D: TwoLogs, T: TwoLogs + Drop>(
    disk: &mut Mirrored<D, T>,
    room: &mut [u8],
) -> Result<(), Fault>
    requires working { disk.old.has_failed ≡ false }
    ensures working { OnOk result (disk.new.has_failed ≡ false) }
{
    for _ in 0..100_000 {
        if disk.next_piece(room)? != Piece::More {
            break;
        }
    }
    Ok(())
}

// Whether two disks have the same bytes of a file.
fn is_same<D: Disk, T: Disk>(
    alloc: Global,
    disk: &mut D,
    copy: &mut T,
    file: FileId,
) -> Result<bool, Fault>
    requires working { D.failed disk.old ≡ false }
    requires copied { T.failed copy.old ≡ false }
    ensures working { OnOk result (D.failed disk.new ≡ false) }
    ensures copied { OnOk result (T.failed copy.new ≡ false) }
{
    let size = disk.len(file)? as usize;
    let bytes = read_vec(alloc, disk, file, 0, size)?;
    let other = copy.len(file)? as usize;
    let found = read_vec(alloc, copy, file, 0, other)?;
    Ok(bytes.as_slice() == found.as_slice())
}

// Files without bytes, by either names of the logs. The device call of this number fails.
fn empty(alloc: Global, failing: u64, swapped: bool) -> Renamed<ModelDisk>
    ensures working { ⟦<Renamed<ModelDisk> as Disk>⟧.failed result ≡ false }
    ensures empty { (file : FileId) → ⟦<Renamed<ModelDisk> as Disk>⟧.seen result file ≡ [] }
{
    let mut disk = ModelDisk::new(Vec::new(alloc), Vec::new(alloc));
    disk.fail_call(failing);
    Renamed::new(disk, swapped)
}

// A disk that is copied between its calls: whether the copy has its bytes, and none where it was let go. One device call of the copy fails.
fn copied(alloc: Global, seed: u64, failing: u64) -> Result<Option<bool>, Fault> {
    let mut dice = Dice { state: seed };
    let mut room = [0; 64];
    let mut disk: Memory = Mirrored::new(empty(alloc, u64::MAX, false));
    calls(&mut disk, &mut dice, BEFORE, &mut room)?;
    disk.begin(empty(alloc, failing, seed % 2 == 0));
    calls(&mut disk, &mut dice, BESIDE, &mut room)?;
    rest(&mut disk, &mut room)?;
    let Some(mut copy) = disk.finish()? else {
        return Ok(None);
    };
    let log = is_same(alloc, &mut disk, &mut copy, FileId::Log)?;
    let pages = is_same(alloc, &mut disk, &mut copy, FileId::Pages)?;
    let log2 = is_same(alloc, &mut disk, &mut copy, FileId::Log2)?;
    Ok(Some(log && pages && log2))
}

#[test]
fn a_copy_has_the_bytes_of_the_disk(rt: HostRuntime) -> Result<(), Fail> {
    for seed in 0..60 {
        assert!(rt; copied(rt.alloc(), seed, u64::MAX)? == Some(true));
    }
    Ok(())
}

#[test]
fn a_disk_goes_on_without_a_copy_that_fails(rt: HostRuntime) -> Result<(), Fail> {
    for call in 1..60 {
        assert!(rt; copied(rt.alloc(), 7, call)?.is_none());
    }
    Ok(())
}
