//! Questions and answers.
ghost use Rattle.std.specs.Prelude.{◌≡◌, [], false, true, length};
ghost use Rattle.im_files_caller_disk.specs.Questions.{asked_of, file_number};
ghost use Rattle.im_files_caller_disk.specs.Disks.{IsAsked, disk_over};

use crate::line::Line;
use im_base_disk::Disk;
use im_base_types::{Fault, FileId};

const LEN: u32 = 1;

const READ: u32 = 2;

const WRITE: u32 = 3;

const SYNC: u32 = 4;

/// A descriptor to ask, and one to be answered.
#[derive(Drop)]
pub struct CallerDisk {
    ask: i32,
    answer: i32,
    is_copy: bool,
    has_failed: bool,
    line: Line,
}

impl CallerDisk {
    /// A disk whose files are held by who answers there: those of a store, or of a copy of it.
    pub fn new(ask: i32, answer: i32, is_copy: bool) -> CallerDisk
        ensures { result ≡ disk_over ask answer is_copy }
    {
        CallerDisk {
            ask,
            answer,
            is_copy,
            has_failed: false,
            line: Line::new(),
        }
    }

    /// The disk of a copy of the store that this one is of, whose files the same caller holds.
    pub fn of_copy(&self) -> CallerDisk
        ensures { result ≡ disk_over self.now.ask self.now.answer true }
    {
        CallerDisk::new(self.ask, self.answer, true)
    }

    /// Whether the last call failed, after which there is no other.
    pub fn has_failed(&self) -> bool
        ensures { result ≡ ⟦<CallerDisk as Disk>⟧.failed self.now }
    {
        self.has_failed
    }

    // Asks, with bytes after the question; the number of the answer.
    fn asked(
        &mut self,
        kind: u32,
        file: FileId,
        place: u64,
        len: u64,
        bytes: &[u8],
    ) -> Result<u64, Fault>
        ensures asked { IsAsked kind file place len bytes.now self.old self.new }
        ensures kept { self.new.has_failed ≡ self.old.has_failed }
    {
        let number = number_of(file, self.is_copy);
        self.line
            .note(&[u64::from(kind), u64::from(number), place, len], bytes);
        let mut question = [0u8; 24];
        question[..4].copy_from_slice(&kind.to_le_bytes());
        question[4..8].copy_from_slice(&number.to_le_bytes());
        question[8..16].copy_from_slice(&place.to_le_bytes());
        question[16..].copy_from_slice(&len.to_le_bytes());
        if !io::write_all(self.ask, &question) || !io::write_all(self.ask, bytes) {
            return Err(Fault::Device);
        }
        let mut answer = [0u8; 8];
        if io::read_full(self.answer, &mut answer) < 8 {
            return Err(Fault::Device);
        }
        match u64::from_le_bytes(answer) {
            u64::MAX => Err(Fault::Device),
            number => Ok(number),
        }
    }

    fn read_from(&mut self, file: FileId, at: u64, buf: &mut [u8]) -> Result<(), Fault>
        ensures asked { IsAsked 2 file at (length buf.old) [] self.old self.new }
        ensures kept { self.new.has_failed ≡ self.old.has_failed }
    {
        let len = buf.len();
        self.asked(READ, file, at, len as u64, b"")?;
        if io::read_full(self.answer, buf) < len {
            return Err(Fault::Device);
        }
        Ok(())
    }
}

// The number of a file: 0 to 2 of a store, and 3 to 5 of a copy.
fn number_of(file: FileId, is_copy: bool) -> u32
    ensures { result ≡ file_number is_copy file }
{
    match (file, is_copy) {
        (FileId::Log, false) => 0,
        (FileId::Pages, false) => 1,
        (FileId::Log2, false) => 2,
        (FileId::Log, true) => 3,
        (FileId::Pages, true) => 4,
        (FileId::Log2, true) => 5,
    }
}

impl Disk for CallerDisk {
    ghost use Rattle.std.specs.Prelude.{◌≡◌, ◌+◌, ◌≤◌, [], false, length};
    ghost use Rattle.im_base_disk.specs.Disk.{Answers};
    ghost use Rattle.im_base_disk.specs.Runs.{Costs, Reads};
    ghost use Rattle.im_files_caller_disk.specs.Questions.{asked_of};
    ghost use Rattle.im_files_caller_disk.specs.Disks.{IsAsked};

    ghost tells = { ⊥ };

    ghost sums = { Unit {0} };

    ghost seen = { λ _ _. [] };

    ghost may_leave = { λ _ _. ⊥ };

    ghost moment = { λ _. 0 };

    ghost left_since = { λ _ _ _. ⊥ };

    ghost failed = { λ d. d.has_failed };

    ghost writes = { λ d. asked_of 3 d.line.asked };

    ghost syncs = { λ d. asked_of 4 d.line.asked };

    ghost counts_now = { λ _ _ _ _ none. none };

    ghost only_now = { λ _ _ none. none };

    ghost seen_may_stay = { λ _ none. absurd none };

    fn keeps_sums(&self) -> bool {
        true
    }

    fn len(&mut self, file: FileId) -> Result<u64, Fault>
        requires { ⟦<CallerDisk as Disk>⟧.failed self.old ≡ false }
        ensures reads { Reads ⟦<CallerDisk as Disk>⟧ self.old self.new }
        ensures answers { Answers (⟦<CallerDisk as Disk>⟧.failed self.new) result }
        ensures asked { IsAsked 1 file 0 0 [] self.old self.new }
    {
        let outcome = self.asked(LEN, file, 0, 0, b"");
        self.has_failed = outcome.is_err();
        outcome.map_err(|_| Fault::Device)
    }

    fn read(&mut self, file: FileId, at: u64, buf: &mut [u8]) -> Result<(), Fault>
        requires working { ⟦<CallerDisk as Disk>⟧.failed self.old ≡ false }
        requires within { ⟦<CallerDisk as Disk>⟧.tells → at + length buf.old ≤ length (⟦<CallerDisk as Disk>⟧.seen self.old file) }
        ensures reads { Reads ⟦<CallerDisk as Disk>⟧ self.old self.new }
        ensures answers { Answers (⟦<CallerDisk as Disk>⟧.failed self.new) result }
        ensures asked { IsAsked 2 file at (length buf.old) [] self.old self.new }
    {
        let outcome = self.read_from(file, at, buf);
        self.has_failed = outcome.is_err();
        outcome.map_err(|_| Fault::Device)
    }

    fn write_at(&mut self, file: FileId, at: u64, bytes: &[u8]) -> Result<(), Fault>
        requires working { ⟦<CallerDisk as Disk>⟧.failed self.old ≡ false }
        requires place { ⟦<CallerDisk as Disk>⟧.tells → at ≤ length (⟦<CallerDisk as Disk>⟧.seen self.old file) }
        ensures costs { Costs ⟦<CallerDisk as Disk>⟧ 1 0 self.old self.new }
        ensures answers { Answers (⟦<CallerDisk as Disk>⟧.failed self.new) result }
        ensures asked { IsAsked 3 file at (length bytes.now) bytes.now self.old self.new }
    {
        let outcome = self.asked(WRITE, file, at, bytes.len() as u64, bytes);
        self.has_failed = outcome.is_err();
        outcome.map(|_| ()).map_err(|_| Fault::Device)
    }

    fn sync(&mut self, file: FileId) -> Result<(), Fault>
        requires { ⟦<CallerDisk as Disk>⟧.failed self.old ≡ false }
        ensures costs { Costs ⟦<CallerDisk as Disk>⟧ 0 1 self.old self.new }
        ensures answers { Answers (⟦<CallerDisk as Disk>⟧.failed self.new) result }
        ensures asked { IsAsked 4 file 0 0 [] self.old self.new }
    {
        let outcome = self.asked(SYNC, file, 0, 0, b"");
        self.has_failed = outcome.is_err();
        outcome.map(|_| ()).map_err(|_| Fault::Device)
    }
}
