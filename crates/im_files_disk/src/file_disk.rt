//! Real files. Nothing is told of their bytes.
ghost use Rattle.std.specs.Prelude.{◌≡◌, ◌<◌, ◌^◌, [], true, false, IfOk, IfErr, IfSome, OnOk, Ok, Err, Some, is_err, option_map};
ghost use Rattle.im_base_types.specs.declared.fault.Fault.TheVariants.{Device};
ghost use Rattle.im_files_disk.specs.RealFiles.{FoundAreApart, IsNoStandardFile, HasOwnDescriptors};

use crate::folders::{make_folders, sync_folders};
use crate::{DiskCall, DiskError, OpenError};
use im_base_disk::{Count, Disk};
use im_base_types::{Fault, FileId, PAGE_SIZE, PageNo};
use im_files_belonging::{
    FIRST_BYTES, FRONT, Folder, Front, LeftLog, PagesFront, belong, is_older,
};
use std::fs::{self, File, OpenOptions, TryLockError};
use std::io;
use std::io::ErrorKind;
use std::os::fd::AsRawFd;
use std::os::unix::fs::FileExt;

// The greatest of the descriptors of standard input, output and error.
const STANDARD_ERROR: i32 = 2;

// How much of a log is read at once.
const PIECE: usize = 262_144;

/// A folder with the files `log`, `pages` and `log2`. A call of the disk is one call of the system, and a further one
/// where the system read or wrote a part, or was interrupted. Until it is dropped it holds the lock of the system
/// on the log, which no second opening gets.
#[derive(Drop)]
pub struct FileDisk {
    log: File,
    pages: File,
    // None where it is missing in a folder that is only read: it reads as a file without bytes.
    log2: Option<File>,
    has_failed: bool,
    // What the last call that failed was.
    last_error: Option<DiskError>,
    writes: Count,
    syncs: Count,
}

// With whom an opening shares the files.
#[derive(Clone, Copy)]
pub(crate) enum Sharing {
    Nobody,
    Readers,
}

impl FileDisk {
    // These files, of which no call has failed.
    pub(crate) fn of(log: File, pages: File, log2: Option<File>) -> FileDisk
        requires log { IsNoStandardFile log }
        requires pages { IsNoStandardFile pages }
        requires log2 { IfSome log2 IsNoStandardFile }
        ensures working { ⟦<FileDisk as Disk>⟧.failed result ≡ false }
        ensures descriptors { HasOwnDescriptors result }
    {
        FileDisk {
            log,
            pages,
            log2,
            has_failed: false,
            last_error: None,
            writes: Count::new(),
            syncs: Count::new(),
        }
    }

    /// Opens `log`, `pages` and `log2` in the folder, makes what is missing of the four, locks the log, and syncs all four,
    /// so that what an ended program left unsynced is kept before it is read. Where no store was made yet, each folder
    /// above them is synced too. Neither file gets the descriptor of standard input, output or error, also where the
    /// program was started without one of them: what it prints there would be written over the store.
    ///
    /// Refused `NotAFile` where a name in the folder is taken by something else, `Locked` where another opening holds
    /// the log, and for each reason for which files do not belong together (`im_files_belonging`): `Unfinished`, `NoFile`, `NoOtherLog`, `NoPages`, `ShortPages`, `NotALog`, `OlderPages`. In these nine no byte of
    /// a file was changed and none was made but an empty `log`. The other errors are the system's.
    pub fn open(rt: &HostRuntime, dir: &str) -> Result<FileDisk, OpenError>
        ensures working { IfOk result (λ disk. ⟦<FileDisk as Disk>⟧.failed disk ≡ false) }
        ensures descriptors { IfOk result HasOwnDescriptors }
    {
        make_folders(rt, dir)?;
        // As long as these three stand, no file that is opened gets the descriptor of a standard stream.
        let folder = open_folder(rt, dir)?;
        let _second = open_folder(rt, dir)?;
        let _third = open_folder(rt, dir)?;
        let mut options = OpenOptions::new();
        options.read(true).write(true).create(true);
        let log_path = path_of_file(rt, dir, "log")?;
        if !fs::exists(rt, log_path.as_str())? {
            // Where the others say that a store is here, none is made.
            look(rt, dir, &options, None)?;
        }
        let log = open_file(rt, log_path.as_str(), &options)?;
        lock(&log, Sharing::Nobody)?;
        let Found {
            pages,
            log2,
            is_made,
        } = look(rt, dir, &options, Some(&log))?;
        let pages = made(rt, dir, "pages", &options, pages)?;
        let log2 = made(rt, dir, "log2", &options, log2)?;
        sync_all(&[&log, &log2, &pages, &folder])?;
        if !is_made {
            sync_folders(rt, dir)?;
        }
        Ok(FileDisk::of(log, pages, Some(log2)))
    }

    /// Opens the `log` and `pages` that the folder has, and its `log2` if it has one, to be read only. It makes nothing and syncs nothing, and a write to what
    /// it opens is refused `Device`. The descriptors are as `open` has them. Any number may read at once: they share the lock on the log, which keeps out
    /// those who write, as these keep them out.
    ///
    /// Refused as `open` refuses, `Unfinished` whatever else is there or missing, and `NoFile` where `log` or `pages` is missing.
    pub fn open_to_read(rt: &HostRuntime, dir: &str) -> Result<FileDisk, OpenError>
        ensures working { IfOk result (λ disk. ⟦<FileDisk as Disk>⟧.failed disk ≡ false) }
        ensures descriptors { IfOk result HasOwnDescriptors }
    {
        let mut options = OpenOptions::new();
        options.read(true);
        open_files(rt, dir, &options, Sharing::Readers)
    }

    /// The same, to be read and written, by this opening alone.
    pub fn open_made(rt: &HostRuntime, dir: &str) -> Result<FileDisk, OpenError>
        ensures working { IfOk result (λ disk. ⟦<FileDisk as Disk>⟧.failed disk ≡ false) }
        ensures descriptors { IfOk result HasOwnDescriptors }
    {
        let mut options = OpenOptions::new();
        options.read(true).write(true);
        open_files(rt, dir, &options, Sharing::Nobody)
    }

    /// The last call that failed: which it was, on which file and where, and what the system said. None where none has failed.
    pub fn last_error(&self) -> Option<&DiskError>
        ensures { option_map (λ e. e.now) result ≡ self.now.last_error }
    {
        match &self.last_error {
            Some(error) => Some(error),
            None => None,
        }
    }

    /// Whether the last call failed, after which there is no other.
    pub fn has_failed(&self) -> bool
        ensures { result ≡ ⟦<FileDisk as Disk>⟧.failed self.now }
    {
        self.has_failed
    }

    /// How many pages the file of pages has, or 0 where the system does not tell it. That is no call of the disk, which goes on as it was: who opens a store
    /// chooses by it how much memory the store takes. A file has fewer than 2^64 bytes.
    pub fn page_count(&self) -> u64
        ensures few { result < 2 ^ 52 }
    {
        match self.length(FileId::Pages) {
            Ok(length) => length / PAGE_SIZE as u64,
            Err(_) => 0,
        }
    }

    // What a call came to, which was this one: where it failed, it is the last error, with what the system said.
    pub(crate) fn keep<T: Drop>(
        &mut self,
        call: DiskCall,
        file: FileId,
        outcome: io::Result<T>,
    ) -> Result<T, Fault>
        ensures failed { self.new.has_failed ≡ is_err result }
        ensures value { IfOk outcome (λ v. result ≡ Ok v) }
        ensures device { IfErr outcome (λ e. (result ≡ Err Device) × (self.new.last_error ≡ Some (record { call = call; file = file; error = e }))) }
        ensures same { OnOk outcome (self.new.last_error ≡ self.old.last_error) }
        ensures counts { (self.new.writes ≡ self.old.writes) × (self.new.syncs ≡ self.old.syncs) }
    {
        match outcome {
            Ok(value) => {
                self.has_failed = false;
                Ok(value)
            }
            Err(error) => {
                self.has_failed = true;
                self.last_error = Some(DiskError { call, file, error });
                Err(Fault::Device)
            }
        }
    }

    // Brings the three files to the disk, their lengths too.
    pub(crate) fn sync_files(&self) -> io::Result<()> {
        for file in [FileId::Log, FileId::Pages, FileId::Log2] {
            self.file(file)?.sync_all()?;
        }
        Ok(())
    }

    pub(crate) fn file(&self, file: FileId) -> io::Result<&File> {
        match file {
            FileId::Log => Ok(&self.log),
            FileId::Pages => Ok(&self.pages),
            FileId::Log2 => match &self.log2 {
                Some(log2) => Ok(log2),
                None => Err(io::Error::from(ErrorKind::NotFound)),
            },
        }
    }

    fn length(&self, file: FileId) -> io::Result<u64> {
        if matches!(file, FileId::Log2) && self.log2.is_none() {
            return Ok(0);
        }
        len_of(self.file(file)?)
    }

    fn read_at(&self, file: FileId, at: u64, buf: &mut [u8]) -> io::Result<()> {
        self.file(file)?.read_exact_at(buf, at)
    }

    fn write(&self, file: FileId, at: u64, bytes: &[u8]) -> io::Result<()> {
        self.file(file)?.write_all_at(bytes, at)
    }

    fn bring(&self, file: FileId) -> io::Result<()> {
        self.file(file)?.sync_data()
    }
}

pub(crate) fn open_folder(rt: &HostRuntime, dir: &str) -> Result<File, OpenError> {
    let found = fs::metadata(rt, dir)?;
    if !found.is_dir() {
        return Err(OpenError::NotAFolder);
    }
    Ok(File::open(rt, dir)?)
}

// The files that a folder has, and no other. The log is locked.
fn open_files(
    rt: &HostRuntime,
    dir: &str,
    options: &OpenOptions,
    sharing: Sharing,
) -> Result<FileDisk, OpenError>
    ensures working { IfOk result (λ disk. ⟦<FileDisk as Disk>⟧.failed disk ≡ false) }
    ensures descriptors { IfOk result HasOwnDescriptors }
{
    let _first = open_folder(rt, dir)?;
    let _second = open_folder(rt, dir)?;
    let _third = open_folder(rt, dir)?;
    // Until its end a copy lacks a log, which is not what a user has to be told of it.
    if has_part(rt, dir)? {
        return Err(OpenError::Unfinished);
    }
    let log_path = path_of_made_file(rt, dir, "log")?;
    path_of_made_file(rt, dir, "pages")?;
    let log = open_file(rt, log_path.as_str(), options)?;
    lock(&log, sharing)?;
    let Found { pages, log2, .. } = look(rt, dir, options, Some(&log))?;
    let Some(pages) = pages else {
        return Err(OpenError::NoFile("pages"));
    };
    Ok(FileDisk::of(log, pages, log2))
}

// The path of a file that the folder has.
fn path_of_made_file(rt: &HostRuntime, dir: &str, name: &'static str) -> Result<String, OpenError> {
    let path = path_of_file(rt, dir, name)?;
    if fs::exists(rt, path.as_str())? {
        Ok(path)
    } else {
        Err(OpenError::NoFile(name))
    }
}

// Whether a copy into the folder goes on, or was not finished.
fn has_part(rt: &HostRuntime, dir: &str) -> Result<bool, OpenError> {
    let part = path_of_file(rt, dir, "log.part")?;
    Ok(fs::exists(rt, part.as_str())?)
}

// The path of a file in the folder, where the name is that of a plain file, or of nothing yet.
pub(crate) fn path_of_file(
    rt: &HostRuntime,
    dir: &str,
    name: &'static str,
) -> Result<String, OpenError> {
    let path = format!(in rt.alloc(); "{dir}/{name}").map_err(|_| OpenError::Memory)?;
    match fs::metadata(rt, path.as_str()) {
        Ok(found) if found.is_file() => Ok(path),
        Ok(_) => Err(OpenError::NotAFile(name)),
        Err(error) if error.kind() == ErrorKind::NotFound => Ok(path),
        Err(error) => Err(OpenError::from(error)),
    }
}

pub(crate) fn open_file(
    rt: &HostRuntime,
    path: &str,
    options: &OpenOptions,
) -> Result<File, OpenError>
    ensures { IfOk result IsNoStandardFile }
{
    let file = options.open(rt, path)?;
    if file.as_raw_fd() > STANDARD_ERROR {
        Ok(file)
    } else {
        Err(OpenError::NoDescriptor)
    }
}

// The lock of the system on the whole file, which goes with this opening of it.
pub(crate) fn lock(file: &File, sharing: Sharing) -> Result<(), OpenError> {
    let outcome = match sharing {
        Sharing::Nobody => file.try_lock(),
        Sharing::Readers => file.try_lock_shared(),
    };
    match outcome {
        Ok(()) => Ok(()),
        Err(TryLockError::WouldBlock) => Err(OpenError::Locked),
        Err(TryLockError::Error(error)) => Err(OpenError::System(error)),
    }
}

// A file of the folder, if it has it.
fn open_if_made(
    rt: &HostRuntime,
    dir: &str,
    name: &'static str,
    options: &OpenOptions,
) -> Result<Option<File>, OpenError>
    ensures { IfOk result (λ file. IfSome file IsNoStandardFile) }
{
    let path = path_of_file(rt, dir, name)?;
    if fs::exists(rt, path.as_str())? {
        Ok(Some(open_file(rt, path.as_str(), options)?))
    } else {
        Ok(None)
    }
}

// A file of the folder, which is made where it was not found.
fn made(
    rt: &HostRuntime,
    dir: &str,
    name: &'static str,
    options: &OpenOptions,
    found: Option<File>,
) -> Result<File, OpenError>
    requires { IfSome found IsNoStandardFile }
    ensures { IfOk result IsNoStandardFile }
{
    if let Some(file) = found {
        return Ok(file);
    }
    let path = path_of_file(rt, dir, name)?;
    open_file(rt, path.as_str(), options)
}

// What a folder has beside its `log`.
#[derive(Drop)]
struct Found {
    pages: Option<File>,
    log2: Option<File>,
    // A log says that it was made.
    is_made: bool,
}

// Looks at the files that the folder has, and asks whether they belong together. Nothing is made, and nothing is written.
fn look(
    rt: &HostRuntime,
    dir: &str,
    options: &OpenOptions,
    log: Option<&File>,
) -> Result<Found, OpenError>
    ensures { IfOk result FoundAreApart }
{
    let log2 = open_if_made(rt, dir, "log2", options)?;
    let pages = open_if_made(rt, dir, "pages", options)?;
    let folder = Folder {
        log: front_of(log)?,
        log2: front_of(log2.as_ref())?,
        pages: pages_front_of(pages.as_ref())?,
        has_part: has_part(rt, dir)?,
    };
    let logs = belong(&folder)?;
    look_back(rt, &folder, (log, log2.as_ref()), pages.as_ref())?;
    Ok(Found {
        pages,
        log2,
        is_made: logs.is_made,
    })
}

// Walks over the log that was left, and over the current one, and asks whether the file of pages has the newest change of the first.
fn look_back(
    rt: &HostRuntime,
    folder: &Folder,
    logs: (Option<&File>, Option<&File>),
    pages: Option<&File>,
) -> Result<(), OpenError> {
    let start = LeftLog::begin(folder);
    let Some(pages) = pages else {
        return Ok(());
    };
    let left = walked(rt, start, logs)?;
    let found = walked(rt, left.go_on(folder), logs)?;
    let long = len_of(pages)?;
    let lsn = lsn_of(pages, long, found.page)?;
    if is_older(&found, long / PAGE_SIZE as u64, lsn) {
        Err(OpenError::OlderPages)
    } else {
        Ok(())
    }
}

// A walk from there on, to the end of its log.
fn walked(
    rt: &HostRuntime,
    start: LeftLog,
    logs: (Option<&File>, Option<&File>),
) -> Result<LeftLog, OpenError> {
    let mut walk = start;
    let Some(log) = (if walk.is_log2 { logs.1 } else { logs.0 }) else {
        return Ok(walk);
    };
    if walk.is_over {
        return Ok(walk);
    }
    let long = len_of(log)?;
    let mut room = vec![in rt.alloc(); 0; PIECE].map_err(|_| OpenError::Memory)?;
    for _count in 0..u64::MAX {
        let from = walk.place;
        let size = usize::try_from(long.saturating_sub(from))
            .unwrap_or(PIECE)
            .min(PIECE);
        if walk.is_over || size == 0 {
            break;
        }
        log.read_exact_at(&mut room[..size], from)?;
        walk.take(&room[..size]);
        if walk.place == from {
            break;
        }
    }
    Ok(walk)
}

// The LSN of a page in a file that is so long, 0 where it is not there.
fn lsn_of(pages: &File, long: u64, page: PageNo) -> Result<u64, OpenError> {
    let mut lsn = [0; 8];
    let place = u64::from(page) * PAGE_SIZE as u64;
    if place < long / PAGE_SIZE as u64 * PAGE_SIZE as u64 {
        pages.read_exact_at(&mut lsn, place)?;
    }
    Ok(u64::from_be_bytes(lsn))
}

// The length of a log, and its first bytes.
pub(crate) fn front_of(file: Option<&File>) -> io::Result<Front> {
    let mut front = Front::NONE;
    if let Some(file) = file {
        front.is_there = true;
        front.long = len_of(file)?;
        let size = usize::try_from(front.long).unwrap_or(FRONT).min(FRONT);
        file.read_exact_at(&mut front.bytes[..size], 0)?;
    }
    Ok(front)
}

// The length of a file of pages, and the first bytes of page 0, where that is whole.
pub(crate) fn pages_front_of(file: Option<&File>) -> io::Result<PagesFront> {
    let mut front = PagesFront::NONE;
    if let Some(file) = file {
        front.is_there = true;
        front.long = len_of(file)?;
        if front.long >= PAGE_SIZE as u64 {
            file.read_exact_at(&mut front.bytes[..FIRST_BYTES], 0)?;
        }
    }
    Ok(front)
}

pub(crate) fn sync_all(files: &[&File]) -> io::Result<()> {
    for file in files {
        file.sync_all()?;
    }
    Ok(())
}

fn len_of(file: &File) -> io::Result<u64> {
    Ok(file.metadata()?.len())
}

impl Disk for FileDisk {
    ghost tells = { ⊥ };

    ghost sums = { Unit {0} };

    ghost seen = { λ _ _. [] };

    ghost may_leave = { λ _ _. ⊥ };

    ghost moment = { λ _. 0 };

    ghost left_since = { λ _ _ _. ⊥ };

    ghost failed = { λ d. d.has_failed };

    ghost writes = { λ d. d.writes.count };

    ghost syncs = { λ d. d.syncs.count };

    ghost counts_now = { λ _ _ _ _ none. none };

    ghost only_now = { λ _ _ none. none };

    ghost seen_may_stay = { λ _ none. absurd none };

    fn keeps_sums(&self) -> bool {
        true
    }

    fn len(&mut self, file: FileId) -> Result<u64, Fault> {
        let outcome = self.length(file);
        self.keep(DiskCall::Len, file, outcome)
    }

    fn read(&mut self, file: FileId, at: u64, buf: &mut [u8]) -> Result<(), Fault> {
        let outcome = self.read_at(file, at, buf);
        self.keep(DiskCall::Read(at), file, outcome)
    }

    fn write_at(&mut self, file: FileId, at: u64, bytes: &[u8]) -> Result<(), Fault> {
        self.writes = self.writes.with_one_more();
        let outcome = self.write(file, at, bytes);
        self.keep(DiskCall::Write(at), file, outcome)
    }

    fn sync(&mut self, file: FileId) -> Result<(), Fault> {
        self.syncs = self.syncs.with_one_more();
        let outcome = self.bring(file);
        self.keep(DiskCall::Sync, file, outcome)
    }
}
