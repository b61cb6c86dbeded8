//! A load of rising keys, without a log.

ghost use Rattle.std.specs.Prelude.{◌≡◌, false, true, Ok, IfOk, OnOk, ℕ, ◌+◌, []};
ghost use Rattle.im_base_disk.specs.Runs.{IsSynced, LeavesOnly};
ghost use Rattle.im_load.specs.Files.{AreEmpty, AreHalf};
ghost use Rattle.im_load.specs.HasTaken.{IsLoading};
ghost use Rattle.im_tool.specs.RisingKeys.{AreLoadOf, AreLoadOrNone, HasRisen, after};

use crate::transfer::{A_COMMIT, Loaded};
use im_base_disk::Disk;
use im_base_types::{Fault, PageNo, Rid};
use im_load::Loader;
use im_tool_files::Progress;
use im_tool_user::{EntryText, LineInput, Next, Present};
use std::alloc::Global;
use std::io;

/// An entry, and the line at which it stands.
pub type Entry = (Vec<u8>, Rid, u64);

/// What was loaded of a text: a store of so many entries, whose keys rise.
#[derive(Drop)]
pub struct Risen {
    pub count: u64,
    /// The entry after them, whose key is not above the last of them. None where the text has no other.
    pub next: Option<Entry>,
}

/// Why nothing was loaded.
#[derive(Drop)]
pub enum NotLoaded {
    /// How the load ended.
    Ended(Loaded),
    /// The text could not be read.
    Input(io::Error),
}

impl From<io::Error> for NotLoaded {
    fn from(error: io::Error) -> NotLoaded {
        NotLoaded::Input(error)
    }
}

/// Loads the entries of a text, as long as their keys rise, into files without bytes, which then have at most so many pages, and tells of each thousand. Where it is
/// refused the files are no store. So they are after a stop at any moment, or the store of all that was loaded (`stops`).
pub fn load_rising<D: Disk, R: LineInput, P: Progress>(
    alloc: Global,
    disk: &mut D,
    most: PageNo,
    present: Present,
    text: &mut EntryText,
    reader: &mut R,
    progress: &mut P,
) -> Result<Risen, NotLoaded>
    requires working { D.failed disk.old ≡ false }
    requires synced { IsSynced D.Disk disk.old }
    ensures working { OnOk result (D.failed disk.new ≡ false) }
    ensures loaded { IfOk result (λ risen. D.tells → AreLoadOf risen.count (D.seen disk.new)) }
    ensures stops { (D.tells → AreEmpty (D.seen disk.old)) → LeavesOnly D.Disk disk.old disk.new AreLoadOrNone }
{
    let begun = match Loader::begin(alloc, disk) {
        Ok(begun) => begun,
        Err(fault) => return Err(NotLoaded::Ended(Loaded::RefusedOpening(fault))),
    };
    let Some(loader) = begun else {
        return Err(NotLoaded::Ended(Loaded::RefusedOpening(Fault::NotAStore)));
    };
    load_text_with(alloc, loader, disk, most, present, text, reader, progress)
}

// The same by a load that was begun.
fn load_text_with<D: Disk, R: LineInput, P: Progress>(
    alloc: Global,
    loader: Loader,
    disk: &mut D,
    most: PageNo,
    present: Present,
    text: &mut EntryText,
    reader: &mut R,
    progress: &mut P,
) -> Result<Risen, NotLoaded>
    requires working { D.failed disk.old ≡ false }
    ensures working { OnOk result (D.failed disk.new ≡ false) }
    ensures loaded { (from : D) → IsLoading D.Disk from loader disk.old [] → IfOk result (λ risen. D.tells → AreLoadOf risen.count (D.seen disk.new)) }
    ensures stops { (from : D) → IsLoading D.Disk from loader disk.old [] → LeavesOnly D.Disk from disk.new AreLoadOrNone }
{
    if let Some(why) = text.read_head(reader)? {
        return Err(NotLoaded::Ended(Loaded::BadLine(text.number(), why)));
    }
    let mut loader = loader;
    let risen = take_all(
        alloc,
        &mut loader,
        disk,
        most,
        present,
        text,
        reader,
        progress,
    )?;
    ended(loader, disk, risen, text.number())
}

// Takes one entry after another, up to the first whose key does not rise.
fn take_all<D: Disk, R: LineInput, P: Progress>(
    alloc: Global,
    loader: &mut Loader,
    disk: &mut D,
    most: PageNo,
    present: Present,
    text: &mut EntryText,
    reader: &mut R,
    progress: &mut P,
) -> Result<Risen, NotLoaded>
    requires working { D.failed disk.old ≡ false }
    ensures working { OnOk result (D.failed disk.new ≡ false) }
    ensures risen { (from : D) → IsLoading D.Disk from loader.old disk.old [] → IfOk result (λ risen. HasRisen D.Disk from loader.new disk.new risen.count) }
    ensures stops { (from : D) → IsLoading D.Disk from loader.old disk.old [] → LeavesOnly D.Disk from disk.new AreHalf }
{
    let mut last = Vec::new(alloc);
    for count in 0..u64::MAX {
        tell_count(progress, count, text);
        let read = read_entry(alloc, text, reader)?;
        let taking = take_read(loader, disk, most, present, read, &mut last)?;
        if let Taking::Over(next) = taking {
            progress.show(count, text.all());
            return Ok(Risen { count, next });
        }
    }
    Err(NotLoaded::Ended(Loaded::Refused(text.number(), Fault::Capacity)))
}

// Tells each thousand.
fn tell_count<P: Progress>(progress: &mut P, count: u64, text: &EntryText) {
    if count > 0 && count % A_COMMIT == 0 {
        progress.show(count, text.all());
    }
}

// The next entry of a text, `None` after the last.
fn read_entry<R: LineInput>(
    alloc: Global,
    text: &mut EntryText,
    reader: &mut R,
) -> Result<Option<Entry>, NotLoaded> {
    match text.next_entry(alloc, reader)? {
        Next::Entry(key, rid, at) => Ok(Some((key, rid, at))),
        Next::End => Ok(None),
        Next::Bad(at, why) => Err(NotLoaded::Ended(Loaded::BadLine(at, why))),
        Next::Memory(at) => Err(NotLoaded::Ended(Loaded::Refused(at, Fault::Memory))),
    }
}

// What came of what was read.
#[derive(Drop)]
enum Taking {
    // The entry was taken.
    More,
    // None was taken: none is left, or the key of this one does not rise.
    Over(Option<Entry>),
}

// Takes what was read, if that is an entry whose key rises: it is the last one then.
fn take_read<D: Disk>(
    loader: &mut Loader,
    disk: &mut D,
    most: PageNo,
    present: Present,
    read: Option<Entry>,
    last: &mut Vec<u8>,
) -> Result<Taking, NotLoaded>
    requires working { D.failed disk.old ≡ false }
    ensures working { OnOk result (D.failed disk.new ≡ false) }
    ensures risen { (from : D) (n : ℕ) → HasRisen D.Disk from loader.old disk.old n → IfOk result (λ taking. HasRisen D.Disk from loader.new disk.new (after taking n)) }
    ensures stops { (from : D) (n : ℕ) → HasRisen D.Disk from loader.old disk.old n → LeavesOnly D.Disk from disk.new AreHalf }
{
    let Some((key, rid, at)) = read else {
        return Ok(Taking::Over(None));
    };
    let rises = taken(loader, disk, most, &key, rid, at)?;
    if rises {
        *last = key;
        return Ok(Taking::More);
    }
    if present == Present::Refused && key == *last {
        return Err(NotLoaded::Ended(Loaded::Duplicate(at)));
    }
    Ok(Taking::Over(Some((key, rid, at))))
}

// Takes the entry of this line, and answers whether its key rises. Refused `PagesFull` too, where there are more pages than may be.
fn taken<D: Disk>(
    loader: &mut Loader,
    disk: &mut D,
    most: PageNo,
    key: &[u8],
    rid: Rid,
    at: u64,
) -> Result<bool, NotLoaded>
    requires working { D.failed disk.old ≡ false }
    ensures working { OnOk result (D.failed disk.new ≡ false) }
    ensures taken { (from : D) (n : ℕ) → HasRisen D.Disk from loader.old disk.old n → result ≡ Ok true → HasRisen D.Disk from loader.new disk.new (n + 1) }
    ensures same { result ≡ Ok false → (loader.new ≡ loader.old) × (disk.new ≡ disk.old) }
    ensures stops { (from : D) (n : ℕ) → HasRisen D.Disk from loader.old disk.old n → LeavesOnly D.Disk from disk.new AreHalf }
{
    let rises = match loader.put(disk, key, rid) {
        Ok(rises) => rises,
        Err(fault) => return Err(NotLoaded::Ended(Loaded::Refused(at, fault))),
    };
    if rises {
        let pages = loader.pages();
        if pages > most {
            return Err(NotLoaded::Ended(Loaded::Refused(at, Fault::PagesFull)));
        }
        return Ok(true);
    }
    Ok(false)
}

// Ends a load of these entries, of which the last one is at this line.
fn ended<D: Disk>(loader: Loader, disk: &mut D, risen: Risen, at: u64) -> Result<Risen, NotLoaded>
    requires working { D.failed disk.old ≡ false }
    ensures working { OnOk result (D.failed disk.new ≡ false) }
    ensures loaded { (from : D) → HasRisen D.Disk from loader disk.old risen.count → IfOk result (λ ended. D.tells → AreLoadOf ended.count (D.seen disk.new)) }
    ensures stops { (from : D) → HasRisen D.Disk from loader disk.old risen.count → LeavesOnly D.Disk from disk.new AreLoadOrNone }
{
    match loader.finish(disk) {
        Ok(()) => Ok(risen),
        Err(fault) => Err(NotLoaded::Ended(Loaded::Refused(at, fault))),
    }
}
