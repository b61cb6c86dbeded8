//! Entries of a text, put into a store.

ghost use Rattle.std.specs.Prelude.{◌≡◌, false};
ghost use Rattle.im_base_disk.specs.Runs.{IsSynced};

use crate::rising::{Entry, Risen};
use crate::store::ended;
use im_base_steps::{Reply, Step};
use im_base_two_logs::TwoLogs;
use im_base_types::{Fault, Rid, TxnId};
use im_engine::Config;
use im_store::{Bounds, OpenStore};
use im_tool_files::{Cause, Causes, Ending, Opening, Progress};
use im_tool_user::{EntryText, LineInput, Next, Present, WhyBad};
use std::alloc::Global;
use std::io;
use std::io::Write;
use std::thread::Threads;

/// How many entries are put in between one commit and the next.
pub(crate) const A_COMMIT: u64 = 1_000;

/// How many entries of a text were put in, and how many keys were there already.
#[derive(Clone, Copy, Debug, Default, PartialEq, Eq)]
pub struct LoadCount {
    /// Entries whose keys are new.
    pub put: u64,
    /// Keys that were there and stayed as they were.
    pub skipped: u64,
    /// Those of them with another row id than the text's.
    pub others: u64,
    /// Keys that were there and got the row id of the text.
    pub replaced: u64,
}

impl LoadCount {
    fn all(self) -> u64 {
        self.put
            .saturating_add(self.skipped)
            .saturating_add(self.replaced)
    }
}

/// How a load ended.
#[derive(Clone, Copy, Debug, PartialEq, Eq)]
pub enum Loaded {
    /// All keys of the text are in the store.
    All(LoadCount),
    /// This line of the text, counted from 1, is none of a dump, or the text ends before it.
    BadLine(u64, WhyBad),
    /// The store refused the entry of this line, or the commit after it. Those before the last commit are kept.
    Refused(u64, Fault),
    /// The key of this line is in the store already.
    Duplicate(u64),
    /// The opening was refused.
    RefusedOpening(Fault),
    /// All keys of the text are in the store, and what closes it was refused.
    RefusedClose(LoadCount, Fault),
}

/// Puts the entries of such a text into a store, commits them a thousand at a time, and tells of each commit. `present` says what is done with
/// keys that are there, so that a load that broke off can go on. Checkpoints are taken in between, and the log goes on in
/// the other file, as the bounds want it; after the last entry a long log is left for an empty one, or a Checkpoint is taken, so that the next opening has nothing to redo, and of files
/// the logs are cut.
pub fn load_text<
    D: TwoLogs + Cause + Opening + Ending + Drop,
    R: LineInput,
    P: Progress,
    E: Write,
    T: Threads + Sync,
>(
    rt: &T,
    alloc: Global,
    disk: D,
    config: Config,
    bounds: Bounds,
    present: Present,
    reader: &mut R,
    progress: &mut P,
    causes: &mut Causes<E>,
) -> io::Result<Loaded>
    requires working { D.failed disk ≡ false }
    requires synced { IsSynced D.Disk disk }
{
    let mut text = EntryText::new(alloc);
    load_more(
        rt, alloc, disk, config, bounds, present, None, &mut text, reader, progress, causes,
    )
}

/// The same of what is left of a text, where some of it was loaded, or of a text of which no line was read.
pub(crate) fn load_more<
    D: TwoLogs + Cause + Opening + Ending + Drop,
    R: LineInput,
    P: Progress,
    E: Write,
    T: Threads + Sync,
>(
    rt: &T,
    alloc: Global,
    disk: D,
    config: Config,
    bounds: Bounds,
    present: Present,
    risen: Option<Risen>,
    text: &mut EntryText,
    reader: &mut R,
    progress: &mut P,
    causes: &mut Causes<E>,
) -> io::Result<Loaded>
    requires working { D.failed disk ≡ false }
    requires synced { IsSynced D.Disk disk }
{
    match OpenStore::open(rt, alloc, disk, config, bounds) {
        Ok(mut store) => {
            store.engine().disk().is_done();
            let run = load_to_end(alloc, &mut store, present, risen, text, reader, progress);
            progress.end();
            closed(store, run, causes)
        }
        Err((fault, disk)) => {
            causes.tell(&disk);
            Ok(Loaded::RefusedOpening(fault))
        }
    }
}

// Makes what is due, and loads the lines.
fn load_to_end<D: TwoLogs + Drop, R: LineInput, P: Progress>(
    alloc: Global,
    store: &mut OpenStore<D>,
    present: Present,
    risen: Option<Risen>,
    text: &mut EntryText,
    reader: &mut R,
    progress: &mut P,
) -> io::Result<Loaded> {
    store.keep();
    if let Some(unkept) = store.unkept() {
        return Ok(Loaded::Refused(1, unkept.fault));
    }
    let risen = match risen {
        Some(risen) => risen,
        None => {
            if let Some(why) = text.read_head(reader)? {
                return Ok(Loaded::BadLine(text.number(), why));
            }
            Risen {
                count: 0,
                next: None,
            }
        }
    };
    load_entries(alloc, store, present, risen, text, reader, progress)
}

// Ends the store, which is closed where all was loaded. A call of its disk that failed is told.
fn closed<D: TwoLogs + Cause + Ending + Drop, E: Write>(
    store: OpenStore<D>,
    run: io::Result<Loaded>,
    causes: &mut Causes<E>,
) -> io::Result<Loaded> {
    let Ok(Loaded::All(count)) = run else {
        let disk = store.into_disk();
        causes.tell(&disk);
        return run;
    };
    match ended(store, causes) {
        Ok(()) => Ok(Loaded::All(count)),
        Err(fault) => Ok(Loaded::RefusedClose(count, fault)),
    }
}

// The entry that was read before, or the next one of the text.
fn next_of<R: LineInput>(
    alloc: Global,
    read: &mut Option<Entry>,
    text: &mut EntryText,
    reader: &mut R,
) -> io::Result<Next> {
    match read.take() {
        Some((key, rid, at)) => Ok(Next::Entry(key, rid, at)),
        None => text.next_entry(alloc, reader),
    }
}

// Puts in one entry after another, and commits the last ones.
fn load_entries<D: TwoLogs + Drop, R: LineInput, P: Progress>(
    alloc: Global,
    store: &mut OpenStore<D>,
    present: Present,
    risen: Risen,
    text: &mut EntryText,
    reader: &mut R,
    progress: &mut P,
) -> io::Result<Loaded> {
    let mut number = 0;
    let mut count = LoadCount::default();
    count.put = risen.count;
    let mut read = risen.next;
    for done in 0..u64::MAX {
        let (key, rid, at) = match next_of(alloc, &mut read, text, reader)? {
            Next::Entry(key, rid, at) => (key, rid, at),
            Next::End => return Ok(end_load(store, number, done, count, text, progress)),
            Next::Bad(at, why) => return Ok(Loaded::BadLine(at, why)),
            Next::Memory(at) => return Ok(Loaded::Refused(at, Fault::Memory)),
        };
        if done % A_COMMIT == 0 {
            match begun(store) {
                Ok(started) => number = started,
                Err(fault) => return Ok(Loaded::Refused(at, fault)),
            }
        }
        if let Some(end) = load_entry(store, number, present, key, rid, at, &mut count) {
            return Ok(end);
        }
        if let Some(unkept) = store.unkept() {
            return Ok(Loaded::Refused(at, unkept.fault));
        }
        if done % A_COMMIT == A_COMMIT - 1 {
            if let Err(fault) = committed(store, number) {
                return Ok(Loaded::Refused(at, fault));
            }
            if let Some(unkept) = store.unkept() {
                return Ok(Loaded::Refused(at, unkept.fault));
            }
            progress.show(count.all(), text.all());
        }
    }
    Ok(Loaded::All(count))
}

// Commits what was put in since the last commit, of so many steps.
fn end_load<D: TwoLogs + Drop, P: Progress>(
    store: &mut OpenStore<D>,
    number: TxnId,
    done: u64,
    count: LoadCount,
    text: &EntryText,
    progress: &mut P,
) -> Loaded {
    if done % A_COMMIT != 0 {
        if let Err(fault) = committed(store, number) {
            return Loaded::Refused(text.number(), fault);
        }
        progress.show(count.all(), text.all());
    }
    match store.unkept() {
        None => Loaded::All(count),
        Some(unkept) => Loaded::Refused(text.number(), unkept.fault),
    }
}

/// Begins a transaction, and answers its number.
pub(crate) fn begun<D: TwoLogs + Drop>(store: &mut OpenStore<D>) -> Result<TxnId, Fault> {
    match store.step(&Step::Begin) {
        Reply::Started(number) => Ok(number),
        reply => Err(fault_of(reply)),
    }
}

fn committed<D: TwoLogs + Drop>(store: &mut OpenStore<D>, number: TxnId) -> Result<(), Fault> {
    match store.step(&Step::Commit(number)) {
        Reply::Committed => Ok(()),
        reply => Err(fault_of(reply)),
    }
}

// Puts in an entry, or does with it what is done with a key that is there. It answers how the load ends where that is refused.
fn load_entry<D: TwoLogs + Drop>(
    store: &mut OpenStore<D>,
    number: TxnId,
    present: Present,
    key: Vec<u8>,
    rid: Rid,
    at: u64,
    count: &mut LoadCount,
) -> Option<Loaded> {
    let insert = Step::Insert(number, key, rid);
    match store.step(&insert) {
        Reply::Inserted => {
            count.put = count.put.saturating_add(1);
            None
        }
        Reply::Duplicate => match (present, insert) {
            (Present::Skipped, Step::Insert(_, key, _)) => {
                skip(store, number, key, rid, at, count)
            }
            (Present::Replaced, Step::Insert(_, key, _)) => {
                replace(store, number, key, rid, at, count)
            }
            _ => Some(Loaded::Duplicate(at)),
        },
        reply => Some(Loaded::Refused(at, fault_of(reply))),
    }
}

// Leaves a key that is there, and counts whether it has another row id.
fn skip<D: TwoLogs + Drop>(
    store: &mut OpenStore<D>,
    number: TxnId,
    key: Vec<u8>,
    rid: Rid,
    at: u64,
    count: &mut LoadCount,
) -> Option<Loaded> {
    match store.step(&Step::Fetch(number, key)) {
        Reply::Found(there) => {
            count.skipped = count.skipped.saturating_add(1);
            if there != rid {
                count.others = count.others.saturating_add(1);
            }
            None
        }
        reply => Some(Loaded::Refused(at, fault_of(reply))),
    }
}

// Gives a key that is there another row id.
fn replace<D: TwoLogs + Drop>(
    store: &mut OpenStore<D>,
    number: TxnId,
    key: Vec<u8>,
    rid: Rid,
    at: u64,
    count: &mut LoadCount,
) -> Option<Loaded> {
    let delete = Step::Delete(number, key);
    let deleted = store.step(&delete);
    if let Some(unkept) = store.unkept() {
        return Some(Loaded::Refused(at, unkept.fault));
    }
    let reply = match (deleted, delete) {
        (Reply::Deleted, Step::Delete(_, key)) => store.step(&Step::Insert(number, key, rid)),
        (reply, _) => reply,
    };
    match reply {
        Reply::Inserted => {
            count.replaced = count.replaced.saturating_add(1);
            None
        }
        reply => Some(Loaded::Refused(at, fault_of(reply))),
    }
}

/// The refusal of a step that was to be made.
pub(crate) fn fault_of(reply: Reply) -> Fault {
    match reply {
        Reply::Refused(fault) => fault,
        _ => Fault::Failed,
    }
}
