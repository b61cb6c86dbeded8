//! A store over a stream of lines.

ghost use Rattle.std.specs.Prelude.{◌≡◌, false};
ghost use Rattle.im_base_disk.specs.Runs.{IsSynced};

use crate::copying::Copier;
use crate::savepoints::Savepoints;
use crate::whole::{made_whole, print_whole};
use im_base_disk::Disk;
use im_base_steps::{Reply, Step};
use im_base_two_logs::TwoLogs;
use im_base_types::{Fault, TxnId};
use im_engine::Config;
use im_store::{Bounds, Due, OpenStore, Unkept};
use im_tool_files::{Cause, Causes, Ending, NoCopy, Opening, print_refused_opening};
use im_tool_user::{
    Asked, LineInput, Manner, Whole, asked_in, end_prompt, has_noted_key, is_help, manner_of_line,
    print_entries, print_prompt, print_refused, print_reply, print_stop, refuse, refuse_change,
    run_help, why_no_step, without_newline,
};
use im_tool_words::report_text;
use std::alloc::{AllocError, Global};
use std::io;
use std::io::Write;
use std::thread::Threads;

/// How a run of lines ended.
#[derive(Clone, Copy, Debug, PartialEq, Eq)]
pub enum StoreEnd {
    /// At the end of the input.
    Input,
    /// At a line that was refused, in a batch.
    RefusedLine,
    /// The opening was refused.
    RefusedOpening(Fault),
    /// At the end of the input, where a step that closes the store was refused. What was committed is kept.
    RefusedClose(Fault),
}

/// Opens the store of a disk, makes the steps that the input's lines ask for, and writes each reply, one a line.
///
/// Replies are flushed before a line is waited for, after each `committed`, and at the end. The line `entries` writes how
/// many entries there are, and each; `changes N` how many changes of a transaction stand, which `savepoint N NAME` gives a name; `redo` what redo did in the opening; `copy FOLDER` how many bytes the copy has that the copier made. A bad line is answered `refused 16`, and the store goes on. Empty lines are passed over,
/// and a carriage return in front of a newline is left out. An error is of the program's own memory, input or output.
///
/// Checkpoints are taken after the opening and after the steps, and the log goes on in the other file, as the bounds want it. At the end of the input a long
/// log is left for an empty one, or all changed pages are written and a last Checkpoint is taken, so that the next opening has nothing to redo; and of files the logs
/// are cut. Where such a step is refused, or the files cannot be synced or cut then, a line `checkpoint refused N`, `switch refused N` or `close refused N` says so. Where a call of the disk failed, what failed stands in a line of `causes`, once.
pub fn store_text<
    D: TwoLogs + Cause + Opening + Ending + Drop,
    R: LineInput,
    W: Write,
    E: Write,
    T: Threads + Sync,
    C: Copier<D>,
>(
    rt: &T,
    alloc: Global,
    disk: D,
    config: Config,
    bounds: Bounds,
    manner: Manner,
    reader: &mut R,
    writer: &mut W,
    causes: &mut Causes<E>,
    copier: &mut C,
) -> io::Result<StoreEnd>
    requires working { D.failed disk ≡ false }
    requires synced { IsSynced D.Disk disk }
{
    match OpenStore::open(rt, alloc, disk, config, bounds) {
        Ok(mut store) => {
            store.engine().disk().is_done();
            let run = run_to_end(alloc, &mut store, manner, reader, writer, causes, copier);
            let end = closed(store, run, manner, writer, causes)?;
            writer.flush()?;
            Ok(end)
        }
        Err((fault, disk)) => {
            print_refused_opening(writer, fault)?;
            causes.tell(&disk);
            Ok(StoreEnd::RefusedOpening(fault))
        }
    }
}

// Makes what is due, and then the steps that the lines ask for.
fn run_to_end<D: TwoLogs + Cause + Drop, R: LineInput, W: Write, E: Write, C: Copier<D>>(
    alloc: Global,
    store: &mut OpenStore<D>,
    manner: Manner,
    reader: &mut R,
    writer: &mut W,
    causes: &mut Causes<E>,
    copier: &mut C,
) -> io::Result<StoreEnd> {
    if manner.is_read {
        return run_all_lines(alloc, store, manner, reader, writer, causes, copier);
    }
    store.keep();
    let refused = tell_unkept(store.unkept(), manner, writer)?;
    causes.tell(store.engine().disk());
    if refused.is_some() && manner.is_batch {
        return Ok(StoreEnd::RefusedLine);
    }
    run_all_lines(alloc, store, manner, reader, writer, causes, copier)
}

// Ends the store. After the last line it is closed, unless it was only read, or has failed, which was told then.
fn closed<D: TwoLogs + Cause + Ending + Drop, W: Write, E: Write>(
    store: OpenStore<D>,
    run: io::Result<StoreEnd>,
    manner: Manner,
    writer: &mut W,
    causes: &mut Causes<E>,
) -> io::Result<StoreEnd> {
    if !matches!(&run, Ok(StoreEnd::Input)) || store.engine().failed() || manner.is_read {
        let _disk = store.into_disk();
        return run;
    }
    match ended(store, causes) {
        Ok(()) => run,
        Err(fault) => {
            write!(writer, "close ")?;
            print_refused(writer, manner, fault.number(), &fault)?;
            Ok(StoreEnd::RefusedClose(fault))
        }
    }
}

/// Closes a store, and gives back the room of its logs. A call of the disk that failed is told. What was committed is kept, refused or not.
pub(crate) fn ended<D: TwoLogs + Cause + Ending + Drop, E: Write>(
    store: OpenStore<D>,
    causes: &mut Causes<E>,
) -> Result<(), Fault> {
    let (closed, disk) = store.close();
    match closed {
        Ok(()) => disk.give_back(causes),
        Err(fault) => {
            causes.tell(&disk);
            Err(fault)
        }
    }
}

fn run_all_lines<D: TwoLogs + Cause + Drop, R: LineInput, W: Write, E: Write, C: Copier<D>>(
    alloc: Global,
    store: &mut OpenStore<D>,
    manner: Manner,
    reader: &mut R,
    writer: &mut W,
    causes: &mut Causes<E>,
    copier: &mut C,
) -> io::Result<StoreEnd> {
    let mut line = Vec::new(alloc);
    let mut session = Session {
        last: None,
        is_held_up: false,
        is_noted: false,
        saves: Savepoints::new(alloc),
    };
    run_lines(
        alloc,
        store,
        manner,
        &mut session,
        reader,
        &mut line,
        writer,
        causes,
        copier,
    )
}

// What is known from one line to the next.
#[derive(Drop)]
struct Session {
    // The transaction of the last line `begin`, unless that was refused.
    last: Option<TxnId>,
    // It was told that the log is past its bound, and how a key was read.
    is_held_up: bool,
    is_noted: bool,
    saves: Savepoints,
}

// Reads line by line into the room for one.
fn run_lines<D: TwoLogs + Cause + Drop, R: LineInput, W: Write, E: Write, C: Copier<D>>(
    alloc: Global,
    store: &mut OpenStore<D>,
    manner: Manner,
    session: &mut Session,
    reader: &mut R,
    line: &mut Vec<u8>,
    writer: &mut W,
    causes: &mut Causes<E>,
    copier: &mut C,
) -> io::Result<StoreEnd> {
    for count in 0..u64::MAX {
        if !reader.has_line() {
            print_prompt(manner, writer)?;
            writer.flush()?;
        }
        line.clear();
        if !reader.next_line(line)? {
            end_prompt(manner, writer)?;
            return Ok(StoreEnd::Input);
        }
        let text = without_newline(line);
        if manner.has_words && text == b"quit".as_slice() {
            return Ok(StoreEnd::Input);
        }
        if !text.is_empty() {
            session.is_noted = tell_noted(manner, session.is_noted, text, count, causes);
            let refused = run_line(alloc, store, manner, session, text, writer, copier)?;
            session.is_held_up = tell_held_up(store, manner, session.is_held_up, writer)?;
            causes.tell(store.engine().disk());
            if refused == Some(Fault::NotAStore) {
                causes.tell_broken();
            }
            if refused.is_some() && manner.is_batch {
                return Ok(StoreEnd::RefusedLine);
            }
        }
    }
    Ok(StoreEnd::Input)
}

// Writes what was refused of the upkeep after the last step, and answers it, if anything was.
fn tell_unkept<W: Write>(
    unkept: Option<Unkept>,
    manner: Manner,
    writer: &mut W,
) -> io::Result<Option<Fault>> {
    let Some(unkept) = unkept else {
        return Ok(None);
    };
    write!(writer, "{} ", name_of(unkept.due))?;
    refuse(writer, manner, unkept.fault)
}

// Says once, where words are wanted, that the log is past its bound while a transaction is active. It answers whether that is so.
fn tell_held_up<D: TwoLogs + Drop, W: Write>(
    store: &OpenStore<D>,
    manner: Manner,
    is_told: bool,
    writer: &mut W,
) -> io::Result<bool> {
    let is_so = manner.has_words && store.is_held_up();
    if is_so && !is_told {
        writeln!(
            writer,
            "the log is past its bound: it goes on in the other file once no transaction is active"
        )?;
    }
    Ok(is_so)
}

// Says once, where no words are wanted, that a key stands for itself which would be read otherwise with words. It answers whether that was said. Where it cannot
// be written nobody reads it.
fn tell_noted<E: Write>(
    manner: Manner,
    is_noted: bool,
    line: &[u8],
    count: u64,
    causes: &mut Causes<E>,
) -> bool {
    if is_noted || manner.has_words || !has_noted_key(line) {
        return is_noted;
    }
    if manner_of_line(manner, line).has_words {
        return false;
    }
    let _ = writeln!(
        causes.writer,
        "imstore: {}: line {}: the key is taken as it stands, with its marks: --words reads \"a b\" and x'6100' as a terminal does",
        causes.dir,
        count.saturating_add(1)
    );
    true
}

// What a refusal of what is due is told of. A page that is written when nothing is due is written for the next Checkpoint too.
fn name_of(due: Due) -> &'static str {
    match due {
        Due::Switch => "switch",
        Due::Checkpoint | Due::Nothing => "checkpoint",
    }
}

// Makes what a line asks for, and answers the refusal, if it was refused, or the upkeep after it.
fn run_line<D: TwoLogs + Drop, W: Write, C: Copier<D>>(
    alloc: Global,
    store: &mut OpenStore<D>,
    manner: Manner,
    session: &mut Session,
    line: &[u8],
    writer: &mut W,
    copier: &mut C,
) -> io::Result<Option<Fault>> {
    if let Some(folder) = folder_in(line) {
        if let Some(copied) = copier.copy(alloc, store, folder) {
            return print_copied(manner, writer, copier, folder, copied);
        }
    }
    if line == b"entries".as_slice() {
        return match store.entries(alloc) {
            Ok(entries) => {
                print_entries(alloc, writer, manner, &entries)?;
                Ok(None)
            }
            Err(fault) => refuse(writer, manner, fault),
        };
    }
    if line == b"redo".as_slice() {
        let report = store.engine().redo_report();
        report_text(writer, report.point, report.applied)?;
        return Ok(None);
    }
    if manner.has_words && is_help(line) {
        return run_help(manner, line, writer);
    }
    run_asked(
        alloc,
        store,
        manner_of_line(manner, line),
        session,
        line,
        writer,
    )
}

// Makes the step or the transaction that a line asks for.
fn run_asked<D: TwoLogs + Drop, W: Write>(
    alloc: Global,
    store: &mut OpenStore<D>,
    manner: Manner,
    session: &mut Session,
    line: &[u8],
    writer: &mut W,
) -> io::Result<Option<Fault>> {
    match asked_in(alloc, manner, session.last, line) {
        Ok(asked) if manner.is_read && asked.is_change() => {
            refuse_change(writer, manner)?;
            // (it ends a batch as a line does that is none)
            Ok(Some(Fault::BadScript))
        }
        Ok(Asked::Step(step)) => run_step(alloc, store, manner, session, &step, writer),
        Ok(Asked::Whole(whole)) => run_whole(alloc, store, manner, whole, writer),
        Ok(Asked::Changes(number)) => match store.engine().changes(number) {
            Ok(count) => {
                writeln!(writer, "changes {count}")?;
                Ok(None)
            }
            Err(fault) => refuse(writer, manner, fault),
        },
        Ok(Asked::Savepoint(number, name)) => {
            run_savepoint(store, manner, session, number, name, writer)
        }
        Ok(Asked::Return(number, name)) => {
            run_return(alloc, store, manner, session, number, &name, writer)
        }
        Ok(Asked::OfNone) => {
            let words = "no transaction was begun last, of which `.` would be the number";
            print_refused(writer, manner, Fault::NoTransaction.number(), &words)?;
            Ok(Some(Fault::NoTransaction))
        }
        Err(Fault::BadScript) => {
            let why = why_no_step(alloc, line);
            print_refused(writer, manner, Fault::BadScript.number(), &why)?;
            Ok(Some(Fault::BadScript))
        }
        Err(_) => Err(io::Error::from(AllocError)),
    }
}

// Notes how many changes of a transaction stand, under a name.
fn run_savepoint<D: TwoLogs + Drop, W: Write>(
    store: &OpenStore<D>,
    manner: Manner,
    session: &mut Session,
    number: TxnId,
    name: Vec<u8>,
    writer: &mut W,
) -> io::Result<Option<Fault>> {
    let count = match store.engine().changes(number) {
        Ok(count) => count,
        Err(fault) => return refuse(writer, manner, fault),
    };
    if !session.saves.note(number, name, count)? {
        let words = "64 savepoints have names: end a transaction that has some";
        print_refused(writer, manner, Fault::TooMany.number(), &words)?;
        return Ok(Some(Fault::TooMany));
    }
    writeln!(writer, "savepoint {count}")?;
    Ok(None)
}

// Makes the return to the savepoint of a name.
fn run_return<D: TwoLogs + Drop, W: Write>(
    alloc: Global,
    store: &mut OpenStore<D>,
    manner: Manner,
    session: &mut Session,
    number: TxnId,
    name: &[u8],
    writer: &mut W,
) -> io::Result<Option<Fault>> {
    if let Some(count) = session.saves.count_at(number, name) {
        let step = Step::RollTo(number, count);
        return run_step(alloc, store, manner, session, &step, writer);
    }
    if let Err(fault) = store.engine().changes(number) {
        return refuse(writer, manner, fault);
    }
    let words = "a bad line: the transaction has no savepoint of that name";
    print_refused(writer, manner, Fault::BadScript.number(), &words)?;
    Ok(Some(Fault::BadScript))
}

// Makes a transaction by itself, and answers the refusal, if it was refused, or the upkeep after a step of it.
fn run_whole<D: TwoLogs + Drop, W: Write>(
    alloc: Global,
    store: &mut OpenStore<D>,
    manner: Manner,
    whole: Whole,
    writer: &mut W,
) -> io::Result<Option<Fault>> {
    let mut unkept = None;
    let done = made_whole(alloc, store, whole, &mut unkept);
    let refused = print_whole(alloc, writer, manner, done)?;
    let told = tell_unkept(unkept, manner, writer)?;
    Ok(refused.or(told))
}

// The folder that a line `copy FOLDER` names.
fn folder_in(line: &[u8]) -> Option<&str> {
    let folder = line.strip_prefix(b"copy ")?;
    match std::str::from_utf8(folder) {
        Ok(folder) if !folder.is_empty() => Some(folder),
        _ => None,
    }
}

// Writes what came of a copy, and answers the refusal, if it was refused.
fn print_copied<D: Disk, W: Write, C: Copier<D>>(
    manner: Manner,
    writer: &mut W,
    copier: &C,
    folder: &str,
    copied: Result<u64, NoCopy>,
) -> io::Result<Option<Fault>> {
    match copied {
        Ok(bytes) => {
            writeln!(writer, "copied {bytes}")?;
            Ok(None)
        }
        Err(why) => {
            if !manner.has_words {
                copier.tell(folder, &why);
            }
            print_refused(writer, manner, why.number(), &why)?;
            // (it ends a batch as a line does that is none)
            Ok(Some(Fault::BadScript))
        }
    }
}

fn run_step<D: TwoLogs + Drop, W: Write>(
    alloc: Global,
    store: &mut OpenStore<D>,
    manner: Manner,
    session: &mut Session,
    step: &Step,
    writer: &mut W,
) -> io::Result<Option<Fault>> {
    let reply = store.step(step);
    session.saves.keep_standing(store.engine());
    if matches!(step, Step::Begin) {
        session.last = begun_by(&reply);
    }
    if let Reply::Refused(fault) = reply {
        return refuse(writer, manner, fault);
    }
    print_reply(alloc, writer, manner, &reply)?;
    writeln!(writer)?;
    if manner.has_words {
        print_stop(alloc, writer, step, &reply)?;
    }
    if matches!(&reply, Reply::Committed) {
        writer.flush()?;
    }
    tell_unkept(store.unkept(), manner, writer)
}

// The transaction that a reply says was begun.
fn begun_by(reply: &Reply) -> Option<TxnId> {
    match reply {
        Reply::Started(number) => Some(*number),
        _ => None,
    }
}
