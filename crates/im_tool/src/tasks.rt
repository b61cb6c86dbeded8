//! The tasks over a store in a folder that take no steps.

ghost use Rattle.std.specs.Prelude.{◌≡◌, ◌≤◌, false, IfOk, OnOk};

use crate::dump::dump_text;
use crate::limits::{bounds_of, config_of};
use crate::look::{check_text, stat_text};
use crate::recovered::opened;
use crate::rising::{NotLoaded, Risen, load_rising};
use crate::transfer::{LoadCount, Loaded, load_more};
use im_base_disk::Disk;
use im_base_two_logs::Renamed;
use im_base_types::{Fault, PageNo};
use im_files_disk::FileDisk;
use im_files_scratch_disk::ScratchDisk;
use im_tool_files::{
    Cause, Causes, CopyDisk, Progress, ProgressLine, ScratchFiles, Untold, WatchedDisk, begun_load,
    clear_copy, named_load, print_refused_opening, tell, tell_unopened, tell_unread,
};
use im_tool_look::{LogDamage, log_text, read_log};
use im_tool_user::{EntryText, Form, LineInput, Numbers, Options, Present, Task, WhyBad};
use std::fmt::{Display, Formatter};
use std::io::{BufReader, BufWriter, IsTerminal, Write};
use std::thread::Threads;
use std::{fmt, io};

/// Does a task that only looks at the store in a folder, and changes no byte of it. It answers the exit status: 0, or 1 where
/// the store is broken or could not be read.
pub(crate) fn look_program<T: Threads + Sync>(
    rt: &HostRuntime,
    threads: &T,
    dir: &str,
    task: Task,
) -> io::Result<u8>
    ensures { IfOk result (λ status. status ≤ 1) }
{
    let mut writer = BufWriter::new(rt.alloc(), io::writer(rt))?;
    let status = look_in(rt, threads, dir, task, &mut writer)?;
    writer.flush()?;
    Ok(status)
}

// The same, written without a flush.
fn look_in<W: Write, T: Threads + Sync>(
    rt: &HostRuntime,
    threads: &T,
    dir: &str,
    task: Task,
    writer: &mut W,
) -> io::Result<u8>
    ensures { IfOk result (λ status. status ≤ 1) }
{
    match FileDisk::open_to_read(rt, dir) {
        Ok(files) => {
            let disk = ScratchDisk::new(rt.alloc(), Some(files));
            let (status, disk) = look_at(rt, threads, dir, task, writer, disk);
            if let Some(error) = disk.cause() {
                tell(rt, dir, error);
            }
            status
        }
        Err(error) => {
            print_refused_opening(writer, error.fault())?;
            tell_unread(rt, dir, &error);
            Ok(1)
        }
    }
}

// The same over its files.
fn look_at<W: Write, T: Threads + Sync>(
    rt: &HostRuntime,
    threads: &T,
    dir: &str,
    task: Task,
    writer: &mut W,
    disk: ScratchDisk<FileDisk>,
) -> (io::Result<u8>, ScratchDisk<FileDisk>)
    ensures { IfOk result.0 (λ status. status ≤ 1) }
{
    let mut progress = ProgressLine::new(rt.stderr(), rt.stderr().is_terminal(), "MiB read", rt);
    match task {
        Task::Check => check_text(threads, rt.alloc(), writer, disk, &mut progress),
        Task::Stat(numbers) => {
            let is_json = numbers == Numbers::Json;
            stat_text(threads, rt.alloc(), writer, disk, is_json, &mut progress)
        }
        Task::Log => print_log(rt, dir, writer, disk),
        Task::Dump(form) => dump(rt, threads, dir, writer, form, disk),
        Task::Steps | Task::Read | Task::Load(_) | Task::Trim | Task::Copy(_) | Task::Compact(_) =>
            (Ok(0), disk),
    }
}

fn refused<W: Write>(rt: &HostRuntime, dir: &str, writer: &mut W, fault: Fault) -> io::Result<u8>
    ensures { IfOk result (λ status. status ≤ 1) }
{
    print_refused_opening(writer, fault)?;
    tell(rt, dir, &fault);
    Ok(1)
}

/// Says on standard error what of a store is damaged that was refused as none. Where that cannot be told, nothing is said.
pub(crate) fn tell_damage<T: Threads + Sync>(rt: &HostRuntime, threads: &T, dir: &str) {
    let Ok(files) = FileDisk::open_to_read(rt, dir) else {
        return;
    };
    let disk = ScratchDisk::new(rt.alloc(), Some(files));
    let _ = check_text(threads, rt.alloc(), &mut rt.stderr(), disk, &mut Untold);
}

/// Says on standard error how many transactions a dump leaves out.
pub(crate) fn tell_left_out(rt: &HostRuntime, dir: &str, files: &mut ScratchFiles<FileDisk>) {
    if let Ok(said) = read_log(rt.alloc(), files) {
        let losers = said.analysed.losers.len();
        if losers > 0 {
            tell(
                rt,
                dir,
                &LeftOut {
                    transactions: losers,
                },
            );
        }
    }
}

// How many transactions were not committed.
#[derive(Drop)]
struct LeftOut {
    transactions: usize,
}

impl Display for LeftOut {
    fn fmt<W: fmt::Write>(&self, f: &mut Formatter<W>) -> fmt::Result {
        write!(
            f,
            "what transactions did that had not committed is left out: {} of them",
            self.transactions
        )
    }
}

fn print_log<W: Write>(
    rt: &HostRuntime,
    dir: &str,
    writer: &mut W,
    disk: ScratchDisk<FileDisk>,
) -> (io::Result<u8>, ScratchDisk<FileDisk>)
    ensures { IfOk result.0 (λ status. status ≤ 1) }
{
    let mut files = ScratchFiles::of(disk);
    let printed = log_text(rt.alloc(), writer, &mut files);
    (end_log(rt, dir, writer, printed), files.into_disk())
}

// Says at which damage the records end. It answers the exit status.
fn end_log<W: Write>(
    rt: &HostRuntime,
    dir: &str,
    writer: &mut W,
    printed: io::Result<Result<(), LogDamage>>,
) -> io::Result<u8>
    ensures { IfOk result (λ status. status ≤ 1) }
{
    match printed? {
        Ok(()) => Ok(0),
        Err(damage) => {
            writer.flush()?;
            tell(rt, dir, &damage);
            Ok(1)
        }
    }
}

fn dump<W: Write, T: Threads + Sync>(
    rt: &HostRuntime,
    threads: &T,
    dir: &str,
    writer: &mut W,
    form: Form,
    disk: ScratchDisk<FileDisk>,
) -> (io::Result<u8>, ScratchDisk<FileDisk>)
    ensures { IfOk result.0 (λ status. status ≤ 1) }
{
    let mut files = ScratchFiles::of(disk);
    tell_left_out(rt, dir, &mut files);
    let disk = files.into_disk();
    let is_shown = rt.stderr().is_terminal() && !rt.stdout().is_terminal();
    let mut progress = ProgressLine::new(rt.stderr(), is_shown, "entries", rt);
    progress.say("opening a copy of the store, and counting its entries");
    let mut store = match opened(threads, rt.alloc(), disk) {
        Ok(store) => store,
        Err((fault, disk)) => return (refused(rt, dir, writer, fault), disk),
    };
    let dumped = dump_text(rt.alloc(), &mut store, writer, form, &mut progress);
    (
        end_dump(rt, dir, writer, dumped),
        store.into_disk().into_disk(),
    )
}

// Says why a dump ended before its last entry. It answers the exit status.
fn end_dump<W: Write>(
    rt: &HostRuntime,
    dir: &str,
    writer: &mut W,
    dumped: io::Result<Option<Fault>>,
) -> io::Result<u8>
    ensures { IfOk result (λ status. status ≤ 1) }
{
    let Some(fault) = dumped? else {
        return Ok(0);
    };
    writer.flush()?;
    tell(rt, dir, &DumpRefused { fault });
    Ok(1)
}

// Why a dump is not whole.
#[derive(Drop)]
struct DumpRefused {
    fault: Fault,
}

impl Display for DumpRefused {
    fn fmt<W: fmt::Write>(&self, f: &mut Formatter<W>) -> fmt::Result {
        write!(
            f,
            "the dump is not whole: refused {}: {}",
            self.fault.number(),
            self.fault
        )?;
        match self.fault {
            Fault::NotAStore => write!(f, "; `imstore --check` names what is broken"),
            _ => Ok(()),
        }
    }
}

/// Loads the entries that standard input has into the store of a folder. It answers the exit status: 0, 1 where the opening was
/// refused, or what closes the store, 3 where a line was.
pub(crate) fn load_program<T: Threads + Sync>(
    rt: &HostRuntime,
    threads: &T,
    dir: &str,
    options: &Options,
    present: Present,
) -> io::Result<u8>
    ensures { IfOk result (λ status. status ≤ 3) }
{
    let mut reader = BufReader::new(rt.alloc(), rt.reader())?;
    let mut writer = BufWriter::new(rt.alloc(), io::writer(rt))?;
    let status = load_from(rt, threads, dir, options, present, &mut reader, &mut writer)?;
    writer.flush()?;
    Ok(status)
}

// The same of the lines of a reader, written without a flush. A folder without files gets those of a load, as long as the keys rise.
fn load_from<R: LineInput, W: Write, T: Threads + Sync>(
    rt: &HostRuntime,
    threads: &T,
    dir: &str,
    options: &Options,
    present: Present,
    reader: &mut R,
    writer: &mut W,
) -> io::Result<u8>
    ensures { IfOk result (λ status. status ≤ 3) }
{
    let mut text = EntryText::new(rt.alloc());
    if let Some(disk) = begun_load(rt, dir) {
        return load_new(
            rt, threads, dir, options, present, disk, &mut text, reader, writer,
        );
    }
    match FileDisk::open(rt, dir) {
        Ok(files) => load_into(
            rt, threads, dir, options, present, files, None, &mut text, reader, writer,
        ),
        Err(error) => {
            print_refused_opening(writer, error.fault())?;
            tell_unopened(rt, dir, &error);
            Ok(1)
        }
    }
}

// Loads the entries of a text into files that were made for it, in a folder. From the first on whose key does not rise they are put into the store that these are then.
fn load_new<'a, R: LineInput, W: Write, T: Threads + Sync>(
    rt: &'a HostRuntime,
    threads: &T,
    dir: &str,
    options: &Options,
    present: Present,
    disk: CopyDisk<'a>,
    text: &mut EntryText,
    reader: &mut R,
    writer: &mut W,
) -> io::Result<u8>
    requires { ⟦<CopyDisk<'a> as Disk>⟧.failed disk ≡ false }
    ensures { IfOk result (λ status. status ≤ 3) }
{
    let mut disk = disk;
    let most = config_of(options, 0).max_pages;
    match risen_in(rt, &mut disk, most, present, text, reader) {
        Ok(risen) => {
            named(
                rt, threads, dir, options, present, disk, risen, text, reader, writer,
            )
        }
        Err(why) => {
            clear_copy(rt, dir);
            match why {
                NotLoaded::Ended(loaded) => {
                    print_loaded(rt, dir, writer, has_words(rt, options), present, loaded)
                }
                NotLoaded::Input(error) => Err(error),
            }
        }
    }
}

// The same, up to there.
fn risen_in<'a, R: LineInput>(
    rt: &HostRuntime,
    disk: &mut CopyDisk<'a>,
    most: PageNo,
    present: Present,
    text: &mut EntryText,
    reader: &mut R,
) -> Result<Risen, NotLoaded>
    requires { ⟦<CopyDisk<'a> as Disk>⟧.failed disk.old ≡ false }
    ensures { OnOk result (⟦<CopyDisk<'a> as Disk>⟧.failed disk.new ≡ false) }
{
    let is_shown = rt.stderr().is_terminal();
    let mut progress = ProgressLine::new(rt.stderr(), is_shown, "entries", rt);
    let made = load_rising(rt.alloc(), disk, most, present, text, reader, &mut progress);
    progress.end();
    made
}

// Gives the files of a load that was ended their names, and goes on.
fn named<'a, R: LineInput, W: Write, T: Threads + Sync>(
    rt: &'a HostRuntime,
    threads: &T,
    dir: &str,
    options: &Options,
    present: Present,
    disk: CopyDisk<'a>,
    risen: Risen,
    text: &mut EntryText,
    reader: &mut R,
    writer: &mut W,
) -> io::Result<u8>
    requires { ⟦<CopyDisk<'a> as Disk>⟧.failed disk ≡ false }
    ensures { IfOk result (λ status. status ≤ 3) }
{
    match named_load(rt, disk, dir) {
        Ok(files) => go_on(
            rt, threads, dir, options, present, files, risen, text, reader, writer,
        ),
        Err(error) => {
            let loaded = Loaded::Refused(text.number(), error.fault());
            tell_unopened(rt, dir, &error);
            print_loaded(rt, dir, writer, has_words(rt, options), present, loaded)
        }
    }
}

// Puts what is left of a text into the store that a load has made, where any of it is left.
fn go_on<R: LineInput, W: Write, T: Threads + Sync>(
    rt: &HostRuntime,
    threads: &T,
    dir: &str,
    options: &Options,
    present: Present,
    files: FileDisk,
    risen: Risen,
    text: &mut EntryText,
    reader: &mut R,
    writer: &mut W,
) -> io::Result<u8>
    requires { ⟦<FileDisk as Disk>⟧.failed files ≡ false }
    ensures { IfOk result (λ status. status ≤ 3) }
{
    match &risen.next {
        Some((_, _, line)) => tell(rt, dir, &Falls { line: *line }),
        None => {
            let count = LoadCount {
                put: risen.count,
                ..LoadCount::default()
            };
            let loaded = Loaded::All(count);
            return print_loaded(rt, dir, writer, has_words(rt, options), present, loaded);
        }
    }
    load_into(
        rt,
        threads,
        dir,
        options,
        present,
        files,
        Some(risen),
        text,
        reader,
        writer,
    )
}

// Puts what is left of a text into the store of these files.
fn load_into<R: LineInput, W: Write, T: Threads + Sync>(
    rt: &HostRuntime,
    threads: &T,
    dir: &str,
    options: &Options,
    present: Present,
    files: FileDisk,
    risen: Option<Risen>,
    text: &mut EntryText,
    reader: &mut R,
    writer: &mut W,
) -> io::Result<u8>
    requires { ⟦<FileDisk as Disk>⟧.failed files ≡ false }
    ensures { IfOk result (λ status. status ≤ 3) }
{
    let config = config_of(options, files.page_count());
    let disk = WatchedDisk::new(files, rt.stderr(), rt);
    let is_shown = rt.stderr().is_terminal();
    let mut progress = ProgressLine::new(rt.stderr(), is_shown, "entries", rt);
    let mut causes = Causes {
        writer: rt.stderr(),
        dir,
        is_told: false,
    };
    let loaded = load_more(
        threads,
        rt.alloc(),
        Renamed::new(disk, false),
        config,
        bounds_of(options),
        present,
        risen,
        text,
        reader,
        &mut progress,
        &mut causes,
    )?;
    print_loaded(rt, dir, writer, has_words(rt, options), present, loaded)
}

// Whether refusals are told in words.
fn has_words(rt: &HostRuntime, options: &Options) -> bool {
    options.has_words || rt.stdout().is_terminal()
}

// At which line the keys of a text do not rise any more.
#[derive(Drop)]
struct Falls {
    line: u64,
}

impl Display for Falls {
    fn fmt<W: fmt::Write>(&self, f: &mut Formatter<W>) -> fmt::Result {
        write!(
            f,
            "line {}: the key is not above the one before it: from there on entries are inserted, which takes longer than a load of keys that rise",
            self.line
        )
    }
}

// Says how a load ended. It answers the exit status.
fn print_loaded<W: Write>(
    rt: &HostRuntime,
    dir: &str,
    writer: &mut W,
    has_words: bool,
    present: Present,
    loaded: Loaded,
) -> io::Result<u8>
    ensures { IfOk result (λ status. status ≤ 3) }
{
    match loaded {
        Loaded::All(count) => {
            print_count(writer, present, count)?;
            Ok(0)
        }
        Loaded::RefusedOpening(fault) => refused(rt, dir, writer, fault),
        Loaded::RefusedClose(count, fault) => {
            print_count(writer, present, count)?;
            writeln!(writer, "close refused {}", fault.number())?;
            tell(rt, dir, &fault);
            Ok(1)
        }
        Loaded::Duplicate(line) => {
            writeln!(writer, "duplicate line {line}")?;
            if has_words {
                tell(
                    rt,
                    dir,
                    &"that key is there already: --skip leaves such keys, --replace gives them the dump's row ids",
                );
            }
            Ok(3)
        }
        Loaded::BadLine(line, why) => {
            let words = BadLine { why };
            print_refused_line(writer, has_words, line, Fault::BadScript.number(), &words)?;
            Ok(3)
        }
        Loaded::Refused(line, fault) => {
            print_refused_line(writer, has_words, line, fault.number(), &fault)?;
            Ok(3)
        }
    }
}

// Why a line of a text was refused.
#[derive(Drop)]
struct BadLine {
    why: WhyBad,
}

impl Display for BadLine {
    fn fmt<W: fmt::Write>(&self, f: &mut Formatter<W>) -> fmt::Result {
        write!(f, "{}: {}", Fault::BadScript, self.why)
    }
}

// Says how many entries were put in, and how many keys were there.
fn print_count<W: Write>(writer: &mut W, present: Present, count: LoadCount) -> io::Result<()> {
    writeln!(writer, "loaded {}", count.put)?;
    match present {
        Present::Refused => Ok(()),
        Present::Skipped => writeln!(
            writer,
            "skipped {}, {} of them with another row id",
            count.skipped, count.others
        ),
        Present::Replaced => writeln!(writer, "replaced {}", count.replaced),
    }
}

// Writes that a line was refused by its number, and in words where they are wanted.
fn print_refused_line<W: Write, F: Display>(
    writer: &mut W,
    has_words: bool,
    line: u64,
    number: u8,
    words: &F,
) -> io::Result<()> {
    if has_words {
        writeln!(writer, "refused {number} line {line}: {words}")
    } else {
        writeln!(writer, "refused {number} line {line}")
    }
}
