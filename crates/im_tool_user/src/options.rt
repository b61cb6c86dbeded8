//! The command line of the program that keeps a store.

use crate::entry_text::Form;
use crate::version::VERSION;
use clap::builder::ValueParser;
use clap::{Arg, ArgAction, ArgMatches, Command, Error};
use im_base_types::{LEAST_FRAMES, MOST_FRAMES};
use std::alloc::Global;

/// The most MiB that may be named.
pub const MOST_MIB: u64 = 1_048_576;

/// The most MiB of memory for more pages that may be named: with 1,024 frames they make 262,144.
const MOST_CACHE: u64 = 1_020;

/// What is done with a key that is in the store already.
#[derive(Clone, Copy, Debug, Default, PartialEq, Eq)]
pub enum Present {
    /// The load ends there.
    #[default]
    Refused,
    /// It stays as it is.
    Skipped,
    /// It gets the row id of the text.
    Replaced,
}

/// How numbers are written that have a name.
#[derive(Clone, Copy, Debug, PartialEq, Eq)]
pub enum Numbers {
    /// A line for each, its name and it.
    Lines,
    /// All of them as an object of JSON.
    Json,
}

/// What the program is asked for.
#[derive(Clone, Copy, Debug, PartialEq, Eq)]
pub enum Task<'a> {
    /// Steps, which standard input asks for.
    Steps,
    /// Steps that only read, and change no byte of the files.
    Read,
    /// Whether the store is whole, and what is broken where it is not.
    Check,
    /// What the store has, in numbers.
    Stat(Numbers),
    /// The records of the log.
    Log,
    /// The entries, as text of a form that `Load` takes.
    Dump(Form),
    /// Entries put in, as `Dump` wrote them.
    Load(Present),
    /// The log that the store has left, emptied.
    Trim,
    /// A copy of the files, in the folder of this name.
    Copy(&'a str),
    /// A store of the same entries, loaded into the folder of this name.
    Compact(&'a str),
}

/// What the words of the command line say.
#[derive(Clone, Copy, Debug)]
pub struct Options<'a> {
    /// The folder of the store. Without one the store is in memory.
    pub dir: Option<&'a str>,
    pub task: Task<'a>,
    /// The frames of the pool, 8 to 1,024.
    pub frames: Option<u64>,
    /// The MiB of memory for more pages, 0 to 1,020.
    pub cache: Option<u64>,
    /// The most pages.
    pub pages: Option<u64>,
    /// The MiB of log that an opening redoes at most, 0 to 1,048,576; with 0 no Checkpoint is taken.
    pub checkpoint: Option<u64>,
    /// The MiB of log from which on it goes on in the other file, 0 to 1,048,576; with 0 it never does.
    pub switch: Option<u64>,
    /// The workers that share redo, 1 to 16.
    pub workers: Option<u64>,
    /// Refusals are told in words, and keys are written and read so that they can be typed.
    pub has_words: bool,
    /// The program ends at the first line that is refused.
    pub is_batch: bool,
}

/// Reads the words of the command line, of which the first is the program's name. So many workers may be named at most.
pub fn parse_options<'a>(
    alloc: Global,
    words: &'a [String],
    most_workers: u64,
) -> Result<Options<'a>, Error> {
    let matches = command(alloc, most_workers)?.try_get_matches_from(words)?;
    Ok(Options {
        dir: matches.get_str("DIR"),
        task: task_of(&matches),
        frames: matches.get_one::<u64>("frames"),
        cache: matches.get_one::<u64>("cache"),
        pages: matches.get_one::<u64>("pages"),
        checkpoint: matches.get_one::<u64>("checkpoint"),
        switch: matches.get_one::<u64>("switch"),
        workers: matches.get_one::<u64>("workers"),
        has_words: matches.get_flag("words"),
        is_batch: matches.get_flag("batch"),
    })
}

fn task_of<'a>(matches: &ArgMatches<'a>) -> Task<'a> {
    if let Some(folder) = matches.get_str("copy") {
        Task::Copy(folder)
    } else if let Some(folder) = matches.get_str("compact") {
        Task::Compact(folder)
    } else if matches.get_flag("check") {
        Task::Check
    } else if matches.get_flag("stat") {
        Task::Stat(numbers_of(matches))
    } else if matches.get_flag("log") {
        Task::Log
    } else if matches.get_flag("dump") {
        Task::Dump(form_of(matches))
    } else if matches.get_flag("load") {
        Task::Load(present_of(matches))
    } else if matches.get_flag("trim") {
        Task::Trim
    } else if matches.get_flag("read") {
        Task::Read
    } else {
        Task::Steps
    }
}

fn numbers_of(matches: &ArgMatches) -> Numbers {
    if matches.get_flag("json") {
        Numbers::Json
    } else {
        Numbers::Lines
    }
}

fn form_of(matches: &ArgMatches) -> Form {
    if matches.get_flag("portable") {
        Form::Portable
    } else {
        Form::Own
    }
}

fn present_of(matches: &ArgMatches) -> Present {
    if matches.get_flag("skip") {
        Present::Skipped
    } else if matches.get_flag("replace") {
        Present::Replaced
    } else {
        Present::Refused
    }
}

fn command<'a>(alloc: Global, most_workers: u64) -> Result<Command<'a>, Error> {
    let command = Command::new(alloc, "imstore").version(VERSION).about(
        "Keeps keys with their row ids in a store, and makes the steps that standard input asks for",
    );
    let command = with_flags(alloc, with_numbers(alloc, command, most_workers)?)?;
    with_copies(alloc, with_tasks(alloc, command)?)
}

// The folder, and the options that are numbers.
fn with_numbers<'a>(
    alloc: Global,
    command: Command<'a>,
    most_workers: u64,
) -> Result<Command<'a>, Error> {
    let command = command
        .arg(Arg::new(alloc, "DIR").help(
            "The folder of the store; without one the store is in memory",
        ))?
        .arg(
            Arg::new(alloc, "frames")
                .long("frames")
                .value_parser(ValueParser::unsigned(LEAST_FRAMES as u64, MOST_FRAMES as u64))
                .help("Pages held in memory at once, 8 to 1024 [1024 with DIR, 64 without]"),
        )?
        .arg(
            Arg::new(alloc, "cache")
                .long("cache")
                .value_parser(ValueParser::unsigned(0, MOST_CACHE))
                .help(
                    "MiB of memory for more pages, 0 to 1020, all of it taken at the start [twice the file of pages and at most 64 with DIR and without --frames, else 0]",
                ),
        )?
        .arg(
            Arg::new(alloc, "pages")
                .long("pages")
                .value_parser(ValueParser::unsigned(2, 4_294_967_295))
                .help("The most pages that the store may have [1000000]"),
        )?
        .arg(
            Arg::new(alloc, "checkpoint")
                .long("checkpoint")
                .value_parser(ValueParser::unsigned(0, MOST_MIB))
                .help(
                    "MiB of log that an opening redoes at most, also after a kill, 0 to 1048576; smaller ones open sooner and write more, 0 takes no Checkpoint [with DIR 16, or 7 times the file of pages, 0 without]",
                ),
        )?
        .arg(
            Arg::new(alloc, "switch")
                .long("switch")
                .value_parser(ValueParser::unsigned(0, MOST_MIB))
                .help(
                    "MiB of log that an opening reads at most, 0 to 1048576: from there on the log goes on in the other file as soon as no transaction is active; 0 lets it grow for ever [with DIR 64, or 8 times the file of pages, 0 without]",
                ),
        )?
        .arg(
            Arg::new(alloc, "workers")
                .long("workers")
                .value_parser(ValueParser::unsigned(1, most_workers))
                .help("Threads that share the redo of an opening, 1 to 16 [1]"),
        )?;
    Ok(command)
}

// How lines are read and answered.
fn with_flags<'a>(alloc: Global, command: Command<'a>) -> Result<Command<'a>, Error> {
    let command = command
        .arg(flag(
            alloc,
            "words",
            "Tell refusals in words, and write keys so that they can be typed",
        ))?
        .arg(flag(
            alloc,
            "batch",
            "End with status 3 at the first line that is refused",
        ))?;
    Ok(command)
}

// What is done in the place of steps.
fn with_tasks<'a>(alloc: Global, command: Command<'a>) -> Result<Command<'a>, Error> {
    with_loads(alloc, with_looks(alloc, command)?)
}

// What is told of a store, or printed of it, and changes nothing.
fn with_looks<'a>(alloc: Global, command: Command<'a>) -> Result<Command<'a>, Error> {
    let mut command = command;
    command = with_task(
        alloc,
        command,
        "check",
        "Check the store, and change nothing",
    )?;
    command = with_task(
        alloc,
        command,
        "stat",
        "Print what the store has, numbers with their names, and change nothing",
    )?;
    command = with_flag_of(
        alloc,
        command,
        "json",
        "stat",
        "Print them as an object of JSON",
    )?;
    command = with_task(
        alloc,
        command,
        "log",
        "Print the records of the log, and change nothing",
    )?;
    command = with_task(alloc, command, "dump", "Print all entries as text")?;
    with_flag_of(
        alloc,
        command,
        "portable",
        "dump",
        "Dump them as LMDB and Berkeley DB do, with row ids of 8 bytes",
    )
}

// What puts entries in, and what cuts the logs.
fn with_loads<'a>(alloc: Global, command: Command<'a>) -> Result<Command<'a>, Error> {
    let mut command = command;
    command = with_task(
        alloc,
        command,
        "load",
        "Put in the entries that standard input has, as --dump prints them, in either form",
    )?;
    command = command.arg(
        flag(
            alloc,
            "skip",
            "Leave keys that are there as they are, so that a load which broke off goes on",
        )
        .requires_arg("load")?
        .conflicts_with("replace")?,
    )?;
    command = with_flag_of(
        alloc,
        command,
        "replace",
        "load",
        "Give keys that are there the row ids of the dump",
    )?;
    with_task(
        alloc,
        command,
        "trim",
        "Leave at most 64 KiB of each log file, as the end of the input does",
    )
}

// A copy of the store, and steps that only read.
fn with_copies<'a>(alloc: Global, command: Command<'a>) -> Result<Command<'a>, Error> {
    let copy = Arg::new(alloc, "copy")
        .long("copy")
        .value_name("FOLDER")
        .action(ArgAction::Set)
        .help("Copy the store, which no program writes, into a new folder, and check the copy");
    let compact = Arg::new(alloc, "compact")
        .long("compact")
        .value_name("FOLDER")
        .action(ArgAction::Set)
        .help(
            "Load the entries of the store, which no program writes, into a new folder, where they take as few pages as they can, and check what is there then",
        );
    let read = flag(
        alloc,
        "read",
        "Make the steps of lines that only read, and change nothing; others may read meanwhile",
    )
    .requires_arg("DIR")?
    .conflicts_with("pages")?
    .conflicts_with("checkpoint")?
    .conflicts_with("switch")?;
    Ok(
        command
            .arg(as_task(copy, "copy")?)?
            .arg(as_task(compact, "compact")?)?
            .arg(apart(read, "read")?)?,
    )
}

fn with_task<'a>(
    alloc: Global,
    command: Command<'a>,
    name: &'a str,
    help: &'a str,
) -> Result<Command<'a>, Error> {
    Ok(command.arg(task_flag(alloc, name, help)?)?)
}

// A flag that stands beside another.
fn with_flag_of<'a>(
    alloc: Global,
    command: Command<'a>,
    name: &'a str,
    other: &'a str,
    help: &'a str,
) -> Result<Command<'a>, Error> {
    Ok(command.arg(flag(alloc, name, help).requires_arg(other)?)?)
}

fn flag<'a>(alloc: Global, name: &'a str, help: &'a str) -> Arg<'a> {
    Arg::new(alloc, name)
        .long(name)
        .action(ArgAction::SetTrue)
        .help(help)
}

// A flag of which one at most is given, which needs the folder, and which takes no option of steps that it would not heed.
fn task_flag<'a>(alloc: Global, name: &'a str, help: &'a str) -> Result<Arg<'a>, Error> {
    as_task(flag(alloc, name, help), name)
}

fn as_task<'a>(arg: Arg<'a>, name: &'a str) -> Result<Arg<'a>, Error> {
    let mut arg = apart(arg, name)?
        .requires_arg("DIR")?
        .conflicts_with("batch")?;
    if name != "load" {
        arg = arg
            .conflicts_with("frames")?
            .conflicts_with("cache")?
            .conflicts_with("pages")?
            .conflicts_with("checkpoint")?
            .conflicts_with("switch")?
            .conflicts_with("workers")?;
    }
    Ok(arg)
}

// An option beside which none of the others may be given that say what is done.
fn apart<'a>(arg: Arg<'a>, name: &'a str) -> Result<Arg<'a>, Error> {
    let mut arg = arg;
    for other in [
        "read", "check", "stat", "log", "dump", "load", "trim", "copy", "compact",
    ] {
        if other != name {
            arg = arg.conflicts_with(other)?;
        }
    }
    Ok(arg)
}
