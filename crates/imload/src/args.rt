//! The command line of a load.

use clap::builder::ValueParser;
use clap::error::ErrorKind;
use clap::{Arg, ArgAction, Command, Error};
use im_front::LoadArgs;
use std::alloc::Global;

/// What a command line asks for.
#[derive(Clone, Copy, Debug)]
pub(crate) struct LoadCommand {
    /// How many threads, transactions and rounds of the flusher, and whether Commits wait for a force.
    pub(crate) args: LoadArgs,
    /// Whether the throughput is printed too.
    pub(crate) timed: bool,
}

/// Reads the words of a command line, of which the first is the program's name. Where a number is not named it is 1, and 0 for the
/// flusher's rounds; a value of `LoadArgs` is within the ranges, whatever the words are. Refused with the text for the user: a
/// mistake, or a request for help or the version.
pub(crate) fn load_args(alloc: Global, words: &[String]) -> Result<LoadCommand, Error> {
    let mut command = command(alloc)?;
    let matches = command.try_get_matches_from_mut(words)?;
    let args = LoadArgs::new(
        matches.get_one::<u64>("threads").unwrap_or(1),
        matches.get_one::<u64>("txns").unwrap_or(1),
        matches.get_one::<u64>("flush").unwrap_or(0),
    );
    let group = matches.get_flag("group");
    let timed = matches.get_flag("time");
    match args {
        Some(args) => Ok(LoadCommand {
            args: args.with_group(group),
            timed,
        }),
        None => Err(command.error(ErrorKind::ValueValidation, "a number is out of its range")?),
    }
}

fn command<'a>(alloc: Global) -> Result<Command<'a>, Error> {
    let threads = Arg::new(alloc, "threads")
        .long("threads")
        .value_parser(ValueParser::unsigned(1, 16))
        .help("Threads that make transactions, 1 to 16 [1]");
    let txns = Arg::new(alloc, "txns")
        .long("txns")
        .value_parser(ValueParser::unsigned(1, 500))
        .help("Transactions that each of them makes, 1 to 500 [1]");
    let flush = Arg::new(alloc, "flush")
        .long("flush")
        .value_parser(ValueParser::unsigned(0, 100))
        .help("Rounds of a thread beside them that writes pages, at most 100 [0]");
    let group = Arg::new(alloc, "group")
        .long("group")
        .action(ArgAction::SetTrue)
        .help("Let Commits wait for a force, which each thread makes for all that wait");
    let time = Arg::new(alloc, "time")
        .long("time")
        .action(ArgAction::SetTrue)
        .help("Print how many transactions were made a second, too");
    let command = Command::new(alloc, "imload")
        .version("1")
        .about(
            "Runs threads that make transactions at once on a store whose files are in memory, and prints what came of them",
        )
        .arg(threads)?
        .arg(txns)?
        .arg(flush)?
        .arg(group)?
        .arg(time)?;
    Ok(command)
}
