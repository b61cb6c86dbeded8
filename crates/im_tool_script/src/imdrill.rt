//! The program that runs a script.

ghost use Rattle.std.specs.Prelude.{◌≤◌, IfOk};

use crate::text::drill_text;
use crate::why_bad::why_bad;
use clap::builder::ValueParser;
use clap::{Arg, ArgAction, ArgMatches, Command, Error};
use im_engine::BufferSize;
use im_tool_every::{Sweep, every_text, sweep_text};
use im_tool_lines::refused_line;
use im_tool_user::VERSION;
use std::alloc::{AllocError, Global};
use std::io::{BufWriter, ErrorKind, IsTerminal, Read, Write};
use std::thread::Threads;
use std::{fs, io};

/// What is done with a script.
#[derive(Clone, Copy)]
enum Run {
    /// Its lives are made.
    Lives(BufferSize),
    /// Its one life is stopped everywhere.
    Everywhere(BufferSize),
    /// Its last life is swept.
    Swept(Sweep),
}

/// Runs the script that the command line names, or standard input where it names none, and prints what its
/// lives answer. With `--buffer N` the logs of its stores have a buffer of N batches, 1 to 64. With `--every` it stops the script's one life
/// everywhere, tells on standard error how far it is, where that is a terminal, and prints how often, and how many openings were bad. With
/// `--every-failure` each call of its last life fails in turn, in place of that. Beside one of the two, `--settings` has the last life swept in each
/// setting that its words leave open, with a buffer of 1, 4 and 32 where none is named, and prints a line for each. The first word is the
/// program's name. It answers the exit status.
///
/// An error is of the program's own memory, input or output: its status is 1.
pub fn drill_program<T: Threads + Sync>(
    rt: &HostRuntime,
    threads: &T,
    words: &[String],
) -> io::Result<u8>
    ensures { IfOk result (λ status. status ≤ 2) }
{
    let alloc = rt.alloc();
    let matches = match parse_words(alloc, words) {
        Ok(matches) => matches,
        Err(error) => {
            if error.kind() == clap::error::ErrorKind::OutOfMemory {
                return Err(io::Error::from(AllocError));
            }
            error.print(rt)?;
            return Ok(status_of(&error));
        }
    };
    let Some(run) = run_of(&matches) else {
        let _ = eprintln!(rt;
            "imdrill: --every and --every-failure exclude each other, and --settings stands beside one of them"
        );
        return Ok(2);
    };
    let mut writer = BufWriter::new(alloc, io::writer(rt))?;
    let status = match matches.get_str("SCRIPT") {
        Some(path) => run_file(rt, threads, path, run, &mut writer)?,
        None => {
            let mut text = Vec::new(alloc);
            rt.reader().read_to_end(&mut text)?;
            run_text(rt, threads, &text, run, &mut writer)?
        }
    };
    writer.flush()?;
    Ok(status)
}

// The file is read to its end before anything is printed.
fn run_file<W: Write, T: Threads + Sync>(
    rt: &HostRuntime,
    threads: &T,
    path: &str,
    run: Run,
    writer: &mut W,
) -> io::Result<u8>
    ensures { IfOk result (λ status. status ≤ 1) }
{
    match fs::read(rt, path) {
        Ok(text) => run_text(rt, threads, &text, run, writer),
        Err(error) if error.kind() == ErrorKind::OutOfMemory => Err(error),
        Err(error) => {
            writeln!(writer, "script unreadable")?;
            let _ = eprintln!(rt; "imdrill: {path}: {error}");
            Ok(1)
        }
    }
}

// Runs a script, and says on standard error why a line of it is bad. Where that is closed nobody reads it.
fn run_text<W: Write, T: Threads + Sync>(
    rt: &HostRuntime,
    threads: &T,
    text: &[u8],
    run: Run,
    writer: &mut W,
) -> io::Result<u8>
    ensures { IfOk result (λ status. status ≤ 1) }
{
    let mut printed = Vec::new(rt.alloc());
    let status = match run {
        Run::Lives(buffer) => {
            let mut reader = text;
            drill_text(threads, rt.alloc(), buffer, &mut reader, &mut printed)?
        }
        Run::Everywhere(buffer) => run_every(rt, threads, text, buffer, &mut printed)?,
        Run::Swept(sweep) => run_sweep(rt, threads, text, sweep, &mut printed)?,
    };
    writer.write_all(&printed)?;
    if let Some((number, line)) = refused_line(&printed, text) {
        let reason = why_bad(line);
        let _ = eprintln!(rt; "imdrill: line {number}: {reason}");
    }
    Ok(status)
}

// Stops the script's life everywhere, and tells how far it is on standard error, where that is a terminal.
fn run_every<T: Threads + Sync>(
    rt: &HostRuntime,
    threads: &T,
    text: &[u8],
    buffer: BufferSize,
    printed: &mut Vec<u8>,
) -> io::Result<u8>
    ensures { IfOk result (λ status. status ≤ 1) }
{
    let mut reader = text;
    let mut progress = rt.stderr();
    if progress.is_terminal() {
        every_text(
            threads,
            rt.alloc(),
            buffer,
            &mut reader,
            printed,
            &mut progress,
        )
    } else {
        every_text(
            threads,
            rt.alloc(),
            buffer,
            &mut reader,
            printed,
            &mut io::sink(),
        )
    }
}

// Sweeps the script's last life, and tells how far it is in the same way.
fn run_sweep<T: Threads + Sync>(
    rt: &HostRuntime,
    threads: &T,
    text: &[u8],
    sweep: Sweep,
    printed: &mut Vec<u8>,
) -> io::Result<u8>
    ensures { IfOk result (λ status. status ≤ 1) }
{
    let mut reader = text;
    let mut progress = rt.stderr();
    if progress.is_terminal() {
        sweep_text(
            threads,
            rt.alloc(),
            sweep,
            &mut reader,
            printed,
            &mut progress,
        )
    } else {
        sweep_text(
            threads,
            rt.alloc(),
            sweep,
            &mut reader,
            printed,
            &mut io::sink(),
        )
    }
}

// Help goes to standard output, and is no error.
fn status_of(error: &Error) -> u8
    ensures { result ≤ 2 }
{
    if error.use_stderr() { 2 } else { 0 }
}

// None, where the words do not go together.
fn run_of(matches: &ArgMatches) -> Option<Run> {
    let named = buffer_of(matches.get_one::<u64>("buffer"));
    let buffer = named.unwrap_or(BufferSize::ONE);
    let every = matches.get_flag("every");
    let fails = matches.get_flag("every-failure");
    let in_settings = matches.get_flag("settings");
    if every == fails {
        if every || in_settings {
            return None;
        }
        return Some(Run::Lives(buffer));
    }
    if every && !in_settings {
        return Some(Run::Everywhere(buffer));
    }
    Some(Run::Swept(Sweep {
        fails,
        in_settings,
        buffer: named,
    }))
}

// A buffer of so many batches, where they are named.
fn buffer_of(batches: Option<u64>) -> Option<BufferSize> {
    BufferSize::new(batches? as usize)
}

fn parse_words<'a>(alloc: Global, words: &'a [String]) -> Result<ArgMatches<'a>, Error> {
    let command = Command::new(alloc, "imdrill").version(VERSION).about(
        "Runs a script of lives of a store, over a disk in memory that can stop within each of its calls, and prints what is there afterwards",
    );
    let command = with_buffer(alloc, with_sweeps(alloc, command)?)?;
    command.try_get_matches_from(words)
}

// What is done with the last life of the script.
fn with_sweeps<'a>(alloc: Global, command: Command<'a>) -> Result<Command<'a>, Error> {
    let command = command
        .arg(flag(
            alloc,
            "every",
            "Stop its one life within each call, and each opening after that, and print how many were bad",
        ))?
        .arg(flag(
            alloc,
            "every-failure",
            "Have each call of its last life fail, and each of an opening after it, and print how many were bad",
        ))?
        .arg(flag(
            alloc,
            "settings",
            "Beside one of these: in each setting that the life leaves open, with a line for each",
        ))?;
    Ok(command)
}

// How large the log's buffer is, and the script.
fn with_buffer<'a>(alloc: Global, command: Command<'a>) -> Result<Command<'a>, Error> {
    let command = command
        .arg(
            Arg::new(alloc, "buffer")
                .long("buffer")
                .value_parser(ValueParser::unsigned(1, 64))
                .help(
                    "Batches that the log's buffer holds, 1 to 64 [1; with --settings 1, 4 and 32]",
                ),
        )?
        .arg(Arg::new(alloc, "SCRIPT").help("The file of the script; without one standard input"))?;
    Ok(command)
}

fn flag<'a>(alloc: Global, name: &'a str, help: &'a str) -> Arg<'a> {
    Arg::new(alloc, name)
        .long(name)
        .action(ArgAction::SetTrue)
        .help(help)
}
