//! The program that keeps a store.

ghost use Rattle.std.specs.Prelude.{◌≡◌, ◌≤◌, false, IfOk};
ghost use Rattle.im_base_disk.specs.Runs.{IsSynced};

use crate::copying::{FolderCopier, copy_program};
use crate::limits::{bounds_of, config_of};
use crate::store::{StoreEnd, store_text};
use crate::tasks::{load_program, look_program, tell_damage};
use crate::trimming::trim_in_folder;
use clap::Error;
use im_base_disk::Disk;
use im_base_mirror_disk::Mirrored;
use im_base_model_disk::ModelDisk;
use im_base_two_logs::Renamed;
use im_base_types::Fault;
use im_engine::{Config, MOST_WORKERS};
use im_files_disk::FileDisk;
use im_files_scratch_disk::ScratchDisk;
use im_store::Bounds;
use im_tool_files::{
    Cause, Causes, Ending, Opening, WatchedDisk, print_refused_opening, tell, tell_unopened,
    tell_unread,
};
use im_tool_user::{LineInput, Manner, Options, Task, parse_options};
use std::alloc::AllocError;
use std::io;
use std::io::{BufReader, BufWriter, IsTerminal, Write};
use std::thread::Threads;

/// Opens the store in the folder that the command line names, or an empty one in memory where it names none, makes the steps
/// that standard input asks for and prints their replies. The first word is the program's name. It answers the exit status: 0,
/// 1 where the opening was refused, or what closes the store, 2 where the command line was, 3 where a line was refused in a batch.
///
/// Why an opening or a close was refused stands on standard error, in words. An error is of the program's own memory, input or output: its
/// status is 1.
pub fn store_program<T: Threads + Sync>(
    rt: &HostRuntime,
    threads: &T,
    words: &[String],
) -> io::Result<u8>
    ensures { IfOk result (λ status. status ≤ 3) }
{
    match parse_options(rt.alloc(), words, MOST_WORKERS as u64) {
        Ok(options) => run_task(rt, threads, &options),
        Err(error) => {
            if error.kind() == clap::error::ErrorKind::OutOfMemory {
                return Err(io::Error::from(AllocError));
            }
            error.print(rt)?;
            Ok(status_of(&error))
        }
    }
}

// Help goes to standard output, and is no error.
fn status_of(error: &Error) -> u8
    ensures { result ≤ 2 }
{
    if error.use_stderr() { 2 } else { 0 }
}

fn run_task<T: Threads + Sync>(rt: &HostRuntime, threads: &T, options: &Options) -> io::Result<u8>
    ensures { IfOk result (λ status. status ≤ 3) }
{
    let Some(dir) = options.dir else {
        return run_in_memory(rt, threads, options);
    };
    match options.task {
        Task::Steps => run_in_folder(rt, threads, dir, options),
        Task::Read => read_in_folder(rt, threads, dir, options),
        Task::Copy(folder) => copy_program(rt, threads, dir, folder, false),
        Task::Compact(folder) => copy_program(rt, threads, dir, folder, true),
        Task::Load(present) => load_program(rt, threads, dir, options, present),
        Task::Trim => trim_in_folder(rt, threads, dir, options),
        task => look_program(rt, threads, dir, task),
    }
}

fn run_in_memory<T: Threads + Sync>(
    rt: &HostRuntime,
    threads: &T,
    options: &Options,
) -> io::Result<u8>
    ensures { IfOk result (λ status. status ≤ 3) }
{
    let alloc = rt.alloc();
    let mut reader = BufReader::new(alloc, rt.reader())?;
    let mut writer = BufWriter::new(alloc, io::writer(rt))?;
    let disk = ModelDisk::new(Vec::new(alloc), Vec::new(alloc));
    let end = run_steps(
        rt,
        threads,
        disk,
        "memory",
        options,
        config_of(options, 0),
        &mut reader,
        &mut writer,
    )?;
    Ok(status_at(end))
}

fn run_in_folder<T: Threads + Sync>(
    rt: &HostRuntime,
    threads: &T,
    dir: &str,
    options: &Options,
) -> io::Result<u8>
    ensures { IfOk result (λ status. status ≤ 3) }
{
    let mut reader = BufReader::new(rt.alloc(), rt.reader())?;
    let mut writer = BufWriter::new(rt.alloc(), io::writer(rt))?;
    run_on_files(rt, threads, dir, options, &mut reader, &mut writer)
}

fn run_on_files<R: LineInput, W: Write, T: Threads + Sync>(
    rt: &HostRuntime,
    threads: &T,
    dir: &str,
    options: &Options,
    reader: &mut R,
    writer: &mut W,
) -> io::Result<u8>
    ensures { IfOk result (λ status. status ≤ 3) }
{
    match FileDisk::open(rt, dir) {
        Ok(files) => {
            let config = config_of(options, files.page_count());
            let disk = WatchedDisk::new(files, rt.stderr(), rt);
            let end = run_steps(rt, threads, disk, dir, options, config, reader, writer)?;
            match end {
                StoreEnd::RefusedOpening(fault) => {
                    tell(rt, dir, &fault);
                    if fault == Fault::NotAStore {
                        tell_damage(rt, threads, dir);
                    }
                }
                StoreEnd::RefusedClose(fault) => tell(rt, dir, &fault),
                StoreEnd::Input | StoreEnd::RefusedLine => {}
            }
            Ok(status_at(end))
        }
        Err(error) => {
            print_refused_opening(writer, error.fault())?;
            tell_unopened(rt, dir, &error);
            Ok(1)
        }
    }
}

// The steps of lines that only read.
fn read_in_folder<T: Threads + Sync>(
    rt: &HostRuntime,
    threads: &T,
    dir: &str,
    options: &Options,
) -> io::Result<u8>
    ensures { IfOk result (λ status. status ≤ 3) }
{
    let mut reader = BufReader::new(rt.alloc(), rt.reader())?;
    let mut writer = BufWriter::new(rt.alloc(), io::writer(rt))?;
    read_on_files(rt, threads, dir, options, &mut reader, &mut writer)
}

fn read_on_files<R: LineInput, W: Write, T: Threads + Sync>(
    rt: &HostRuntime,
    threads: &T,
    dir: &str,
    options: &Options,
    reader: &mut R,
    writer: &mut W,
) -> io::Result<u8>
    ensures { IfOk result (λ status. status ≤ 3) }
{
    match FileDisk::open_to_read(rt, dir) {
        Ok(files) => {
            let config = config_of(options, files.page_count());
            let watched = WatchedDisk::new(files, rt.stderr(), rt);
            let disk = ScratchDisk::new(rt.alloc(), Some(watched));
            let end = run_steps(rt, threads, disk, dir, options, config, reader, writer)?;
            if let StoreEnd::RefusedOpening(fault) = end {
                tell(rt, dir, &fault);
                if fault == Fault::NotAStore {
                    tell_damage(rt, threads, dir);
                }
            }
            Ok(status_at(end))
        }
        Err(error) => {
            print_refused_opening(writer, error.fault())?;
            tell_unread(rt, dir, &error);
            Ok(1)
        }
    }
}

// The steps that the lines of a reader ask for, as the options say.
fn run_steps<D: Disk + Cause + Opening + Ending + Drop, R: LineInput, W: Write, T: Threads + Sync>(
    rt: &HostRuntime,
    threads: &T,
    disk: D,
    dir: &str,
    options: &Options,
    config: Config,
    reader: &mut R,
    writer: &mut W,
) -> io::Result<StoreEnd>
    requires working { D.failed disk ≡ false }
    requires synced { IsSynced D.Disk disk }
{
    let bounds = match options.task {
        Task::Read => Bounds::of_bytes(0, 0),
        _ => bounds_of(options),
    };
    let mut causes = Causes {
        writer: rt.stderr(),
        dir,
        is_told: false,
    };
    store_text(
        threads,
        rt.alloc(),
        Mirrored::new(Renamed::new(disk, false)),
        config,
        bounds,
        manner_of(rt, options),
        reader,
        writer,
        &mut causes,
        &mut FolderCopier {
            rt,
            dir: options.dir,
        },
    )
}

fn status_at(end: StoreEnd) -> u8
    ensures { result ≤ 3 }
{
    match end {
        StoreEnd::Input => 0,
        StoreEnd::RefusedOpening(_) => 1,
        StoreEnd::RefusedClose(_) => 1,
        StoreEnd::RefusedLine => 3,
    }
}

// In words where they are asked for, and between a user's keyboard and screen.
fn manner_of(rt: &HostRuntime, options: &Options) -> Manner {
    let has_user = rt.stdin().is_terminal() && rt.stdout().is_terminal();
    Manner {
        has_words: options.has_words || has_user,
        has_prompt: has_user,
        is_batch: options.is_batch,
        is_read: options.task == Task::Read,
    }
}
