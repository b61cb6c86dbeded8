//! `imload [--threads N] [--txns M] [--flush F] [--group] [--time]`: threads that make transactions at once on one store, whose files
//! are in memory; with `--group` each Commit waits for a force. On a terminal it says on standard error which threads have begun.
#![tactic(auto)]

mod args;
mod progress;
mod store;

use crate::args::load_args;
use crate::progress::Progress;
use crate::store::new_store;
use clap::error::ErrorKind;
use im_base_types::WorkerStart;
use im_front::LoadArgs;
use im_front_load::{load_text, print_refused};
use std::alloc::{AllocError, Global};
use std::io::Write;
use std::process::ExitCode;
use std::sync::Wait;
use std::thread::Threads;
use std::time::Instant;
use std::{env, io};

fn main(rt: HostRuntime) -> io::Result<ExitCode> {
    let words: Vec<String> = env::args(&rt)?.collect(rt.alloc())?;
    match load_args(rt.alloc(), &words) {
        Ok(command) => {
            let start = Instant::now(&rt)?;
            let progress = Progress::new(&rt, command.args.threads());
            let mut writer = io::writer(&rt);
            let status = run_load(&rt, rt.alloc(), command.args, &progress, &mut writer)?;
            if command.timed && status == 0 {
                let nanos = start.elapsed(&rt)?.as_nanos();
                println!(rt; "transactions a second {}", rate(&command.args, nanos))?;
            }
            Ok(ExitCode::from(status))
        }
        Err(error) if error.kind() == ErrorKind::OutOfMemory => Err(io::Error::from(AllocError)),
        Err(error) => {
            error.print(&rt)?;
            Ok(ExitCode::from(if error.use_stderr() { 2 } else { 0 }))
        }
    }
}

// Runs the load and prints what came of it, and answers the exit status.
fn run_load<T: WorkerStart + Sync, R: Threads + Wait + Sync, W: Write>(
    rt: &R,
    alloc: Global,
    args: LoadArgs,
    at_start: &T,
    writer: &mut W,
) -> io::Result<u8> {
    match new_store(rt, alloc, args.group()) {
        Ok(engine) => load_text(rt, alloc, engine, args, at_start, writer),
        Err(fault) => print_refused(fault, writer),
    }
}

// How many transactions a second, rounded down.
fn rate(args: &LoadArgs, nanos: u128) -> u128 {
    u128::from(args.threads() * args.txns()) * 1_000_000_000 / nanos.max(1)
}
