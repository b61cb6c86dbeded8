//! `imstore [DIR]`: keeps a store in a folder, and makes the steps that standard input asks for.
#![tactic(auto)]

use im_tool::store_program;
use std::io::ErrorKind;
use std::process::ExitCode;
use std::thread::Threads;
use std::{env, io};

fn main(rt: HostRuntime) -> ExitCode {
    match run(&rt, &rt) {
        Ok(status) => ExitCode::from(status),
        // who reads what it prints has gone, as `head` does, and wants no more
        Err(error) if error.kind() == ErrorKind::BrokenPipe => ExitCode::from(1),
        Err(error) => {
            let what = what_failed(error.kind());
            let _ = eprintln!(rt; "imstore: {what}: {error}");
            ExitCode::from(1)
        }
    }
}

// What it is that an error of this kind came of.
fn what_failed(kind: ErrorKind) -> &'static str {
    match kind {
        ErrorKind::StorageFull | ErrorKind::QuotaExceeded | ErrorKind::FileTooLarge => {
            "what it prints cannot be written"
        }
        ErrorKind::OutOfMemory => "its own memory",
        _ => "what it reads or prints",
    }
}

fn run<R: Threads + Sync>(rt: &HostRuntime, threads: &R) -> io::Result<u8> {
    let words: Vec<String> = env::args(rt)?.collect(rt.alloc())?;
    store_program(rt, threads, &words)
}
