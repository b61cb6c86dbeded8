//! How a program keeps keys in a folder: it opens the store, makes a transaction, lists what is there, copies it, and does what keeps the next opening
//! short; and, in `threads`, how threads share one.
#![tactic(auto)]

mod threads;

use im_base_steps::{Reply, Step};
use im_engine::{BufferSize, Config, Engine, MoreFrames};
use im_front::{Open, Rested};
use im_open::{Files, close, copy, open, open_store};
use im_store::{Bounds, OpenStore};
use std::fs;
use std::sync::Wait;
use std::thread::Threads;
use threads::{insert_all, show};

const ALONE: &str = "store_example_files";

const COPY: &str = "store_example_copy";

const SHARED: &str = "store_example_threads";

fn main(rt: HostRuntime) -> anyhow::Result<()> {
    alone(&rt, &rt)?;
    fs::remove_dir_all(&rt, ALONE)?;
    copied(&rt, &rt)?;
    fs::remove_dir_all(&rt, COPY)?;
    together(&rt, &rt)?;
    fs::remove_dir_all(&rt, SHARED)?;
    Ok(())
}

// A store of one thread, and a copy of it. What keeps the next opening short is done by the steps, and by the end, which gives back the room of the logs.
fn alone<R: Threads + Sync>(rt: &HostRuntime, threads: &R) -> anyhow::Result<()> {
    let mut store = open_store(rt, threads, ALONE, config(false), Bounds::default())?;
    let used = use_store(rt, &mut store);
    let closed = close(store);
    used?;
    closed?;
    Ok(())
}

// One transaction, the entries after it, and a copy, while the store is open.
fn use_store(rt: &HostRuntime, store: &mut OpenStore<Files>) -> anyhow::Result<()> {
    insert(rt, store)?;
    list(rt, store)?;
    copy(rt, store, COPY)?;
    Ok(())
}

// The copy is a store of its own.
fn copied<R: Threads + Sync>(rt: &HostRuntime, threads: &R) -> anyhow::Result<()> {
    let mut store = open_store(rt, threads, COPY, config(false), Bounds::default())?;
    let listed = list(rt, &mut store);
    let closed = close(store);
    listed?;
    closed?;
    Ok(())
}

// How a store in files is opened. With group commit one force serves all threads that commit meanwhile.
fn config(group: bool) -> Config {
    Config {
        frames: 64,
        more: MoreFrames::NONE,
        max_pages: 1_000_000,
        buffer: BufferSize::OVER_FILES,
        stepped: false,
        dense: true,
        group,
        workers: 1,
    }
}

// Threads that commit in one store. They are started, and waited for, by `threads` alone.
fn together<R: Threads + Wait + Sync>(rt: &HostRuntime, threads: &R) -> anyhow::Result<()> {
    let front = match Open::new(rt.alloc(), open(rt, threads, SHARED, config(true))?) {
        Ok(front) => front,
        Err((fault, at_rest)) => {
            let_go(at_rest);
            return Err(anyhow::Error::from(fault));
        },
    };
    let done = insert_all(threads, rt.alloc(), &front);
    show(rt, threads, done?, front.close(), SHARED)
}

// Lets a store go for which there is no front.
fn let_go(_at_rest: Rested<Engine<Files>>) {}

// Inserts a key and commits.
fn insert(rt: &HostRuntime, store: &mut OpenStore<Files>) -> anyhow::Result<()> {
    if let Reply::Started(number) = store.step(&Step::Begin) {
        let key = Vec::from_slice(rt.alloc(), b"apple")?;
        let inserted = store.step(&Step::Insert(number, key, 7));
        let committed = store.step(&Step::Commit(number));
        println!(rt; "{} {}", word_of(&inserted), word_of(&committed))?;
    }
    Ok(())
}

fn list(rt: &HostRuntime, store: &mut OpenStore<Files>) -> anyhow::Result<()> {
    for (key, rid) in &store.entries(rt.alloc())? {
        let name = std::str::from_utf8(key.bytes())?;
        println!(rt; "{name} {rid}")?;
    }
    Ok(())
}

fn word_of(reply: &Reply) -> &'static str {
    match reply {
        Reply::Inserted => "inserted",
        Reply::Committed => "committed",
        _ => "another reply",
    }
}
