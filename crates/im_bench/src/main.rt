//! `im_bench [NAME] [WORDS]`: what the layers and the store do, in counts, and with `--time` in figures.
//!
//! Without words it does each bench in turn, each under a line with its name, and prints what came out, the same each run. With a
//! name it does that one, with the words after its name: `im_bench store --time --keys 100000`. Each module says what its bench does, which
//! words it takes, and what its figures were.
//!
//! The last two are runs of whole stores, for what no contract can say, and have no figures: `long` is one long run of a store of ten
//! thousand keys, and a life and an opening stopped at each device call; `damage` opens a store whose files are damaged, one byte at a
//! time, by strides. `im_bench damage --all` damages each byte of both files, which takes minutes.
//!
//! Threads that commit are a program of their own, `im_bench_commits`, with figures beside five other stores.
#![tactic(auto)]

mod damage;
mod long;
mod look_ups;
mod opened;
mod store;
mod tree;
mod tree_pages;
mod tree_work;

use anyhow::{Result, bail};
use im_bench_layers::{flush, log, page, pool};
use std::env;
use std::thread::Threads;

/// The names, in the order of the layers.
const NAMES: [&str; 8] = [
    "page", "log", "pool", "flush", "tree", "store", "long", "damage",
];

fn main(rt: HostRuntime) -> Result<()> {
    let words: Vec<String> = env::args(&rt)?.collect(rt.alloc())?;
    if words.len() > 1 {
        return run(&rt, &rt, words[1].as_str(), &words[2..]);
    }
    for name in NAMES {
        println!(rt; "== {name}")?;
        run(&rt, &rt, name, &[])?;
    }
    Ok(())
}

// Does the bench of this name, with the words after it. Threads are started by `threads` alone.
fn run<R: Threads + Sync>(
    rt: &HostRuntime,
    threads: &R,
    name: &str,
    words: &[String],
) -> Result<()> {
    match name {
        "page" => page::run(rt, words),
        "log" => log::run(rt, words),
        "pool" => pool::run(rt, words),
        "flush" => flush::run(rt, words),
        "tree" => tree::run(rt, threads, words),
        "store" => store::run(rt, threads, words),
        "long" => long::run(rt, threads),
        "damage" => damage::run(rt, threads, words),
        _ => bail!("no bench {name}; there are page, log, pool, flush, tree, store, long, damage"),
    }
}
