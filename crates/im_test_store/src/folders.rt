//! Stores over folders: one that is held elsewhere, one that is not there, one that cannot be, one of the first format, and one whose logs were long.

use crate::stores::{FIRST, begun, end, format_of, is_put, is_switched};
use im_base_types::Fault;
use im_engine::Config;
use im_open::{Files, close, open_store};
use im_store::{Bounds, OpenStore};
use std::fs;
use std::process::Abort;
use std::test::Fail;
use std::thread::Threads;

const FOLDER: &str = "im_store_test/new";

const TOP: &str = "im_store_test";

const UNDER_A_FILE: &str = "im_store_test/new/log/store";

const OLD: &str = "im_store_first";

const OLD_LOG: &str = "im_store_first/log";

const OLD_PAGES: &str = "im_store_first/pages";

const LONG: &str = "im_store_long";

const LONG_LOG: &str = "im_store_long/log";

const LONG_LOG2: &str = "im_store_long/log2";

// The store of a folder.
fn opened<R: Threads + Sync>(
    rt: &HostRuntime,
    threads: &R,
    folder: &str,
) -> Result<OpenStore<Files>, Fail> {
    match open_store(rt, threads, folder, Config::default(), Bounds::default()) {
        Ok(store) => Ok(store),
        Err(error) => Err(Fail::from(error.fault())),
    }
}

// The number of an opening's refusal, or 0.
fn refused<R: Threads + Sync>(rt: &HostRuntime, threads: &R, folder: &str) -> u8 {
    match open_store(rt, threads, folder, Config::default(), Bounds::default()) {
        Ok(_store) => 0,
        Err(error) => error.fault().number(),
    }
}

// How many entries a folder's store has.
fn entries_in<R: Threads + Sync>(
    rt: &HostRuntime,
    threads: &R,
    folder: &str,
) -> Result<usize, Fail> {
    let mut store = opened(rt, threads, folder)?;
    let entries = store.entries(rt.alloc());
    end(store);
    Ok(entries?.len())
}

// Puts a key in by transaction `t`, and ends the store. Whether all of that was made.
fn is_put_and_closed(rt: &HostRuntime, store: OpenStore<Files>, t: u16) -> Result<bool, Fail> {
    let mut store = store;
    let is_put = is_put(rt.alloc(), &mut store, t);
    let (closed, _disk) = store.close();
    Ok(is_put? && closed.is_ok())
}

// What the openings of a folder are refused while its store is open, and where a file has the name of a folder; and whether that store works on.
fn held<R: Threads + Sync>(rt: &HostRuntime, threads: &R) -> Result<(u8, u8, bool), Fail> {
    let store = opened(rt, threads, FOLDER)?;
    let there = refused(rt, threads, FOLDER);
    let under = refused(rt, threads, UNDER_A_FILE);
    Ok((there, under, is_put_and_closed(rt, store, 1)?))
}

#[test]
fn a_folder_that_is_held_is_refused(rt: HostRuntime) -> Result<(), Fail> {
    let _gone = fs::remove_dir_all(&rt, TOP);
    // A folder that is not there is made, and the one above it.
    assert!(rt; held(&rt, &rt)? == (19, 8, true));
    assert!(rt; entries_in(&rt, &rt, FOLDER)? == 1);
    fs::remove_dir_all(&rt, TOP)?;
    Ok(())
}

// A folder as the first format left it, which had one log.
fn make_old(rt: &HostRuntime) -> Result<(), Fail> {
    let _gone = fs::remove_dir_all(rt, OLD);
    fs::create_dir(rt, OLD)?;
    fs::write(rt, OLD_LOG, FIRST.as_slice())?;
    fs::write(rt, OLD_PAGES, "")?;
    Ok(())
}

#[test]
fn a_folder_of_the_first_format_is_brought_to_the_second(rt: HostRuntime) -> Result<(), Fail> {
    make_old(&rt)?;
    let store = opened(&rt, &rt, OLD)?;
    assert!(rt; is_put_and_closed(&rt, store, 2)?);
    assert!(rt; format_of(&fs::read(&rt, OLD_LOG)?) == 50);
    assert!(rt; entries_in(&rt, &rt, OLD)? == 2);
    fs::remove_dir_all(&rt, OLD)?;
    Ok(())
}

// Two transactions of so many keys that the log has more than 64 KiB, each left by a Switch, and one of one key.
fn is_long_twice(rt: &HostRuntime, store: &mut OpenStore<Files>) -> Result<bool, Fail> {
    for t in [1, 2] {
        if !begun(rt.alloc(), store, t, 1_600)? || !is_switched(store, t) {
            return Ok(false);
        }
    }
    Ok(is_put(rt.alloc(), store, 3)?)
}

// How long the longer log is.
fn longest(rt: &HostRuntime) -> Result<usize, Fail> {
    let log = fs::read(rt, LONG_LOG)?.len();
    let other = fs::read(rt, LONG_LOG2)?.len();
    Ok(log.max(other))
}

// How long the longer log is after them, and 0 where not all was made.
fn made_long(rt: &HostRuntime, store: &mut OpenStore<Files>) -> Result<usize, Fail> {
    if !is_long_twice(rt, store)? {
        return Ok(0);
    }
    longest(rt)
}

#[test]
fn a_close_leaves_short_logs(rt: HostRuntime) -> Result<(), Fail> {
    let _gone = fs::remove_dir_all(&rt, LONG);
    let mut store = opened(&rt, &rt, LONG)?;
    let before = made_long(&rt, &mut store);
    let closed = close(store);
    assert!(rt; before? > 65_536);
    closed?;
    assert!(rt; longest(&rt)? <= 65_536);
    assert!(rt; entries_in(&rt, &rt, LONG)? == 3_201);
    fs::remove_dir_all(&rt, LONG)?;
    Ok(())
}
