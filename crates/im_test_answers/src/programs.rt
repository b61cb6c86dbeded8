//! The exit statuses of the programs.

use im_tool::store_program;
use im_tool_script::drill_program;
use std::alloc::{AllocError, Global};
use std::process::Abort;
use std::test::Fail;
use std::thread::Threads;
use std::{fs, io};

static DRILLS: [(&[&str], u8); 6] = [
    (&["imdrill", "im_tool_no_such_script"], 1),
    (&["imdrill", "."], 1),
    (&["imdrill", "im_tool_script"], 0),
    (&["imdrill", "im_tool_script", "two"], 2),
    (&["imdrill", "--help"], 0),
    (&["imdrill", "--version"], 0),
];

static STORES: [(&[&str], u8); 13] = [
    (&["imstore", "im_tool_store"], 0),
    (&["imstore", "im_tool_store", "--workers", "16"], 0),
    (&["imstore", "im_tool_store", "--switch", "0"], 0),
    (&["imstore", "im_tool_store", "--switch", "1048576"], 0),
    (&["imstore", "--switch", "1048577"], 2),
    (&["imstore", "--switch", "-1"], 2),
    (&["imstore", "im_tool_store", "--check", "--switch", "1"], 2),
    (&["imstore", "im_tool_store", "--stat", "--json"], 0),
    (&["imstore", "im_tool_store", "--json"], 2),
    (&["imstore", "--workers", "0"], 2),
    (&["imstore", "--workers", "17"], 2),
    (&["imstore", "im_tool_no_folder"], 1),
    (&["imstore", "one", "two"], 2),
];

fn strings_of(alloc: Global, words: &[&str]) -> Result<Vec<String>, AllocError> {
    let mut strings = Vec::new(alloc);
    for word in words {
        strings.push(String::from_str(alloc, word)?)?;
    }
    Ok(strings)
}

fn drill_status<R: Threads + Sync>(
    rt: &HostRuntime,
    threads: &R,
    words: &[&str],
) -> io::Result<u8> {
    let strings = strings_of(rt.alloc(), words)?;
    drill_program(rt, threads, &strings)
}

fn store_status<R: Threads + Sync>(
    rt: &HostRuntime,
    threads: &R,
    words: &[&str],
) -> io::Result<u8> {
    let strings = strings_of(rt.alloc(), words)?;
    store_program(rt, threads, &strings)
}

// The rows are lent, here and below: a proof about a function that names a table has all of it at each step.
fn each_drill_answers<R: Abort + Threads + Sync>(
    rt: &HostRuntime,
    threads: &R,
    rows: &[(&[&str], u8)],
) -> Result<(), Fail> {
    for (words, status) in rows {
        assert!(threads; drill_status(rt, threads, words)? == *status, "{status}");
    }
    Ok(())
}

#[test]
fn the_drill_program_answers_its_status(rt: HostRuntime) -> Result<(), Fail> {
    fs::write(&rt, "im_tool_script", "raw\n")?;
    each_drill_answers(&rt, &rt, &DRILLS)?;
    fs::remove_file(&rt, "im_tool_script")?;
    Ok(())
}

fn each_store_answers<R: Abort + Threads + Sync>(
    rt: &HostRuntime,
    threads: &R,
    rows: &[(&[&str], u8)],
) -> Result<(), Fail> {
    for (words, status) in rows {
        assert!(threads; store_status(rt, threads, words)? == *status, "{status}");
    }
    Ok(())
}

#[test]
fn the_store_program_answers_its_status(rt: HostRuntime) -> Result<(), Fail> {
    fs::write(&rt, "im_tool_no_folder", "")?;
    each_store_answers(&rt, &rt, &STORES)?;
    fs::remove_file(&rt, "im_tool_no_folder")?;
    fs::remove_dir_all(&rt, "im_tool_store")?;
    Ok(())
}
