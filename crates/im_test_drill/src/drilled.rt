//! A script, and what it prints.

use crate::texts::{Part, text_of};
use im_engine::BufferSize;
use im_tool_script::drill_text;
use std::alloc::Global;
use std::io;
use std::process::Abort;
use std::test::Fail;
use std::thread::Threads;

/// What a script prints, and its exit status.
pub fn drilled<R: Threads + Sync>(
    rt: &R,
    alloc: Global,
    script: &[u8],
) -> io::Result<(u8, Vec<u8>)> {
    drilled_in(rt, alloc, BufferSize::ONE, script)
}

/// The same, where the logs of its stores have a buffer of this size.
pub fn drilled_in<R: Threads + Sync>(
    rt: &R,
    alloc: Global,
    buffer: BufferSize,
    script: &[u8],
) -> io::Result<(u8, Vec<u8>)> {
    let mut printed = Vec::new(alloc);
    let mut reader = script;
    let status = drill_text(rt, alloc, buffer, &mut reader, &mut printed)?;
    Ok((status, printed))
}

/// Whether a script prints this and no more, with this exit status.
pub fn prints<R: Threads + Sync>(
    rt: &R,
    alloc: Global,
    script: &[u8],
    want: &[u8],
    want_status: u8,
) -> io::Result<bool> {
    let (status, printed) = drilled(rt, alloc, script)?;
    Ok(status == want_status && printed.as_slice() == want)
}

/// Whether the script of some parts prints the text of others and no more, with status 0.
fn prints_parts<R: Threads + Sync>(
    rt: &R,
    alloc: Global,
    script: &[Part],
    want: &[Part],
) -> io::Result<bool> {
    let script = text_of(alloc, script)?;
    let want = text_of(alloc, want)?;
    prints(rt, alloc, &script, &want, 0)
}

/// Asks that of each row, which has a name, a script and what it prints. The rows are lent: a proof about a function that names so long a table has all of it
/// at each step.
pub fn each_prints_parts<R: Abort + Threads + Sync>(
    rt: &R,
    alloc: Global,
    rows: &[(&str, &[Part], &[Part])],
) -> Result<(), Fail> {
    for (name, script, want) in rows {
        assert!(rt; prints_parts(rt, alloc, script, want)?, "{name}");
    }
    Ok(())
}
