//! Lines that the grammar lacks.

use crate::drilled::prints;
use std::alloc::Global;
use std::io;
use std::process::Abort;
use std::test::Fail;
use std::thread::Threads;

// Scripts whose first line is bad.
static SCRIPTS: [&str; 16] = [
    "raw ",
    " raw",
    "raw\r\n",
    "Raw",
    "set log ",
    "set log",
    "set log 0",
    "set pages ",
    "set pages",
    "set pages 0",
    "set page 00",
    "put 61",
    "calls",
    "stop end long written",
    "life ",
    "begin",
];

// Lines that no life over the gate takes.
static IN_RAW: [&str; 15] = [
    "put",
    "put 6",
    "put 6g",
    "put  61",
    "put 61 62",
    "calls ",
    "set log 00",
    "set pages 00",
    "stop 01 long written",
    "stop +1 long written",
    "stop 18446744073709551616 long written",
    "stop 1 longer written",
    "stop 1 long",
    "stop 1 long 0",
    "stop 1 long written written",
];

// Lines that no life of a store takes.
static IN_LIFE: [&str; 88] = [
    "raw",
    "put 61",
    "set log 00",
    "set pages 00",
    "life ",
    "life frames",
    "life frames 08",
    "life frames 8 ",
    "life max",
    "life max 08",
    "life max 18446744073709551616",
    "life fail",
    "life fail 3 max 2",
    "life failread 2 fail 3",
    "life fail 1 fail 1",
    "life max 8 ",
    "life max 8 max 8",
    "life max 8 frames 8",
    "life frames max 8",
    "life frames 8 frames 8",
    "life frames 8 max",
    "life frames 8  max 8",
    "life frames 8 maximum 8",
    "life group frames 8",
    "life group group",
    "life group 1",
    "life groups",
    "life fail 3  group",
    "life workers",
    "life workers 04",
    "life workers 4 ",
    "life workers 4 group",
    "life workers 4 workers 4",
    "life frames 8 workers -1",
    "log 1",
    "log ",
    "begin ",
    "force 1",
    "flush",
    "flush a",
    "flush 4294967296",
    "page",
    "page 1 2",
    "page 4294967296",
    "redo ",
    "redo 1",
    "redone",
    "checkpoint ",
    "checkpoint 1",
    "checkpoints",
    "Begin",
    "commit",
    "commit 01",
    "commit 1 1",
    "fetch 1",
    "fetch 1 ",
    "fetch 1 a b",
    "fetch 1 a+",
    "fetch 1 a*",
    "fetch 1 a+z",
    "fetch 1 a+zz*1",
    "fetch 1 a+z*1001",
    "fetch 1 a+z*01",
    "fetch 1 a+-*1",
    "fetch 18446744073709551616 a",
    "insert 1 a",
    "insert 1 a x",
    "insert 1 a 1 ",
    "delete a",
    "seek a",
    "seek 1 a b",
    "next 1",
    "prev 1",
    "prev a",
    "prev 1 a b",
    "prevs 1 a",
    "scan 1 a",
    "scan 1 a b",
    "scan 1 a b x",
    "scan 1 a b 01",
    "scan 1 a b 1 1",
    "scan 1 a+ b 1",
    "scan a b 1",
    "entries",
    "rollback",
    "rollback a",
    "continue 1 1",
    "continues 1",
];

// Whether a life's second line is named as bad.
fn is_bad<R: Threads + Sync>(rt: &R, alloc: Global, first: &str, line: &str) -> io::Result<bool> {
    let script = format!(in alloc; "{first}\n{line}\n")?;
    prints(rt, alloc, script.as_bytes(), b"refused 16 line 2\n", 1)
}

fn each_is_bad<R: Abort + Threads + Sync>(
    rt: &R,
    alloc: Global,
    first: &str,
    lines: &[&str],
) -> Result<(), Fail> {
    for line in lines {
        assert!(rt; is_bad(rt, alloc, first, line)?, "{line}");
    }
    Ok(())
}

fn each_is_refused<R: Abort + Threads + Sync>(
    rt: &R,
    alloc: Global,
    scripts: &[&str],
) -> Result<(), Fail> {
    for script in scripts {
        assert!(rt;
            prints(rt, alloc, script.as_bytes(), b"refused 16 line 1\n", 1)?,
            "{script}"
        );
    }
    Ok(())
}

#[test]
fn lines_that_the_grammar_lacks_are_refused(rt: HostRuntime) -> Result<(), Fail> {
    each_is_refused(&rt, rt.alloc(), &SCRIPTS)?;
    each_is_bad(&rt, rt.alloc(), "raw", &IN_RAW)
}

#[test]
fn a_life_takes_no_other_line(rt: HostRuntime) -> Result<(), Fail> {
    each_is_bad(&rt, rt.alloc(), "life", &IN_LIFE)
}
