//! Logs that go on in the other file: lives with a `switch` that are stopped everywhere, of new stores and of stores whose log is of the first format.

use crate::drilled::drilled;
use crate::texts::Part::{Each, Text};
use crate::texts::{Part, text_of};
use im_engine::BufferSize;
use im_tool_every::{Counts, Start, Stops, every_stop};
use im_tool_lines::StoreScript;
use std::alloc::{AllocError, Global};
use std::io;
use std::io::Write;
use std::process::Abort;
use std::test::Fail;
use std::thread::Threads;

// The key `a` with row id 7, in a log of the first format: its transaction, 1, is committed.
const FIRST: &str =
    "set log 014152494553494d3100001000000000000000000000000000000000000000010000004c0000002b01000000000000000100000000000000000000000000000000000000010161000000000000000700000021080000000000000001000000000000002400000000000000000000000000\n";

// Lives of new stores.
static NEW: [(&str, &[Part]); 4] = [
    (
        "a_switch_after_one_insert",
        &[Text("life\nbegin\ninsert 1 a 7\nswitch\ncommit 1\nswitch\n")],
    ),
    // After the first switch a leaf that fifteen keys fill is split, and the key that split it is taken back.
    (
        "a_split_and_a_rollback_after_a_switch",
        &[
            Text("life\nbegin\n"),
            Each(1, 16, "insert 1 DU+z*253 N\n"),
            Text(
                "commit 1\nswitch\nbegin\ninsert 2 16+z*253 16\nrollback 2\ncontinue 2\nbegin\ninsert 3 17+z*253 17\ncommit 3\n",
            ),
        ],
    ),
    // The second switch makes a log of a file that has an older one.
    (
        "a_second_switch",
        &[Text(
            "life\nbegin\ninsert 1 a 7\ncommit 1\nswitch\nbegin\ninsert 2 b 8\ncommit 2\nswitch\nbegin\ninsert 3 c 9\ncommit 3\n",
        )],
    ),
    // All pages of a tree of two levels have changed.
    (
        "a_switch_with_changed_pages_in_eight_frames",
        &[
            Text("life frames 8\nbegin\n"),
            Each(10, 25, "insert 1 DU+z*253 N\n"),
            Text("commit 1\nbegin\n"),
            Each(25, 40, "insert 2 DU+z*253 N\n"),
            Text("commit 2\nswitch\nbegin\ninsert 3 99+z*253 99\ncommit 3\n"),
        ],
    ),
];

// What comes of every stop of the one life of a script, and of every stop of the openings after.
fn stops<R: Threads + Sync>(rt: &R, alloc: Global, script: &[u8]) -> Result<Counts, AllocError> {
    let mut counts = Counts::default();
    let Ok(script) = StoreScript::parse(alloc, script) else {
        return Ok(counts);
    };
    let StoreScript {
        log: _log,
        pages: _pages,
        log2: _log2,
        mut lives,
    } = script;
    if let Some(mut life) = lives.pop() {
        counts = every_stop(
            rt,
            alloc,
            &Start::empty(alloc),
            &mut life,
            BufferSize::ONE,
            Stops::EachCall,
            &mut io::sink(),
        )?;
    }
    Ok(counts)
}

// The rows are lent: a proof about a function that names so long a table has all of it at each step.
fn each_is_good<R: Abort + Threads + Sync>(
    rt: &R,
    alloc: Global,
    rows: &[(&str, &[Part])],
) -> Result<(), Fail> {
    for (name, parts) in rows {
        let counts = stops(rt, alloc, &text_of(alloc, parts)?)?;
        assert!(rt;
            counts.stops >= 132 && counts.bad == 0,
            "{name}: {counts:?}"
        );
    }
    Ok(())
}

#[test]
fn every_stop_of_a_switch_is_good(rt: HostRuntime) -> Result<(), Fail> {
    each_is_good(&rt, rt.alloc(), &NEW)
}

// A life of a store that begins with that log: its options, its lines, and the entries that may be there in the end, from those that the log has to those of the last Commit.
struct Upgraded {
    name: &'static str,
    options: &'static str,
    lines: &'static [Part],
    states: &'static [&'static [Part]],
}

const A: Part = Text("61 7\n");

static UPGRADED: [Upgraded; 4] = [
    Upgraded {
        name: "a_switch_after_one_insert",
        options: "life\n",
        lines: &[Text("begin\ninsert 2 b 8\ncommit 2\nswitch\n")],
        states: &[
            &[Text("final 1\n"), A],
            &[Text("final 2\n"), A, Text("62 8\n")],
        ],
    },
    Upgraded {
        name: "a_split_and_a_rollback_after_a_switch",
        options: "life\n",
        lines: &[
            Text("begin\n"),
            Each(1, 16, "insert 2 DU+z*253 N\n"),
            Text(
                "commit 2\nswitch\nbegin\ninsert 3 16+z*253 16\nrollback 3\ncontinue 3\nbegin\ninsert 4 17+z*253 17\ncommit 4\n",
            ),
        ],
        states: &[
            &[Text("final 1\n"), A],
            &[Text("final 16\n"), Each(1, 16, "3D3UZ N\n"), A],
            &[
                Text("final 17\n"),
                Each(1, 16, "3D3UZ N\n"),
                Each(17, 18, "3D3UZ N\n"),
                A,
            ],
        ],
    },
    Upgraded {
        name: "a_second_switch",
        options: "life\n",
        lines: &[Text(
            "begin\ninsert 2 b 8\ncommit 2\nswitch\nbegin\ninsert 3 c 9\ncommit 3\nswitch\n",
        )],
        states: &[
            &[Text("final 1\n"), A],
            &[Text("final 2\n"), A, Text("62 8\n")],
            &[Text("final 3\n"), A, Text("62 8\n63 9\n")],
        ],
    },
    Upgraded {
        name: "a_switch_with_changed_pages_in_eight_frames",
        options: "life frames 8\n",
        lines: &[
            Text("begin\n"),
            Each(10, 25, "insert 2 DU+z*253 N\n"),
            Text("commit 2\nbegin\n"),
            Each(25, 40, "insert 3 DU+z*253 N\n"),
            Text("commit 3\nswitch\n"),
        ],
        states: &[
            &[Text("final 1\n"), A],
            &[Text("final 16\n"), Each(10, 25, "3D3UZ N\n"), A],
            &[Text("final 31\n"), Each(10, 40, "3D3UZ N\n"), A],
        ],
    },
];

// The lengths and fills of the stops of one device call.
const WAYS: [&str; 6] = [
    "long 00", "long 01", "long FF", "short 00", "short 01", "short FF",
];

// Of the stops of an opening after a stop, these alone are tried: no byte of the call is there, or each.
const FEW_WAYS: [&str; 2] = ["short 00", "long 01"];

// A life makes fewer device calls.
const MOST_CALLS: u64 = 1_000;

// How a script ended: how many of its stops came, and whether the entries are those of the Commits that were answered, or of the next one too.
#[derive(Clone, Copy)]
struct Ended {
    stops: usize,
    is_good: bool,
}

fn end_of<R: Threads + Sync>(
    rt: &R,
    alloc: Global,
    script: &[u8],
    states: &[Vec<u8>],
) -> io::Result<Ended> {
    let (status, printed) = drilled(rt, alloc, script)?;
    let mut stops = 0usize;
    let mut committed = 0usize;
    for line in printed.split(|byte| *byte == b'\n') {
        if line == b"stopped".as_slice() || line == b"open stopped".as_slice() {
            stops = stops.wrapping_add(1);
        }
        if line == b"committed".as_slice() {
            committed = committed.wrapping_add(1);
        }
    }
    let is_good = status == 0
        && states
            .iter()
            .skip(committed)
            .take(2)
            .any(|state| printed.ends_with(state));
    Ok(Ended { stops, is_good })
}

// A script, and a stop in its last life.
fn with_stop(alloc: Global, script: &[u8], call: u64, way: &str) -> io::Result<Vec<u8>> {
    let mut text = Vec::from_slice(alloc, script)?;
    writeln!(text, "stop {call} {way}")?;
    Ok(text)
}

// Stops a life within each of its device calls, and the opening after each.
fn every_upgrade<R: Threads + Sync>(
    rt: &R,
    alloc: Global,
    upgraded: &Upgraded,
) -> io::Result<Counts> {
    let script = script_of(alloc, upgraded)?;
    let states = states_of(alloc, upgraded.states)?;
    every_call(rt, alloc, &script, upgraded.options, &states)
}

fn script_of(alloc: Global, upgraded: &Upgraded) -> io::Result<Vec<u8>> {
    let mut script = Vec::from_slice(alloc, FIRST.as_bytes())?;
    script.extend_from_slice(upgraded.options.as_bytes())?;
    script.extend_from_slice(&text_of(alloc, upgraded.lines)?)?;
    Ok(script)
}

fn states_of(alloc: Global, states: &[&[Part]]) -> io::Result<Vec<Vec<u8>>> {
    let mut texts = Vec::new(alloc);
    for state in states {
        texts.push(text_of(alloc, state)?)?;
    }
    Ok(texts)
}

// Stops the life of a script within each of its device calls.
fn every_call<R: Threads + Sync>(
    rt: &R,
    alloc: Global,
    script: &[u8],
    options: &str,
    states: &[Vec<u8>],
) -> io::Result<Counts> {
    let mut counts = Counts::default();
    for call in 1..MOST_CALLS {
        if !each_way(rt, alloc, script, call, options, states, &mut counts)? {
            break;
        }
    }
    Ok(counts)
}

// Stops a life in one call, and answers whether it makes that call.
fn each_way<R: Threads + Sync>(
    rt: &R,
    alloc: Global,
    script: &[u8],
    call: u64,
    options: &str,
    states: &[Vec<u8>],
    counts: &mut Counts,
) -> io::Result<bool> {
    for way in WAYS {
        let mut text = with_stop(alloc, script, call, way)?;
        let ended = end_of(rt, alloc, &text, states)?;
        count(counts, &ended);
        if ended.stops == 0 {
            return Ok(false);
        }
        counts.stops = counts.stops.wrapping_add(1);
        text.extend_from_slice(options.as_bytes())?;
        each_restart(rt, alloc, &text, states, counts)?;
    }
    Ok(true)
}

// Stops the opening of the last life of a script within each of its device calls.
fn each_restart<R: Threads + Sync>(
    rt: &R,
    alloc: Global,
    script: &[u8],
    states: &[Vec<u8>],
    counts: &mut Counts,
) -> io::Result<()> {
    for call in 1..MOST_CALLS {
        for way in FEW_WAYS {
            let text = with_stop(alloc, script, call, way)?;
            let ended = end_of(rt, alloc, &text, states)?;
            count(counts, &ended);
            if ended.stops < 2 {
                return Ok(());
            }
            counts.restarts = counts.restarts.wrapping_add(1);
        }
    }
    Ok(())
}

fn count(counts: &mut Counts, ended: &Ended) {
    if !ended.is_good {
        counts.bad = counts.bad.wrapping_add(1);
    }
}

fn each_upgrade_is_good<R: Abort + Threads + Sync>(
    rt: &R,
    alloc: Global,
    rows: &[Upgraded],
) -> Result<(), Fail> {
    for upgraded in rows {
        let counts = every_upgrade(rt, alloc, upgraded)?;
        // The upgrade has thirteen calls, and a Commit and a switch ten at least.
        assert!(rt;
            counts.stops >= 6 * 23 && counts.restarts >= 2 * 6 * 13 && counts.bad == 0,
            "{}: {counts:?}",
            upgraded.name
        );
    }
    Ok(())
}

#[test]
fn every_stop_of_an_upgraded_store_is_good(rt: HostRuntime) -> Result<(), Fail> {
    each_upgrade_is_good(&rt, rt.alloc(), &UPGRADED)
}
