//! Openings after a loser, each stopped within each of its device calls, scripts whose life is stopped everywhere, and lives in
//! which each device call fails once, and each read.

use crate::texts::Part::{Each, Text};
use crate::texts::{Part, text_of};
use im_engine::BufferSize;
use im_tool_every::{
    Counts, Start, Stops, Sweep, every_failure, every_restart, every_text, sweep_text,
};
use im_tool_lines::StoreScript;
use std::alloc::{AllocError, Global};
use std::io;
use std::process::Abort;
use std::test::Fail;
use std::thread::Threads;

static LOSERS: [(&str, &[Part]); 2] = [
    // The committed keys stand in sixteen leaves under a full root; the loser splits a leaf and the root above it.
    (
        "a_loser_behind_splits_of_two_levels_is_taken_back",
        &[
            Text("life frames 8\nbegin\n"),
            Each(100, 225, "insert 1 HDU+z*252 N\n"),
            Text("commit 1\nbegin\n"),
            Each(225, 245, "insert 2 HDU+z*252 N\n"),
            Text("force\n"),
        ],
    ),
    // The loser empties the leaves of a tree but one, and they go out of it.
    (
        "a_loser_behind_page_deletions_is_taken_back",
        &[
            Text("life frames 8\nbegin\n"),
            Each(100, 140, "insert 1 HDU+z*252 N\n"),
            Text("commit 1\nbegin\n"),
            Each(100, 135, "delete 2 HDU+z*252\n"),
            Text("force\n"),
        ],
    ),
];

// What comes of every stop of the opening after the one life of a script.
fn restarts<R: Threads + Sync>(rt: &R, alloc: Global, script: &[u8]) -> Result<Counts, AllocError> {
    let mut counts = Counts::default();
    let Ok(script) = StoreScript::parse(alloc, script) else {
        return Ok(counts);
    };
    for life in &script.lives {
        every_restart(
            rt,
            alloc,
            life,
            BufferSize::ONE,
            Stops::EachCall,
            &mut counts,
        )?;
    }
    Ok(counts)
}

// The rows are lent, here and below: a proof about a function that names so long a table has all of it at each step.
fn each_is_taken_back<R: Abort + Threads + Sync>(
    rt: &R,
    alloc: Global,
    rows: &[(&str, &[Part])],
) -> Result<(), Fail> {
    for (name, parts) in rows {
        let counts = restarts(rt, alloc, &text_of(alloc, parts)?)?;
        assert!(rt;
            counts.restarts >= 60 && counts.bad == 0,
            "{name}: {counts:?}"
        );
    }
    Ok(())
}

#[test]
fn losers_are_taken_back(rt: HostRuntime) -> Result<(), Fail> {
    each_is_taken_back(&rt, rt.alloc(), &LOSERS)
}

static EVERY: [(&str, &str, &str, u8); 6] = [
    (
        "every_stop_counted",
        "life\nbegin\ninsert 1 a 7\ncommit 1\ncalls\n",
        "stops 60 restarts 984 bad 0\n",
        0,
    ),
    (
        "every_stop_of_a_life_with_workers_counted",
        "life workers 4\nbegin\ninsert 1 a 7\ncommit 1\ncalls\n",
        "stops 60 restarts 984 bad 0\n",
        0,
    ),
    (
        "a_life_without_workers_makes_no_call",
        "life workers 0\n",
        "stops 0 restarts 0 bad 0\n",
        0,
    ),
    (
        "every_stop_wants_one_life",
        "life\nlife\n",
        "script not single\n",
        1,
    ),
    (
        "every_stop_wants_no_stop",
        "life\nstop 1 long 00\n",
        "script not single\n",
        1,
    ),
    (
        "bad_line_is_named",
        "life\nbegin 1\n",
        "refused 16 line 2\n",
        1,
    ),
];

// Whether every stop of a script prints this and no more, with this exit status.
fn prints_every<R: Threads + Sync>(
    rt: &R,
    alloc: Global,
    script: &str,
    want: &str,
    want_status: u8,
) -> io::Result<bool> {
    let mut printed = Vec::new(alloc);
    let mut reader = script.as_bytes();
    let status = every_text(
        rt,
        alloc,
        BufferSize::ONE,
        &mut reader,
        &mut printed,
        &mut io::sink(),
    )?;
    Ok(status == want_status && printed.as_slice() == want.as_bytes())
}

fn each_prints_every<R: Abort + Threads + Sync>(
    rt: &R,
    alloc: Global,
    rows: &[(&str, &str, &str, u8)],
) -> Result<(), Fail> {
    for (name, script, want, want_status) in rows {
        assert!(rt;
            prints_every(rt, alloc, script, want, *want_status)?,
            "{name}"
        );
    }
    Ok(())
}

#[test]
fn every_stop_prints_its_counts(rt: HostRuntime) -> Result<(), Fail> {
    each_prints_every(&rt, rt.alloc(), &EVERY)
}

// Two Commits wait, and one force commits both.
const SHARED: &str =
    "life group\nbegin\nbegin\ninsert 1 a 1\ninsert 2 b 2\ncommit 1\ncommit 2\ncommit 1\nforce\n";

// That force writes what the force of one Commit does, in as many calls, so there are as many stops.
#[test]
fn every_stop_of_a_shared_force_prints_its_counts(rt: HostRuntime) -> Result<(), Fail> {
    let want = "stops 60 restarts 984 bad 0\n";
    assert!(rt; prints_every(&rt, rt.alloc(), SHARED, want, 0)?);
    Ok(())
}

// The second flush logs no full copy of the page: one that is torn then is made anew of the copy that the first flush logged, and the records since.
const LEFT_OUT: &str = "life\nbegin\ninsert 1 a 7\nflush 1\ninsert 1 b 8\nflush 1\n";

// The life makes 17 device calls.
#[test]
fn every_stop_of_a_copy_left_out_prints_its_counts(rt: HostRuntime) -> Result<(), Fail> {
    let want = "stops 102 restarts 2088 bad 0\n";
    assert!(rt; prints_every(&rt, rt.alloc(), LEFT_OUT, want, 0)?);
    Ok(())
}

static FAILURES: [(&str, &[Part]); 3] = [
    (
        "a_failure_within_one_insert_is_told",
        &[Text("life\nbegin\ninsert 1 a 7\ncommit 1\nbegin\ndelete 2 a\nflush 1\nforce\n")],
    ),
    (
        "a_failure_while_commits_wait_is_told",
        &[Text(
            "life group\nbegin\nbegin\ninsert 1 a 1\ninsert 2 b 2\ncommit 1\nlog\nflush 1\ncommit 2\nforce\nlog\nbegin\nfetch 3 b\n",
        )],
    ),
    // The root splits, and a leaf goes out of the tree.
    (
        "a_failure_within_structure_changes_is_told",
        &[
            Text("life\nbegin\n"),
            Each(100, 116, "insert 1 HDU+z*252 N\n"),
            Text("commit 1\nbegin\n"),
            Each(100, 107, "delete 2 HDU+z*252\n"),
            Text("commit 2\n"),
        ],
    ),
];

// What comes of each failure within the one life of a script.
fn failures<R: Threads + Sync>(rt: &R, alloc: Global, script: &[u8]) -> Result<Counts, AllocError> {
    let Ok(script) = StoreScript::parse(alloc, script) else {
        return Ok(Counts::default());
    };
    let StoreScript {
        log: _log,
        pages: _pages,
        log2: _log2,
        mut lives,
    } = script;
    match lives.pop() {
        Some(mut life) => {
            every_failure(rt, alloc, &Start::empty(alloc), &mut life, BufferSize::ONE)
        }
        None => Ok(Counts::default()),
    }
}

fn each_is_told<R: Abort + Threads + Sync>(
    rt: &R,
    alloc: Global,
    rows: &[(&str, &[Part])],
) -> Result<(), Fail> {
    for (name, parts) in rows {
        let counts = failures(rt, alloc, &text_of(alloc, parts)?)?;
        assert!(rt; counts.stops >= 96 && counts.bad == 0, "{name}: {counts:?}");
    }
    Ok(())
}

#[test]
fn failures_are_told(rt: HostRuntime) -> Result<(), Fail> {
    each_is_told(&rt, rt.alloc(), &FAILURES)
}

// A key `a` with row id 7 in a log of the first format, which an opening switches.
const FIRST: &str =
    "set log 014152494553494d3100001000000000000000000000000000000000000000010000004c0000002b01000000000000000100000000000000000000000000000000000000010161000000000000000700000021080000000000000001000000000000002400000000000000000000000000\n";

// Whether the calls of a script are stopped or fail, and whether that is done in settings.
#[derive(Clone, Copy)]
enum How {
    Stopped,
    Failing,
    InSettings,
    FailingInSettings,
}

// A name, a script, how it is swept, what is printed, and the status. The first life has 10 device calls, so
// there are 8 stops within each and 8 at the end; it has 10 reads, so there are 6 failures of each of the 20, and 6 lives without.
static SWEPT: [(&str, &str, How, &str, u8); 6] = [
    (
        "a_setting_that_is_named",
        "life frames 8 group workers 4\nbegin\ninsert 1 a 7\ncommit 1\nforce\n",
        How::InSettings,
        "frames 8 group workers 4 buffer 4 stops 88 restarts 2368 bad 0\n",
        0,
    ),
    (
        "lives_before_are_made_as_they_stand",
        "life\nbegin\ninsert 1 a 7\ncommit 1\nlife workers 1\nbegin\nstop end long 00\nlife\n",
        How::Stopped,
        "stops 8 restarts 64 bad 0\n",
        0,
    ),
    (
        "each_call_fails",
        "life\nbegin\ninsert 1 a 7\ncommit 1\n",
        How::Failing,
        "failures 126 restarts 684 bad 0\n",
        0,
    ),
    (
        "the_last_life_has_no_stop",
        "life\nstop 1 long 00\n",
        How::Stopped,
        "script not single\n",
        1,
    ),
    (
        "files_that_are_no_store",
        "set log 0141\nlife\n",
        How::InSettings,
        "open refused 11\n",
        1,
    ),
    (
        "bad_line_is_named",
        "life\nfoo\n",
        How::FailingInSettings,
        "refused 16 line 2\n",
        1,
    ),
];

// What a sweep prints, with a buffer of 4 where there are settings, and its exit status.
fn swept<R: Threads + Sync>(
    rt: &R,
    alloc: Global,
    script: &[u8],
    how: How,
) -> io::Result<(u8, Vec<u8>)> {
    let fails = matches!(how, How::Failing | How::FailingInSettings);
    let in_settings = matches!(how, How::InSettings | How::FailingInSettings);
    let sweep = Sweep {
        fails,
        in_settings,
        buffer: if in_settings {
            BufferSize::new(4)
        } else {
            None
        },
    };
    let mut printed = Vec::new(alloc);
    let mut reader = script;
    let status = sweep_text(rt, alloc, sweep, &mut reader, &mut printed, &mut io::sink())?;
    Ok((status, printed))
}

// Whether a sweep prints this and no more, with this exit status.
fn prints_swept<R: Threads + Sync>(
    rt: &R,
    alloc: Global,
    script: &str,
    how: How,
    want: &str,
    want_status: u8,
) -> io::Result<bool> {
    let (status, printed) = swept(rt, alloc, script.as_bytes(), how)?;
    Ok(status == want_status && printed.as_slice() == want.as_bytes())
}

fn each_prints_swept<R: Abort + Threads + Sync>(
    rt: &R,
    alloc: Global,
    rows: &[(&str, &str, How, &str, u8)],
) -> Result<(), Fail> {
    for (name, script, how, want, want_status) in rows {
        assert!(rt;
            prints_swept(rt, alloc, script, *how, want, *want_status)?,
            "{name}"
        );
    }
    Ok(())
}

#[test]
fn sweeps_print_their_counts(rt: HostRuntime) -> Result<(), Fail> {
    each_prints_swept(&rt, rt.alloc(), &SWEPT)
}

// A store of the first format, and a life.
fn of_first_format(alloc: Global) -> io::Result<Vec<u8>> {
    let mut script = Vec::from_slice(alloc, FIRST.as_bytes())?;
    script.extend_from_slice(b"life\nbegin\ninsert 2 b 8\ncommit 2\n")?;
    Ok(script)
}

// The upgrade's calls are stopped, and those of the life after it.
#[test]
fn a_store_of_the_first_format_is_swept(rt: HostRuntime) -> Result<(), Fail> {
    let script = of_first_format(rt.alloc())?;
    let (status, printed) = swept(&rt, rt.alloc(), &script, How::Stopped)?;
    assert!(rt; status == 0 && printed.ends_with(b"bad 0\n") && !printed.starts_with(b"stops 0 "));
    Ok(())
}
