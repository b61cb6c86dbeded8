//! Trees that grow and shrink: keys of 255 bytes, of which a leaf takes fifteen, and a thousand transactions.

use crate::drilled::drilled;
use crate::texts::Part::{Each, Scattered, Text};
use crate::texts::{Part, text_of};
use std::alloc::Global;
use std::io;
use std::io::Write;
use std::process::Abort;
use std::test::Fail;
use std::thread::Threads;

// What is printed is this, begins so, or ends so.
#[derive(Clone, Copy)]
enum Prints {
    All(&'static [Part]),
    First(&'static [Part]),
    Last(&'static [Part]),
}

// Keys of two digits with `z` after them: they are put in, or taken out, and stand there in the end.
const PUT: &str = "insert 1 DU+z*253 N\n";

const TAKE: &str = "delete 1 DU+z*253\n";

const LEFT: &str = "3D3UZ N\n";

// Fifteen keys fill page 1, and then a loser puts one in front of each: leaves split under both.
const INSERTED_BY_A_LOSER: [Part; 5] = [
    Text("life\nbegin\n"),
    Each(1, 16, PUT),
    Text("commit 1\nbegin\n"),
    Each(1, 16, "insert 2 DU+y*253 N\n"),
    Text("force\n"),
];

// Sixteen keys stand in two leaves, and a loser deletes them all: the leaves go out of the tree.
const DELETED_BY_A_LOSER: [Part; 5] = [
    Text("life\nbegin\n"),
    Each(1, 17, PUT),
    Text("commit 1\nbegin\n"),
    Each(1, 17, "delete 2 DU+z*253\n"),
    Text("force\n"),
];

const SIXTEEN: [Part; 2] = [Text("final 16\n"), Each(1, 17, LEFT)];

const THOUSAND: &str = "begin\ninsert N MHDU N\ncommit N\n";

const THOUSAND_LEFT: &str = "3M3H3D3U N\n";

static ROWS: [(&str, &[Part], Prints); 9] = [
    (
        "the_root_leaf_splits",
        &[
            Text("life\nbegin\n"),
            Each(1, 17, PUT),
            Text("commit 1\ncalls\npage 1\npage 2\npage 3\n"),
        ],
        Prints::All(&[
            Text("open ok 6\nstarted 1\n"),
            Each(1, 17, "inserted\n"),
            Text(
                "committed\ncalls 22\npage 1 inner 1 1\npage 2 leaf 0 7\npage 3 leaf 0 9\nfinal 16\n",
            ),
            Each(1, 17, LEFT),
        ]),
    ),
    (
        "leaves_are_emptied_and_freed",
        &[
            Text("life\nbegin\n"),
            Each(1, 17, PUT),
            Each(1, 8, TAKE),
            Text("page 1\npage 2\npage 3\n"),
            Each(8, 17, TAKE),
            Text("commit 1\npage 1\npage 2\npage 3\n"),
        ],
        Prints::All(&[
            Text("open ok 6\nstarted 1\n"),
            Each(1, 17, "inserted\n"),
            Each(1, 8, "deleted\n"),
            Text("page 1 inner 1 0\npage 2 free 0 0\npage 3 leaf 0 9\n"),
            Each(8, 17, "deleted\n"),
            Text("committed\npage 1 leaf 0 0\npage 2 free 0 0\npage 3 free 0 0\nfinal 0\n"),
        ]),
    ),
    // An insert that would split past the limit is refused, and the life goes on. With one page more it splits.
    (
        "an_insert_past_the_limit_is_refused",
        &[
            Text("life max 3\nbegin\n"),
            Each(1, 17, PUT),
            Text(
                "commit 1\npage 1\nlife frames 8 max 4\nbegin\ninsert 2 b 1\ninsert 2 c+c*254 2\npage 1\npage 4\n",
            ),
        ],
        Prints::All(&[
            Text("open ok 6\nstarted 1\n"),
            Each(1, 16, "inserted\n"),
            Text(
                "refused 5\ncommitted\npage 1 leaf 0 15\nopen ok 0\nstarted 2\ninserted\ninserted\npage 1 inner 1 1\npage 4 free 0 0\nfinal 15\n",
            ),
            Each(1, 16, LEFT),
        ]),
    ),
    // Keys in scattered order: inner pages split too.
    (
        "inner_pages_split",
        &[
            Text("life\n"),
            Scattered("begin\n", "insert T HDU+z*252 N\n", "commit T\n"),
            Text("page 1\npage 2\npage 3\npage 4\npage 5\npage 20\npage 30\n"),
        ],
        Prints::First(&[
            Text("open ok 6\n"),
            Scattered("started T\n", "inserted\n", "committed\n"),
            Text(
                "page 1 inner 2 1\npage 2 leaf 0 8\npage 3 leaf 0 10\npage 4 leaf 0 8\npage 5 leaf 0 7\npage 20 inner 1 13\npage 30 leaf 0 9\nfinal 300\n",
            ),
        ]),
    ),
    (
        "keys_of_a_loser_are_taken_back_behind_splits",
        &INSERTED_BY_A_LOSER,
        Prints::Last(&[Text("final 15\n"), Each(1, 16, LEFT)]),
    ),
    (
        "keys_that_a_loser_deleted_come_back",
        &DELETED_BY_A_LOSER,
        Prints::Last(&SIXTEEN),
    ),
    (
        "a_loser_behind_a_thousand_transactions_is_undone",
        &[
            Text("life\n"),
            Each(1, 1001, THOUSAND),
            Text("begin\ninsert 1001 x 1\nforce\nlife\n"),
        ],
        Prints::All(&[
            Text("open ok 6\n"),
            Each(1, 1001, "started N\ninserted\ncommitted\n"),
            Text("started 1001\ninserted\ndone\nopen ok 4\nfinal 1000\n"),
            Each(1, 1001, THOUSAND_LEFT),
        ]),
    ),
    (
        "eight_frames_redo_a_thousand_transactions",
        &[
            Text("life\n"),
            Each(1, 1001, THOUSAND),
            Text("begin\ninsert 1001 x 1\nforce\nlife frames 8\n"),
        ],
        Prints::Last(&[Text("final 1000\n"), Each(1, 1001, THOUSAND_LEFT)]),
    ),
    (
        "four_workers_and_eight_frames_redo_a_thousand_transactions",
        &[
            Text("life\n"),
            Each(1, 1001, THOUSAND),
            Text("begin\ninsert 1001 x 1\nforce\nlife frames 8 workers 4\n"),
        ],
        Prints::Last(&[Text("final 1000\n"), Each(1, 1001, THOUSAND_LEFT)]),
    ),
];

// Whether a script prints so, with status 0.
fn prints_so<R: Threads + Sync>(
    rt: &R,
    alloc: Global,
    script: &[u8],
    so: Prints,
) -> io::Result<bool> {
    let (Prints::All(parts) | Prints::First(parts) | Prints::Last(parts)) = so;
    let want = text_of(alloc, parts)?;
    let (status, printed) = drilled(rt, alloc, script)?;
    Ok(status == 0 && is_so(&printed, so, &want))
}

fn is_so(printed: &[u8], so: Prints, want: &[u8]) -> bool {
    match so {
        Prints::All(_) => printed == want,
        Prints::First(_) => printed.starts_with(want),
        Prints::Last(_) => printed.ends_with(want),
    }
}

#[test]
fn trees_grow_and_shrink(rt: HostRuntime) -> Result<(), Fail> {
    each_prints_so(&rt, rt.alloc(), &ROWS)
}

fn each_prints_so<R: Abort + Threads + Sync>(
    rt: &R,
    alloc: Global,
    rows: &[(&str, &[Part], Prints)],
) -> Result<(), Fail> {
    for (name, parts, so) in rows {
        assert!(rt;
            prints_so(rt, alloc, &text_of(alloc, parts)?, *so)?,
            "{name}"
        );
    }
    Ok(())
}

// An opening that takes a loser back is stopped within each of its first calls, and the next one has the same in the end.
#[test]
fn an_opening_that_splits_may_be_stopped(rt: HostRuntime) -> Result<(), Fail> {
    each_stop(&rt, rt.alloc(), &DELETED_BY_A_LOSER, Prints::Last(&SIXTEEN))
}

fn each_stop<R: Abort + Threads + Sync>(
    rt: &R,
    alloc: Global,
    parts: &[Part],
    so: Prints,
) -> Result<(), Fail> {
    for call in 1..17u32 {
        let script = stopped(alloc, parts, call)?;
        assert!(rt; prints_so(rt, alloc, &script, so)?, "{call}");
    }
    Ok(())
}

// A script, and an opening after it that is stopped within this call.
fn stopped(alloc: Global, parts: &[Part], call: u32) -> io::Result<Vec<u8>> {
    let mut script = text_of(alloc, parts)?;
    writeln!(script, "life frames 8\nstop {call} long 00")?;
    Ok(script)
}
