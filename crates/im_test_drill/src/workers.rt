//! Lives whose openings share redo among workers: scripts with what they print.

use crate::drilled::each_prints_parts;
use crate::texts::Part;
use crate::texts::Part::{Each, Text};
use std::test::Fail;

// Fifteen keys of 255 bytes are committed, and a loser splits their leaf.
const BEGUN: Part = Text("life workers 4\nbegin\n");

const PUT: Part = Each(1, 16, "insert 1 DU+z*253 N\n");

const SPLIT: Part = Text("commit 1\nbegin\ninsert 2 a 1\ninsert 2 16+z*253 16\nstop 15 long 00\n");

// What is there in the end.
const LEFT: Part = Each(1, 16, "3D3UZ N\n");

static SHARED: [(&str, &[Part], &[Part]); 8] = [
    (
        "no_workers_refused",
        &[Text("life workers 0\n")],
        &[Text("open refused 18\nfinal 0\n")],
    ),
    (
        "seventeen_workers_refused",
        &[Text("life workers 17\nlife workers 16\n")],
        &[Text("open refused 18\nopen ok 6\nfinal 0\n")],
    ),
    (
        "frames_are_looked_at_before_workers",
        &[Text("life frames 7 workers 0\nlife frames 8 workers 0\n")],
        &[Text("open refused 13\nopen refused 18\nfinal 0\n")],
    ),
    (
        "the_number_of_workers_stands_behind_group",
        &[Text("life group workers 2\nbegin\ninsert 1 a 1\ncommit 1\nforce\n")],
        &[Text("open ok 6\nstarted 1\ninserted\nmore\ndone\nfinal 1\n61 1\n")],
    ),
    (
        "eight_frames_and_sixteen_workers",
        &[
            Text("life\nbegin\n"),
            Each(1, 17, "insert 1 DU+z*253 N\n"),
            Text("commit 1\nlife frames 8 workers 16\n"),
        ],
        &[
            Text("open ok 6\nstarted 1\n"),
            Each(1, 17, "inserted\n"),
            Text("committed\nopen ok 0\nfinal 16\n"),
            Each(1, 17, "3D3UZ N\n"),
        ],
    ),
    (
        "torn_page_restored_by_workers",
        &[Text(
            "life workers 4\nbegin\ninsert 1 a 7\ncommit 1\nbegin\ninsert 2 x 9\nflush 1\nstop 16 long FF\n",
        )],
        &[Text(
            "open ok 6\nstarted 1\ninserted\ncommitted\nstarted 2\ninserted\nstopped\nfinal 1\n61 7\n",
        )],
    ),
    (
        "restart_by_workers_stopped_before_force",
        &[
            BEGUN,
            PUT,
            SPLIT,
            Text("life workers 4\nstop 3 short 4D\nlife workers 4\n"),
        ],
        &[
            Text("open ok 6\nstarted 1\n"),
            Each(1, 16, "inserted\n"),
            Text("committed\nstarted 2\ninserted\nstopped\nopen stopped\nopen ok 4\nfinal 15\n"),
            LEFT,
        ],
    ),
    (
        "restart_by_workers_stopped_after_gate",
        &[
            BEGUN,
            PUT,
            SPLIT,
            Text("life workers 4\nstop 3 short 01\nlife workers 4\n"),
        ],
        &[
            Text("open ok 6\nstarted 1\n"),
            Each(1, 16, "inserted\n"),
            Text("committed\nstarted 2\ninserted\nstopped\nopen stopped\nopen ok 0\nfinal 15\n"),
            LEFT,
        ],
    ),
];

#[test]
fn workers_share_redo(rt: HostRuntime) -> Result<(), Fail> {
    each_prints_parts(&rt, rt.alloc(), &SHARED)
}
