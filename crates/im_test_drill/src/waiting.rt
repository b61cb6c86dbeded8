//! Commits that wait for a force, and the end of the log.

use crate::drilled::each_prints_parts;
use crate::texts::Part;
use crate::texts::Part::{Each, Text};
use std::test::Fail;

// A key of 250 bytes comes and goes: two records of 292 bytes.
const COMES_AND_GOES: &str = "insert 1 +z*250 1\ndelete 1 +z*250\n";

// Scripts, with all that they print.
static WAITING: [(&str, &[Part], &[Part]); 13] = [
    // The buffer takes 16,384 bytes: 54 records of 292, two of 270, one of 43, and the Commit's 33.
    (
        "a_commit_that_just_fits_waits_in_the_buffer",
        &[
            Text("life group\nbegin\n"),
            Each(0, 27, COMES_AND_GOES),
            Text(
                "insert 1 +z*228 1\ndelete 1 +z*228\ninsert 1 a 7\ncommit 1\ncalls\nlog\nforce\ncalls\nlog\n",
            ),
        ],
        &[
            Text("open ok 6\nstarted 1\n"),
            Each(0, 28, "inserted\ndeleted\n"),
            Text("inserted\nmore\ncalls 6\nlog 48\ndone\ncalls 10\nlog 16437\nfinal 1\n61 7\n"),
        ],
    ),
    // Two bytes more: what is buffered is forced, and then the Commit waits.
    (
        "a_commit_that_does_not_fit_forces_first_and_waits",
        &[
            Text("life group\nbegin\n"),
            Each(0, 27, COMES_AND_GOES),
            Text(
                "insert 1 +z*229 1\ndelete 1 +z*229\ninsert 1 a 7\ncommit 1\ncalls\nlog\nfetch 1 a\nforce\ncalls\nlog\n",
            ),
        ],
        &[
            Text("open ok 6\nstarted 1\n"),
            Each(0, 28, "inserted\ndeleted\n"),
            Text(
                "inserted\nmore\ncalls 10\nlog 16406\nrefused 1\ndone\ncalls 14\nlog 16444\nfinal 1\n61 7\n",
            ),
        ],
    ),
    (
        "who_waits_behind_a_force_for_room_is_lost_before_the_next",
        &[
            Text("life group\nbegin\n"),
            Each(0, 27, COMES_AND_GOES),
            Text(
                "insert 1 +z*229 1\ndelete 1 +z*229\ninsert 1 a 7\ncommit 1\nstop end long written\n",
            ),
        ],
        &[
            Text("open ok 6\nstarted 1\n"),
            Each(0, 28, "inserted\ndeleted\n"),
            Text("inserted\nmore\nfinal 0\n"),
        ],
    ),
    (
        "a_checkpoint_makes_a_commit_durable_and_finishes_nobody",
        &[Text(
            "life group\nbegin\ninsert 1 a 1\ncommit 1\ncheckpoint\ncalls\ncommit 1\nforce\ncalls\ncommit 1\n",
        )],
        &[Text(
            "open ok 6\nstarted 1\ninserted\nmore\ndone\ncalls 11\nrefused 1\ndone\ncalls 11\nrefused 1\nfinal 1\n61 1\n",
        )],
    ),
    (
        "what_a_checkpoint_made_durable_is_there_behind_a_stop",
        &[Text("life group\nbegin\ninsert 1 a 1\ncommit 1\ncheckpoint\nstop end short 00\n")],
        &[Text("open ok 6\nstarted 1\ninserted\nmore\ndone\nfinal 1\n61 1\n")],
    ),
    (
        "who_waits_is_not_there_behind_a_stop",
        &[Text("life group\nbegin\ninsert 1 a 1\ncommit 1\nstop end long written\n")],
        &[Text("open ok 6\nstarted 1\ninserted\nmore\nfinal 0\n")],
    ),
    (
        "none_is_there_behind_a_failed_force",
        &[Text(
            "life fail 9 group\nbegin\nbegin\ninsert 1 a 1\ninsert 2 b 2\ncommit 1\ncommit 2\nforce\nforce\nbegin\nstop end long 00\n",
        )],
        &[Text(
            "open ok 6\nstarted 1\nstarted 2\ninserted\ninserted\nmore\nmore\nrefused 8\nrefused 10\nrefused 10\nfinal 0\n",
        )],
    ),
    (
        "or_all_are_there_behind_it",
        &[Text(
            "life fail 9 group\nbegin\nbegin\ninsert 1 a 1\ninsert 2 b 2\ncommit 1\ncommit 2\nforce\nforce\nbegin\nstop end long 01\n",
        )],
        &[Text(
            "open ok 6\nstarted 1\nstarted 2\ninserted\ninserted\nmore\nmore\nrefused 8\nrefused 10\nrefused 10\nfinal 2\n61 1\n62 2\n",
        )],
    ),
    (
        "sixty_four_may_wait_and_no_more_begin",
        &[
            Text("life group\n"),
            Each(1, 65, "begin\ninsert N DU N\ncommit N\n"),
            Text("begin\ncalls\nforce\ncalls\nbegin\n"),
        ],
        &[
            Text("open ok 6\n"),
            Each(1, 65, "started N\ninserted\nmore\n"),
            Text("refused 12\ncalls 6\ndone\ncalls 10\nstarted 65\nfinal 64\n"),
            Each(1, 65, "3D3U N\n"),
        ],
    ),
    (
        "who_waits_keeps_its_locks_and_takes_no_step",
        &[Text(
            "life group\nbegin\nbegin\nbegin\ninsert 2 a 2\ncommit 2\nfetch 1 a\nfetch 3 a\nrollback 2\ncontinue 2\ncommit 2\nfetch 2 a\nfetch 1 a\nforce\nfetch 1 a\nrollback 3\ncommit 1\n",
        )],
        &[Text(
            "open ok 6\nstarted 1\nstarted 2\nstarted 3\ninserted\nmore\nblocked lock 2\ndie\nrefused 1\nrefused 1\nrefused 1\nrefused 1\nblocked lock 2\ndone\nfound 2\nrolledback\ncommitted\nfinal 1\n61 2\n",
        )],
    ),
    (
        "a_commit_without_records_does_not_wait",
        &[Text(
            "life group\nbegin\nbegin\ninsert 1 a 1\ncommit 1\nfetch 2 b\ncommit 2\ncalls\nforce\n",
        )],
        &[Text(
            "open ok 6\nstarted 1\nstarted 2\ninserted\nmore\nabsent\ncommitted\ncalls 6\ndone\nfinal 1\n61 1\n",
        )],
    ),
    (
        "the_log_grows_by_a_batch_at_a_force",
        &[Text(
            "life\nlog\nbegin\ninsert 1 a 7\nlog\ncommit 1\nlog\nlife group\nlog\nbegin\ninsert 2 b 8\ncommit 2\nlog\nforce\nlog\n",
        )],
        &[Text(
            "open ok 6\nlog 48\nstarted 1\ninserted\nlog 48\ncommitted\nlog 129\nopen ok 0\nlog 129\nstarted 2\ninserted\nmore\nlog 129\ndone\nlog 210\nfinal 2\n61 7\n62 8\n",
        )],
    ),
    (
        "the_number_of_frames_stands_in_front_of_group",
        &[Text("life frames 7 group\nlife frames 8 group\nbegin\ninsert 1 a 1\ncommit 1\nforce\n")],
        &[Text("open refused 13\nopen ok 6\nstarted 1\ninserted\nmore\ndone\nfinal 1\n61 1\n")],
    ),
];

#[test]
fn commits_wait_for_a_force(rt: HostRuntime) -> Result<(), Fail> {
    each_prints_parts(&rt, rt.alloc(), &WAITING)
}
