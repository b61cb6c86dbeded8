//! What the lives of a script answer, over batches and of a store.

use crate::drilled::prints;
use std::alloc::Global;
use std::process::Abort;
use std::test::Fail;
use std::thread::Threads;

// Scripts of lives over the gate, with what they print and their exit statuses.
static RAW: [(&str, &str, u8); 8] = [
    (
        "raw\nput 6161\nstop 9 long 01\n",
        "open ok 6\nstopped\nfinal 1\n6161\n",
        0,
    ),
    (
        "raw\nput 6161\nstop 9 long 00\n",
        "open ok 6\nstopped\nfinal 0\n",
        0,
    ),
    ("raw\nputt 61\n", "refused 16 line 2\n", 1),
    (
        "raw\nput 61\ncalls\n\nraw\nput 62\ncalls",
        "open ok 6\nput ok\ncalls 10\nopen ok 0\nput ok\ncalls 4\nfinal 2\n61\n62\n",
        0,
    ),
    (
        "raw\nstop 5 long 00\nraw\n",
        "open stopped\nopen ok 4\nfinal 0\n",
        0,
    ),
    ("set log 01\nraw\n", "open ok 6\nfinal 0\n", 0),
    (
        "set pages 01\nraw\n",
        "open refused 11\nfinal refused 11\n",
        0,
    ),
    ("", "final 0\n", 0),
];

// Scripts of lives of a store, with the same.
static STORE: [(&str, &str, u8); 12] = [
    (
        "life\nbegin\ninsert 1 ab+z*2 1\ninsert 1 +z*3 18446744073709551615\nfetch 1 abzz\nfetch 1 zzz\ncommit 1\n",
        "open ok 6\nstarted 1\ninserted\ninserted\nfound 1\nfound 18446744073709551615\ncommitted\nfinal 2\n61627a7a 1\n7a7a7a 18446744073709551615\n",
        0,
    ),
    (
        "life\nbegin\ninsert 1 a 7\ndelete 1 a\ndelete 1 a\nfetch 1 a\ninsert 1 a 8\ninsert 1 a 9\ncommit 1\nlife\nbegin\nfetch 2 a\ndelete 2 a\ncommit 2\n",
        "open ok 6\nstarted 1\ninserted\ndeleted\nabsent\nabsent\ninserted\nduplicate\ncommitted\nopen ok 0\nstarted 2\nfound 8\ndeleted\ncommitted\nfinal 0\n",
        0,
    ),
    (
        "life\nbegin\ninsert 1 a 7\nlife\nbegin\nbegin\ncommit 2\ncommit 2\nstop end short written\n",
        "open ok 6\nstarted 1\ninserted\nopen ok 0\nstarted 1\nstarted 2\ncommitted\nrefused 1\nfinal 0\n",
        0,
    ),
    ("life\nstop 1 long 00\n", "open stopped\nfinal 0\n", 0),
    (
        "life frames 8\nbegin\ninsert 1 a 7\nforce\ncalls\nforce\ncalls\npage 0\npage 1\npage 4294967295\n",
        "open ok 6\nstarted 1\ninserted\ndone\ncalls 10\ndone\ncalls 10\npage 0 meta 0 0\npage 1 leaf 0 1\npage 4294967295 free 0 0\nfinal 0\n",
        0,
    ),
    (
        "life\nbegin\ninsert 1 a 7\nflush 9\ncalls\nflush 1\ncalls\nflush 1\ncalls\ncommit 1\nlife\ncalls\nlife frames 1025\n",
        "open ok 6\nstarted 1\ninserted\ndone\ncalls 6\ndone\ncalls 12\ndone\ncalls 12\ncommitted\nopen ok 0\ncalls 0\nopen refused 13\nfinal 1\n61 7\n",
        0,
    ),
    (
        "life\nbegin\ninsert 1 a 7\nforce\nlife\ncalls\nlife\ncalls\n",
        "open ok 6\nstarted 1\ninserted\ndone\nopen ok 4\ncalls 4\nopen ok 0\ncalls 0\nfinal 0\n",
        0,
    ),
    (
        "life\nbegin\ninsert 1 a 7\nforce\nlife\nstop 3 long 00\nlife\nstop 3 long 01\nlife\n",
        "open ok 6\nstarted 1\ninserted\ndone\nopen stopped\nopen stopped\nopen ok 0\nfinal 0\n",
        0,
    ),
    (
        "life\nbegin\ninsert 1 a 7\ncheckpoint\nrollback 1\ncheckpoint\ncontinue 1\nstop end short written\n",
        "open ok 6\nstarted 1\ninserted\ndone\nmore\ndone\nrolledback\nfinal 0\n",
        0,
    ),
    (
        "life\nredo\nbegin\ninsert 1 a 7\ncommit 1\nredo\nlife\nredo\nlife\nbegin\ninsert 2 b 8\nforce\nflush 1\nlife\nredo\n",
        "open ok 6\nredo 0 0\nstarted 1\ninserted\ncommitted\nredo 0 0\nopen ok 0\nredo 52 1\nopen ok 0\nstarted 2\ninserted\ndone\ndone\nopen ok 4\nredo 52 0\nfinal 1\n61 7\n",
        0,
    ),
    ("set log 00\nset log 01\n", "final 0\n", 0),
    (
        "set pages 00\nset log 00\nset pages 01\n",
        "final refused 11\n",
        0,
    ),
];

// The rows are lent: a proof about a function that names so long a table has all of it at each step.
fn each_prints<R: Abort + Threads + Sync>(
    rt: &R,
    alloc: Global,
    rows: &[(&str, &str, u8)],
) -> Result<(), Fail> {
    for (script, want, want_status) in rows {
        assert!(rt;
            prints(rt, alloc, script.as_bytes(), want.as_bytes(), *want_status)?,
            "{script}"
        );
    }
    Ok(())
}

#[test]
fn scripts_print_what_their_lives_answer(rt: HostRuntime) -> Result<(), Fail> {
    each_prints(&rt, rt.alloc(), &RAW)
}

#[test]
fn lives_of_a_store_print_their_replies(rt: HostRuntime) -> Result<(), Fail> {
    each_prints(&rt, rt.alloc(), &STORE)
}
