//! What a store answers to lines, on the model disk and in a folder.

ghost use Rattle.std.specs.Prelude.{◌≡◌, false};
ghost use Rattle.im_base_disk.specs.Runs.{IsSynced};

use im_base_disk::Disk;
use im_base_model_disk::ModelDisk;
use im_base_two_logs::Renamed;
use im_base_types::Fault;
use im_engine::Config;
use im_files_disk::FileDisk;
use im_store::Bounds;
use im_tool::{NoCopies, StoreEnd, store_text};
use im_tool_files::{Cause, Causes, Ending, Opening};
use im_tool_user::Manner;
use std::alloc::Global;
use std::io::BufReader;
use std::process::Abort;
use std::test::Fail;
use std::thread::Threads;
use std::{fs, io};

// Lines on the model disk, and what is answered.
struct Run {
    name: &'static str,
    log: &'static [u8],
    // The device call that fails, from 1; with 0 none does.
    fails: u64,
    // How much an opening may have to redo, in bytes; with 0 any.
    bound: u64,
    manner: Manner,
    lines: &'static str,
    end: StoreEnd,
    printed: &'static str,
}

const BY_NUMBERS: Manner = Manner {
    has_words: false,
    has_prompt: false,
    is_batch: false,
    is_read: false,
};

const IN_WORDS: Manner = Manner {
    has_words: true,
    has_prompt: false,
    is_batch: false,
    is_read: false,
};

const AS_BATCH: Manner = Manner {
    has_words: false,
    has_prompt: false,
    is_batch: true,
    is_read: false,
};

const TO_READ: Manner = Manner {
    has_words: true,
    has_prompt: false,
    is_batch: false,
    is_read: true,
};

static RUNS: [Run; 12] = [
    Run {
        name: "a store answers each line",
        log: b"",
        fails: 0,
        bound: 0,
        manner: BY_NUMBERS,
        lines: "begin\r\n\ninsert 1 a 7\ninsert 1 a 8\nfetch 1 a\nfetch 1 b\ndelete 1 b\ncalls\nredo\ninsert 1 b 1\ndelete 1 b\ncommit 2\ncommit 1\nentries",
        end: StoreEnd::Input,
        printed: "started 1\ninserted\nduplicate\nfound 7\nabsent\nabsent\nrefused 16\nredo 0 0\ninserted\ndeleted\nrefused 1\ncommitted\ntotal 1\n61 7\n",
    },
    Run {
        name: "a log of another file is no store",
        log: b"\x01A",
        fails: 0,
        bound: 0,
        manner: BY_NUMBERS,
        lines: "entries",
        end: StoreEnd::RefusedOpening(Fault::NotAStore),
        printed: "open refused 11\n",
    },
    Run {
        name: "a store answers in words",
        log: b"",
        fails: 0,
        bound: 0,
        manner: IN_WORDS,
        lines: "begin\ninsert 1 x'6100ff' 1\ninsert 1 \"b c\" 2\ninsert 1 x'' 3\ninsert 1 x'6 3\ninsert 1 \"b+c\" 3\nfetch 1 x'622063'\ncommit 2\nseek 1 x'61'\nscan 1 x'61' \"b c\" 9\nnext 1 \"b c\"\nnext 1 c\nprev 1 \"b+c\"\nprev 1 x'61'\nprev 1 x''\nentries\n",
        end: StoreEnd::Input,
        printed: "started 1\ninserted\ninserted\nrefused 3: a key has 1 to 255 bytes\nrefused 16: a bad line: KEY is not written so in `insert N KEY ROWID`, `help KEY` says how\ninserted\nfound 2\nrefused 1: no active transaction of that number\nentry x'6100ff' 1\nentries x'6100ff' 1 \"b c\" 2\nentry \"b+c\" 3\nend\nentry \"b c\" 2\nend\nrefused 3: a key has 1 to 255 bytes\ntotal 3\nx'6100ff' 1\n\"b c\" 2\n\"b+c\" 3\n",
    },
    Run {
        name: "help on a word, nothing right after a quoted key, and quit",
        log: b"",
        fails: 0,
        bound: 0,
        manner: IN_WORDS,
        lines: "help die\nhelp force\nhelp di\nbegin\nfetch 1 \"a b\"c\nfetch 1 x'61'62\nfetch 1 \"é\"\nscan 1 \"a\" \"b\"c 9\nquit\nbegin\n",
        end: StoreEnd::Input,
        printed: "Nothing was done: an older transaction is in the way. `rollback N`, `continue N` while there is `more`, and begin again. `rollto N COUNT` goes on without this step.\nforce                    makes the log durable\nA commit does that by itself.\nrefused 16: a bad line: `help` has no such word, alone it has all lines\nstarted 1\nrefused 16: a bad line: KEY is not written so in `fetch N KEY`, `help KEY` says how\nrefused 16: a bad line: KEY is not written so in `fetch N KEY`, `help KEY` says how\nabsent\nrefused 16: a bad line: KEY is not written so in `scan N KEY KEY LIMIT`, `help KEY` says how\n",
    },
    Run {
        name: "a store that is only read refuses changes, and goes on",
        log: b"",
        fails: 0,
        bound: 0,
        manner: TO_READ,
        lines: "begin\ninsert 1 a 7\nfetch 1 a\ndelete 1 a\ncheckpoint\nswitch\nforce\nflush 1\nnext 1 a\ncopy x\ncommit 1\n",
        end: StoreEnd::Input,
        printed: "started 1\nrefused 110: the store is only read\nabsent\nrefused 110: the store is only read\nrefused 110: the store is only read\nrefused 110: the store is only read\nrefused 110: the store is only read\nrefused 110: the store is only read\nend\nrefused 16: a bad line: FOLDER names no folder in `copy FOLDER`\ncommitted\n",
    },
    Run {
        name: "a batch ends at a refused line",
        log: b"",
        fails: 0,
        bound: 0,
        manner: AS_BATCH,
        lines: "begin\ncommit 2\ncommit 1\n",
        end: StoreEnd::RefusedLine,
        printed: "started 1\nrefused 1\n",
    },
    // A creation makes six device calls, and the commit four: the eleventh is the first of the close.
    Run {
        name: "a refused close is told",
        log: b"",
        fails: 11,
        bound: 16_777_216,
        manner: BY_NUMBERS,
        lines: "begin\ninsert 1 a 7\ncommit 1\n",
        end: StoreEnd::RefusedClose(Fault::Device),
        printed: "started 1\ninserted\ncommitted\nclose refused 8\n",
    },
    Run {
        name: "without a bound the files are brought to the disk there",
        log: b"",
        fails: 11,
        bound: 0,
        manner: BY_NUMBERS,
        lines: "begin\ninsert 1 a 7\ncommit 1\n",
        end: StoreEnd::RefusedClose(Fault::Device),
        printed: "started 1\ninserted\ncommitted\nclose refused 8\n",
    },
    // Each of the three files is synced, by one call.
    Run {
        name: "and nothing else is done",
        log: b"",
        fails: 14,
        bound: 0,
        manner: BY_NUMBERS,
        lines: "begin\ninsert 1 a 7\ncommit 1\n",
        end: StoreEnd::Input,
        printed: "started 1\ninserted\ncommitted\n",
    },
    Run {
        name: "a Checkpoint in between is told after the reply to the step that it follows, and what comes after it is refused too",
        log: b"",
        fails: 11,
        bound: 4_096,
        manner: BY_NUMBERS,
        lines: "begin\ncommit 1\nbegin\ninsert 2 a 7\ncommit 2\nbegin\n",
        end: StoreEnd::Input,
        printed: "started 1\ncommitted\nstarted 2\ninserted\ncheckpoint refused 8\nrefused 10\nrefused 10\n",
    },
    Run {
        name: "it is told once, and not after lines without a step",
        log: b"",
        fails: 11,
        bound: 4_096,
        manner: BY_NUMBERS,
        lines: "begin\ncommit 1\nbegin\ninsert 2 a 7\nredo\nhelp\n",
        end: StoreEnd::Input,
        printed: "started 1\ncommitted\nstarted 2\ninserted\ncheckpoint refused 8\nredo 0 0\nrefused 16\n",
    },
    Run {
        name: "a batch ends where a Checkpoint is refused",
        log: b"",
        fails: 11,
        bound: 4_096,
        manner: AS_BATCH,
        lines: "begin\ncommit 1\nbegin\ninsert 2 a 7\nredo\n",
        end: StoreEnd::RefusedLine,
        printed: "started 1\ncommitted\nstarted 2\ninserted\ncheckpoint refused 8\n",
    },
];

// Lines for daily use, and the words of bad ones.
static DAILY: [Run; 8] = [
    Run {
        name: "a savepoint has a name until its transaction returns to before it, or ends",
        log: b"",
        fails: 0,
        bound: 0,
        manner: BY_NUMBERS,
        lines: "begin\nsavepoint 1 a\ninsert 1 x 1\nsavepoint . b-2\ninsert 1 y 2\nsavepoint 1 c\ninsert 1 z 3\nrollto 1 c\ncontinue 1\nrollto 1 b-2\nrollto 1 a\nsavepoint 1 d\ncontinue 1\nrollto 1 c\nrollto 1 d\nrollto 1 b-2\ninsert 1 y 4\nsavepoint 1 b-2\nrollto 1 b-2\nbegin\nrollto . a\nsavepoint 2 a\ncommit 1\nrollto 1 a\nsavepoint 1 a\nrollto . a\nsavepoint 2\nsavepoint . 7a\nsavepoint 2 aaaaaaaaaaaaaaaaaaaaaaaaaaaaaaaaa\nsavepoint 2 aaaaaaaaaaaaaaaaaaaaaaaaaaaaaaaa\nsavepoint x a\nrollto 2 a b\nrollback 2\nrollto . a\nentries",
        end: StoreEnd::Input,
        printed: "started 1\nsavepoint 0\ninserted\nsavepoint 1\ninserted\nsavepoint 2\ninserted\nmore\ndone\nmore\nrefused 4\nsavepoint 2\ndone\nrefused 16\nrefused 16\ndone\ninserted\nsavepoint 2\ndone\nstarted 2\nrefused 16: a bad line: the transaction has no savepoint of that name\nsavepoint 0\ncommitted\nrefused 1\nrefused 1\ndone\nrefused 16\nrefused 16: a bad line: NAME begins with a letter, and has 1 to 32 printable bytes in `savepoint N NAME`\nrefused 16\nsavepoint 0\nrefused 16\nrefused 16\nrolledback\nrefused 1: no active transaction of that number\ntotal 2\n78 1\n79 4\n",
    },
    Run {
        name: "a part of a transaction is taken back, and it goes on",
        log: b"",
        fails: 0,
        bound: 0,
        manner: BY_NUMBERS,
        lines: "begin\nchanges 1\ninsert 1 a 7\ninsert 1 b 8\ninsert 1 b 9\ndelete 1 a\nchanges .\nrollto 1 4\nrollto 1 1\nfetch 1 a\ncommit 1\nrollback 1\ncontinue 1\ncontinue 1\nchanges 1\nfetch 1 b\ncontinue 1\ninsert 1 c 9\nrollto . 0\ncontinue .\ncontinue .\nchanges 1\ncommit 1\nchanges 1\nrollto 1 0\nchanges\nchanges x\nchanges 1 2\nrollto 1\nentries",
        end: StoreEnd::Input,
        printed: "started 1\nchanges 0\ninserted\ninserted\nduplicate\ndeleted\nchanges 3\ndone\nmore\nrefused 4\nrefused 4\nrefused 4\nmore\ndone\nchanges 1\nabsent\nrefused 1\ninserted\nmore\nmore\ndone\nchanges 0\ncommitted\nrefused 1\nrefused 1\nrefused 16\nrefused 16\nrefused 16\nrefused 16\ntotal 0\n",
    },
    Run {
        name: "lines that are a transaction by themselves are in words",
        log: b"",
        fails: 0,
        bound: 0,
        manner: BY_NUMBERS,
        lines: "put apple 7\nget apple\nput apple 8\nget apple\nget \"a b\"\nput x'6100' 1\nlist\nlist b\nlist x'61' apple\nlist \"b\" a\ndel apple\ndel apple\nlist\nentries\n",
        end: StoreEnd::Input,
        printed: "committed\n7\ncommitted\n8\nabsent\ncommitted\ntotal 2\nx'6100' 1\napple 8\ntotal 0\ntotal 2\nx'6100' 1\napple 8\ntotal 0\ncommitted\nabsent\ntotal 1\nx'6100' 1\ntotal 1\n6100 1\n",
    },
    Run {
        name: "a point names the transaction begun last, and what is active is in the way of a line by itself",
        log: b"",
        fails: 0,
        bound: 0,
        manner: BY_NUMBERS,
        lines: "insert . a 1\nbegin\ninsert . \"a b\" 1\nfetch . x'612062'\nfetch . \"a b\"\nput c 1\nput \"a b\" 2\nget \"a b\"\nlist\nlist b\ncommit .\ncommit .\nget \"a b\"\nbegin\nput d 1\nrollback .\n",
        end: StoreEnd::Input,
        printed: "refused 1: no transaction was begun last, of which `.` would be the number\nstarted 1\ninserted\nfound 1\nfound 1\ncommitted\nrefused 15: an active transaction has a lock on that: commit it, or roll it back, and ask again\nrefused 15: an active transaction has a lock on that: commit it, or roll it back, and ask again\nrefused 15: an active transaction has a lock on that: commit it, or roll it back, and ask again\ntotal 1\nc 1\ncommitted\nrefused 1: no active transaction of that number\n1\nstarted 8\ncommitted\nrolledback\n",
    },
    Run {
        name: "such lines in a store that is only read",
        log: b"",
        fails: 0,
        bound: 0,
        manner: TO_READ,
        lines: "put a 1\nget a\ndel a\nlist\nbegin\nfetch . a\ninsert . a 1\ncommit .\n",
        end: StoreEnd::Input,
        printed: "refused 110: the store is only read\nabsent\nrefused 110: the store is only read\ntotal 0\nstarted 3\nabsent\nrefused 110: the store is only read\ncommitted\n",
    },
    Run {
        name: "why such lines are bad",
        log: b"",
        fails: 0,
        bound: 0,
        manner: BY_NUMBERS,
        lines: "put a\nput a 18446744073709551616\nput \"\" 1\nput a 007\nget\nget a b\nlist a b c\ndel é\nfetch . \ncommit . 1\nflush .\n",
        end: StoreEnd::Input,
        printed: "refused 16: a bad line: ROWID is missing in `put KEY ROWID`\nrefused 16: a bad line: ROWID is no number that may stand in `put KEY ROWID`\nrefused 3: a key has 1 to 255 bytes\nrefused 16: a bad line: ROWID is no number that may stand in `put KEY ROWID`\nrefused 16: a bad line: KEY is missing in `get KEY`\nrefused 16: a bad line: nothing may follow `get KEY`\nrefused 16: a bad line: nothing may follow `list [LO [HI]]`\nrefused 16: a bad line: KEY has other bytes than printable ASCII in `del KEY`, which stand in quotation marks, or as x'6100'\nrefused 16: a bad line: KEY is not written so in `fetch N KEY`, `help KEY` says how\nrefused 16: a bad line: nothing may follow `commit N`\nrefused 16\n",
    },
    Run {
        name: "why other lines are bad",
        log: b"",
        fails: 0,
        bound: 0,
        manner: IN_WORDS,
        lines: "insert 2 a 007\nflush 4294967296\ninsert 2 é 1\nexit\n# a\n\x1b[A\nfetch x a\n",
        end: StoreEnd::Input,
        printed: "refused 16: a bad line: ROWID is no number that may stand in `insert N KEY ROWID`\nrefused 16: a bad line: PAGE is no number that may stand in `flush PAGE`\nrefused 16: a bad line: KEY has other bytes than printable ASCII in `insert N KEY ROWID`, which stand in quotation marks, or as x'6100'\nrefused 16: a bad line: no line begins so, `quit` ends the program, as the end of the input does\nrefused 16: a bad line: lines have no comments\nrefused 16: a bad line: lines are not edited here, `rlwrap imstore` gives arrow keys and a history\nrefused 16: a bad line: N is no number that may stand in `fetch N KEY`\n",
    },
    // A creation makes six device calls: the seventh is the first of the Checkpoint that is due after the insert.
    Run {
        name: "a Checkpoint that is refused between the steps of a line is told after it",
        log: b"",
        fails: 7,
        bound: 4_096,
        manner: BY_NUMBERS,
        lines: "put a 7\nget a\n",
        end: StoreEnd::Input,
        printed: "refused 10: the store has failed: open it again\ncheckpoint refused 8: a call of the disk failed\nrefused 10: the store has failed: open it again\n",
    },
];

// What a store on a disk answers to these lines, and how the run ended.
fn answers<D: Disk + Cause + Opening + Ending + Drop, R: Threads + Sync>(
    rt: &R,
    alloc: Global,
    disk: D,
    bound: u64,
    manner: Manner,
    lines: &str,
) -> io::Result<(StoreEnd, Vec<u8>)>
    requires working { D.failed disk ≡ false }
    requires synced { IsSynced D.Disk disk }
{
    let mut reader = BufReader::new(alloc, lines.as_bytes())?;
    let mut printed = Vec::new(alloc);
    let mut causes = Causes {
        writer: Vec::new(alloc),
        dir: "",
        is_told: false,
    };
    let end = store_text(
        rt,
        alloc,
        Renamed::new(disk, false),
        Config::default(),
        Bounds::of_bytes(bound, 0),
        manner,
        &mut reader,
        &mut printed,
        &mut causes,
        &mut NoCopies,
    )?;
    Ok((end, printed))
}

// Whether a run ends and answers as it says.
fn is_so<R: Threads + Sync>(rt: &R, alloc: Global, run: &Run) -> io::Result<bool> {
    let log = Vec::from_slice(alloc, run.log)?;
    let mut disk = ModelDisk::new(log, Vec::new(alloc));
    disk.fail_call(run.fails);
    let (end, printed) = answers(rt, alloc, disk, run.bound, run.manner, run.lines)?;
    Ok(end == run.end && printed.as_slice() == run.printed.as_bytes())
}

// The runs are lent: a proof about a function that names so long a table has all of it at each step.
fn each_is_so<R: Abort + Threads + Sync>(rt: &R, alloc: Global, runs: &[Run]) -> Result<(), Fail> {
    for run in runs {
        assert!(rt; is_so(rt, alloc, run)?, "{}", run.name);
    }
    Ok(())
}

#[test]
fn a_store_answers_its_lines(rt: HostRuntime) -> Result<(), Fail> {
    each_is_so(&rt, rt.alloc(), &RUNS)
}

#[test]
fn a_store_answers_lines_for_daily_use(rt: HostRuntime) -> Result<(), Fail> {
    each_is_so(&rt, rt.alloc(), &DAILY)
}

// What a store in a folder answers to these lines, and how the run ended.
fn kept<R: Threads + Sync>(
    rt: &HostRuntime,
    threads: &R,
    folder: &str,
    bound: u64,
    lines: &str,
) -> Result<(StoreEnd, Vec<u8>), Fail> {
    let disk = FileDisk::open(rt, folder)?;
    Ok(answers(threads, rt.alloc(), disk, bound, BY_NUMBERS, lines)?)
}

// Whether a store in a folder comes to the input's end, and answers this and no more to these lines.
fn keeps<R: Threads + Sync>(
    rt: &HostRuntime,
    threads: &R,
    folder: &str,
    bound: u64,
    lines: &str,
    want: &str,
) -> Result<bool, Fail> {
    let (end, printed) = kept(rt, threads, folder, bound, lines)?;
    Ok(end == StoreEnd::Input && printed.as_slice() == want.as_bytes())
}

// Lines in turn for one folder, and what is answered.
static KEPT: [(&str, &str); 2] = [
    (
        "begin\ninsert 1 a 7\ncommit 1\nbegin\ninsert 2 b 8\n",
        "started 1\ninserted\ncommitted\nstarted 2\ninserted\n",
    ),
    ("entries\n", "total 1\n61 7\n"),
];

#[test]
fn a_store_in_a_folder_keeps_its_keys(rt: HostRuntime) -> Result<(), Fail> {
    let _ = fs::remove_dir_all(&rt, "im_tool_kept");
    for (lines, want) in &KEPT {
        assert!(rt; keeps(&rt, &rt, "im_tool_kept", 0, lines, want)?, "{lines}");
    }
    fs::remove_dir_all(&rt, "im_tool_kept")?;
    Ok(())
}

const THREE: &str = "begin\ninsert 1 a 7\ninsert 1 b 8\ninsert 1 c 9\ncommit 1\nredo\n";

// Whether the store in the folder comes to the input's end, and what it answers to these lines begins and ends so.
fn is_kept<R: Threads + Sync>(
    rt: &HostRuntime,
    threads: &R,
    bound: u64,
    lines: &str,
    first: &str,
    last: &str,
) -> Result<bool, Fail> {
    let (end, printed) = kept(rt, threads, "im_tool_closed", bound, lines)?;
    Ok(
        end == StoreEnd::Input
            && printed.starts_with(first.as_bytes())
            && printed.ends_with(last.as_bytes()),
    )
}

// Both files of the store in the folder.
fn files(rt: &HostRuntime) -> io::Result<(Vec<u8>, Vec<u8>)> {
    let log = fs::read(rt, "im_tool_closed/log")?;
    let pages = fs::read(rt, "im_tool_closed/pages")?;
    Ok((log, pages))
}

fn has_three<R: Threads + Sync>(rt: &HostRuntime, threads: &R, bound: u64) -> Result<bool, Fail> {
    let want = "total 3\n61 7\n62 8\n63 9\n";
    keeps(rt, threads, "im_tool_closed", bound, "entries\n", want)
}

// Whether one more opening and close find the three entries, and leave the files as they are.
fn is_left<R: Threads + Sync>(rt: &HostRuntime, threads: &R, bound: u64) -> Result<bool, Fail> {
    let left = files(rt)?;
    Ok(has_three(rt, threads, bound)? && files(rt)? == left)
}

// Whether a store with that bound has so much to redo once it was closed.
fn has_to_redo<R: Threads + Sync>(
    rt: &HostRuntime,
    threads: &R,
    bound: u64,
    want: &str,
) -> Result<bool, Fail> {
    let _ = fs::remove_dir_all(rt, "im_tool_closed");
    Ok(
        is_kept(rt, threads, bound, THREE, "", "committed\nredo 0 0\n")?
            && is_kept(rt, threads, bound, "redo\n", "redo ", want)?
            && is_left(rt, threads, bound)?,
    )
}

// Three inserts are redone where nothing bounds that, and none after a close.
#[test]
fn a_closed_store_has_nothing_to_redo(rt: HostRuntime) -> Result<(), Fail> {
    assert!(rt; has_to_redo(&rt, &rt, 0, "redo 52 3\n")?);
    assert!(rt; has_to_redo(&rt, &rt, 16_777_216, " 0\n")?);
    fs::remove_dir_all(&rt, "im_tool_closed")?;
    Ok(())
}
