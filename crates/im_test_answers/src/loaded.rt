//! What a load tells of how far it is, and what it takes of the portable form.

use im_base_model_disk::ModelDisk;
use im_base_steps::Step;
use im_base_two_logs::Renamed;
use im_base_types::Fault;
use im_engine::Config;
use im_store::{Bounds, OpenStore};
use im_tool::{Entry, LoadCount, Loaded, NotLoaded, dump_text, load_rising, load_text};
use im_tool_files::{Causes, ProgressLine, Untold};
use im_tool_user::{EntryText, Form, Present, WhyBad};
use std::alloc::Global;
use std::io;
use std::io::{BufReader, Write};
use std::process::Abort;
use std::test::Fail;
use std::thread::Threads;
use std::time::Clock;

// Writes so many entries as a dump has them.
fn write_entries(text: &mut Vec<u8>, count: u32) -> io::Result<()> {
    writeln!(text, "imstore entries {count}")?;
    for n in 0..count {
        writeln!(text, "k{n} {n}")?;
    }
    Ok(())
}

// What a load of a text answers that finds these keys there, and what it tells of how far it is.
fn loaded<R: Threads + Clock + Sync>(
    rt: &R,
    alloc: Global,
    present: Present,
    text: &[u8],
    is_shown: bool,
) -> io::Result<(Loaded, Vec<u8>)> {
    let mut reader = BufReader::new(alloc, text)?;
    let mut progress = ProgressLine::new(Vec::new(alloc), is_shown, "entries", rt);
    let disk = ModelDisk::new(Vec::new(alloc), Vec::new(alloc));
    let mut causes = Causes {
        writer: Vec::new(alloc),
        dir: "",
        is_told: false,
    };
    let end = load_text(
        rt,
        alloc,
        Renamed::new(disk, false),
        Config::default(),
        Bounds::of_bytes(0, 0),
        present,
        &mut reader,
        &mut progress,
        &mut causes,
    )?;
    Ok((end, progress.into_writer()))
}

// So many entries put in, and no key that was there.
fn put(count: u64) -> LoadCount {
    LoadCount {
        put: count,
        skipped: 0,
        others: 0,
        replaced: 0,
    }
}

// How many entries are loaded, whether it is shown how far that is, and how what is told then begins and ends: the rate is the clock's.
static LOADS: [(u32, bool, &str, &str); 2] = [
    (
        1_003,
        true,
        "\r1000 of 1003 entries\x1b[K\r1003 of 1003 entries, ",
        " a second\x1b[K\n",
    ),
    (3, false, "", ""),
];

// Whether so many entries are loaded, and what is told of it begins and ends so, or is nothing where it is not shown.
fn tells<R: Threads + Clock + Sync>(
    rt: &R,
    alloc: Global,
    count: u32,
    is_shown: bool,
    begin: &str,
    end: &str,
) -> io::Result<bool> {
    let mut text = Vec::new(alloc);
    write_entries(&mut text, count)?;
    let (loaded, told) = loaded(rt, alloc, Present::Refused, &text, is_shown)?;
    Ok(
        loaded == Loaded::All(put(u64::from(count)))
            && told.starts_with(begin.as_bytes())
            && told.ends_with(end.as_bytes())
            && (is_shown || told.is_empty()),
    )
}

#[test]
fn a_load_tells_how_far_it_is(rt: HostRuntime) -> Result<(), Fail> {
    for (count, is_shown, begin, end) in &LOADS {
        assert!(rt;
            tells(&rt, rt.alloc(), *count, *is_shown, begin, end)?,
            "{count}"
        );
    }
    Ok(())
}

// Texts in the portable form, as LMDB and Berkeley DB dump them, and how their load ends.
static PORTABLE: [(&str, Loaded); 9] = [
    (
        "VERSION=3\nformat=bytevalue\ntype=btree\nmapsize=1048576\nmaxreaders=126\ndb_pagesize=4096\nHEADER=END\n 61\n 0000000000000007\n 62FF\n ffffffffffffffff\nDATA=END\n",
        Loaded::All(LoadCount {
            put: 2,
            skipped: 0,
            others: 0,
            replaced: 0,
        }),
    ),
    (
        "VERSION=3\nHEADER=END\nDATA=END\n",
        Loaded::All(LoadCount {
            put: 0,
            skipped: 0,
            others: 0,
            replaced: 0,
        }),
    ),
    (
        "VERSION=3\nformat=print\n",
        Loaded::BadLine(2, WhyBad::Head),
    ),
    ("VERSION=3\ntype=recno\n", Loaded::BadLine(2, WhyBad::Head)),
    (
        "VERSION=3\nHEADER=END\n 61\n 07000000\n",
        Loaded::BadLine(4, WhyBad::OtherRid),
    ),
    (
        "VERSION=3\nHEADER=END\n61\n 0000000000000007\n",
        Loaded::BadLine(3, WhyBad::NoDigits),
    ),
    (
        "VERSION=3\nHEADER=END\n 61\n 0000000000000007\n",
        Loaded::BadLine(5, WhyBad::Ended),
    ),
    (
        "VERSION=3\nHEADER=END\n 61\n 0000000000000007\n 61\n 0000000000000008\nDATA=END\n",
        Loaded::Duplicate(5),
    ),
    (
        "VERSION=3\nHEADER=END\n 61\n 0000000000000007\nDATA=END\nVERSION=3\n",
        Loaded::BadLine(6, WhyBad::More),
    ),
];

// Whether the load of a text ends so.
fn ends<R: Threads + Clock + Sync>(
    rt: &R,
    alloc: Global,
    present: Present,
    text: &str,
    want: &Loaded,
) -> io::Result<bool> {
    let (end, _told) = loaded(rt, alloc, present, text.as_bytes(), false)?;
    Ok(end == *want)
}

// What becomes of a key that stands twice in a text, once with the same row id and once with another.
static TWICE: [(Present, Loaded); 3] = [
    (Present::Refused, Loaded::Duplicate(3)),
    (
        Present::Skipped,
        Loaded::All(LoadCount {
            put: 1,
            skipped: 2,
            others: 1,
            replaced: 0,
        }),
    ),
    (
        Present::Replaced,
        Loaded::All(LoadCount {
            put: 1,
            skipped: 0,
            others: 0,
            replaced: 2,
        }),
    ),
];

#[test]
fn keys_that_are_there_are_left_or_replaced(rt: HostRuntime) -> Result<(), Fail> {
    for (present, want) in &TWICE {
        assert!(rt;
            ends(
                &rt,
                rt.alloc(),
                *present,
                "imstore entries 3\na 7\na 7\na 8\n",
                want
            )?,
            "{present:?}"
        );
    }
    Ok(())
}

// The texts are lent: a proof about a function that names so long a table has all of it at each step.
fn each_ends<R: Abort + Threads + Clock + Sync>(
    rt: &R,
    alloc: Global,
    rows: &[(&str, Loaded)],
) -> Result<(), Fail> {
    for (text, want) in rows {
        assert!(rt; ends(rt, alloc, Present::Refused, text, want)?, "{text}");
    }
    Ok(())
}

// Texts in the own form, and how their load ends: one that was cut within its last number is refused.
static OWN: [(&str, Loaded); 9] = [
    (
        "imstore entries 1\na 12\nimstore end 1\n",
        Loaded::All(LoadCount {
            put: 1,
            skipped: 0,
            others: 0,
            replaced: 0,
        }),
    ),
    (
        "imstore entries 1\na 12\nimstore end 1",
        Loaded::All(LoadCount {
            put: 1,
            skipped: 0,
            others: 0,
            replaced: 0,
        }),
    ),
    (
        "imstore entries 1\na 12\n",
        Loaded::All(LoadCount {
            put: 1,
            skipped: 0,
            others: 0,
            replaced: 0,
        }),
    ),
    (
        "imstore entries 0\nimstore end 0\n",
        Loaded::All(LoadCount {
            put: 0,
            skipped: 0,
            others: 0,
            replaced: 0,
        }),
    ),
    ("imstore entries 1\na 1", Loaded::BadLine(2, WhyBad::Ended)),
    (
        "imstore entries 1\na 12\nimstore en",
        Loaded::BadLine(3, WhyBad::OtherEnd),
    ),
    (
        "imstore entries 1\na 12\nimstore end ",
        Loaded::BadLine(3, WhyBad::OtherEnd),
    ),
    (
        "imstore entries 1\na 12\nimstore end 2\n",
        Loaded::BadLine(3, WhyBad::OtherEnd),
    ),
    (
        "imstore entries 1\na 12\nb 13\n",
        Loaded::BadLine(3, WhyBad::OtherEnd),
    ),
];

#[test]
fn a_load_takes_the_own_form(rt: HostRuntime) -> Result<(), Fail> {
    each_ends(&rt, rt.alloc(), &OWN)
}

#[test]
fn a_load_takes_the_portable_form(rt: HostRuntime) -> Result<(), Fail> {
    each_ends(&rt, rt.alloc(), &PORTABLE)
}

// Texts, and what a load of rising keys makes of them: how many entries it takes, and the line of the first that it does not; or how it ends.
static RISING: [(&str, Present, Result<(u64, Option<u64>), Loaded>); 8] = [
    (
        "imstore entries 3\na 7\nb 8\nba 9\nimstore end 3\n",
        Present::Refused,
        Ok((3, None)),
    ),
    (
        "VERSION=3\nHEADER=END\n 61\n 0000000000000007\n 62\n 0000000000000008\nDATA=END\n",
        Present::Skipped,
        Ok((2, None)),
    ),
    ("imstore entries 0\n", Present::Refused, Ok((0, None))),
    (
        "imstore entries 3\na 7\nc 8\nb 9\n",
        Present::Refused,
        Ok((2, Some(4))),
    ),
    (
        "imstore entries 2\na 7\na 8\n",
        Present::Replaced,
        Ok((1, Some(3))),
    ),
    (
        "imstore entries 2\na 7\na 8\n",
        Present::Refused,
        Err(Loaded::Duplicate(3)),
    ),
    (
        "imstore entries 2\na 7\n",
        Present::Refused,
        Err(Loaded::BadLine(3, WhyBad::Ended)),
    ),
    (
        "imstore entries 1\n\"\" 7\n",
        Present::Refused,
        Err(Loaded::Refused(2, Fault::KeyLength)),
    ),
];

// The line of an entry.
fn line_of(entry: Option<Entry>) -> Option<u64> {
    match entry {
        Some((_key, _rid, line)) => Some(line),
        None => None,
    }
}

// What a load of rising keys makes of a text, over a disk without bytes.
fn risen(
    alloc: Global,
    present: Present,
    text: &str,
) -> io::Result<Result<(u64, Option<u64>), Loaded>> {
    let mut reader = BufReader::new(alloc, text.as_bytes())?;
    let mut disk = ModelDisk::new(Vec::new(alloc), Vec::new(alloc));
    let mut text = EntryText::new(alloc);
    let made = load_rising(
        alloc,
        &mut disk,
        100,
        present,
        &mut text,
        &mut reader,
        &mut Untold,
    );
    match made {
        Ok(risen) => Ok(Ok((risen.count, line_of(risen.next)))),
        Err(NotLoaded::Ended(loaded)) => Ok(Err(loaded)),
        Err(NotLoaded::Input(error)) => Err(error),
    }
}

#[test]
fn rising_keys_are_loaded(rt: HostRuntime) -> Result<(), Fail> {
    for (text, present, want) in &RISING {
        assert!(rt; risen(rt.alloc(), *present, text)? == *want, "{text}");
    }
    Ok(())
}

// What a dump of a store of one entry prints, in a form.
fn dumped<R: Threads + Sync>(rt: &R, alloc: Global, form: Form) -> Result<Vec<u8>, Fail> {
    let disk = ModelDisk::new(Vec::new(alloc), Vec::new(alloc));
    match OpenStore::open(
        rt,
        alloc,
        Renamed::new(disk, false),
        Config::default(),
        Bounds::of_bytes(0, 0),
    ) {
        Ok(mut store) => {
            let text = dumped_entry(alloc, &mut store, form);
            let _disk = store.into_disk();
            text
        }
        Err((fault, _disk)) => Err(Fail::from(fault)),
    }
}

// Puts the entry in.
fn put_entry(alloc: Global, store: &mut OpenStore<Renamed<ModelDisk>>) -> Result<(), Fail> {
    let _begun = store.step(&Step::Begin);
    let _inserted = store.step(&Step::Insert(1, Vec::from_slice(alloc, b"a b")?, 255));
    let _committed = store.step(&Step::Commit(1));
    Ok(())
}

// Puts the entry in, and dumps it.
fn dumped_entry(
    alloc: Global,
    store: &mut OpenStore<Renamed<ModelDisk>>,
    form: Form,
) -> Result<Vec<u8>, Fail> {
    put_entry(alloc, store)?;
    let mut text = Vec::new(alloc);
    let refused = dump_text(alloc, store, &mut text, form, &mut Untold)?;
    if refused.is_some() {
        text.clear();
    }
    Ok(text)
}

static DUMPS: [(Form, &str); 2] = [
    (Form::Own, "imstore entries 1\n\"a b\" 255\nimstore end 1\n"),
    (
        Form::Portable,
        "VERSION=3\nformat=bytevalue\ntype=btree\nHEADER=END\n 612062\n 00000000000000ff\nDATA=END\n",
    ),
];

#[test]
fn a_dump_has_two_forms(rt: HostRuntime) -> Result<(), Fail> {
    for (form, want) in &DUMPS {
        let text = dumped(&rt, rt.alloc(), *form)?;
        assert!(rt; text.as_slice() == want.as_bytes(), "{want}");
    }
    Ok(())
}
