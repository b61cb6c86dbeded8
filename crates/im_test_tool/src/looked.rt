//! A look at a store whose opening takes pages, and at one that a stop left with an empty leaf.

ghost use Rattle.std.specs.Prelude.{◌≡◌, false};

use crate::copies::{
    Copies, FIRST_GATE, Scratch, copied, copies_of, is_whole, said_of, scratch, taken_from,
};
use im_base_disk::Disk;
use im_base_steps::{Reply, Step};
use im_base_two_logs::Renamed;
use im_base_types::{Fault, LONGEST_KEY};
use im_engine::{Config, Engine};
use im_files_disk::FileDisk;
use im_files_scratch_disk::ScratchDisk;
use im_store::Bounds;
use im_tool::{NoCopies, stat_text, store_text};
use im_tool_files::{Causes, Untold};
use im_tool_user::Manner;
use std::alloc::{AllocError, Global};
use std::io::BufReader;
use std::process::Abort;
use std::test::Fail;
use std::thread::Threads;
use std::{fs, io};

// Fifteen keys of 255 bytes fill the root; one of them is deleted, another transaction takes its room, and the first never ends.
static GOING: &str = "begin
insert 1 01+z*253 1
insert 1 02+z*253 2
insert 1 03+z*253 3
insert 1 04+z*253 4
insert 1 05+z*253 5
insert 1 06+z*253 6
insert 1 07+z*253 7
insert 1 08+z*253 8
insert 1 09+z*253 9
insert 1 10+z*253 10
insert 1 11+z*253 11
insert 1 12+z*253 12
insert 1 13+z*253 13
insert 1 14+z*253 14
insert 1 15+z*253 15
commit 1
begin
delete 2 15+z*253
begin
insert 3 00+z*253 0
commit 3
";

// What is printed of lines, and what of calls that fail.
pub(crate) fn answered<R: Threads + Sync>(
    rt: &R,
    alloc: Global,
    disk: FileDisk,
    bounds: Bounds,
    manner: Manner,
    lines: &[u8],
) -> io::Result<(Vec<u8>, Vec<u8>)>
    requires working { ⟦<FileDisk as Disk>⟧.failed disk ≡ false }
{
    let mut reader = BufReader::new(alloc, lines)?;
    let mut printed = Vec::new(alloc);
    let mut causes = Causes {
        writer: Vec::new(alloc),
        dir: "folder",
        is_told: false,
    };
    let _end = store_text(
        rt,
        alloc,
        Renamed::new(disk, false),
        Config::default(),
        bounds,
        manner,
        &mut reader,
        &mut printed,
        &mut causes,
        &mut NoCopies,
    )?;
    Ok((printed, causes.writer))
}

// Makes the steps of these lines in the store of a folder, within these bounds.
pub(crate) fn fill_within<R: Threads + Sync>(
    rt: &HostRuntime,
    threads: &R,
    folder: &str,
    bounds: Bounds,
    lines: &[u8],
) -> Result<(), Fail> {
    let disk = FileDisk::open(rt, folder)?;
    let _told = answered(threads, rt.alloc(), disk, bounds, Manner::default(), lines)?;
    Ok(())
}

// A manner in which a line that is refused ends the run, and the store is not closed.
const BATCH: Manner = Manner {
    has_words: false,
    has_prompt: false,
    is_batch: true,
    is_read: false,
};

// Makes the steps of these lines in the store of a folder, without bounds, and leaves it as a stop does: the last line is none.
pub(crate) fn leave<R: Threads + Sync>(
    rt: &HostRuntime,
    threads: &R,
    folder: &str,
    lines: &[u8],
) -> Result<(), Fail> {
    let disk = FileDisk::open(rt, folder)?;
    let mut all = Vec::from_slice(rt.alloc(), lines)?;
    all.extend_from_slice(b"stop\n")?;
    let _told = answered(
        threads,
        rt.alloc(),
        disk,
        Bounds::of_bytes(0, 0),
        BATCH,
        &all,
    )?;
    Ok(())
}

// The same without bounds.
pub(crate) fn fill<R: Threads + Sync>(
    rt: &HostRuntime,
    threads: &R,
    folder: &str,
    lines: &[u8],
) -> Result<(), Fail> {
    fill_within(rt, threads, folder, Bounds::of_bytes(0, 0), lines)
}

// The files of the store that these lines make in a new folder, which goes again.
pub(crate) fn made_by<R: Threads + Sync>(
    rt: &HostRuntime,
    threads: &R,
    folder: &str,
    lines: &str,
) -> Result<Copies, Fail> {
    let _ = fs::remove_dir_all(rt, folder);
    fill(rt, threads, folder, lines.as_bytes())?;
    taken_from(rt, folder)
}

// The numbers of a store, with the status, which is 255 where they could not be written.
pub(crate) fn numbers_of<R: Threads + Sync>(
    rt: &R,
    alloc: Global,
    copies: &Copies,
) -> Result<(u8, Vec<u8>), Fault> {
    let disk = scratch(alloc, copies)?;
    let mut printed = Vec::new(alloc);
    let (status, _disk) = stat_text(rt, alloc, &mut printed, disk, false, &mut Untold);
    Ok((status.unwrap_or(u8::MAX), printed))
}

fn has_two_leaves<R: Threads + Sync>(
    rt: &R,
    alloc: Global,
    copies: &Copies,
) -> Result<bool, Fault> {
    let (status, printed) = numbers_of(rt, alloc, copies)?;
    Ok(status == 0 && printed.starts_with(b"entries 16\nheight 2\nleaves 2\nleaf_fill_percent "))
}

fn has_empty_leaf<R: Threads + Sync>(
    rt: &R,
    alloc: Global,
    copies: &Copies,
) -> Result<bool, Fault> {
    let (_status, printed) = numbers_of(rt, alloc, copies)?;
    Ok(
        printed
            .as_slice()
            .windows(16)
            .any(|line| line == b"\nempty_leaves 1\n".as_slice()),
    )
}

// The key comes back in a leaf that lacks room for it: the opening splits the root, and takes pages 2 and 3.
#[test]
fn pages_that_the_opening_takes_are_known(rt: HostRuntime) -> Result<(), Fail> {
    let copies = made_by(&rt, &rt, "im_tool_looked", GOING)?;
    assert!(rt; is_whole(&rt, rt.alloc(), &copies)? && has_two_leaves(&rt, rt.alloc(), &copies)?);
    Ok(())
}

// Seven keys are committed; nine more split the root, and are taken back one by one, which leaves the second leaf empty.
static EMPTYING: &str = "begin
insert 1 01+z*253 1
insert 1 02+z*253 2
insert 1 03+z*253 3
insert 1 04+z*253 4
insert 1 05+z*253 5
insert 1 06+z*253 6
insert 1 07+z*253 7
commit 1
begin
insert 2 08+z*253 8
insert 2 09+z*253 9
insert 2 10+z*253 10
insert 2 11+z*253 11
insert 2 12+z*253 12
insert 2 13+z*253 13
insert 2 14+z*253 14
insert 2 15+z*253 15
insert 2 16+z*253 16
rollback 2
continue 2
continue 2
continue 2
continue 2
continue 2
continue 2
continue 2
continue 2
continue 2
";

// The files as a stop leaves them by which the gate at this place is closed.
fn cut_at(alloc: Global, copies: &Copies, gate: usize) -> Result<Copies, Fail> {
    let mut cut = copied(alloc, copies)?;
    cut.log.truncate(gate);
    cut.log.push(0)?;
    Ok(cut)
}

// The place of the gate after the open one at a place.
fn next_gate(log: &[u8], gate: usize) -> Option<usize> {
    let from = gate.checked_add(5)?;
    let Some([1, a, b, c, d]) = log.get(gate..from) else {
        return None;
    };
    from.checked_add(u32::from_be_bytes([*a, *b, *c, *d]) as usize)
}

#[test]
fn a_leaf_that_a_stop_left_empty_is_no_damage(rt: HostRuntime) -> Result<(), Fail> {
    let copies = made_by(&rt, &rt, "im_tool_emptied", EMPTYING)?;
    stop_at_each_gate(&rt, rt.alloc(), &copies)
}

// Whether the files are whole where the gate at this place is closed, and whether they have an empty leaf.
fn looked_at_cut<R: Threads + Sync>(
    rt: &R,
    alloc: Global,
    copies: &Copies,
    gate: usize,
) -> Result<(bool, bool), Fail> {
    let cut = cut_at(alloc, copies, gate)?;
    let whole = is_whole(rt, alloc, &cut)?;
    let empty = has_empty_leaf(rt, alloc, &cut)?;
    Ok((whole, empty))
}

// Some of these stops fall between the record that empties the leaf and the end of its page deletion.
fn stop_at_each_gate<R: Abort + Threads + Sync>(
    rt: &R,
    alloc: Global,
    copies: &Copies,
) -> Result<(), Fail> {
    let mut gate = FIRST_GATE;
    let mut emptied = 0u64;
    for _batch in 0..100u32 {
        let Some(next) = next_gate(&copies.log, gate) else {
            break;
        };
        gate = next;
        let (whole, empty) = looked_at_cut(rt, alloc, copies, gate)?;
        assert!(rt; whole, "{gate}");
        emptied = emptied.saturating_add(u64::from(empty));
    }
    assert!(rt; emptied > 0);
    Ok(())
}

// The files of a store in memory, with so many keys of 255 bytes, so many committed together.
fn filled<R: Threads + Sync>(
    rt: &R,
    alloc: Global,
    count: u64,
    together: u64,
) -> Result<Copies, Fault> {
    let disk: Scratch = ScratchDisk::new(alloc, None);
    match Engine::open_or_create(rt, alloc, Renamed::new(disk, false), Config::default()) {
        Ok(mut engine) => {
            let put = put_all(alloc, &mut engine, count, together);
            let mut disk = engine.into_disk().into_disk();
            match put {
                Ok(true) => copies_of(alloc, &mut disk),
                _ => Err(Fault::Failed),
            }
        }
        Err((fault, _disk)) => Err(fault),
    }
}

// What a reply says in place of a transaction's number.
const INSERTED: u64 = u64::MAX;

const COMMITTED: u64 = u64::MAX - 1;

// A number for what a reply says, 0 for any other.
fn told(reply: &Reply) -> u64 {
    match reply {
        Reply::Started(number) => *number,
        Reply::Inserted => INSERTED,
        Reply::Committed => COMMITTED,
        _ => 0,
    }
}

fn made(engine: &mut Engine<Renamed<Scratch>>, step: &Step) -> u64 {
    told(&engine.step(step))
}

// The n-th key.
fn key(alloc: Global, n: u64) -> Result<Vec<u8>, AllocError> {
    let mut key = vec![in alloc; b'z'; LONGEST_KEY]?;
    key[..8].copy_from_slice(&n.to_be_bytes());
    Ok(key)
}

// Puts so many keys in, so many in a transaction. Whether all of that was done.
fn put_all(
    alloc: Global,
    engine: &mut Engine<Renamed<Scratch>>,
    count: u64,
    together: u64,
) -> Result<bool, AllocError> {
    let mut number = 0;
    let mut is_done = true;
    for n in 0..count {
        if n % together.max(1) == 0 {
            number = made(engine, &Step::Begin);
        }
        let insert = Step::Insert(number, key(alloc, n)?, n);
        is_done = is_done && made(engine, &insert) == INSERTED;
        if n % together.max(1) == together.saturating_sub(1) {
            is_done = is_done && made(engine, &Step::Commit(number)) == COMMITTED;
        }
    }
    Ok(is_done)
}

// Closes the gate at this place, and leaves all after it.
fn close_at(log: &mut [u8], gate: usize) {
    if let Some(byte) = log.get_mut(gate) {
        *byte = 0;
    }
}

// The gate before which so many batches stand.
fn gate_after(log: &[u8], batches: u32) -> usize {
    let mut gate = FIRST_GATE;
    for _batch in 0..batches {
        gate = next_gate(log, gate).unwrap_or(gate);
    }
    gate
}

// A stop within a put of several batches leaves all gates open but the first. A transaction of 240 long keys has more batches than any put.
static BEHIND: [(u64, u64, u32, u8, &str); 2] = [
    (6, 1, 2, 0, ", as a stop within a put leaves them\nok\n"),
    (240, 240, 1, 1, "\n"),
];

// Whether the check says that of a store with so many keys.
fn is_told_behind<R: Threads + Sync>(
    rt: &R,
    alloc: Global,
    count: u64,
    together: u64,
    closed: u32,
    status: u8,
    end: &str,
) -> Result<bool, Fail> {
    let mut copies = filled(rt, alloc, count, together)?;
    let gate = gate_after(&copies.log, closed);
    close_at(&mut copies.log, gate);
    let said = format!(in alloc; " whole batches behind the closed gate at {gate}{end}")?;
    let (found, printed) = said_of(rt, alloc, &copies)?;
    Ok(found == status && printed.ends_with(said.as_bytes()))
}

fn each_is_told_behind<R: Abort + Threads + Sync>(
    rt: &R,
    alloc: Global,
    rows: &[(u64, u64, u32, u8, &str)],
) -> Result<(), Fail> {
    for (count, together, closed, status, end) in rows {
        assert!(rt;
            is_told_behind(rt, alloc, *count, *together, *closed, *status, end)?,
            "{count}"
        );
    }
    Ok(())
}

#[test]
fn batches_that_a_stop_left_are_no_damage(rt: HostRuntime) -> Result<(), Fail> {
    each_is_told_behind(&rt, rt.alloc(), &BEHIND)
}
