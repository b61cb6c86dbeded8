//! Steps by a key over a tree of a root and three leaves, of which the second is empty.
ghost use Rattle.im_page_writer.specs.PageWriter.{IsReadyWriter};

use crate::pages::add_three_leaves;
use crate::shared::{end, opened};
use im_base_disk::Disk;
use im_base_types::{Fault, Key, Rid, TxnId};
use im_engine_access::{LockAnswer, fetch, prev, scan, seek};
use im_engine_locks::{LockTable, Name, Request};
use im_page_writer::PageWriter;
use im_theory_machine::{Duration, Mode, Verdict};
use im_tree_search::{Beside, Sight, leaf_for};
use std::alloc::Global;
use std::test::Fail;

// What is asked, by a transaction of this number.
#[derive(Clone, Copy)]
enum Ask {
    Fetch(TxnId, &'static [u8]),
    // The first entry at or above a key, or above it.
    Seek(TxnId, &'static [u8], bool),
    // The last entry below a key.
    Prev(TxnId, &'static [u8]),
    // The entries of a range, up to a limit.
    Scan(TxnId, &'static [u8], &'static [u8], usize),
    // To hold a key against every other.
    Hold(TxnId, &'static [u8]),
    // Whether a key is locked.
    IsLocked(&'static [u8]),
    // Whether the end of the index is locked.
    IsEndLocked,
}

// What is answered.
#[derive(Clone, Copy, PartialEq, Eq)]
enum Told {
    // The row id of an entry.
    Row(Rid),
    Absent,
    // How many entries there are.
    Many(usize),
    Wait(TxnId),
    Die,
    Held,
    Locked(bool),
    // Another's structure change hides it.
    Hidden,
    Refused(Fault),
}

// A lock of a key for the instant, against every other.
fn exclusive(name: Name<'_>) -> Request<'_> {
    Request {
        name,
        mode: Mode::Exclusive,
        duration: Duration::Instant,
    }
}

// Whether the youngest transaction finds somebody else's lock on a name.
fn locked(locks: &mut LockTable, name: Name<'_>) -> Told {
    match locks.try_all(99, &[exclusive(name)]) {
        Ok(verdict) => Told::Locked(verdict != Verdict::Granted),
        Err(fault) => Told::Refused(fault),
    }
}

// Transaction t holds a key against every other.
fn hold(locks: &mut LockTable, t: TxnId, key: &[u8]) -> Told {
    let request = Request {
        name: Name::Key(key),
        mode: Mode::Exclusive,
        duration: Duration::ToCommit,
    };
    match locks.try_all(t, &[request]) {
        Ok(_) => Told::Held,
        Err(fault) => Told::Refused(fault),
    }
}

// What a fetch answered.
fn told_row(outcome: LockAnswer<Option<Rid>>) -> Told {
    match outcome {
        LockAnswer::Granted(Some(rid)) => Told::Row(rid),
        LockAnswer::Granted(None) => Told::Absent,
        LockAnswer::Wait(holder) => Told::Wait(holder),
        LockAnswer::Die => Told::Die,
    }
}

// What a search for one entry answered.
fn told_entry(outcome: LockAnswer<Option<(Box<Key>, Rid)>>) -> Told {
    match outcome {
        LockAnswer::Granted(Some((_, rid))) => Told::Row(rid),
        LockAnswer::Granted(None) => Told::Absent,
        LockAnswer::Wait(holder) => Told::Wait(holder),
        LockAnswer::Die => Told::Die,
    }
}

// How many entries a scan answered.
fn told_many(outcome: LockAnswer<Vec<(Key, Rid)>>) -> Told {
    match outcome {
        LockAnswer::Granted(list) => Told::Many(list.len()),
        LockAnswer::Wait(holder) => Told::Wait(holder),
        LockAnswer::Die => Told::Die,
    }
}

// A fetch of a key.
fn fetched<D: Disk>(
    writer: &mut PageWriter,
    disk: &mut D,
    locks: &mut LockTable,
    t: TxnId,
    key: &[u8],
) -> Told
    requires ready { IsReadyWriter D.Disk writer.old disk.old }
    ensures ready { IsReadyWriter D.Disk writer.new disk.new }
{
    match fetch(writer, disk, locks, t, key, Beside::none()) {
        Ok(Sight::Seen(outcome)) => told_row(outcome),
        Ok(Sight::Hidden) => Told::Hidden,
        Err(fault) => Told::Refused(fault),
    }
}

// A search for the next entry.
fn sought<D: Disk>(
    alloc: Global,
    writer: &mut PageWriter,
    disk: &mut D,
    locks: &mut LockTable,
    t: TxnId,
    key: &[u8],
    inclusive: bool,
) -> Told
    requires ready { IsReadyWriter D.Disk writer.old disk.old }
    ensures ready { IsReadyWriter D.Disk writer.new disk.new }
{
    match seek(
        alloc,
        writer,
        disk,
        locks,
        t,
        key,
        inclusive,
        Beside::none(),
    ) {
        Ok(Sight::Seen(outcome)) => told_entry(outcome),
        Ok(Sight::Hidden) => Told::Hidden,
        Err(fault) => Told::Refused(fault),
    }
}

// A search for the entry before.
fn sought_back<D: Disk>(
    alloc: Global,
    writer: &mut PageWriter,
    disk: &mut D,
    locks: &mut LockTable,
    t: TxnId,
    key: &[u8],
) -> Told
    requires ready { IsReadyWriter D.Disk writer.old disk.old }
    ensures ready { IsReadyWriter D.Disk writer.new disk.new }
{
    match prev(alloc, writer, disk, locks, t, key, Beside::none()) {
        Ok(Sight::Seen(outcome)) => told_entry(outcome),
        Ok(Sight::Hidden) => Told::Hidden,
        Err(fault) => Told::Refused(fault),
    }
}

// A scan of a range.
fn scanned<D: Disk>(
    alloc: Global,
    writer: &mut PageWriter,
    disk: &mut D,
    locks: &mut LockTable,
    t: TxnId,
    bounds: (&[u8], &[u8]),
    limit: usize,
) -> Told
    requires ready { IsReadyWriter D.Disk writer.old disk.old }
    ensures ready { IsReadyWriter D.Disk writer.new disk.new }
{
    // a writer that has failed says so here
    if let Err(fault) = leaf_for(writer, disk, bounds.0) {
        return Told::Refused(fault);
    }
    match scan(
        alloc,
        writer,
        disk,
        locks,
        t,
        bounds.0,
        bounds.1,
        limit,
        Beside::none(),
    ) {
        Ok(Sight::Seen(outcome)) => told_many(outcome),
        Ok(Sight::Hidden) => Told::Hidden,
        Err(fault) => Told::Refused(fault),
    }
}

// What is answered to one request.
fn answer<D: Disk>(
    alloc: Global,
    writer: &mut PageWriter,
    disk: &mut D,
    locks: &mut LockTable,
    ask: &Ask,
) -> Told
    requires ready { IsReadyWriter D.Disk writer.old disk.old }
    ensures ready { IsReadyWriter D.Disk writer.new disk.new }
{
    match ask {
        Ask::Fetch(t, key) => fetched(writer, disk, locks, *t, key),
        Ask::Seek(t, key, inclusive) => sought(alloc, writer, disk, locks, *t, key, *inclusive),
        Ask::Prev(t, key) => sought_back(alloc, writer, disk, locks, *t, key),
        Ask::Scan(t, lo, hi, limit) => { scanned(alloc, writer, disk, locks, *t, (lo, hi), *limit) }
        Ask::Hold(t, key) => hold(locks, *t, key),
        Ask::IsLocked(key) => locked(locks, Name::Key(key)),
        Ask::IsEndLocked => locked(locks, Name::End),
    }
}

// What is answered to requests, one after another.
fn answers<D: Disk>(
    alloc: Global,
    writer: &mut PageWriter,
    disk: &mut D,
    locks: &mut LockTable,
    asks: &[Ask],
) -> Result<Vec<Told>, Fail>
    requires ready { IsReadyWriter D.Disk writer.old disk.old }
{
    let mut list = Vec::new(alloc);
    for ask in asks {
        list.push(answer(alloc, writer, disk, locks, ask))?;
    }
    Ok(list)
}

// What is answered over the three leaves, with no lock held before.
fn over(alloc: Global, asks: &[Ask]) -> Result<Vec<Told>, Fail> {
    let mut pages = Vec::new(alloc);
    add_three_leaves(&mut pages, 0)?;
    let (mut writer, mut disk) = opened(alloc, pages)?;
    let mut locks = LockTable::new(alloc);
    let told = answers(alloc, &mut writer, &mut disk, &mut locks, asks);
    end(writer, disk);
    told
}

// Requests over the three leaves, with no lock held before, and what is answered.
static ROWS: [(&str, &[Ask], &[Told]); 9] = [
    (
        "a_key_that_is_there_is_locked",
        &[
            Ask::Fetch(1, b"a"),
            Ask::IsLocked(b"a"),
            Ask::IsLocked(b"b"),
        ],
        &[Told::Row(97), Told::Locked(true), Told::Locked(false)],
    ),
    (
        "an_absent_key_locks_the_next_name_in_a_later_leaf",
        &[
            Ask::Fetch(1, b"bb"),
            Ask::IsLocked(b"m"),
            Ask::IsLocked(b"bb"),
            Ask::Fetch(1, b"z"),
            Ask::IsEndLocked,
        ],
        &[
            Told::Absent,
            Told::Locked(true),
            Told::Locked(false),
            Told::Absent,
            Told::Locked(true),
        ],
    ),
    (
        "the_older_waits_and_the_younger_dies",
        &[
            Ask::Hold(5, b"m"),
            Ask::Fetch(2, b"m"),
            Ask::Seek(7, b"c", true),
            Ask::Seek(5, b"c", true),
        ],
        &[Told::Held, Told::Wait(5), Told::Die, Told::Row(109)],
    ),
    (
        "the_next_entry_is_locked",
        &[
            Ask::Seek(1, b"b", true),
            Ask::Seek(1, b"x", false),
            Ask::IsLocked(b"b"),
            Ask::IsEndLocked,
        ],
        &[
            Told::Row(98),
            Told::Absent,
            Told::Locked(true),
            Told::Locked(true),
        ],
    ),
    (
        "the_entry_before_is_locked_and_the_name_at_the_key_or_above",
        &[
            Ask::Prev(1, b"d"),
            Ask::IsLocked(b"b"),
            Ask::IsLocked(b"m"),
            Ask::IsLocked(b"a"),
            Ask::IsLocked(b"x"),
            Ask::Prev(2, b"x"),
            Ask::IsLocked(b"x"),
        ],
        &[
            Told::Row(98),
            Told::Locked(true),
            Told::Locked(true),
            Told::Locked(false),
            Told::Locked(false),
            Told::Row(109),
            Told::Locked(true),
        ],
    ),
    (
        "below_the_first_key_its_name_alone_is_locked_and_past_the_last_the_end_too",
        &[
            Ask::Prev(1, b"a"),
            Ask::IsLocked(b"a"),
            Ask::IsLocked(b"b"),
            Ask::IsEndLocked,
            Ask::Prev(1, b"z"),
            Ask::IsLocked(b"x"),
            Ask::IsEndLocked,
        ],
        &[
            Told::Absent,
            Told::Locked(true),
            Told::Locked(false),
            Told::Locked(false),
            Told::Row(120),
            Told::Locked(true),
            Told::Locked(true),
        ],
    ),
    (
        "the_entry_before_takes_no_lock_where_one_is_in_the_way",
        &[
            Ask::Hold(5, b"b"),
            Ask::Prev(2, b"d"),
            Ask::Prev(7, b"d"),
            Ask::IsLocked(b"m"),
            Ask::Hold(6, b"x"),
            Ask::Prev(2, b"x"),
            Ask::Prev(7, b"x"),
            Ask::IsLocked(b"m"),
            Ask::Prev(5, b"d"),
        ],
        &[
            Told::Held,
            Told::Wait(5),
            Told::Die,
            Told::Locked(false),
            Told::Held,
            Told::Wait(6),
            Told::Die,
            Told::Locked(false),
            Told::Row(98),
        ],
    ),
    (
        "a_scan_locks_its_entries_and_the_name_behind_them",
        &[
            Ask::Scan(1, b"b", b"n", 9),
            Ask::IsLocked(b"m"),
            Ask::IsLocked(b"x"),
            Ask::IsLocked(b"a"),
        ],
        &[
            Told::Many(2),
            Told::Locked(true),
            Told::Locked(true),
            Told::Locked(false),
        ],
    ),
    (
        "a_scan_that_is_full_locks_nothing_behind_it",
        &[
            Ask::Scan(1, b"b", b"n", 0),
            Ask::IsLocked(b"b"),
            Ask::IsLocked(b"m"),
        ],
        &[Told::Many(1), Told::Locked(true), Told::Locked(false)],
    ),
];

#[test]
fn requests_are_answered(rt: HostRuntime) -> Result<(), Fail> {
    for (name, asks, told) in &ROWS {
        assert!(rt; over(rt.alloc(), asks)?.as_slice() == *told, "{name}");
    }
    Ok(())
}
