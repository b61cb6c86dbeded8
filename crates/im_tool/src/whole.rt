//! Lines that are a transaction by themselves.

use crate::entry_walk::key_after;
use crate::transfer::fault_of;
use im_base_steps::{Reply, Step};
use im_base_two_logs::TwoLogs;
use im_base_types::{Fault, Key, MOST_ENTRIES, Rid, TxnId};
use im_store::{OpenStore, Unkept};
use im_tool_user::{Manner, Whole, print_entries, print_refused};
use std::alloc::Global;
use std::io;
use std::io::Write;

/// What came of such a line.
#[derive(Drop)]
pub(crate) enum Done {
    /// What it changed is kept.
    Committed,
    /// The row id of the key.
    Row(Rid),
    /// The key is not there.
    Absent,
    /// The entries of the range.
    Entries(Vec<(Key, Rid)>),
}

/// Makes the transaction of a line, and notes in `unkept` what was refused of the upkeep after its steps, the first of it.
///
/// Refused `Busy` where a transaction that is active is in the way; else as the step is that was refused. What it did is taken back then.
pub(crate) fn made_whole<D: TwoLogs + Drop>(
    alloc: Global,
    store: &mut OpenStore<D>,
    whole: Whole,
    unkept: &mut Option<Unkept>,
) -> Result<Done, Fault> {
    let number = match step_of(store, &Step::Begin, unkept) {
        Reply::Started(number) => number,
        reply => return Err(fault_of(reply)),
    };
    let made = match made_in(alloc, store, number, whole, unkept) {
        Ok(Done::Committed) => committed(store, number, unkept),
        made => made,
    };
    if !matches!(&made, Ok(Done::Committed)) {
        taken_back(store, number, unkept);
    }
    made
}

// Makes a step, and notes what was refused of the upkeep after it, unless some was noted.
fn step_of<D: TwoLogs + Drop>(
    store: &mut OpenStore<D>,
    step: &Step,
    unkept: &mut Option<Unkept>,
) -> Reply {
    let reply = store.step(step);
    if unkept.is_none() {
        *unkept = store.unkept();
    }
    reply
}

// Makes what a line asks for, in a transaction.
fn made_in<D: TwoLogs + Drop>(
    alloc: Global,
    store: &mut OpenStore<D>,
    number: TxnId,
    whole: Whole,
    unkept: &mut Option<Unkept>,
) -> Result<Done, Fault> {
    match whole {
        Whole::Put(key, rid) => put(store, number, key, rid, unkept),
        Whole::Get(key) => get(store, number, key, unkept),
        Whole::Del(key) => del(store, number, key, unkept),
        Whole::List(lo, hi) => list(alloc, store, number, lo, &hi, unkept),
    }
}

// Ends a transaction whose changes are to be kept.
fn committed<D: TwoLogs + Drop>(
    store: &mut OpenStore<D>,
    number: TxnId,
    unkept: &mut Option<Unkept>,
) -> Result<Done, Fault> {
    match step_of(store, &Step::Commit(number), unkept) {
        Reply::Committed => Ok(Done::Committed),
        reply => Err(fault_of(reply)),
    }
}

// Ends a transaction that has only read, which needs no call of the disk, or whose changes are to be taken back, if it can be ended.
fn taken_back<D: TwoLogs + Drop>(
    store: &mut OpenStore<D>,
    number: TxnId,
    unkept: &mut Option<Unkept>,
) {
    let mut reply = step_of(store, &Step::Rollback(number), unkept);
    for _taken in 0..u64::MAX {
        if !matches!(&reply, Reply::More) {
            return;
        }
        reply = step_of(store, &Step::Continue(number), unkept);
    }
}

// Puts the key in, or takes it out first where it is there.
fn put<D: TwoLogs + Drop>(
    store: &mut OpenStore<D>,
    number: TxnId,
    key: Vec<u8>,
    rid: Rid,
    unkept: &mut Option<Unkept>,
) -> Result<Done, Fault> {
    let insert = Step::Insert(number, key, rid);
    match step_of(store, &insert, unkept) {
        Reply::Inserted => Ok(Done::Committed),
        Reply::Duplicate => replaced(store, insert, unkept),
        reply => Err(refusal_of(reply)),
    }
}

// The same of a key that is there.
fn replaced<D: TwoLogs + Drop>(
    store: &mut OpenStore<D>,
    insert: Step,
    unkept: &mut Option<Unkept>,
) -> Result<Done, Fault> {
    let Step::Insert(number, key, rid) = insert else {
        return Err(Fault::Failed);
    };
    let delete = Step::Delete(number, key);
    let deleted = step_of(store, &delete, unkept);
    let reply = match (deleted, delete) {
        (Reply::Deleted, Step::Delete(_, key)) => {
            step_of(store, &Step::Insert(number, key, rid), unkept)
        }
        (reply, _) => reply,
    };
    match reply {
        Reply::Inserted => Ok(Done::Committed),
        reply => Err(refusal_of(reply)),
    }
}

fn get<D: TwoLogs + Drop>(
    store: &mut OpenStore<D>,
    number: TxnId,
    key: Vec<u8>,
    unkept: &mut Option<Unkept>,
) -> Result<Done, Fault> {
    match step_of(store, &Step::Fetch(number, key), unkept) {
        Reply::Found(rid) => Ok(Done::Row(rid)),
        Reply::Absent => Ok(Done::Absent),
        reply => Err(refusal_of(reply)),
    }
}

fn del<D: TwoLogs + Drop>(
    store: &mut OpenStore<D>,
    number: TxnId,
    key: Vec<u8>,
    unkept: &mut Option<Unkept>,
) -> Result<Done, Fault> {
    match step_of(store, &Step::Delete(number, key), unkept) {
        Reply::Deleted => Ok(Done::Committed),
        Reply::Absent => Ok(Done::Absent),
        reply => Err(refusal_of(reply)),
    }
}

// The entries from one key to another, by as many scans as they need.
fn list<D: TwoLogs + Drop>(
    alloc: Global,
    store: &mut OpenStore<D>,
    number: TxnId,
    lo: Vec<u8>,
    hi: &[u8],
    unkept: &mut Option<Unkept>,
) -> Result<Done, Fault> {
    let mut all = Vec::new(alloc);
    let mut from = Some(lo);
    for _part in 0..u64::MAX {
        let Some(lo) = from.take() else {
            break;
        };
        from = next_part(alloc, store, number, lo, hi, &mut all, unkept)?;
    }
    Ok(Done::Entries(all))
}

// Adds the first entries from one key to another, and answers from where on more may be left.
fn next_part<D: TwoLogs + Drop>(
    alloc: Global,
    store: &mut OpenStore<D>,
    number: TxnId,
    lo: Vec<u8>,
    hi: &[u8],
    all: &mut Vec<(Key, Rid)>,
    unkept: &mut Option<Unkept>,
) -> Result<Option<Vec<u8>>, Fault> {
    let hi = Vec::from_slice(alloc, hi).map_err(|_| Fault::Memory)?;
    let scan = Step::Scan(number, lo, hi, MOST_ENTRIES as u64);
    let part = match step_of(store, &scan, unkept) {
        Reply::Entries(part) => part,
        reply => return Err(refusal_of(reply)),
    };
    let mut from = None;
    if part.len() >= MOST_ENTRIES {
        if let Some((last, _)) = part.last() {
            from = key_after(alloc, last.bytes())?;
        }
    }
    for entry in part {
        all.push(entry).map_err(|_| Fault::Memory)?;
    }
    Ok(from)
}

// Why a step was not made. What is younger than all others is told to give way, and waits for none.
fn refusal_of(reply: Reply) -> Fault {
    match reply {
        Reply::Die | Reply::Blocked(_) => Fault::Busy,
        reply => fault_of(reply),
    }
}

/// Writes what came of a line, and answers the refusal, if it was refused.
pub(crate) fn print_whole<W: Write>(
    alloc: Global,
    writer: &mut W,
    manner: Manner,
    done: Result<Done, Fault>,
) -> io::Result<Option<Fault>> {
    match done {
        Ok(Done::Committed) => {
            writeln!(writer, "committed")?;
            writer.flush()?;
        }
        Ok(Done::Row(rid)) => writeln!(writer, "{rid}")?,
        Ok(Done::Absent) => writeln!(writer, "absent")?,
        Ok(Done::Entries(entries)) => print_entries(alloc, writer, manner, &entries)?,
        Err(fault) => return print_not_made(writer, manner, fault),
    }
    Ok(None)
}

fn print_not_made<W: Write>(
    writer: &mut W,
    manner: Manner,
    fault: Fault,
) -> io::Result<Option<Fault>> {
    if fault == Fault::Busy {
        let words =
            "an active transaction has a lock on that: commit it, or roll it back, and ask again";
        print_refused(writer, manner, fault.number(), &words)?;
    } else {
        print_refused(writer, manner, fault.number(), &fault)?;
    }
    Ok(Some(fault))
}
